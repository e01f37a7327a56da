//! Several messages of BLAKE2s.

ghost use Rattle.std.specs.Prelude.{◌≡◌, ◌+◌, ◌*◌, ◌^◌, ◌<◌, ◌≤◌, ◌++◌, length, take, drop, pos};
ghost use Rattle.std.specs.Prelude.{negsuc, false};
ghost use Rattle.blake2.specs.Family.{blake2s};
ghost use Rattle.blake2.specs.States as Held;
ghost use Rattle.blake2_compress.specs.Views.{input_of};
ghost use Rattle.blake2_compress.specs.Hash.{parameters_of, sequential};
ghost use Rattle.blake2_state.specs.ConstructorArguments.{key_unless_empty, counted_key_bytes};
ghost use Rattle.blake2_state.specs.ConstructorArguments.{digest_given};
ghost use Rattle.blake2_state.specs.ConstructorArguments.{AdmitsState};
ghost use Rattle.blake2_state.specs.ConstructorArguments.{parameters_given};
ghost use Rattle.blake2_ffi.specs.SeveralMessages.{HaveCountableLengths, digests_of_messages};
ghost use Rattle.blake2_ffi.specs.SeveralMessages.{digests_by_state_parameters};
ghost use Rattle.blake2_ffi.specs.Status.{IsStatusOf};

use crate::many::{are_counted, is_room_for, write_digests};
use blake2::Tree;
use blake2::many::blake2s::{accepts_eight, best_lane_count, hash_eight_sized};
use blake2::transcripts::Input;
use blake2_digest::scrub_stack;
use blake2_state::StateParameters;
use blake2_state::blake2s::State;
use blake2_state::many::Text;

// Bytes of the stack that `write_all` reaches with all that it calls, rounded up, as built by LLVM
// for x86-64-v2 and for x86-64-v3.
const WRITE_BYTES: usize = 5632;

// The input of a message under these.
fn input<'a>(key: &'a [u8], salt: &'a [u8], persona: &'a [u8], message: &'a [u8]) -> Input<'a>
    ensures { input_of result
        ≡ Held.input salt.now persona.now (key_unless_empty key.now) message.now }
{
    Input {
        salt,
        persona,
        key: if key.is_empty() { None } else { Some(key) },
        tree: Tree::sequential(),
        last_node: false,
        message,
    }
}

// The number of bytes that a key counts for.
fn key_count(key: &[u8]) -> u64
    ensures { result ≡ counted_key_bytes blake2s key.now }
{
    if key.is_empty() { 0 } else { 64 }
}

// Writes the digest of one message at the beginning of `out`.
fn write_one(out: &mut [u8], given: &StateParameters<'_>, message: &[u8])
    requires taken { AdmitsState blake2s (parameters_given given.now sequential) }
    requires counted { counted_key_bytes blake2s given.now.key.now + length message.now < 2 ^ 64 }
    requires room { given.now.output_size ≤ length out.old }
    ensures { out.new
        ≡ digest_given blake2s given.now sequential false message.now
        ++ drop given.now.output_size out.old }
{
    match State::init_salt_personal(given) {
        Ok(mut run) => {
            run.update(message);
            run.write_digest(out);
        }
        // Never run: `taken` says that these lengths are not refused.
        Err(_) => {}
    }
}

// Writes the digests of the first messages at the beginning of `out`, 8 if these are hashed in
// parallel, otherwise one, and returns how many.
fn write_next(out: &mut [u8], given: &StateParameters<'_>, messages: &[Text<'_>]) -> usize
    requires taken { AdmitsState blake2s (parameters_given given.now sequential) }
    requires counted { HaveCountableLengths blake2s given.now.key.now messages.now }
    requires some { 1 ≤ length messages.now }
    requires room { length messages.now * given.now.output_size ≤ length out.old }
    ensures some { 1 ≤ result }
    ensures most { result ≤ length messages.now }
    ensures digests { out.new ≡ digests_by_state_parameters blake2s given.now
        (take result messages.now)
        ++ drop (result * given.now.output_size) out.old }
{
    if best_lane_count() >= 8 && messages.len() >= 8 {
        let StateParameters {
            output_size,
            key,
            salt,
            persona,
        } = *given;
        let inputs = [
            input(key, salt, persona, messages[0].bytes),
            input(key, salt, persona, messages[1].bytes),
            input(key, salt, persona, messages[2].bytes),
            input(key, salt, persona, messages[3].bytes),
            input(key, salt, persona, messages[4].bytes),
            input(key, salt, persona, messages[5].bytes),
            input(key, salt, persona, messages[6].bytes),
            input(key, salt, persona, messages[7].bytes),
        ];
        if accepts_eight(&inputs) {
            write_digests(out, output_size, &hash_eight_sized(output_size, &inputs));
            return 8;
        }
    }
    write_one(out, given, messages[0].bytes);
    1
}

/// Writes the digests of the messages, each as `vulfsjor_ffi_blake2s` would with this size and key,
/// and with a salt and a persona of up to 8 bytes each, one after the other. As many messages in a
/// row that have one length are hashed in parallel as `best_lane_count` says. Returns 0, or -1 if a
/// length is not one that BLAKE2s accepts, a message and the key's block have 2^64 bytes or more,
/// or `out` does not have exactly `output_size` bytes for each message; nothing is then written.
#[unsafe(no_mangle)]
pub extern "C" fn vulfsjor_ffi_blake2s_many(
    out: &mut [u8],
    output_size: usize,
    messages: &[Text<'_>],
    key: &[u8],
    salt: &[u8],
    persona: &[u8],
) -> i32
    ensures status { IsStatusOf result
        (AdmitsState blake2s (parameters_of output_size (length key.now) salt.now persona.now)
        × (length out.old ≡ length messages.now * output_size)
        × HaveCountableLengths blake2s key.now messages.now) }
    ensures digests { result ≡ pos 0 → out.new
        ≡ digests_of_messages blake2s output_size key.now salt.now persona.now messages.now }
    ensures nothing { result ≡ negsuc 0 → out.new ≡ out.old }
{
    let given = StateParameters {
        output_size,
        key,
        salt,
        persona,
    };
    if !State::accepts(&given)
        || !is_room_for(out.len(), messages.len(), output_size)
        || !are_counted(key_count(key), messages)
    {
        return -1;
    }
    write_all(out, &given, messages);
    if !key.is_empty() {
        scrub_stack::<WRITE_BYTES>();
    }
    0
}

// Writes the digests of the messages, in a separate frame: if there is a key, the caller scrubs
// it.
#[inline(never)]
fn write_all(out: &mut [u8], given: &StateParameters<'_>, messages: &[Text<'_>])
    requires taken { AdmitsState blake2s (parameters_given given.now sequential) }
    requires counted { HaveCountableLengths blake2s given.now.key.now messages.now }
    requires room { length out.old ≡ length messages.now * given.now.output_size }
    ensures { out.new ≡ digests_by_state_parameters blake2s given.now messages.now }
{
    let mut done = 0;
    while done < messages.len() {
        let place = &mut out[done * given.output_size..];
        done += write_next(place, given, &messages[done..]);
    }
}

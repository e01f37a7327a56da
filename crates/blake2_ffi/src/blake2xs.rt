// Made by tools/twins.py from src/blake2xb.rt.
//! BLAKE2Xs: outputs of any length, which are read in pieces, and keys derived from a key.

ghost use Rattle.std.specs.Prelude.{◌≡◌, ◌+◌, ◌-◌, ◌^◌, ◌<◌, ◌≤◌, [], length, take, drop};
ghost use Rattle.std.specs.Prelude.{pos, negsuc, replicate};
ghost use Rattle.blake2_simd.specs.Family.{blake2s};
ghost use Rattle.blake2_digest.specs.States.{Fresh, Updated, ResetToStart};
ghost use Rattle.blake2_state.specs.ConstructorArguments.{counted_key_bytes};
ghost use Rattle.blake2_state.specs.Blake2s as Root;
ghost use Rattle.blake2_xof.specs.Blake2xs.{HasSqueezed, IsAbsorbing, IsReady, output_length_of};
ghost use Rattle.blake2_xof.specs.Blake2xs.{meaning};
ghost use Rattle.blake2_xof.specs.Blake2xs.{output_now, zeros};
ghost use Rattle.blake2_xof.specs.Xof.{AdmitsXof, CanDeriveKey, IsKnownLength, derived_key};
ghost use Rattle.blake2_xof.specs.Xof.{outputs, settings};
ghost use Rattle.blake2_xof.specs.Xof.{xof};
ghost use Rattle.blake2_ffi.specs.Status.{IsStatusOf};

use blake2_digest::scrub_stack;
use blake2_state::blake2s as root;
use blake2_xof::blake2xs::State;
use blake2_xof::reader::blake2xs::UNKNOWN_LENGTH;

// Bytes of the stack that `initialize` and `write` reach with all that they call, rounded up, as
// built by LLVM for x86-64-v2, v3 and v4, and for 64-bit ARM.
const INIT_BYTES: usize = 2304;

const WRITE_BYTES: usize = 7168;

// The same of `update_in_frame`, of `read` and of `reset_in_frame`.
const UPDATE_BYTES: usize = 3072;

const READ_BYTES: usize = 4096;

const RESET_BYTES: usize = 1792;

// Whether the state has a key.
fn has_key(state: &State) -> bool {
    state.root.start_length != 0
}

// Whether the key's block is pending.
fn has_key_pending(state: &State) -> bool {
    state.root.counter == 0 && state.root.start_length != 0
}

// What `vulfsjor_ffi_blake2xs` does, in a separate frame, which the caller scrubs if there is a
// key.
#[inline(never)]
fn write(out: &mut [u8], input: &[u8], key: &[u8]) -> i32
    ensures status { IsStatusOf result
        (IsKnownLength blake2s (length out.old)
        × AdmitsXof blake2s (settings (length out.old) key.now [] [])
        × (counted_key_bytes blake2s key.now + length input.now < 2 ^ 64)) }
    ensures output { result ≡ pos 0
        → out.new ≡ xof blake2s (settings (length out.old) key.now [] []) input.now }
    ensures nothing { result ≡ negsuc 0 → out.new ≡ out.old }
{
    let size = out.len() as u64;
    if size >= UNKNOWN_LENGTH {
        return -1;
    }
    match State::init(size, key, &[], &[]) {
        Ok(mut run) => {
            if input.len() as u64 > u64::MAX - run.counted() {
                return -1;
            }
            run.update(input);
            run.squeeze(out);
            0
        }
        Err(_) => -1,
    }
}

/// Writes the BLAKE2Xs output of the input in all bytes of `out`, 1 to 2^16 - 2, under a key of up
/// to 32 bytes (no bytes mean no key; the BLAKE2X document). Returns 0, or -1 if a length is not
/// among these or the input and 64 bytes for a key have 2^64 bytes or more; nothing is then
/// written.
#[unsafe(no_mangle)]
pub extern "C" fn vulfsjor_ffi_blake2xs(out: &mut [u8], input: &[u8], key: &[u8]) -> i32
    ensures status { IsStatusOf result
        (IsKnownLength blake2s (length out.old)
        × AdmitsXof blake2s (settings (length out.old) key.now [] [])
        × (counted_key_bytes blake2s key.now + length input.now < 2 ^ 64)) }
    ensures output { result ≡ pos 0
        → out.new ≡ xof blake2s (settings (length out.old) key.now [] []) input.now }
    ensures nothing { result ≡ negsuc 0 → out.new ≡ out.old }
{
    let status = write(out, input, key);
    if !key.is_empty() {
        scrub_stack::<WRITE_BYTES>();
    }
    status
}

/// Derives a key of as many bytes as `out` has, 1 to 2^16 - 2, from a key of 1 to 32 bytes, for
/// this context: the BLAKE2Xs output of the context under the key. Returns 0, or -1 if a length is
/// not among these or the context and 64 bytes have 2^64 bytes or more; nothing is then written.
#[unsafe(no_mangle)]
pub extern "C" fn vulfsjor_ffi_blake2xs_derive_key(
    out: &mut [u8],
    key: &[u8],
    context: &[u8],
) -> i32
    ensures status { IsStatusOf result (CanDeriveKey blake2s key.now context.now (length out.old)) }
    ensures output { result ≡ pos 0
        → out.new ≡ derived_key blake2s key.now context.now (length out.old) }
    ensures nothing { result ≡ negsuc 0 → out.new ≡ out.old }
{
    if key.is_empty() {
        return -1;
    }
    vulfsjor_ffi_blake2xs(out, context, key)
}

// What `vulfsjor_ffi_blake2xs_init_salt_personal` does, in a separate frame, which the caller
// scrubs if there is a key.
#[inline(never)]
fn initialize(state: &mut State, xof_length: u64, key: &[u8], salt: &[u8], persona: &[u8]) -> i32
    ensures status { IsStatusOf result
        (AdmitsXof blake2s (settings xof_length key.now salt.now persona.now)) }
    ensures absorbing { result ≡ pos 0 → IsAbsorbing state.new }
    ensures xof_length { result ≡ pos 0 → state.new.reader.xof_length ≡ xof_length }
    ensures fresh { result ≡ pos 0 → Fresh meaning
        (outputs blake2s (settings xof_length key.now salt.now persona.now))
        (counted_key_bytes blake2s key.now) state.new }
    ensures zeros { result ≡ negsuc 0 → state.new ≡ zeros }
{
    let Ok(made) = State::init(xof_length, key, salt, persona) else {
        state.wipe();
        return -1;
    };
    *state = made;
    0
}

/// Initializes this state, whatever it was: an output of `xof_length` bytes, 1 to 2^16 - 2 (or,
/// if its length is not known in advance, 2^16 - 1), a key of up to 32 bytes (no bytes mean no
/// key), a salt and a persona of up to 8 each. Returns 0, or -1 if a length is not among these;
/// the state is then zeroed, and so not ready.
#[unsafe(no_mangle)]
pub extern "C" fn vulfsjor_ffi_blake2xs_init_salt_personal(
    state: &mut State,
    xof_length: u64,
    key: &[u8],
    salt: &[u8],
    persona: &[u8],
) -> i32
    ensures status { IsStatusOf result
        (AdmitsXof blake2s (settings xof_length key.now salt.now persona.now)) }
    ensures absorbing { result ≡ pos 0 → IsAbsorbing state.new }
    ensures xof_length { result ≡ pos 0 → state.new.reader.xof_length ≡ xof_length }
    ensures fresh { result ≡ pos 0 → Fresh meaning
        (outputs blake2s (settings xof_length key.now salt.now persona.now))
        (counted_key_bytes blake2s key.now) state.new }
    ensures zeros { result ≡ negsuc 0 → state.new ≡ zeros }
{
    let status = initialize(state, xof_length, key, salt, persona);
    if !key.is_empty() {
        scrub_stack::<INIT_BYTES>();
    }
    status
}

// Absorbs the input, in a separate frame, which the caller scrubs.
#[inline(never)]
fn update_in_frame(state: &mut State, input: &[u8])
    requires absorbing { IsAbsorbing state.old }
    requires counted { meaning.count state.old + length input.now < 2 ^ 64 }
    ensures absorbing { IsAbsorbing state.new }
    ensures xof_length { state.new.reader.xof_length ≡ state.old.reader.xof_length }
    ensures taken { Updated meaning state.old input.now state.new }
{
    state.update(input);
}

/// Absorbs the input after all that was absorbed before. Returns 0, or -1 if the state is not
/// ready, its output is already being read, or its count would reach 2^64; the state then stays as
/// it is.
#[unsafe(no_mangle)]
pub extern "C" fn vulfsjor_ffi_blake2xs_update(state: &mut State, input: &[u8]) -> i32
    ensures status { IsStatusOf result
        (IsAbsorbing state.old × (meaning.count state.old + length input.now < 2 ^ 64)) }
    ensures absorbing { result ≡ pos 0 → IsAbsorbing state.new }
    ensures xof_length { result ≡ pos 0
        → state.new.reader.xof_length ≡ state.old.reader.xof_length }
    ensures taken { result ≡ pos 0 → Updated meaning state.old input.now state.new }
    ensures same { result ≡ negsuc 0 → state.new ≡ state.old }
{
    if !state.is_absorbing() {
        return -1;
    }
    if input.len() as u64 > u64::MAX - state.counted() {
        return -1;
    }
    let has_key = has_key_pending(state);
    update_in_frame(state, input);
    if has_key {
        scrub_stack::<UPDATE_BYTES>();
    }
    0
}

// Reads the next bytes of the output, in a separate frame, which the caller scrubs.
#[inline(never)]
fn read(state: &mut State, out: &mut [u8])
    requires ready { IsReady state.old }
    requires room { state.old.reader.position + length out.old ≤ output_length_of state.old.reader }
    ensures ready { IsReady state.new }
    ensures squeezed { HasSqueezed state.old (length out.old) state.new }
    ensures output { out.new
        ≡ take (length out.old) (drop state.old.reader.position (output_now state.old)) }
{
    state.squeeze(out);
}

/// Reads the next bytes of the output into all of `out`. The first call ends the message: the state
/// absorbs nothing more before a reset. Returns 0, or -1 if the state is not ready or its output
/// has fewer bytes left; nothing is then written, and the state stays as it is.
#[unsafe(no_mangle)]
pub extern "C" fn vulfsjor_ffi_blake2xs_squeeze(state: &mut State, out: &mut [u8]) -> i32
    ensures status { IsStatusOf result (IsReady state.old
        × (state.old.reader.position + length out.old ≤ output_length_of state.old.reader)) }
    ensures ready { result ≡ pos 0 → IsReady state.new }
    ensures squeezed { result ≡ pos 0 → HasSqueezed state.old (length out.old) state.new }
    ensures output { result ≡ pos 0 → out.new
        ≡ take (length out.old) (drop state.old.reader.position (output_now state.old)) }
    ensures same { result ≡ negsuc 0 → state.new ≡ state.old }
    ensures nothing { result ≡ negsuc 0 → out.new ≡ out.old }
{
    if !state.is_ready() {
        return -1;
    }
    if out.len() as u64 > state.reader.left() {
        return -1;
    }
    let has_key = has_key(state);
    read(state, out);
    if has_key {
        scrub_stack::<READ_BYTES>();
    }
    0
}

// What `vulfsjor_ffi_blake2xs_reset` does if it is not refused, in a separate frame, which the
// caller scrubs if there is a key.
#[inline(never)]
fn reset_in_frame(state: &mut State)
    requires { IsReady state.old }
    ensures absorbing { IsAbsorbing state.new }
    ensures xof_length { state.new.reader.xof_length ≡ state.old.reader.xof_length }
    ensures reset { ResetToStart meaning state.old state.new }
    ensures root_hash { state.new.reader.root ≡ replicate 32 0 }
{
    state.reset();
}

/// Brings the state back to its start: it has then absorbed no message, under the same parameters
/// and key. A root hash that was read is overwritten with zeros. Returns 0, or -1 if the state is
/// not ready; the state then stays as it is.
#[unsafe(no_mangle)]
pub extern "C" fn vulfsjor_ffi_blake2xs_reset(state: &mut State) -> i32
    ensures status { IsStatusOf result (IsReady state.old) }
    ensures absorbing { result ≡ pos 0 → IsAbsorbing state.new }
    ensures xof_length { result ≡ pos 0
        → state.new.reader.xof_length ≡ state.old.reader.xof_length }
    ensures reset { result ≡ pos 0 → ResetToStart meaning state.old state.new }
    ensures root_hash { result ≡ pos 0 → state.new.reader.root ≡ replicate 32 0 }
    ensures same { result ≡ negsuc 0 → state.new ≡ state.old }
{
    if !state.is_ready() {
        return -1;
    }
    let has_key = has_key(state);
    reset_in_frame(state);
    if has_key {
        scrub_stack::<RESET_BYTES>();
    }
    0
}

/// Overwrites the state with zeros. It is then not ready.
#[unsafe(no_mangle)]
pub extern "C" fn vulfsjor_ffi_blake2xs_wipe(state: &mut State)
    ensures { state.new ≡ zeros }
{
    state.wipe();
}

/// Returns how many bytes of the output are left to read, or 0 if the state is not ready.
#[unsafe(no_mangle)]
pub extern "C" fn vulfsjor_ffi_blake2xs_left(state: &State) -> u64
    ensures ready { IsReady state.now
        → result ≡ output_length_of state.now.reader - state.now.reader.position }
    ensures unready { (¬ IsReady state.now) → result ≡ 0 }
{
    if state.is_ready() {
        state.reader.left()
    } else {
        0
    }
}

// The number of bytes of the message that the root hash has absorbed.
fn message_length(root: &root::State) -> u64
    requires { Root.IsReady root.now }
    ensures { result ≡ Root.meaning.count root.now - Root.meaning.start_count root.now }
{
    root.counted().saturating_sub(root.start_counted())
}

/// Returns the number of bytes of the message that the state has absorbed since its last start,
/// or 0 if the state is not ready. Those of the key's block are not counted.
#[unsafe(no_mangle)]
pub extern "C" fn vulfsjor_ffi_blake2xs_count(state: &State) -> u64
    ensures ready { IsReady state.now
        → result ≡ meaning.count state.now - meaning.start_count state.now }
    ensures unready { (¬ IsReady state.now) → result ≡ 0 }
{
    if state.is_ready() {
        message_length(&state.root)
    } else {
        0
    }
}

/// Returns the number of bytes of a state.
#[unsafe(no_mangle)]
pub extern "C" fn vulfsjor_ffi_blake2xs_state_size() -> usize
    ensures { result ≡ 248 }
{
    size_of::<State>()
}

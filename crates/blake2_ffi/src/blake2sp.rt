// Made by tools/twins.py from src/blake2bp.rt.
//! BLAKE2sp with sizes that are chosen at run time.

ghost use Rattle.std.specs.Prelude.{◌≡◌, ◌↔◌, ◌+◌, ◌-◌, ◌^◌, ◌<◌, ◌≤◌, [], length};
ghost use Rattle.std.specs.Prelude.{pos, negsuc, IsTrue};
ghost use Rattle.blake2.specs.Family.{blake2s};
ghost use Rattle.blake2_digest.specs.States.{Fresh, Updated, ResetToStart, digest_now};
ghost use Rattle.blake2_parallel.specs.Blake2sp.{IsReady, IsReadyFor, meaning, zeros};
ghost use Rattle.blake2_parallel.specs.Parallel.{AdmitsParallel, digests, parallel_key_count};
ghost use Rattle.blake2_parallel.specs.Parallel.{parallel_digest};
ghost use Rattle.blake2_parallel.specs.Parallel.{settings};
ghost use Rattle.blake2_ffi.specs.Status.{IsStatusOf};

use blake2_digest::scrub_stack;
use blake2_parallel::blake2sp::State;

// Bytes of the stack that `initialize` and `write` reach with all that they call, rounded up, as
// built by LLVM for x86-64-v2, v3 and v4, and for 64-bit ARM.
const INIT_BYTES: usize = 5120;

const WRITE_BYTES: usize = 8704;

// The same of `update_in_frame`, of `finalize` and `is_digest_of`, and of `reset_in_frame`.
const UPDATE_BYTES: usize = 3072;

const FINAL_BYTES: usize = 5632;

const RESET_BYTES: usize = 1792;

// Whether the key's blocks are pending: the leaves have compressed nothing.
fn has_key_pending(state: &State) -> bool {
    state.lanes.counter == 0 && state.start_length != 0
}

// What `vulfsjor_ffi_blake2sp` does, in a separate frame, which the caller scrubs if there is a
// key.
#[inline(never)]
fn write(out: &mut [u8], input: &[u8], key: &[u8]) -> i32
    ensures status { IsStatusOf result
        (AdmitsParallel blake2s (settings (length out.old) key.now [] [])
        × (parallel_key_count blake2s key.now + length input.now < 2 ^ 64)) }
    ensures digest { result ≡ pos 0
        → out.new ≡ parallel_digest blake2s (settings (length out.old) key.now [] []) input.now }
    ensures nothing { result ≡ negsuc 0 → out.new ≡ out.old }
{
    match State::init_salt_personal(out.len(), key, &[], &[]) {
        Ok(mut run) => {
            if input.len() as u64 > u64::MAX - run.counted() {
                return -1;
            }
            run.update(input);
            run.write_digest(out);
            0
        }
        Err(_) => -1,
    }
}

/// Writes the BLAKE2sp digest of the input in all bytes of `out`, 1 to 32, under a key of up to 32
/// bytes (no bytes mean no key; the BLAKE2 document, "Parallel hashing"). Returns 0, or -1 if a
/// length is not among these or the input and 512 bytes for a key have 2^64 bytes or more; nothing
/// is then written.
#[unsafe(no_mangle)]
pub extern "C" fn vulfsjor_ffi_blake2sp(out: &mut [u8], input: &[u8], key: &[u8]) -> i32
    ensures status { IsStatusOf result
        (AdmitsParallel blake2s (settings (length out.old) key.now [] [])
        × (parallel_key_count blake2s key.now + length input.now < 2 ^ 64)) }
    ensures digest { result ≡ pos 0
        → out.new ≡ parallel_digest blake2s (settings (length out.old) key.now [] []) input.now }
    ensures nothing { result ≡ negsuc 0 → out.new ≡ out.old }
{
    let status = write(out, input, key);
    if !key.is_empty() {
        scrub_stack::<WRITE_BYTES>();
    }
    status
}

// What `vulfsjor_ffi_blake2sp_init_salt_personal` does, in a separate frame, which the caller
// scrubs if there is a key.
#[inline(never)]
fn initialize(state: &mut State, output_size: usize, key: &[u8], salt: &[u8], persona: &[u8]) -> i32
    ensures status { IsStatusOf result
        (AdmitsParallel blake2s (settings output_size key.now salt.now persona.now)) }
    ensures ready { result ≡ pos 0 → IsReadyFor output_size state.new }
    ensures fresh { result ≡ pos 0 → Fresh meaning
        (digests blake2s (settings output_size key.now salt.now persona.now))
        (parallel_key_count blake2s key.now) state.new }
    ensures zeros { result ≡ negsuc 0 → state.new ≡ zeros }
{
    let Ok(made) = State::init_salt_personal(output_size, key, salt, persona) else {
        state.wipe();
        return -1;
    };
    *state = made;
    0
}

/// Initializes this state, whatever it was: a digest of 1 to 32 bytes, a key of up to 32 (no
/// bytes mean no key), a salt and a persona of up to 8 each. BLAKE2sp itself has no salt and no
/// persona; here they are in the parameter block of each node. Returns 0, or -1 if a length is not
/// among these; the state is then zeroed, and so not ready.
#[unsafe(no_mangle)]
pub extern "C" fn vulfsjor_ffi_blake2sp_init_salt_personal(
    state: &mut State,
    output_size: usize,
    key: &[u8],
    salt: &[u8],
    persona: &[u8],
) -> i32
    ensures status { IsStatusOf result
        (AdmitsParallel blake2s (settings output_size key.now salt.now persona.now)) }
    ensures ready { result ≡ pos 0 → IsReadyFor output_size state.new }
    ensures fresh { result ≡ pos 0 → Fresh meaning
        (digests blake2s (settings output_size key.now salt.now persona.now))
        (parallel_key_count blake2s key.now) state.new }
    ensures zeros { result ≡ negsuc 0 → state.new ≡ zeros }
{
    let status = initialize(state, output_size, key, salt, persona);
    if !key.is_empty() {
        scrub_stack::<INIT_BYTES>();
    }
    status
}

/// Initializes this state, whatever it was: a digest of 1 to 32 bytes, under a key of 1 to 32
/// bytes, without salt and persona. Returns 0, or -1 if a length is not among these, so also if
/// there is no key; the state is then zeroed.
#[unsafe(no_mangle)]
pub extern "C" fn vulfsjor_ffi_blake2sp_init_key(
    state: &mut State,
    output_size: usize,
    key: &[u8],
) -> i32
    ensures status { IsStatusOf result
        ((1 ≤ length key.now) × AdmitsParallel blake2s (settings output_size key.now [] [])) }
    ensures ready { result ≡ pos 0 → IsReadyFor output_size state.new }
    ensures fresh { result ≡ pos 0 → Fresh meaning
        (digests blake2s (settings output_size key.now [] [])) (parallel_key_count blake2s key.now)
        state.new }
    ensures zeros { result ≡ negsuc 0 → state.new ≡ zeros }
{
    if key.is_empty() {
        state.wipe();
        return -1;
    }
    vulfsjor_ffi_blake2sp_init_salt_personal(state, output_size, key, &[], &[])
}

// Absorbs the input, in a separate frame, which the caller scrubs.
#[inline(never)]
fn update_in_frame(state: &mut State, input: &[u8])
    requires ready { IsReady state.old }
    requires counted { meaning.count state.old + length input.now < 2 ^ 64 }
    ensures ready { IsReadyFor state.old.output_size state.new }
    ensures taken { Updated meaning state.old input.now state.new }
{
    state.update(input);
}

// What `vulfsjor_ffi_blake2sp_update` does if the key's blocks are pending. Other updates do not
// make a frame for this one.
#[inline(never)]
fn update_scrubbed(state: &mut State, input: &[u8])
    requires ready { IsReady state.old }
    requires counted { meaning.count state.old + length input.now < 2 ^ 64 }
    ensures ready { IsReadyFor state.old.output_size state.new }
    ensures taken { Updated meaning state.old input.now state.new }
{
    update_in_frame(state, input);
    scrub_stack::<UPDATE_BYTES>();
}

/// Absorbs the input after all that was absorbed before. Returns 0, or -1 if the state is not
/// ready or its count would reach 2^64; the state then stays as it is.
#[unsafe(no_mangle)]
pub extern "C" fn vulfsjor_ffi_blake2sp_update(state: &mut State, input: &[u8]) -> i32
    ensures status { IsStatusOf result
        (IsReady state.old × (meaning.count state.old + length input.now < 2 ^ 64)) }
    ensures ready { result ≡ pos 0 → IsReadyFor state.old.output_size state.new }
    ensures taken { result ≡ pos 0 → Updated meaning state.old input.now state.new }
    ensures same { result ≡ negsuc 0 → state.new ≡ state.old }
{
    if !state.is_ready() {
        return -1;
    }
    if input.len() as u64 > u64::MAX - state.counted() {
        return -1;
    }
    if has_key_pending(state) {
        update_scrubbed(state, input);
    } else {
        state.update(input);
    }
    0
}

// What `vulfsjor_ffi_blake2sp_final` does if it is not refused, in a separate frame, which the
// caller scrubs if the key's blocks were pending.
#[inline(never)]
fn finalize(state: &mut State, out: &mut [u8])
    requires ready { IsReady state.old }
    requires whole { length out.old ≡ state.old.output_size }
    ensures output { out.new ≡ digest_now meaning state.old }
    ensures wiped { state.new ≡ zeros }
{
    state.write_digest(out);
    state.wipe();
}

/// Writes the digest to `out`, and wipes the state, which is then not ready. Returns 0, or -1 if
/// the state is not ready or `out` is longer or shorter than the digest; nothing is then written,
/// and the state stays as it is.
#[unsafe(no_mangle)]
pub extern "C" fn vulfsjor_ffi_blake2sp_final(state: &mut State, out: &mut [u8]) -> i32
    ensures status { IsStatusOf result
        (IsReady state.old × (length out.old ≡ state.old.output_size)) }
    ensures output { result ≡ pos 0 → out.new ≡ digest_now meaning state.old }
    ensures wiped { result ≡ pos 0 → state.new ≡ zeros }
    ensures same { result ≡ negsuc 0 → state.new ≡ state.old }
    ensures nothing { result ≡ negsuc 0 → out.new ≡ out.old }
{
    if !state.is_ready() || out.len() != state.output_size {
        return -1;
    }
    let has_key = has_key_pending(state);
    finalize(state, out);
    if has_key {
        scrub_stack::<FINAL_BYTES>();
    }
    0
}

// Whether the tag is the whole digest, in a separate frame, which the caller scrubs if the key's
// blocks were pending.
#[inline(never)]
fn is_digest_of(state: &State, tag: &[u8]) -> bool
    requires { IsReady state.now }
    ensures { IsTrue result ↔ (tag.now ≡ digest_now meaning state.now) }
{
    state.is_digest(tag)
}

/// Returns 0 if the tag is the whole digest, and -1 if it is not, the state has no key or it is not
/// ready. It looks at all bytes of a tag of the digest's length. A ready state with a key is then
/// wiped, and any other stays as it is: anybody can make the digest of a state without a key.
#[unsafe(no_mangle)]
pub extern "C" fn vulfsjor_ffi_blake2sp_verify(state: &mut State, tag: &[u8]) -> i32
    ensures status { IsStatusOf result (IsReady state.old × (1 ≤ meaning.start_count state.old)
        × (tag.now ≡ digest_now meaning state.old)) }
    ensures wiped { IsReady state.old → 1 ≤ meaning.start_count state.old → state.new ≡ zeros }
    ensures same { ¬ (IsReady state.old × (1 ≤ meaning.start_count state.old))
        → state.new ≡ state.old }
{
    if !state.is_ready() || !state.has_key() {
        return -1;
    }
    let is_pending = has_key_pending(state);
    let is_digest = is_digest_of(state, tag);
    state.wipe();
    if is_pending {
        scrub_stack::<FINAL_BYTES>();
    }
    if is_digest { 0 } else { -1 }
}

// What `vulfsjor_ffi_blake2sp_reset` does if it is not refused, in a separate frame, which the
// caller scrubs if there is a key.
#[inline(never)]
fn reset_in_frame(state: &mut State)
    requires { IsReady state.old }
    ensures ready { IsReadyFor state.old.output_size state.new }
    ensures reset { ResetToStart meaning state.old state.new }
{
    state.reset();
}

/// Brings the state back to its start: it has then absorbed no message, under the same parameters
/// and key. Returns 0, or -1 if the state is not ready; the state then stays as it is.
#[unsafe(no_mangle)]
pub extern "C" fn vulfsjor_ffi_blake2sp_reset(state: &mut State) -> i32
    ensures status { IsStatusOf result (IsReady state.old) }
    ensures ready { result ≡ pos 0 → IsReadyFor state.old.output_size state.new }
    ensures reset { result ≡ pos 0 → ResetToStart meaning state.old state.new }
    ensures same { result ≡ negsuc 0 → state.new ≡ state.old }
{
    if !state.is_ready() {
        return -1;
    }
    let has_key = state.start_length != 0;
    reset_in_frame(state);
    if has_key {
        scrub_stack::<RESET_BYTES>();
    }
    0
}

/// Overwrites the state with zeros. It is then not ready.
#[unsafe(no_mangle)]
pub extern "C" fn vulfsjor_ffi_blake2sp_wipe(state: &mut State)
    ensures { state.new ≡ zeros }
{
    state.wipe();
}

/// Returns the number of bytes of the state's digest, 1 to 32, or 0 if the state is not ready.
#[unsafe(no_mangle)]
pub extern "C" fn vulfsjor_ffi_blake2sp_digest_size(state: &State) -> usize
    ensures ready { IsReady state.now → result ≡ state.now.output_size }
    ensures unready { (¬ IsReady state.now) → result ≡ 0 }
{
    if state.is_ready() {
        state.output_size
    } else {
        0
    }
}

/// Returns the number of bytes of the message that the state has absorbed since its last start,
/// or 0 if the state is not ready. Those of the key's blocks are not counted.
#[unsafe(no_mangle)]
pub extern "C" fn vulfsjor_ffi_blake2sp_count(state: &State) -> u64
    ensures ready { IsReady state.now
        → result ≡ meaning.count state.now - meaning.start_count state.now }
    ensures unready { (¬ IsReady state.now) → result ≡ 0 }
{
    if !state.is_ready() {
        return 0;
    }
    state.counted().saturating_sub(state.start_length as u64)
}

/// Returns the number of bytes of a state.
#[unsafe(no_mangle)]
pub extern "C" fn vulfsjor_ffi_blake2sp_state_size() -> usize
    ensures { result ≡ 1600 }
{
    size_of::<State>()
}

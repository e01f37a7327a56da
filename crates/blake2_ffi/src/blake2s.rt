// Made by tools/twins.py from src/blake2b.rt.
//! BLAKE2s with sizes that are chosen at run time.

ghost use Rattle.std.specs.Prelude.{◌≡◌, ◌↔◌, ◌+◌, ◌-◌, ◌^◌, ◌<◌, ◌≤◌, [], length};
ghost use Rattle.std.specs.Prelude.{slice_index, pos, negsuc, IsTrue, None};
ghost use Rattle.blake2.specs.Cores.{node_parameters};
ghost use Rattle.blake2.specs.Family.{blake2s};
ghost use Rattle.blake2.specs.States.{digest_of, node_digest_of};
ghost use Rattle.blake2_compress.specs.Hash.{AdmitsTree, data_bytes, parameters_of, sequential};
ghost use Rattle.blake2_compress.specs.Inputs.{KeyFits};
ghost use Rattle.blake2_compress.specs.Views.{key_of, tree_of};
ghost use Rattle.blake2_digest.specs.States.{Fresh, LastNodeFlagSet, Updated, ResetToStart};
ghost use Rattle.blake2_digest.specs.States.{digest_now};
ghost use Rattle.blake2_state.specs.ConstructorArguments.{key_unless_empty, counted_key_bytes};
ghost use Rattle.blake2_state.specs.ConstructorArguments.{digest_given};
ghost use Rattle.blake2_state.specs.ConstructorArguments.{AdmitsState};
ghost use Rattle.blake2_state.specs.ConstructorArguments.{parameters_given};
ghost use Rattle.blake2_state.specs.Blake2s.{IsKeyed, IsReady, IsReadyFor, key_length, meaning};
ghost use Rattle.blake2_state.specs.Blake2s.{zeros};
ghost use Rattle.blake2_state.specs.RawParameterBlocks.{digest_by_parameter_block};
ghost use Rattle.blake2_state.specs.RawParameterBlocks.{AdmitsParameterBlock};
ghost use Rattle.blake2_state.specs.States.{is_on};
ghost use Rattle.blake2_ffi.specs.Status.{IsStatusOf};
ghost use Rattle.blake2_ffi.specs.TreeArguments.{tree_of_node_parameters};

mod many;

use crate::NodeParameters;
use blake2::Tree;
use blake2_compress::whole::blake2s::hash;
use blake2_digest::{scrub_stack, tell_bytes};
use blake2_state::StateParameters;
use blake2_state::blake2s::State;

// Bytes of the stack that `initialize` and `write_keyed` reach with all that they call, rounded
// up, as built by LLVM for x86-64-v2, v3 and v4, and for 64-bit ARM.
const INIT_BYTES: usize = 768;

const WRITE_BYTES: usize = 768;

// The same of `update_in_frame`, and of `finalize` and `is_digest_of`.
const UPDATE_BYTES: usize = 512;

const FINAL_BYTES: usize = 768;

// Whether the key's block is pending: fewer bytes are compressed than a start leaves pending. It
// is then the next block that is compressed.
pub(crate) fn has_key_pending(state: &State) -> bool {
    state.counter < state.start_length as u64
}

// Whether a digest and a key of these lengths are accepted. No key has length 0.
fn admits(output_size: usize, key_size: usize) -> bool
    ensures { IsTrue result
        ↔ AdmitsState blake2s (parameters_of output_size key_size [] []) }
{
    output_size >= 1 && output_size <= 32 && key_size <= 32
}

// The longest digest without a key, in one call, which needs no state. The compiler knows its first
// words and the length that is copied.
fn write_full_digest(out: &mut [u8], input: &[u8])
    requires size { length out.old ≡ 32 }
    requires counted { length input.now < 2 ^ 64 }
    ensures { out.new ≡ digest_of blake2s 32 [] [] None input.now }
{
    out.copy_from_slice(&hash(32, None, input));
}

// The same of each length, and under a key.
fn write_digest(out: &mut [u8], input: &[u8], key: Option<&[u8]>)
    requires size { length out.old ≤ 32 }
    requires key { KeyFits blake2s (key_of key) }
    requires counted { length (data_bytes blake2s (key_of key) input.now) < 2 ^ 64 }
    ensures { out.new ≡ digest_of blake2s (length out.old) [] [] (key_of key.entry) input.now }
{
    let size = out.len();
    let digest = hash(size, key, input);
    out.copy_from_slice(&digest[..size]);
}

// What `vulfsjor_ffi_blake2s` does under a key, in a separate frame, which the caller scrubs.
#[inline(never)]
fn write_keyed(out: &mut [u8], input: &[u8], key: &[u8]) -> i32
    requires { 1 ≤ length key.now }
    ensures status { IsStatusOf result
        (AdmitsState blake2s (parameters_of (length out.old) (length key.now) [] [])
        × (counted_key_bytes blake2s key.now + length input.now < 2 ^ 64)) }
    ensures digest { result ≡ pos 0
        → out.new ≡ digest_of blake2s (length out.old) [] [] (key_unless_empty key.now) input.now }
    ensures nothing { result ≡ negsuc 0 → out.new ≡ out.old }
{
    if !admits(out.len(), key.len()) {
        return -1;
    }
    if input.len() as u64 > u64::MAX - 64 {
        return -1;
    }
    tell_bytes(key);
    write_digest(out, input, Some(key));
    0
}

/// Writes the digest of the input in all bytes of `out`, 1 to 32, under a key of up to 32 bytes
/// (no bytes mean no key; RFC 7693, 3.3). Returns 0, or -1 if a length is not among these or the
/// input and the key's block have 2^64 bytes or more; nothing is then written.
#[unsafe(no_mangle)]
pub extern "C" fn vulfsjor_ffi_blake2s(out: &mut [u8], input: &[u8], key: &[u8]) -> i32
    ensures status { IsStatusOf result
        (AdmitsState blake2s (parameters_of (length out.old) (length key.now) [] [])
        × (counted_key_bytes blake2s key.now + length input.now < 2 ^ 64)) }
    ensures digest { result ≡ pos 0
        → out.new ≡ digest_of blake2s (length out.old) [] [] (key_unless_empty key.now) input.now }
    ensures nothing { result ≡ negsuc 0 → out.new ≡ out.old }
{
    if !key.is_empty() {
        let status = write_keyed(out, input, key);
        scrub_stack::<WRITE_BYTES>();
        return status;
    }
    if !admits(out.len(), 0) {
        return -1;
    }
    if out.len() == 32 {
        write_full_digest(out, input);
    } else {
        write_digest(out, input, None);
    }
    0
}

// What `vulfsjor_ffi_blake2s_init_tree` does for tree parameters that are accepted, in a separate
// frame, which the caller scrubs if there is a key.
#[inline(never)]
fn initialize(state: &mut State, given: &StateParameters<'_>, tree: &Tree) -> i32
    requires tree { AdmitsTree blake2s (tree_of tree.now) }
    ensures status { IsStatusOf result
        (AdmitsState blake2s (parameters_given given.now (tree_of tree.now))) }
    ensures ready { result ≡ pos 0 → IsReadyFor given.now.output_size state.new }
    ensures key { result ≡ pos 0 → key_length state.new ≡ length given.now.key.now }
    ensures fresh { result ≡ pos 0
        → Fresh meaning (digest_given blake2s given.now (tree_of tree.now))
        (counted_key_bytes blake2s given.now.key.now) state.new }
    ensures zeros { result ≡ negsuc 0 → state.new ≡ zeros }
{
    let Ok(made) = State::init_tree(given, tree) else {
        state.wipe();
        return -1;
    };
    *state = made;
    0
}

/// Initializes this state, whatever it was: a digest of 1 to 32 bytes, a key of up to 32 (no
/// bytes mean no key), a salt and a persona of up to 8 each. Returns 0, or -1 if a length is not
/// among these; the state is then zeroed, and so not ready.
#[unsafe(no_mangle)]
pub extern "C" fn vulfsjor_ffi_blake2s_init_salt_personal(
    state: &mut State,
    output_size: usize,
    key: &[u8],
    salt: &[u8],
    persona: &[u8],
) -> i32
    ensures status { IsStatusOf result
        (AdmitsState blake2s (parameters_of output_size (length key.now) salt.now persona.now)) }
    ensures ready { result ≡ pos 0 → IsReadyFor output_size state.new }
    ensures key { result ≡ pos 0 → key_length state.new ≡ length key.now }
    ensures fresh { result ≡ pos 0 → Fresh meaning
        (node_digest_of blake2s output_size salt.now persona.now (key_unless_empty key.now)
        sequential)
        (counted_key_bytes blake2s key.now) state.new }
    ensures zeros { result ≡ negsuc 0 → state.new ≡ zeros }
{
    let given = StateParameters {
        output_size,
        key,
        salt,
        persona,
    };
    let status = initialize(state, &given, &Tree::sequential());
    if !key.is_empty() {
        scrub_stack::<INIT_BYTES>();
    }
    status
}

/// Initializes this state, whatever it was: a digest of 1 to 32 bytes, under a key of 1 to 32
/// bytes, without salt and persona. Returns 0, or -1 if a length is not among these, so also if
/// there is no key; the state is then zeroed.
#[unsafe(no_mangle)]
pub extern "C" fn vulfsjor_ffi_blake2s_init_key(
    state: &mut State,
    output_size: usize,
    key: &[u8],
) -> i32
    ensures status { IsStatusOf result
        ((1 ≤ length key.now)
        × AdmitsState blake2s (parameters_of output_size (length key.now) [] [])) }
    ensures ready { result ≡ pos 0 → IsReadyFor output_size state.new }
    ensures key { result ≡ pos 0 → key_length state.new ≡ length key.now }
    ensures fresh { result ≡ pos 0 → Fresh meaning
        (node_digest_of blake2s output_size [] [] (key_unless_empty key.now) sequential)
        (counted_key_bytes blake2s key.now) state.new }
    ensures zeros { result ≡ negsuc 0 → state.new ≡ zeros }
{
    if key.is_empty() {
        state.wipe();
        return -1;
    }
    vulfsjor_ffi_blake2s_init_salt_personal(state, output_size, key, &[], &[])
}

/// Initializes this state, whatever it was, for a node of a tree of hashes: with the lengths of
/// `vulfsjor_ffi_blake2s_init_salt_personal`, and with these tree parameters (the BLAKE2 document,
/// 2.8 and 2.10). The last-node flag is off. Returns 0, or -1 if a length is not among those, the
/// depth is 0, the inner length is more than 32, or the node offset is 2^48 or more; the state is
/// then zeroed.
#[unsafe(no_mangle)]
pub extern "C" fn vulfsjor_ffi_blake2s_init_tree(
    state: &mut State,
    output_size: usize,
    key: &[u8],
    salt: &[u8],
    persona: &[u8],
    tree: &NodeParameters,
) -> i32
    ensures status { IsStatusOf result (AdmitsState blake2s
        (node_parameters output_size (length key.now) salt.now persona.now
        (tree_of_node_parameters tree.now))) }
    ensures ready { result ≡ pos 0 → IsReadyFor output_size state.new }
    ensures key { result ≡ pos 0 → key_length state.new ≡ length key.now }
    ensures fresh { result ≡ pos 0 → Fresh meaning
        (node_digest_of blake2s output_size salt.now persona.now (key_unless_empty key.now)
        (tree_of_node_parameters tree.now))
        (counted_key_bytes blake2s key.now) state.new }
    ensures zeros { result ≡ negsuc 0 → state.new ≡ zeros }
{
    let tree = tree.to_tree();
    if !State::admits_tree(&tree) {
        state.wipe();
        return -1;
    }
    let given = StateParameters {
        output_size,
        key,
        salt,
        persona,
    };
    let status = initialize(state, &given, &tree);
    if !key.is_empty() {
        scrub_stack::<INIT_BYTES>();
    }
    status
}

/// Initializes this state, whatever it was, from a parameter block of 32 bytes (the BLAKE2
/// document, 2.8), whatever is in its fields except a digest of 0 or more than 32 bytes or a key
/// of more than 32. If the block names a key, the caller passes the key's block, padded with
/// zeros to 64 bytes, as the first input. Returns 0, or -1 if the block is not one of these; the
/// state is then zeroed.
#[unsafe(no_mangle)]
pub extern "C" fn vulfsjor_ffi_blake2s_init_param(state: &mut State, block: &[u8]) -> i32
    ensures status { IsStatusOf result (AdmitsParameterBlock blake2s block.now) }
    ensures ready { result ≡ pos 0 → IsReadyFor (slice_index block.now 0) state.new }
    ensures key { result ≡ pos 0 → key_length state.new ≡ slice_index block.now 1 }
    ensures fresh { result ≡ pos 0
        → Fresh meaning (digest_by_parameter_block blake2s block.now) 0 state.new }
    ensures zeros { result ≡ negsuc 0 → state.new ≡ zeros }
{
    let Ok(made) = State::init_param(block) else {
        state.wipe();
        return -1;
    };
    *state = made;
    0
}

// Absorbs the input, in a separate frame, which the caller scrubs.
#[inline(never)]
fn update_in_frame(state: &mut State, input: &[u8])
    requires ready { IsReady state.old }
    requires counted { meaning.count state.old + length input.now < 2 ^ 64 }
    ensures ready { IsReadyFor state.old.output_size state.new }
    ensures key { key_length state.new ≡ key_length state.old }
    ensures taken { Updated meaning state.old input.now state.new }
{
    state.update(input);
}

// What `vulfsjor_ffi_blake2s_update` does if the key's block is pending. Other updates do not make
// a frame for this one.
#[inline(never)]
fn update_scrubbed(state: &mut State, input: &[u8])
    requires ready { IsReady state.old }
    requires counted { meaning.count state.old + length input.now < 2 ^ 64 }
    ensures ready { IsReadyFor state.old.output_size state.new }
    ensures key { key_length state.new ≡ key_length state.old }
    ensures taken { Updated meaning state.old input.now state.new }
{
    update_in_frame(state, input);
    scrub_stack::<UPDATE_BYTES>();
}

/// Absorbs the input after all that was absorbed before. Returns 0, or -1 if the state is not
/// ready or its count would reach 2^64; the state then stays as it is.
#[unsafe(no_mangle)]
pub extern "C" fn vulfsjor_ffi_blake2s_update(state: &mut State, input: &[u8]) -> i32
    ensures status { IsStatusOf result
        (IsReady state.old × (meaning.count state.old + length input.now < 2 ^ 64)) }
    ensures ready { result ≡ pos 0 → IsReadyFor state.old.output_size state.new }
    ensures key { result ≡ pos 0 → key_length state.new ≡ key_length state.old }
    ensures taken { result ≡ pos 0 → Updated meaning state.old input.now state.new }
    ensures same { result ≡ negsuc 0 → state.new ≡ state.old }
{
    if !state.is_ready() {
        return -1;
    }
    if input.len() as u64 > u64::MAX - state.counted() {
        return -1;
    }
    if has_key_pending(state) {
        update_scrubbed(state, input);
    } else {
        state.update(input);
    }
    0
}

// What `vulfsjor_ffi_blake2s_final` does if it is not refused, in a separate frame, which the
// caller scrubs if the key's block was pending.
#[inline(never)]
fn finalize(state: &mut State, out: &mut [u8])
    requires ready { IsReady state.old }
    requires whole { length out.old ≡ state.old.output_size }
    ensures output { out.new ≡ digest_now meaning state.old }
    ensures wiped { state.new ≡ zeros }
{
    state.write_digest(out);
    state.wipe();
}

/// Writes the digest to `out`, and wipes the state, which is then not ready. Returns 0, or -1 if
/// the state is not ready or `out` is longer or shorter than the digest; nothing is then written,
/// and the state stays as it is.
#[unsafe(no_mangle)]
pub extern "C" fn vulfsjor_ffi_blake2s_final(state: &mut State, out: &mut [u8]) -> i32
    ensures status { IsStatusOf result
        (IsReady state.old × (length out.old ≡ state.old.output_size)) }
    ensures output { result ≡ pos 0 → out.new ≡ digest_now meaning state.old }
    ensures wiped { result ≡ pos 0 → state.new ≡ zeros }
    ensures same { result ≡ negsuc 0 → state.new ≡ state.old }
    ensures nothing { result ≡ negsuc 0 → out.new ≡ out.old }
{
    if !state.is_ready() || out.len() != state.output_size as usize {
        return -1;
    }
    let has_key = has_key_pending(state);
    finalize(state, out);
    if has_key {
        scrub_stack::<FINAL_BYTES>();
    }
    0
}

// Whether the tag is the whole digest, in a separate frame, which the caller scrubs if the key's
// block was pending.
#[inline(never)]
fn is_digest_of(state: &State, tag: &[u8]) -> bool
    requires { IsReady state.now }
    ensures { IsTrue result ↔ (tag.now ≡ digest_now meaning state.now) }
{
    state.is_digest(tag)
}

/// Returns 0 if the tag is the whole digest, and -1 if it is not, the state has no key or it is not
/// ready. It looks at all bytes of a tag of the digest's length. A ready state with a key is then
/// wiped, and any other stays as it is: anybody can make the digest of a state without a key.
#[unsafe(no_mangle)]
pub extern "C" fn vulfsjor_ffi_blake2s_verify(state: &mut State, tag: &[u8]) -> i32
    ensures status { IsStatusOf result (IsReady state.old × IsKeyed state.old
        × (tag.now ≡ digest_now meaning state.old)) }
    ensures wiped { IsReady state.old → IsKeyed state.old → state.new ≡ zeros }
    ensures same { ¬ (IsReady state.old × IsKeyed state.old) → state.new ≡ state.old }
{
    if !state.is_ready() || !state.has_key() {
        return -1;
    }
    let is_pending = has_key_pending(state);
    let is_digest = is_digest_of(state, tag);
    state.wipe();
    if is_pending {
        scrub_stack::<FINAL_BYTES>();
    }
    if is_digest { 0 } else { -1 }
}

/// Sets the last-node flag of the state, or clears it if `on` is 0: it says that this is the last
/// node of its level in a tree of hashes (the BLAKE2 document, 2.10). A reset keeps it. Returns
/// 0, or -1 if the state is not ready; the state then stays as it is.
#[unsafe(no_mangle)]
pub extern "C" fn vulfsjor_ffi_blake2s_set_last_node(state: &mut State, on: u32) -> i32
    ensures status { IsStatusOf result (IsReady state.old) }
    ensures ready { result ≡ pos 0 → IsReadyFor state.old.output_size state.new }
    ensures key { result ≡ pos 0 → key_length state.new ≡ key_length state.old }
    ensures set { result ≡ pos 0 → LastNodeFlagSet meaning state.old (is_on on) state.new }
    ensures same { result ≡ negsuc 0 → state.new ≡ state.old }
{
    if !state.is_ready() {
        return -1;
    }
    state.set_last_node(on != 0);
    0
}

/// Brings the state back to its start: it has then absorbed no message, under the same
/// parameters, key and last-node flag. Returns 0, or -1 if the state is not ready; the state then
/// stays as it is.
#[unsafe(no_mangle)]
pub extern "C" fn vulfsjor_ffi_blake2s_reset(state: &mut State) -> i32
    ensures status { IsStatusOf result (IsReady state.old) }
    ensures ready { result ≡ pos 0 → IsReadyFor state.old.output_size state.new }
    ensures key { result ≡ pos 0 → key_length state.new ≡ key_length state.old }
    ensures reset { result ≡ pos 0 → ResetToStart meaning state.old state.new }
    ensures same { result ≡ negsuc 0 → state.new ≡ state.old }
{
    if !state.is_ready() {
        return -1;
    }
    state.reset();
    0
}

/// Overwrites the state with zeros. It is then not ready.
#[unsafe(no_mangle)]
pub extern "C" fn vulfsjor_ffi_blake2s_wipe(state: &mut State)
    ensures { state.new ≡ zeros }
{
    state.wipe();
}

/// Returns the number of bytes of the state's digest, 1 to 32, or 0 if the state is not ready.
#[unsafe(no_mangle)]
pub extern "C" fn vulfsjor_ffi_blake2s_digest_size(state: &State) -> usize
    ensures ready { IsReady state.now → result ≡ state.now.output_size }
    ensures unready { (¬ IsReady state.now) → result ≡ 0 }
{
    if state.is_ready() {
        state.output_size as usize
    } else {
        0
    }
}

/// Returns the number of bytes of the message that the state has absorbed since its last start,
/// or 0 if the state is not ready. Those of the key's block are not counted, unless the caller
/// passed it after `vulfsjor_ffi_blake2s_init_param`.
#[unsafe(no_mangle)]
pub extern "C" fn vulfsjor_ffi_blake2s_count(state: &State) -> u64
    ensures ready { IsReady state.now
        → result ≡ meaning.count state.now - meaning.start_count state.now }
    ensures unready { (¬ IsReady state.now) → result ≡ 0 }
{
    if !state.is_ready() {
        return 0;
    }
    state.counted().saturating_sub(state.start_counted())
}

/// Returns the number of bytes of a state.
#[unsafe(no_mangle)]
pub extern "C" fn vulfsjor_ffi_blake2s_state_size() -> usize
    ensures { result ≡ 176 }
{
    size_of::<State>()
}

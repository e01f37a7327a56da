//! The root of a tree of hashes with two levels over BLAKE2b, as the crate `blake2_tree` has it.

ghost use Rattle.std.specs.Prelude.{◌≡◌, ℕ, ◌<◌, ◌≤◌, ◌^◌, ◌*◌, ◌%◌, List, [], length};
ghost use Rattle.std.specs.Prelude.{◌+◌, pos, negsuc, false};
ghost use Rattle.blake2_simd.specs.Family.{blake2b};
ghost use Rattle.blake2_compress.specs.Hash.{digest};
ghost use Rattle.blake2_tree.specs.TreeRoot.{tree_parameters, tree_root as root_of};
ghost use Rattle.blake2_tree.specs.TreeRoot.{root_input_over_digests};
ghost use Rattle.blake2_tree.specs.TreeRoot.{leaf_count};
ghost use Rattle.blake2_tree.specs.TreeLengths.{AreAcceptedTreeLengths, tree_lengths_of};
ghost use Rattle.blake2_tree.specs.LeafRanges.{IsLeafRange, range_digests};
ghost use Rattle.blake2_tree.specs.LeafRanges.{AreDigestsInEveryMessage, IsRootOfCuts};
ghost use Rattle.blake2_tree.specs.LeafRanges.{IsRootAfterReplacement};
ghost use Rattle.blake2_tree.specs.LeafUpdates.{AcceptsLeafDigests, AreNextLeaves, next_leaf_index};
ghost use Rattle.blake2_tree.specs.LeafUpdates.{HasAbsorbedLeaves, HasAbsorbedDigests};
ghost use Rattle.blake2_state.specs.States.{is_on};
ghost use Rattle.blake2_state.specs.TreeStates.{IsReady, IsReadyFor, HasAbsorbed, future, count};
ghost use Rattle.blake2_state.specs.TreeStates.{zeros};
ghost use Rattle.blake2_state.specs.TreeStates.{HasFreshLeafIfEmpty, parameters, state_tree};
ghost use Rattle.blake2_ffi.specs.Status.{IsStatusOf};

use crate::many::is_room_for;
use blake2_state::tree::{TreeState, write_root_of_leaves};
use blake2_tree::{MESSAGE_LIMIT, accepts, hash_leaves, is_range, leaf_count, tree_root};

// Writes the root in `N` bytes. It knows the whole input, and so hashes the last four leaves in
// parallel too, as a state can't.
fn write_root<const N: usize>(
    out: &mut [u8],
    input: &[u8],
    salt: &[u8],
    persona: &[u8],
    leaf_length: u32,
)
    requires size { N ≤ 64 }
    requires room { length out.old ≡ N }
    requires salt { length salt.now ≤ 16 }
    requires persona { length persona.now ≤ 16 }
    requires leaf_length { 1 ≤ leaf_length }
    requires input { length input.now < 2 ^ 58 }
    ensures { out.new ≡ root_of N (tree_parameters salt.now persona.now leaf_length) input.now }
{
    let root: [u8; N] = tree_root(salt, persona, leaf_length, input);
    out.copy_from_slice(&root);
}

// The same for a size that only the call knows.
fn write_root_by_state(out: &mut [u8], input: &[u8], salt: &[u8], persona: &[u8], leaf_length: u32)
    requires lengths { AreAcceptedTreeLengths (tree_lengths_of (length out.old)
        (tree_parameters salt.now persona.now leaf_length)) }
    requires input { length input.now < 2 ^ 58 }
    ensures { out.new ≡ root_of (length out.old) (tree_parameters salt.now persona.now leaf_length)
        input.now }
{
    // Never an error: `new` accepts these lengths.
    if let Ok(mut run) = TreeState::new(out.len(), salt, persona, leaf_length) {
        run.update(input);
        run.write_root(out);
    }
}

/// Writes the root of the input in all bytes of `out`, 1 to 64, with leaves of `leaf_length`
/// bytes, at least 1 (the BLAKE2 document, 2.10). Salt and persona have up to 16 bytes each, and
/// the input fewer than 2^58. Returns 0, or -1 if one of these is not so; nothing is then
/// written.
#[unsafe(no_mangle)]
pub extern "C" fn vulfsjor_ffi_tree_root(
    out: &mut [u8],
    input: &[u8],
    salt: &[u8],
    persona: &[u8],
    leaf_length: u32,
) -> i32
    ensures status { IsStatusOf result
        (AreAcceptedTreeLengths (tree_lengths_of (length out.old)
        (tree_parameters salt.now persona.now leaf_length))
        × (length input.now < 2 ^ 58)) }
    ensures root { result ≡ pos 0 → out.new ≡ root_of (length out.old)
        (tree_parameters salt.now persona.now leaf_length) input.now }
    ensures nothing { result ≡ negsuc 0 → out.new ≡ out.old }
{
    if input.len() as u64 >= MESSAGE_LIMIT {
        return -1;
    }
    if !accepts(out.len(), salt.len(), persona.len(), leaf_length) {
        return -1;
    }
    match out.len() {
        32 => write_root::<32>(out, input, salt, persona, leaf_length),
        64 => write_root::<64>(out, input, salt, persona, leaf_length),
        _ => write_root_by_state(out, input, salt, persona, leaf_length),
    }
    0
}

/// Initializes this state of the tree, whatever it was: a root of 1 to 64 bytes, a salt and a
/// persona of up to 16 bytes each, and leaves of `leaf_length` bytes, at least 1 (the BLAKE2
/// document, 2.10). Returns 0, or -1 if a length is not among these; the state is then zeroed.
#[unsafe(no_mangle)]
pub extern "C" fn vulfsjor_ffi_tree_init(
    state: &mut TreeState,
    output_size: usize,
    salt: &[u8],
    persona: &[u8],
    leaf_length: u32,
) -> i32
    ensures status { IsStatusOf result
        (AreAcceptedTreeLengths (tree_lengths_of output_size
        (tree_parameters salt.now persona.now leaf_length))) }
    ensures ready { result ≡ pos 0 → IsReadyFor output_size state.new }
    ensures root { result ≡ pos 0 → (y : List ℕ) → future state.new y
        ≡ root_of output_size (tree_parameters salt.now persona.now leaf_length) y }
    ensures nothing { result ≡ pos 0 → count state.new ≡ 0 }
    ensures shared { result ≡ pos 0
        → parameters state.new ≡ tree_parameters salt.now persona.now leaf_length }
    ensures opened { result ≡ pos 0 → HasFreshLeafIfEmpty state.new }
    ensures zeros { result ≡ negsuc 0 → state.new ≡ zeros }
{
    let Ok(made) = TreeState::new(output_size, salt, persona, leaf_length) else {
        state.wipe();
        return -1;
    };
    *state = made;
    0
}

/// Absorbs the input after all that was absorbed before. Returns 0, or -1 if the state is not
/// ready or its count would reach 2^58; the state then stays as it is.
#[unsafe(no_mangle)]
pub extern "C" fn vulfsjor_ffi_tree_update(state: &mut TreeState, input: &[u8]) -> i32
    ensures status { IsStatusOf result
        (IsReady state.old × (count state.old + length input.now < 2 ^ 58)) }
    ensures ready { result ≡ pos 0 → IsReadyFor state.old.root.output_size state.new }
    ensures taken { result ≡ pos 0 → HasAbsorbed state.old input.now state.new }
    ensures opened { HasFreshLeafIfEmpty state.old → HasFreshLeafIfEmpty state.new }
    ensures same { result ≡ negsuc 0 → state.new ≡ state.old }
{
    if !state.is_ready() {
        return -1;
    }
    if input.len() as u64 > MESSAGE_LIMIT - 1 - state.counted() {
        return -1;
    }
    state.update(input);
    0
}

/// Writes the digests of whole leaves of the state's tree, 64 bytes each, in order. The state is
/// at a leaf boundary: what it has absorbed is whole leaves, or nothing. The first of the leaves
/// comes `skip` leaves after the next one, and none is the last of the message. Returns 0, or -1
/// if the state is not ready or not at a leaf boundary, the input is not one or more whole
/// leaves, it reaches 2^58 bytes of the message, or `out` does not have exactly 64 bytes for each
/// leaf; nothing is then written. The state stays as it is.
#[unsafe(no_mangle)]
pub extern "C" fn vulfsjor_ffi_tree_leaves_ahead(
    state: &TreeState,
    out: &mut [u8],
    skip: u64,
    input: &[u8],
) -> i32
    ensures status { IsStatusOf result
        (IsReady state.now × AreNextLeaves (state_tree state.now) skip (length input.now)
        × (length out.old ≡ leaf_count state.now.leaf_length (length input.now) * 64)) }
    ensures digests { result ≡ pos 0 → out.new ≡ range_digests (parameters state.now)
        (next_leaf_index (state_tree state.now) + skip) false input.now }
    ensures part { result ≡ pos 0 → AreDigestsInEveryMessage (parameters state.now)
        (next_leaf_index (state_tree state.now) + skip) false input.now out.new }
    ensures nothing { result ≡ negsuc 0 → out.new ≡ out.old }
{
    if !state.is_ready() {
        return -1;
    }
    let length = input.len() as u64;
    if !state.are_leaves_ahead(skip, length) {
        return -1;
    }
    let leaves = leaf_count(state.leaf_length as u32, length);
    if !is_room_for(out.len(), leaves as usize, 64) {
        return -1;
    }
    state.hash_leaves_ahead(skip, input, out);
    0
}

/// Absorbs whole leaves, which are passed as their joined digests of 64 bytes each, and then the
/// input. A state that `vulfsjor_ffi_tree_init` made, and that only calls have changed, is then as
/// after one update with the leaves' bytes and one with the input. The digests are those of the
/// next leaves in order, as `vulfsjor_ffi_tree_leaves_ahead` writes them. They come at a leaf
/// boundary, and at least one byte of input comes after them, since the last leaf has another
/// digest. Without digests the call is an update. Returns 0, or -1 if the state is not ready, the
/// length of `digests` is not a multiple of 64, there are digests and the state is not at a leaf
/// boundary or the input is empty, or the count would reach 2^58; the state then stays as it is.
#[unsafe(no_mangle)]
pub extern "C" fn vulfsjor_ffi_tree_update_leaves(
    state: &mut TreeState,
    digests: &[u8],
    input: &[u8],
) -> i32
    ensures status { IsStatusOf result
        (IsReady state.old
        × AcceptsLeafDigests (state_tree state.old) (length digests.now) (length input.now)) }
    ensures ready { result ≡ pos 0 → IsReadyFor state.old.root.output_size state.new }
    ensures none { result ≡ pos 0 → digests.now ≡ [] → HasAbsorbed state.old input.now state.new }
    ensures digests { result ≡ pos 0
        → HasAbsorbedDigests (state_tree state.old) digests.now input.now (state_tree state.new) }
    ensures taken { result ≡ pos 0 → HasFreshLeafIfEmpty state.old
        → HasAbsorbedLeaves (state_tree state.old) digests.now input.now (state_tree state.new) }
    ensures opened { HasFreshLeafIfEmpty state.old → HasFreshLeafIfEmpty state.new }
    ensures same { result ≡ negsuc 0 → state.new ≡ state.old }
{
    if !state.is_ready() || !state.accepts_leaves(digests.len(), input.len()) {
        return -1;
    }
    state.update_leaves(digests, input);
    0
}

/// Writes the root of all that was absorbed to `out`, and wipes the state, which is then not ready.
/// Returns 0, or -1 if the state is not ready or `out` is longer or shorter than the root; nothing
/// is then written, and the state stays as it is.
#[unsafe(no_mangle)]
pub extern "C" fn vulfsjor_ffi_tree_final(state: &mut TreeState, out: &mut [u8]) -> i32
    ensures status { IsStatusOf result
        (IsReady state.old × (length out.old ≡ state.old.root.output_size)) }
    ensures output { result ≡ pos 0 → out.new ≡ future state.old [] }
    ensures wiped { result ≡ pos 0 → state.new ≡ zeros }
    ensures same { result ≡ negsuc 0 → state.new ≡ state.old }
    ensures nothing { result ≡ negsuc 0 → out.new ≡ out.old }
{
    if !state.is_ready() || out.len() != state.root.output_size as usize {
        return -1;
    }
    state.write_root(out);
    state.wipe();
    0
}

/// Overwrites the state with zeros. It is then not ready.
#[unsafe(no_mangle)]
pub extern "C" fn vulfsjor_ffi_tree_wipe(state: &mut TreeState)
    ensures { state.new ≡ zeros }
{
    state.wipe();
}

/// Returns the number of bytes of the state's root, 1 to 64, or 0 if the state is not ready.
#[unsafe(no_mangle)]
pub extern "C" fn vulfsjor_ffi_tree_digest_size(state: &TreeState) -> usize
    ensures ready { IsReady state.now → result ≡ state.now.root.output_size }
    ensures unready { (¬ IsReady state.now) → result ≡ 0 }
{
    if state.is_ready() {
        state.root.output_size as usize
    } else {
        0
    }
}

/// Returns the number of bytes of the message that the state has absorbed, or 0 if it is not
/// ready.
#[unsafe(no_mangle)]
pub extern "C" fn vulfsjor_ffi_tree_count(state: &TreeState) -> u64
    ensures ready { IsReady state.now → result ≡ count state.now }
    ensures unready { (¬ IsReady state.now) → result ≡ 0 }
{
    if !state.is_ready() {
        return 0;
    }
    state.counted()
}

/// Returns the number of bytes of a leaf of the state's tree, 1 to 2^32 - 1, or 0 if the state is
/// not ready.
#[unsafe(no_mangle)]
pub extern "C" fn vulfsjor_ffi_tree_leaf_length(state: &TreeState) -> u32
    ensures ready { IsReady state.now → result ≡ (parameters state.now).leaf_length }
    ensures unready { (¬ IsReady state.now) → result ≡ 0 }
{
    if !state.is_ready() {
        return 0;
    }
    state.leaf_length as u32
}

/// Returns the number of bytes of a state.
#[unsafe(no_mangle)]
pub extern "C" fn vulfsjor_ffi_tree_state_size() -> usize
    ensures { result ≡ 752 }
{
    size_of::<TreeState>()
}

/// Returns how many leaves of `leaf_length` bytes a message of `message_length` bytes has, at
/// least one, or 0 if `leaf_length` is 0. A range of leaves has the same number as a message of
/// its bytes: `vulfsjor_ffi_tree_leaves` writes 64 bytes for each.
#[unsafe(no_mangle)]
pub extern "C" fn vulfsjor_ffi_tree_leaf_count(message_length: u64, leaf_length: u32) -> u64
    ensures none { leaf_length ≡ 0 → result ≡ 0 }
    ensures count { 1 ≤ leaf_length → result ≡ leaf_count leaf_length message_length }
{
    if leaf_length == 0 {
        return 0;
    }
    leaf_count(leaf_length, message_length)
}

/// Writes the digests of a range of a message's leaves, 64 bytes each, in order: leaf `first`,
/// from 0, and those after it that the input makes. If `ends` is not 0 the range ends the
/// message, and its last leaf may be shorter; otherwise all are whole. Returns 0, or -1 if salt
/// or persona have more than 16 bytes, `leaf_length` is 0, the input is not a range (it has no
/// bytes and is not a whole message; or it is not whole leaves, and does not end the message; or
/// it reaches 2^58 bytes of the message), or `out` does not have exactly 64 bytes for each leaf;
/// nothing is then written.
#[unsafe(no_mangle)]
pub extern "C" fn vulfsjor_ffi_tree_leaves(
    out: &mut [u8],
    first: u64,
    ends: u32,
    input: &[u8],
    salt: &[u8],
    persona: &[u8],
    leaf_length: u32,
) -> i32
    ensures status { IsStatusOf result
        (AreAcceptedTreeLengths (tree_lengths_of 64
        (tree_parameters salt.now persona.now leaf_length))
        × IsLeafRange leaf_length first (is_on ends) (length input.now)
        × (length out.old ≡ leaf_count leaf_length (length input.now) * 64)) }
    ensures digests { result ≡ pos 0 → out.new ≡ range_digests
        (tree_parameters salt.now persona.now leaf_length) first (is_on ends) input.now }
    ensures part { result ≡ pos 0 → AreDigestsInEveryMessage
        (tree_parameters salt.now persona.now leaf_length) first (is_on ends) input.now out.new }
    ensures nothing { result ≡ negsuc 0 → out.new ≡ out.old }
{
    if !accepts(64, salt.len(), persona.len(), leaf_length) {
        return -1;
    }
    let ends = ends != 0;
    let length = input.len() as u64;
    if !is_range(leaf_length, first, ends, length) {
        return -1;
    }
    if !is_room_for(out.len(), leaf_count(leaf_length, length) as usize, 64) {
        return -1;
    }
    hash_leaves(salt, persona, leaf_length, first, ends, input, out);
    0
}

/// Writes the root over the joined digests of a message's leaves in all bytes of `out`, 1 to 64.
/// The digests are 64 bytes for each leaf, in order, as `vulfsjor_ffi_tree_leaves` writes them for
/// ranges that are the whole message together. If a message becomes shorter, keep the digests of
/// the whole leaves before its new last range, and let `vulfsjor_ffi_tree_leaves` write those of
/// that range after them, with `ends`. Returns 0, or -1 if `out` has another length, `digests` has
/// no bytes or a length that is not a multiple of 64, salt or persona have more than 16 bytes, or
/// `leaf_length` is 0; nothing is then written.
#[unsafe(no_mangle)]
pub extern "C" fn vulfsjor_ffi_tree_root_of_leaves(
    out: &mut [u8],
    digests: &[u8],
    salt: &[u8],
    persona: &[u8],
    leaf_length: u32,
) -> i32
    ensures status { IsStatusOf result
        (AreAcceptedTreeLengths (tree_lengths_of (length out.old)
        (tree_parameters salt.now persona.now leaf_length))
        × (0 < length digests.now) × (length digests.now % 64 ≡ 0)) }
    ensures root { result ≡ pos 0 → out.new ≡ digest blake2b (length out.old)
        (root_input_over_digests (tree_parameters salt.now persona.now leaf_length) digests.now) }
    ensures cuts { result ≡ pos 0 → IsRootOfCuts (length out.old)
        (tree_parameters salt.now persona.now leaf_length) digests.now out.new }
    ensures changes { result ≡ pos 0 → IsRootAfterReplacement (length out.old)
        (tree_parameters salt.now persona.now leaf_length) digests.now out.new }
    ensures nothing { result ≡ negsuc 0 → out.new ≡ out.old }
{
    if !accepts(out.len(), salt.len(), persona.len(), leaf_length) {
        return -1;
    }
    if digests.len() == 0 || digests.len() % 64 != 0 {
        return -1;
    }
    write_root_of_leaves(out, digests, salt, persona, leaf_length);
    0
}

//! How threads hash a tree: whether its lengths are accepted, states of its nodes, and plans, as
//! the crates `blake2_tree` and `blake2_state` have them. The threads are the caller's.

ghost use Rattle.std.specs.Prelude.{◌≡◌, ◌<◌, ◌≤◌, ◌^◌, ◌+◌, length, pos, negsuc, true};
ghost use Rattle.blake2_digest.specs.States.{IsAtStart};
ghost use Rattle.blake2_tree.specs.NodeViews.{node_digest};
ghost use Rattle.blake2_tree.specs.TreeLengths.{AreAcceptedTreeLengths, tree_lengths_of};
ghost use Rattle.blake2_tree.specs.TreeRoot.{tree_parameters};
ghost use Rattle.blake2_tree.specs.PartPlans.{AreValidLimits, IsConsistentPlan, IsPlanOf};
ghost use Rattle.blake2_tree.specs.PartPlans.{HasPartsWithinLimits, HasMessageDigests};
ghost use Rattle.blake2_tree.specs.PartPlans.{HasLeafDigests, IsPlanOfUpdate};
ghost use Rattle.blake2_tree.specs.PartPlans.{open_leaf_fill_length};
ghost use Rattle.blake2_tree.specs.PartPlans.{whole_leaves_length};
ghost use Rattle.blake2_tree.specs.PartPlans.{IsPartAt, IsPartInOrder, threads_for};
ghost use Rattle.blake2_state.specs.Blake2b.{IsReadyFor, meaning, zeros};
ghost use Rattle.blake2_state.specs.States.{is_on};
ghost use Rattle.blake2_state.specs.TreeStates.{IsReady, count, parameters};
ghost use Rattle.blake2_ffi.specs.Status.{IsStatusOf};

use blake2_state::blake2b::State;
use blake2_state::tree::{TreeState, leaf_state, root_state};
use blake2_tree::thread_plan::{Limits, Part, Plan};
use blake2_tree::{MESSAGE_LIMIT, accepts};

/// Returns 0 if a tree accepts these lengths, and otherwise -1: a root of 1 to 64 bytes, a salt
/// and a persona of up to 16 bytes each, and leaves of `leaf_length` bytes, at least 1 (the BLAKE2
/// document, 2.10).
#[unsafe(no_mangle)]
pub extern "C" fn vulfsjor_ffi_tree_check(
    output_size: usize,
    salt_length: usize,
    persona_length: usize,
    leaf_length: u32,
) -> i32
    ensures { IsStatusOf result (AreAcceptedTreeLengths (record {
      root = output_size;
      salt = salt_length;
      persona = persona_length;
      leaf = leaf_length;
    })) }
{
    if accepts(output_size, salt_length, persona_length, leaf_length) {
        0
    } else {
        -1
    }
}

/// Initializes this state of BLAKE2b, whatever it was, for leaf `i` of a message: it absorbs the
/// bytes of the leaf, and its digest has 64 bytes. If `last` is not 0 the leaf is the message's
/// last. Returns 0, or -1 if salt or persona have more than 16 bytes or `leaf_length` is 0; the
/// state is then zeroed.
#[unsafe(no_mangle)]
pub extern "C" fn vulfsjor_ffi_tree_init_leaf(
    state: &mut State,
    i: u64,
    last: u32,
    salt: &[u8],
    persona: &[u8],
    leaf_length: u32,
) -> i32
    ensures status { IsStatusOf result
        (AreAcceptedTreeLengths (tree_lengths_of 64
        (tree_parameters salt.now persona.now leaf_length))) }
    ensures ready { result ≡ pos 0 → IsReadyFor 64 state.new }
    ensures leaf { result ≡ pos 0 → IsAtStart meaning
        (node_digest 64 (tree_parameters salt.now persona.now leaf_length) i 0) 0 state.new }
    ensures last { result ≡ pos 0 → meaning.last_node state.new ≡ is_on last }
    ensures zeros { result ≡ negsuc 0 → state.new ≡ zeros }
{
    if !accepts(64, salt.len(), persona.len(), leaf_length) {
        state.wipe();
        return -1;
    }
    *state = leaf_state(salt, persona, leaf_length, i, last != 0);
    0
}

/// Initializes this state of BLAKE2b, whatever it was, for the root of a message: it absorbs the
/// joined digests of all leaves, and its digest is the root, of `output_size` bytes. Returns 0, or
/// -1 if the root does not have 1 to 64 bytes, salt or persona have more than 16, or `leaf_length`
/// is 0; the state is then zeroed.
#[unsafe(no_mangle)]
pub extern "C" fn vulfsjor_ffi_tree_init_root(
    state: &mut State,
    output_size: usize,
    salt: &[u8],
    persona: &[u8],
    leaf_length: u32,
) -> i32
    ensures status { IsStatusOf result
        (AreAcceptedTreeLengths (tree_lengths_of output_size
        (tree_parameters salt.now persona.now leaf_length))) }
    ensures ready { result ≡ pos 0 → IsReadyFor output_size state.new }
    ensures root { result ≡ pos 0 → IsAtStart meaning (node_digest output_size
        (tree_parameters salt.now persona.now leaf_length) 0 1) 0 state.new }
    ensures last { result ≡ pos 0 → meaning.last_node state.new ≡ true }
    ensures zeros { result ≡ negsuc 0 → state.new ≡ zeros }
{
    if !accepts(output_size, salt.len(), persona.len(), leaf_length) {
        state.wipe();
        return -1;
    }
    *state = root_state(salt, persona, leaf_length, output_size);
    0
}

/// Writes the plan of a message of `length` bytes that begins at offset `start` of a file or a
/// buffer, with leaves of `leaf_length` bytes. If `vulfsjor_ffi_tree_leaves` writes the digests of
/// each part, `vulfsjor_ffi_tree_root_of_leaves` writes the root of the message. Returns 0, or -1
/// if `leaf_length`, the threads or the least bytes of the limits are 0, the length is 2^58 or
/// more, or the message ends at offset 2^64 or above; the plan then stays as it is.
#[unsafe(no_mangle)]
pub extern "C" fn vulfsjor_ffi_tree_plan(
    plan: &mut Plan,
    start: u64,
    length: u64,
    leaf_length: u32,
    limits: &Limits,
) -> i32
    ensures status { IsStatusOf result ((1 ≤ leaf_length) × AreValidLimits limits.now
        × (length < 2 ^ 58) × (start + length < 2 ^ 64)) }
    ensures plan { result ≡ pos 0 → IsConsistentPlan plan.new }
    ensures is { result ≡ pos 0 → IsPlanOf limits.now
        (threads_for limits.now length) leaf_length start length 1 plan.new }
    ensures parts { result ≡ pos 0 → HasPartsWithinLimits limits.now
        (threads_for limits.now length) leaf_length length plan.new }
    ensures rest { result ≡ pos 0 → plan.new.rest_length ≡ 0 }
    ensures digests { result ≡ pos 0 → HasMessageDigests plan.new }
    ensures same { result ≡ negsuc 0 → plan.new ≡ plan.old }
{
    if leaf_length == 0 || !limits.are_limits() {
        return -1;
    }
    if length >= MESSAGE_LIMIT || length > u64::MAX - start {
        return -1;
    }
    *plan = Plan::of_message(leaf_length, start, length, limits);
    0
}

/// Writes the plan of an update of the state with `length` bytes. The state absorbs the first
/// `start` bytes of the plan. Then `vulfsjor_ffi_tree_leaves_ahead` writes the digests of each
/// part, whose `first` is its `skip`. Then `vulfsjor_ffi_tree_update_leaves` absorbs the digests of
/// all parts and the `rest_length` bytes after them. Returns 0, or -1 if the state is not ready,
/// its count would reach 2^58, or the threads or the least bytes of the limits are 0; the plan then
/// stays as it is.
#[unsafe(no_mangle)]
pub extern "C" fn vulfsjor_ffi_tree_plan_update(
    plan: &mut Plan,
    state: &TreeState,
    length: u64,
    limits: &Limits,
) -> i32
    ensures status { IsStatusOf result
        (AreValidLimits limits.now × IsReady state.now × (count state.now + length < 2 ^ 58)) }
    ensures plan { result ≡ pos 0 → IsConsistentPlan plan.new }
    ensures is { result ≡ pos 0 → let size = (parameters state.now).leaf_length in
        IsPlanOf limits.now (threads_for limits.now length) size
        (open_leaf_fill_length size (count state.now) length)
        (whole_leaves_length size (count state.now) length) 0
        plan.new }
    ensures parts { result ≡ pos 0 → let size = (parameters state.now).leaf_length in
        HasPartsWithinLimits limits.now (threads_for limits.now length) size
        (whole_leaves_length size (count state.now) length) plan.new }
    ensures update { result ≡ pos 0
        → IsPlanOfUpdate (parameters state.now).leaf_length (count state.now) length plan.new }
    ensures digests { result ≡ pos 0 → HasLeafDigests plan.new }
    ensures same { result ≡ negsuc 0 → plan.new ≡ plan.old }
{
    if !limits.are_limits() || !state.is_ready() {
        return -1;
    }
    if length > MESSAGE_LIMIT - 1 - state.counted() {
        return -1;
    }
    *plan = Plan::of_update(state.leaf_length as u32, state.counted(), length, limits);
    0
}

/// Writes part `i` of a plan, from 0: a range of leaves, where its bytes begin and how many they
/// are, and the same of its digests. The parts are disjoint and in order, and cover the leaves of
/// the plan. Returns 0, or -1 if there is no such part, or the numbers are not those of a plan; the
/// part then stays as it is.
#[unsafe(no_mangle)]
pub extern "C" fn vulfsjor_ffi_tree_part(part: &mut Part, plan: &Plan, i: u64) -> i32
    ensures status { IsStatusOf result (IsConsistentPlan plan.now × (i < plan.now.part_count)) }
    ensures is { result ≡ pos 0 → IsPartAt plan.now i part.new }
    ensures order { result ≡ pos 0 → IsPartInOrder plan.now i part.new }
    ensures same { result ≡ negsuc 0 → part.new ≡ part.old }
{
    if !plan.is_plan() || i >= plan.part_count {
        return -1;
    }
    *part = plan.part(i);
    0
}

//! Nodes of trees of hashes and their last-node flag, against the digests of Python's hashlib.

ghost use Rattle.std.specs.Prelude.{◌<◌, ◌≤◌};

use crate::checks::update_checked;
use blake2::digest::{Duplicate, FixedOutputReset, LazyBuffer, Reset, VariableOutputCore};
use blake2::{Blake2b128, Blake2bVarCore, Blake2s128, Blake2sVarCore, Digest, LastNode, Tree};
use blake2_test_support::inputs::has_hex_digits;
use std::process::Abort;

// The first 16 bytes of a core's output for 200 bytes 2a, as a number, high byte first.
fn output_number_of_core<C: VariableOutputCore<B, M>, const B: usize, const M: usize>(
    rt: &impl Abort,
    core: &mut C,
) -> u128
    requires nonzero { 0 < B }
    requires block { B ≤ 128 }
    requires least { 16 ≤ M }
    requires most { M ≤ 64 }
{
    let mut buffer = LazyBuffer::<B>::default();
    assert!(rt; core.counted() == 0);
    buffer.digest_blocks(&[b'*'; 200], core);
    let counted = core.counted();
    let pending = buffer.get_pos();
    assert!(rt; counted <= 200 && pending <= 200);
    let mut out = [0; M];
    core.finalize_variable_core(&mut buffer, &mut out);
    let out = &out[..];
    let mut first = [0; 16];
    first.copy_from_slice(&out[..16]);
    u128::from_be_bytes(first)
}

// Checks the outputs of a core with the last-node flag on and off: a copy has the flag, and a
// finalization and a reset keep it.
fn check_core_keeps_last_node<C, const B: usize, const M: usize>(
    rt: &impl Abort,
    fresh: C,
    on: u128,
    off: u128,
)
where
    C: VariableOutputCore<B, M> + Duplicate + Reset + LastNode + Drop,
    requires nonzero { 0 < B }
    requires block { B ≤ 128 }
    requires least { 16 ≤ M }
    requires most { M ≤ 64 }
{
    let mut core = fresh;
    core.set_last_node(true);
    let mut copy = core.duplicate();
    assert!(rt;
        output_number_of_core::<C, B, M>(rt, &mut core) == on,
        "{on:x}"
    );
    assert!(rt;
        output_number_of_core::<C, B, M>(rt, &mut copy) == on,
        "{on:x}"
    );
    core.reset();
    assert!(rt;
        output_number_of_core::<C, B, M>(rt, &mut core) == on,
        "{on:x}"
    );
    core.reset();
    core.set_last_node(false);
    assert!(rt;
        output_number_of_core::<C, B, M>(rt, &mut core) == off,
        "{off:x}"
    );
}

#[test]
fn last_node_changes_output_of_cores(rt: HostRuntime) {
    let tree = Tree {
        fanout: 2,
        depth: 3,
        leaf_length: 4096,
        node_offset: u64::MAX - 1,
        node_depth: 1,
        inner_length: 64,
    };
    let core = Blake2bVarCore::new_with_tree(b"salt", b"persona", 0, 16, &tree);
    let on = 0x04a52bc275493b1e9aad139bc4c48022;
    let off = 0x1bcf88105db6d47ef7f8c4525171b830;
    check_core_keeps_last_node::<Blake2bVarCore, 128, 64>(&rt, core, on, off);
    let tree = Tree {
        fanout: 0,
        depth: 255,
        leaf_length: u32::MAX,
        node_offset: (1 << 48) - 1,
        node_depth: 254,
        inner_length: 32,
    };
    let core = Blake2sVarCore::new_with_tree(b"salt", b"persona", 0, 16, &tree);
    let on = 0x52cef7a497f72d4c2e9f0077ee696b5d;
    let off = 0xe19b64a7d213fcbd9aecb37e619ed84b;
    check_core_keeps_last_node::<Blake2sVarCore, 64, 32>(&rt, core, on, off);
}

// Checks that a state that has absorbed `ab` returns the digest of `abc` at the byte `c`, and
// again after each of the two calls that start it again.
fn check_digest_after_each_restart<H, const N: usize>(rt: &impl Abort, state: &mut H, digest: &str)
where
    H: FixedOutputReset<N>,
{
    update_checked(rt, state, b"c");
    assert!(rt;
        has_hex_digits(&state.finalize_fixed_reset(), digest),
        "{digest}"
    );
    update_checked(rt, state, b"dropped");
    state.reset();
    update_checked(rt, state, b"abc");
    assert!(rt;
        has_hex_digits(&state.finalize_fixed_reset(), digest),
        "{digest}"
    );
}

// Checks that the last call that sets the flag counts, wherever it comes: `flags` are set before
// `ab` and before `c`.
fn check_last_set_flag_counts<H, const N: usize>(
    rt: &impl Abort,
    state: &mut H,
    flags: (bool, bool),
    digest: &str,
)
where
    H: FixedOutputReset<N> + LastNode,
{
    state.set_last_node(flags.0);
    update_checked(rt, state, b"ab");
    state.set_last_node(flags.1);
    update_checked(rt, state, b"c");
    assert!(rt;
        has_hex_digits(&state.finalize_fixed_reset(), digest),
        "{flags:?}, {digest}"
    );
}

// Checks that the flag of the last node is kept by all calls except the one that sets it: `off`
// and `on` are the digests of `abc` without it and with it.
fn check_hasher_keeps_last_node<H, const N: usize>(rt: &impl Abort, fresh: H, off: &str, on: &str)
where
    H: FixedOutputReset<N> + Duplicate + LastNode + Drop,
{
    let mut hasher = fresh;
    update_checked(rt, &mut hasher, b"ab");
    let mut copy = hasher.duplicate();
    hasher.set_last_node(true);
    let mut flagged = hasher.duplicate();
    check_digest_after_each_restart(rt, &mut copy, off);
    check_digest_after_each_restart(rt, &mut flagged, on);
    check_digest_after_each_restart(rt, &mut hasher, on);
    for first in [false, true] {
        check_last_set_flag_counts(rt, &mut hasher, (first, false), off);
        check_last_set_flag_counts(rt, &mut hasher, (first, true), on);
    }
}

#[test]
fn hashers_keep_the_last_node_flag(rt: HostRuntime) {
    let off = "cf4ab791c62b8d2b2109c90275287816";
    let on = "8275618601ff911fb1d3bbaae5a9276d";
    check_hasher_keeps_last_node(&rt, Blake2b128::new(), off, on);
    let off = "aa4938119b1dc7b87cbad0ffd200d0ae";
    let on = "64d32c26d5bde203fc1555918c325a57";
    check_hasher_keeps_last_node(&rt, Blake2s128::new(), off, on);
}

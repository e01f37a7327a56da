//! Digests from hashlib: in pieces and after a reset, and of nodes of trees.

use super::{keyed_state_parameters, node_with_inner_length};
use blake2_state::blake2b::State;
use blake2_test_support::inputs::{fill_with_counting_bytes, has_hex_digits};
use std::process::Abort;

// Absorbs the input.
fn update_or_abort(rt: &impl Abort, state: &mut State, input: &[u8]) {
    assert!(rt; state.is_ready() && input.len() as u64 <= u64::MAX - state.counted());
    state.update(input);
}

// Goes back to the start.
fn reset_or_abort(rt: &impl Abort, state: &mut State) {
    assert!(rt; state.is_ready());
    state.reset();
}

// Checks the digest that a state returns, and that no other is its digest.
fn check_digest(rt: &impl Abort, state: &State, wanted: &str) {
    assert!(rt; state.is_ready() && state.output_size <= 64);
    let mut out = [0; 64];
    state.write_digest(&mut out);
    let digest = &out[..state.output_size as usize];
    assert!(rt; has_hex_digits(digest, wanted), "{wanted}");
    assert!(rt;
        state.is_digest(digest) && !state.is_digest(&digest[1..]),
        "{wanted}"
    );
}

#[test]
fn digest_in_pieces_and_after_a_reset(rt: HostRuntime) {
    let mut state = State::init_salt_personal(&keyed_state_parameters()).expect(
        &rt,
        "a keyed state",
    );
    let mut text = [0; 300];
    fill_with_counting_bytes(&mut text);
    update_or_abort(&rt, &mut state, &text[..3]);
    reset_or_abort(&rt, &mut state);
    update_or_abort(&rt, &mut state, &text[..7]);
    update_or_abort(&rt, &mut state, &text[7..]);
    check_digest(&rt, &state, "7ad5dc2e868f563e16bada5547b7f4e84fe3db49");
}

#[test]
fn digest_of_a_tree_node(rt: HostRuntime) {
    // Fanout 2, depth 3, leaves of 4,096 bytes, node 5 of depth 1, inner length 64 (the BLAKE2
    // document, 2.8).
    let mut block = [0; 64];
    block[..18].copy_from_slice(&[64, 0, 2, 3, 0, 16, 0, 0, 5, 0, 0, 0, 0, 0, 0, 0, 1, 64]);
    let mut state = State::init_param(&block).expect(&rt, "a node");
    update_or_abort(&rt, &mut state, b"abc");
    let wanted = "89ac394621e9b04625bc4da49cd8976f9feec66402217e136b26c7e9f40f08be\
        4ba126114472d1aea920e9c6a2f2d3ad577c1e7aedd5d5ac266b3b177dcbb444";
    check_digest(&rt, &state, wanted);
}

#[test]
fn digest_of_a_keyed_tree_node(rt: HostRuntime) {
    let tree = node_with_inner_length(64);
    assert!(rt; State::admits_tree(&tree));
    let mut state = State::init_tree(&keyed_state_parameters(), &tree).expect(&rt, "a node");
    update_or_abort(&rt, &mut state, b"abc");
    check_digest(&rt, &state, "175b5f9bce20ac14476a90f58f14b6495b14ae81");
    // The last node of its level, also after a reset, which keeps the flag.
    let wanted = "12442b5f86379fe8f3a95801253b0b71e42bcacd";
    assert!(rt; state.is_ready());
    state.set_last_node(true);
    check_digest(&rt, &state, wanted);
    reset_or_abort(&rt, &mut state);
    update_or_abort(&rt, &mut state, b"abc");
    check_digest(&rt, &state, wanted);
}

//! Digests from hashlib: in pieces and after a reset, and of nodes of trees.

use super::{keyed_state_parameters, node_with_inner_length};
use blake2_state::blake2s::State;
use blake2_test_support::inputs::{fill_with_counting_bytes, has_hex_digits};
use std::process::Abort;

// Absorbs the input.
fn update_or_abort(rt: &impl Abort, state: &mut State, input: &[u8]) {
    assert!(rt; state.is_ready() && input.len() as u64 <= u64::MAX - state.counted());
    state.update(input);
}

// Goes back to the start.
fn reset_or_abort(rt: &impl Abort, state: &mut State) {
    assert!(rt; state.is_ready());
    state.reset();
}

// Checks the digest that a state returns, and that no other is its digest.
fn check_digest(rt: &impl Abort, state: &State, wanted: &str) {
    assert!(rt; state.is_ready() && state.output_size <= 32);
    let mut out = [0; 32];
    state.write_digest(&mut out);
    let digest = &out[..state.output_size as usize];
    assert!(rt; has_hex_digits(digest, wanted), "{wanted}");
    assert!(rt;
        state.is_digest(digest) && !state.is_digest(&digest[1..]),
        "{wanted}"
    );
}

#[test]
fn digest_in_pieces_and_after_a_reset(rt: HostRuntime) {
    let mut state = State::init_salt_personal(&keyed_state_parameters()).expect(
        &rt,
        "a keyed state",
    );
    let mut text = [0; 300];
    fill_with_counting_bytes(&mut text);
    update_or_abort(&rt, &mut state, &text[..3]);
    reset_or_abort(&rt, &mut state);
    update_or_abort(&rt, &mut state, &text[..7]);
    update_or_abort(&rt, &mut state, &text[7..]);
    check_digest(&rt, &state, "3c4eb23323bc8b4dd1d2f1421170a6584a46556a");
}

#[test]
fn digest_of_a_tree_node(rt: HostRuntime) {
    // Fanout 2, depth 3, leaves of 4,096 bytes, node 5 of depth 1, inner length 32 (the BLAKE2
    // document, 2.8).
    let mut block = [0; 32];
    block[..16].copy_from_slice(&[32, 0, 2, 3, 0, 16, 0, 0, 5, 0, 0, 0, 0, 0, 1, 32]);
    let mut state = State::init_param(&block).expect(&rt, "a node");
    update_or_abort(&rt, &mut state, b"abc");
    let wanted = "4e3f59091cd7e7a9fed4ff8c600e8b6f834d33efb2ebaabe2a1cc11ee44378ee";
    check_digest(&rt, &state, wanted);
}

#[test]
fn digest_of_a_keyed_tree_node(rt: HostRuntime) {
    let tree = node_with_inner_length(32);
    assert!(rt; State::admits_tree(&tree));
    let mut state = State::init_tree(&keyed_state_parameters(), &tree).expect(&rt, "a node");
    update_or_abort(&rt, &mut state, b"abc");
    check_digest(&rt, &state, "55e4285ff1ff765463e13a3e9a7a826dc915fd78");
    // The last node of its level, also after a reset, which keeps the flag.
    let wanted = "244118f9b5727c41d2c3bda67bcb465d9df59cc4";
    assert!(rt; state.is_ready());
    state.set_last_node(true);
    check_digest(&rt, &state, wanted);
    reset_or_abort(&rt, &mut state);
    update_or_abort(&rt, &mut state, b"abc");
    check_digest(&rt, &state, wanted);
}

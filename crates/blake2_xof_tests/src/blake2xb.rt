//! BLAKE2Xb.

use crate::checks::{has_hex_digits, message, read};
use blake2_xof::blake2xb::State;
use blake2_xof::laws::derivations_differ_blake2xb;
use blake2_xof::reader::blake2xb::{Reader, UNKNOWN_LENGTH};
use std::process::Abort;

const ROWS: &str = "\
1 0 0 34
65 256 64 78f0ed6e220b3da3cc9381563b2f72c8dc830cb0f39a48c6ae479a6a78dcfa94\
002631dec467e9e9b47cc8f0887eb680e340aec3ec009d4a33d241533c76c8ca\
8c
";

// Absorbs the message, in two pieces.
fn update_or_abort(rt: &impl Abort, state: &mut State, message: &[u8]) {
    let (first, rest) = message.split_at(message.len() / 2);
    for part in [first, rest] {
        assert!(rt; state.is_absorbing() && part.len() as u64 <= u64::MAX - state.counted());
        state.update(part);
    }
}

// Reads the next bytes of the output.
fn read_next_bytes(rt: &impl Abort, state: &mut State, out: &mut [u8]) {
    assert!(rt; state.is_ready() && out.len() as u64 <= state.reader.left());
    state.squeeze(out);
}

// Reads the output in pieces of this length, at least 1, and checks it.
fn check_output_in_pieces(rt: &impl Abort, state: &mut State, piece: usize, digits: &str) {
    let mut out = [0; 512];
    let size = digits.len() / 2;
    assert!(rt; piece >= 1 && size <= 512, "{digits}");
    for part in out[..size].chunks_mut(piece) {
        read_next_bytes(rt, state, part);
    }
    assert!(rt; has_hex_digits(&out[..size], digits), "{digits}");
}

// Goes back to the start.
fn reset_or_abort(rt: &impl Abort, state: &mut State) {
    assert!(rt; state.is_ready() && !state.is_absorbing());
    state.reset();
}

#[test]
fn outputs_are_known(rt: HostRuntime) {
    let message = message();
    for row in ROWS.lines() {
        let (xof_length, length, key_length, digits) = read(&rt, row);
        assert!(&rt; length <= 256 && key_length <= 64);
        let made = State::init(xof_length, &message[..key_length], &[], &[]);
        let mut state = made.expect(&rt, row);
        for piece in [1usize, 63, 64, 256, 512] {
            update_or_abort(&rt, &mut state, &message[..length]);
            check_output_in_pieces(&rt, &mut state, piece, digits);
            reset_or_abort(&rt, &mut state);
        }
    }
}

// The first bytes are read by the state, and the others by its reader.
#[test]
fn outputs_with_salt_and_persona(rt: HostRuntime) {
    let made = State::init(
        70,
        &[],
        &[1, 2, 3, 4, 5, 6, 7, 8, 9, 10, 11, 12, 13, 14, 15, 16],
        b"personal",
    );
    let mut state = made.expect(&rt, "a state");
    update_or_abort(&rt, &mut state, b"abc");
    let (mut first, mut rest) = ([0; 32], [0; 38]);
    read_next_bytes(&rt, &mut state, &mut first);
    assert!(&rt; state.reader.is_ready() && state.reader.left() == 38);
    state.reader.read(&mut rest);
    let wanted = "8442b119b685197f873d9346bcd578dfae3dd3a27b462f7f29f10e117adaeeb4";
    assert!(&rt; has_hex_digits(&first, wanted), "{wanted}");
    let wanted = "e978c0c58ab05c9bcbc8173ae6f14202593dec133102feac62d2f92dbb443058\
        7734629c9cbd";
    assert!(&rt; has_hex_digits(&rest, wanted), "{wanted}");
}

#[test]
fn no_bytes_after_the_end_of_output(rt: HostRuntime) {
    let known = State::init(3, &[], &[], &[]);
    let unknown = State::init(UNKNOWN_LENGTH, &[], &[], &[]);
    for (made, length) in [(known, 3), (unknown, 64 << 32)] {
        let mut state = made.expect(&rt, "a state");
        assert!(&rt; state.reader.is_ready() && state.reader.left() == length);
        state.reader.position = length - 2;
        read_next_bytes(&rt, &mut state, &mut [0; 2]);
        assert!(&rt; state.reader.is_ready() && state.reader.left() == 0);
        read_next_bytes(&rt, &mut state, &mut []);
        state.reader.position = length + 1;
        assert!(&rt; !state.is_ready() && !state.reader.is_ready());
    }
}

// Whether an init accepts the parameters, as `accepts` says.
fn is_init_accepted(
    rt: &impl Abort,
    xof_length: u64,
    key: &[u8],
    salt: &[u8],
    persona: &[u8],
) -> bool {
    let is_made = State::init(xof_length, key, salt, persona).is_ok();
    assert!(rt; State::accepts(xof_length, key, salt, persona) == is_made);
    is_made
}

#[test]
fn wrong_lengths_are_refused(rt: HostRuntime) {
    let long = message();
    let (key, salt) = (&long[..64], &long[..16]);
    assert!(&rt; is_init_accepted(&rt, 1, key, salt, salt));
    assert!(&rt; is_init_accepted(&rt, UNKNOWN_LENGTH, key, salt, salt));
    assert!(&rt; !is_init_accepted(&rt, 0, &[], &[], &[]));
    assert!(&rt; !is_init_accepted(&rt, UNKNOWN_LENGTH + 1, &[], &[], &[]));
    assert!(&rt; !is_init_accepted(&rt, 1, &long[..65], &[], &[]));
    assert!(&rt; !is_init_accepted(&rt, 1, &[], &long[..17], &[]));
    assert!(&rt; !is_init_accepted(&rt, 1, &[], &[], &long[..17]));
}

#[test]
fn wiped_state_is_refused(rt: HostRuntime) {
    let mut state = State::init(1, b"key", &[], &[]).expect(&rt, "a state");
    assert!(&rt; state.is_ready() && state.counted() == 128);
    state.wipe();
    assert!(&rt; !state.is_ready() && !State::zeros().is_ready());
    assert!(&rt; !Reader::zeros().is_ready());
    derivations_differ_blake2xb();
}

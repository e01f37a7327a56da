//! BLAKE2sp.

use crate::checks::{has_hex_digits, key, message, read, short_key, thousand};
use blake2_digest::{
    CustomizedInit, Digest, Duplicate, FixedOutputReset, KeyInit, Mac, Reset, Update, Wipe,
};
use blake2_parallel::blake2sp::State;
use blake2_parallel::{Blake2sp, Blake2spMac};
use std::process::Abort;

const ROWS_32: &str = "\
0 0 dd0e891776933f43c7d032b08a917e25741f8aa9a12c12e1cac8801500f2ca4f
449 0 6eb47bfb1f8b0aaf5c84af56276c91b34397d1bb9b04d73ab83ff4e6933f1dcc
961 0 3564837f9dc22ced3b8a6444e156216448a794e0ab6f309a8935f198649c9b0f
513 32 3fbe40d8eabeba43749540ab7388f072a1c0f2b1c18027e1eda78558ccffcbdb
4000 32 6fca33494cd587636edf2d09892abd26dc51486332506a56eead907ddaee9ec6
";

const ROWS_20: &str = "\
0 0 2f255589ed697f70f881528046d1a47e6ec88faa
515 0 0bdc0bb94ab64557736f83039cc35482325fc115
1024 0 76ec4fa49f0da1b4427ca90c304ee021a531b9f9
0 1 ddf2a3657f9401bb0703eaaedc5c26318f859d18
515 1 3cb3c601b4ad4ba67db1e825095478e58db624a4
1024 1 af6faa981d414e1f8b5f82d11e8b919846c6248e
";

// Absorbs the input.
fn update_or_abort(rt: &impl Abort, state: &mut State, input: &[u8]) {
    assert!(rt; state.is_ready() && input.len() as u64 <= u64::MAX - state.counted());
    state.update(input);
}

// Absorbs the message in pieces of this length, at least 1, and checks the digest, and that no
// other is its digest.
fn check_digest_in_pieces(
    rt: &impl Abort,
    state: &mut State,
    message: &[u8],
    piece: usize,
    wanted: &str,
) {
    assert!(rt; piece >= 1);
    for part in message.chunks(piece) {
        update_or_abort(rt, state, part);
    }
    assert!(rt; state.is_ready() && state.output_size <= 32);
    let mut out = [0; 32];
    state.write_digest(&mut out);
    let digest = &out[..state.output_size];
    assert!(rt; has_hex_digits(digest, wanted), "{wanted}");
    assert!(rt;
        state.is_digest(digest) && !state.is_digest(&digest[1..]),
        "{wanted}"
    );
}

// Checks a table, each row in pieces of several lengths, and after a reset.
fn check_digests_of_table(rt: &impl Abort, size: usize, table: &str) {
    let message = message();
    let key = key();
    for row in table.lines() {
        let (length, key_length, digits) = read(rt, row);
        for piece in [1usize, 100, 64, 449, 512, 513, 960, 961, 4096] {
            assert!(rt; length <= 4096 && key_length <= 64);
            let made = State::init_salt_personal(size, &key[..key_length], &[], &[]);
            let mut state = made.expect(rt, row);
            check_digest_in_pieces(rt, &mut state, &message[..length], piece, digits);
            assert!(rt; state.is_ready());
            state.reset();
            check_digest_in_pieces(rt, &mut state, &message[..length], 700, digits);
        }
    }
}

#[test]
fn digests_of_32_bytes_are_known(rt: HostRuntime) {
    check_digests_of_table(&rt, 32, ROWS_32);
}

#[test]
fn digests_of_20_bytes_are_known(rt: HostRuntime) {
    check_digests_of_table(&rt, 20, ROWS_20);
}

#[test]
fn digests_with_salt_and_persona(rt: HostRuntime) {
    let salt = [1, 2, 3, 4, 5, 6, 7, 8];
    let made = State::init_salt_personal(32, &[], &salt, b"personal");
    let wanted = "8a59e9a72ccd5042b6af3137a3381715807aea1b0ffd7ecc0c0d05e3f47fc4d3";
    check_digest_in_pieces(
        &rt,
        &mut made.expect(&rt, "a state"),
        &thousand(),
        1000,
        wanted,
    );
}

#[test]
fn wrong_lengths_are_refused(rt: HostRuntime) {
    let longer = [0; 65];
    assert!(&rt; State::init_salt_personal(0, &[], &[], &[]).is_err());
    assert!(&rt; State::init_salt_personal(33, &[], &[], &[]).is_err());
    assert!(&rt; State::init_salt_personal(1, &longer[..33], &[], &[]).is_err());
    assert!(&rt; State::init_salt_personal(1, &[], &longer[..9], &[]).is_err());
    assert!(&rt; State::init_salt_personal(1, &[], &[], &longer[..9]).is_err());
    assert!(&rt; !State::zeros().is_ready());
    let made = State::init_salt_personal(1, &longer[..32], &longer[..8], &longer[..8]);
    let mut state = made.expect(&rt, "a state");
    assert!(&rt; state.is_ready() && state.counted() == 512);
    state.wipe();
    assert!(&rt; !state.is_ready());
}

// Absorbs an input through the trait, and checks the count.
fn update_and_check_count<S: Update>(rt: &impl Abort, state: &mut S, input: &[u8]) {
    let before = state.counted();
    assert!(rt; before <= 0x1000 && input.len() <= 0x1000);
    state.update(input);
    assert!(rt; state.counted() == before + input.len() as u64);
}

// Checks what a hasher returns for the message, from its start and after resets.
fn check_hasher<const N: usize, D: Digest<N> + Duplicate>(
    rt: &impl Abort,
    state: D,
    message: &[u8],
    wanted: &str,
) {
    let mut state = state;
    let (first, rest) = message.split_at(message.len() / 2);
    update_and_check_count(rt, &mut state, first);
    let mut copy = state.duplicate();
    update_and_check_count(rt, &mut copy, rest);
    update_and_check_count(rt, &mut state, rest);
    assert!(rt;
        has_hex_digits(&Digest::finalize_reset(&mut state), wanted),
        "{wanted}"
    );
    assert!(rt;
        has_hex_digits(&Digest::finalize(copy), wanted),
        "a copy: {wanted}"
    );
    update_and_check_count(rt, &mut state, first);
    Reset::reset(&mut state);
    update_and_check_count(rt, &mut state, message);
    let mut out = [0; N];
    Digest::finalize_into(state, &mut out);
    assert!(rt; has_hex_digits(&out, wanted), "after resets: {wanted}");
}

#[test]
fn hasher_returns_known_digests(rt: HostRuntime) {
    let wanted = "3c3c7fbb3c9b5165f3a88557999b8e15669e6bb235762a25747935fb52632175";
    let message = thousand();
    assert!(&rt; has_hex_digits(&Blake2sp::<32>::digest(&message), wanted));
    check_hasher::<32, Blake2sp<32>>(&rt, Blake2sp::new(), &message, wanted);
}

#[test]
fn hasher_with_persona(rt: HostRuntime) {
    let state = Blake2sp::<20>::new_customized(b"app");
    check_hasher::<20, Blake2sp<20>>(
        &rt,
        state,
        &thousand(),
        "ddcb3e9a1b57a64af80681160ffdda495ec5eda1",
    );
}

#[test]
fn hasher_with_salt(rt: HostRuntime) {
    let salt = [1, 2, 3, 4, 5, 6, 7, 8];
    let state = Blake2sp::<32>::new_with_salt_and_personal(&salt, b"personal");
    let wanted = "8a59e9a72ccd5042b6af3137a3381715807aea1b0ffd7ecc0c0d05e3f47fc4d3";
    check_hasher::<32, Blake2sp<32>>(&rt, state, &thousand(), wanted);
}

#[test]
fn wiped_hasher_starts_from_zeros(rt: HostRuntime) {
    let mut state = Blake2sp::<32>::new();
    update_and_check_count(&rt, &mut state, b"abc");
    Wipe::wipe(&mut state);
    assert!(&rt; Update::counted(&state) == 0);
}

// Checks that a MAC accepts the tag of the message, and no other.
fn check_mac<const N: usize, M: Mac<N> + FixedOutputReset<N> + Duplicate>(
    rt: &impl Abort,
    state: M,
    message: &[u8],
    wanted: &str,
) {
    let mut state = state;
    let (first, _) = message.split_at(message.len() / 2);
    assert!(rt; state.counted() == 512);
    update_and_check_count(rt, &mut state, message);
    let copy = state.duplicate();
    let tag = state.finalize_fixed_reset();
    assert!(rt; has_hex_digits(&tag, wanted), "{wanted}");
    assert!(rt; copy.verify_slice(&tag).is_ok(), "{wanted}");
    update_and_check_count(rt, &mut state, first);
    assert!(rt; state.verify_slice(&tag).is_err(), "another message");
}

#[test]
fn mac_under_longest_key(rt: HostRuntime) {
    let wanted = "bb91bd744d197022e97a691e9074427ca22a4cc2645ba9ffb1fc425354bf2237";
    let mac = Blake2spMac::<32>::new(&short_key());
    check_mac::<32, Blake2spMac<32>>(&rt, mac, &thousand(), wanted);
}

#[test]
fn mac_under_short_key(rt: HostRuntime) {
    let key = [1, 2, 3, 4, 5];
    let mac = Blake2spMac::<20>::new_from_slice(&key).expect(&rt, "a MAC");
    check_mac::<20, Blake2spMac<20>>(
        &rt,
        mac,
        &thousand(),
        "20a8037930725c9ca7873ca7660f465a0d247065",
    );
}

#[test]
fn mac_with_salt_and_persona(rt: HostRuntime) {
    let wanted = "fd52278178bd139c465be02891c5e74445021cc5a5f2c59eabf4ab1425c572d9";
    let made = Blake2spMac::<32>::new_with_salt_and_personal(&short_key(), b"salt", b"app");
    check_mac::<32, Blake2spMac<32>>(&rt, made.expect(&rt, "a MAC"), &thousand(), wanted);
}

#[test]
fn wrong_mac_lengths_are_refused(rt: HostRuntime) {
    assert!(&rt; Blake2spMac::<20>::new_from_slice(&[]).is_err());
    assert!(&rt; Blake2spMac::<20>::new_from_slice(&[0; 33]).is_err());
    assert!(&rt; Blake2spMac::<20>::new_with_salt_and_personal(b"k", &[0; 9], &[]).is_err());
    assert!(&rt; Blake2spMac::<20>::new_with_salt_and_personal(b"k", &[], &[0; 9]).is_err());
}

//! BLAKE2bp.

use crate::checks::{has_hex_digits, key, message, read, thousand};
use blake2_digest::{
    CustomizedInit, Digest, Duplicate, FixedOutputReset, KeyInit, Mac, Reset, Update, Wipe,
};
use blake2_parallel::blake2bp::State;
use blake2_parallel::{Blake2bp, Blake2bpMac};
use std::process::Abort;

const ROWS_64: &str = "\
0 0 b5ef811a8038f70b628fa8b294daae7492b1ebe343a80eaabbf1f6ae664dd67b\
9d90b0120791eab81dc96985f28849f6a305186a85501b405114bfa678df9380
385 0 19adcf284c4c40ad739bea7a2b9113436da3d363b15aa1bbb3c74d52eee6c4d0\
e9570ab87dbab7eb89642349a55e74a5df379a980881a77db89cdb0bde1e3e3c
897 0 ef354d82f02c912ebffed5d3509be264fc96329349a7876f4cb2b36c076efcd9\
a5bc482760ecc4a9fec77c07cbc1cb40e7b57d840aaf196b16e2e423536d9658
513 64 426f8be697ac9b45094be785f6926b844f3e46b466be7ec4596f9b85cba51966\
8741c7fc8f2ee1ea3a393c63d825e33bd137e018382ae3218f39ceb3707d6231
4000 64 f56264a2848b5513a5caaf0bfdd09611c6a2e6daf30a97db42a83382186b4ad1\
97731e04158a2a6ec07a53fc38c2ce34484665c7da079dea87c25d1d723299b7
";

const ROWS_20: &str = "\
0 0 3485843ba429f13c19501da90d0400e77e096595
515 0 c8719eeaedd4466af3365f7c0218861f12ae4663
1024 0 8b3978e2544095a48548ea49ed481dfdf2f78001
0 1 f520d704e3c9e9b83f3f9879dba8cfcf6d984c66
515 1 2da8d31768ed44dde0001c1884c68b3f98674746
1024 1 e6e502b76dda5720b6d9b2a61e580b7474c08141
";

// Absorbs the input.
fn update_or_abort(rt: &impl Abort, state: &mut State, input: &[u8]) {
    assert!(rt; state.is_ready() && input.len() as u64 <= u64::MAX - state.counted());
    state.update(input);
}

// Absorbs the message in pieces of this length, at least 1, and checks the digest, and that no
// other is its digest.
fn check_digest_in_pieces(
    rt: &impl Abort,
    state: &mut State,
    message: &[u8],
    piece: usize,
    wanted: &str,
) {
    assert!(rt; piece >= 1);
    for part in message.chunks(piece) {
        update_or_abort(rt, state, part);
    }
    assert!(rt; state.is_ready() && state.output_size <= 64);
    let mut out = [0; 64];
    state.write_digest(&mut out);
    let digest = &out[..state.output_size];
    assert!(rt; has_hex_digits(digest, wanted), "{wanted}");
    assert!(rt;
        state.is_digest(digest) && !state.is_digest(&digest[1..]),
        "{wanted}"
    );
}

// Checks a table, each row in pieces of several lengths, and after a reset.
fn check_digests_of_table(rt: &impl Abort, size: usize, table: &str) {
    let message = message();
    let key = key();
    for row in table.lines() {
        let (length, key_length, digits) = read(rt, row);
        for piece in [1usize, 100, 128, 385, 512, 513, 896, 897, 4096] {
            assert!(rt; length <= 4096 && key_length <= 64);
            let made = State::init_salt_personal(size, &key[..key_length], &[], &[]);
            let mut state = made.expect(rt, row);
            check_digest_in_pieces(rt, &mut state, &message[..length], piece, digits);
            assert!(rt; state.is_ready());
            state.reset();
            check_digest_in_pieces(rt, &mut state, &message[..length], 700, digits);
        }
    }
}

#[test]
fn digests_of_64_bytes_are_known(rt: HostRuntime) {
    check_digests_of_table(&rt, 64, ROWS_64);
}

#[test]
fn digests_of_20_bytes_are_known(rt: HostRuntime) {
    check_digests_of_table(&rt, 20, ROWS_20);
}

#[test]
fn digests_with_salt_and_persona(rt: HostRuntime) {
    let salt = [1, 2, 3, 4, 5, 6, 7, 8, 9, 10, 11, 12, 13, 14, 15, 16];
    let made = State::init_salt_personal(64, &[], &salt, b"personal");
    let wanted = "952a91ce8edc821c0b2e6d489fc510a0c5ddaecb3895580040f2ed3c254e2715\
        069018f3cb0ca97b20141a34ba02e0a547f775b1faf601b46c003387fd4cb875";
    check_digest_in_pieces(
        &rt,
        &mut made.expect(&rt, "a state"),
        &thousand(),
        1000,
        wanted,
    );
}

#[test]
fn wrong_lengths_are_refused(rt: HostRuntime) {
    let longer = [0; 65];
    assert!(&rt; State::init_salt_personal(0, &[], &[], &[]).is_err());
    assert!(&rt; State::init_salt_personal(65, &[], &[], &[]).is_err());
    assert!(&rt; State::init_salt_personal(1, &longer[..65], &[], &[]).is_err());
    assert!(&rt; State::init_salt_personal(1, &[], &longer[..17], &[]).is_err());
    assert!(&rt; State::init_salt_personal(1, &[], &[], &longer[..17]).is_err());
    assert!(&rt; !State::zeros().is_ready());
    let made = State::init_salt_personal(1, &longer[..64], &longer[..16], &longer[..16]);
    let mut state = made.expect(&rt, "a state");
    assert!(&rt; state.is_ready() && state.counted() == 512);
    state.wipe();
    assert!(&rt; !state.is_ready());
}

// Absorbs an input through the trait, and checks the count.
fn update_and_check_count<S: Update>(rt: &impl Abort, state: &mut S, input: &[u8]) {
    let before = state.counted();
    assert!(rt; before <= 0x1000 && input.len() <= 0x1000);
    state.update(input);
    assert!(rt; state.counted() == before + input.len() as u64);
}

// Checks what a hasher returns for the message, from its start and after resets.
fn check_hasher<const N: usize, D: Digest<N> + Duplicate>(
    rt: &impl Abort,
    state: D,
    message: &[u8],
    wanted: &str,
) {
    let mut state = state;
    let (first, rest) = message.split_at(message.len() / 2);
    update_and_check_count(rt, &mut state, first);
    let mut copy = state.duplicate();
    update_and_check_count(rt, &mut copy, rest);
    update_and_check_count(rt, &mut state, rest);
    assert!(rt;
        has_hex_digits(&Digest::finalize_reset(&mut state), wanted),
        "{wanted}"
    );
    assert!(rt;
        has_hex_digits(&Digest::finalize(copy), wanted),
        "a copy: {wanted}"
    );
    update_and_check_count(rt, &mut state, first);
    Reset::reset(&mut state);
    update_and_check_count(rt, &mut state, message);
    let mut out = [0; N];
    Digest::finalize_into(state, &mut out);
    assert!(rt; has_hex_digits(&out, wanted), "after resets: {wanted}");
}

#[test]
fn hasher_returns_known_digests(rt: HostRuntime) {
    let wanted = "69ac521f1a8acd09a194af280133b083ecd73065266b9d58838f174045291b7e\
        9897cf3b1dfb4e991168d8d3b68e90cebb1e56757f6ef7d96ff08164a031173c";
    let message = thousand();
    assert!(&rt; has_hex_digits(&Blake2bp::<64>::digest(&message), wanted));
    check_hasher::<64, Blake2bp<64>>(&rt, Blake2bp::new(), &message, wanted);
}

#[test]
fn hasher_with_persona(rt: HostRuntime) {
    let state = Blake2bp::<20>::new_customized(b"app");
    check_hasher::<20, Blake2bp<20>>(
        &rt,
        state,
        &thousand(),
        "9201c74549dfa6bd546aaa0bc62f01e1a686a549",
    );
}

#[test]
fn hasher_with_salt(rt: HostRuntime) {
    let salt = [1, 2, 3, 4, 5, 6, 7, 8, 9, 10, 11, 12, 13, 14, 15, 16];
    let state = Blake2bp::<64>::new_with_salt_and_personal(&salt, b"personal");
    let wanted = "952a91ce8edc821c0b2e6d489fc510a0c5ddaecb3895580040f2ed3c254e2715\
        069018f3cb0ca97b20141a34ba02e0a547f775b1faf601b46c003387fd4cb875";
    check_hasher::<64, Blake2bp<64>>(&rt, state, &thousand(), wanted);
}

#[test]
fn wiped_hasher_starts_from_zeros(rt: HostRuntime) {
    let mut state = Blake2bp::<64>::new();
    update_and_check_count(&rt, &mut state, b"abc");
    Wipe::wipe(&mut state);
    assert!(&rt; Update::counted(&state) == 0);
}

// Checks that a MAC accepts the tag of the message, and no other.
fn check_mac<const N: usize, M: Mac<N> + FixedOutputReset<N> + Duplicate>(
    rt: &impl Abort,
    state: M,
    message: &[u8],
    wanted: &str,
) {
    let mut state = state;
    let (first, _) = message.split_at(message.len() / 2);
    assert!(rt; state.counted() == 512);
    update_and_check_count(rt, &mut state, message);
    let copy = state.duplicate();
    let tag = state.finalize_fixed_reset();
    assert!(rt; has_hex_digits(&tag, wanted), "{wanted}");
    assert!(rt; copy.verify_slice(&tag).is_ok(), "{wanted}");
    update_and_check_count(rt, &mut state, first);
    assert!(rt; state.verify_slice(&tag).is_err(), "another message");
}

#[test]
fn mac_under_longest_key(rt: HostRuntime) {
    let wanted = "200f923e185654052623773efef43be8285eb7a12eb7f1df4c7bb9dccb1d744e\
        86cd0c77b902da414cb8e1e80128a995df8a1329cf6ad9352b1d01b626b22464";
    let mac = Blake2bpMac::<64>::new(&key());
    check_mac::<64, Blake2bpMac<64>>(&rt, mac, &thousand(), wanted);
}

#[test]
fn mac_under_short_key(rt: HostRuntime) {
    let key = [1, 2, 3, 4, 5];
    let mac = Blake2bpMac::<20>::new_from_slice(&key).expect(&rt, "a MAC");
    check_mac::<20, Blake2bpMac<20>>(
        &rt,
        mac,
        &thousand(),
        "d12a1e882c3461f69f0b30225bc5d30adc023c7a",
    );
}

#[test]
fn mac_with_salt_and_persona(rt: HostRuntime) {
    let wanted = "d379b6ccf10e5b73d9d9c4ad4ca5ae84c31e5b928368addc0fe090dfa1638766\
        53838a7655c227caeb6263b52a08420fdad7a3ed79f6234ad9c03b9abeed726f";
    let made = Blake2bpMac::<64>::new_with_salt_and_personal(&key(), b"salt", b"app");
    check_mac::<64, Blake2bpMac<64>>(&rt, made.expect(&rt, "a MAC"), &thousand(), wanted);
}

#[test]
fn wrong_mac_lengths_are_refused(rt: HostRuntime) {
    assert!(&rt; Blake2bpMac::<20>::new_from_slice(&[]).is_err());
    assert!(&rt; Blake2bpMac::<20>::new_from_slice(&[0; 65]).is_err());
    assert!(&rt; Blake2bpMac::<20>::new_with_salt_and_personal(b"k", &[0; 17], &[]).is_err());
    assert!(&rt; Blake2bpMac::<20>::new_with_salt_and_personal(b"k", &[], &[0; 17]).is_err());
}

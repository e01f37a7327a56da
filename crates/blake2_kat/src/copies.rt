//! Messages that come in two pieces, with copies, resets and digests between them. The expected
//! digests of all outputs are those of `tests/expected_values.py`, under `copies`.

ghost use Rattle.std.specs.Prelude.{◌≤◌, length};

use crate::checks::{check_digits, update_checked};
use blake2::digest::{Duplicate, FixedOutput, FixedOutputReset, Reset};
use blake2::{
    Blake2b128, Blake2b256, Blake2b512, Blake2bMac512, Blake2s128, Blake2s256, Blake2sMac256,
    Digest,
};
use blake2_test_support::inputs::{LENGTHS, fill_with_counting_bytes};
use std::process::Abort;

// Checks that a state returns this output after it has absorbed the piece.
fn check_output<S: FixedOutput<N> + Drop, const N: usize>(
    rt: &impl Abort,
    mut state: S,
    piece: &[u8],
    wanted: &[u8],
) {
    update_checked(rt, &mut state, piece);
    let output = state.finalize_fixed();
    assert!(rt; output.as_slice() == wanted);
}

// The output for a whole message, from this start.
fn output_of<S: FixedOutput<N> + Duplicate + Drop, const N: usize>(
    rt: &impl Abort,
    start: &S,
    message: &[u8],
) -> [u8; N] {
    let mut state = start.duplicate();
    update_checked(rt, &mut state, message);
    state.finalize_fixed()
}

// Checks copies, resets and digests between two pieces, and returns the output for both.
fn check_copies_between_two_pieces<S, const N: usize>(
    rt: &impl Abort,
    start: &S,
    message: &[u8],
    at: usize,
) -> [u8; N]
where
    S: FixedOutputReset<N> + Duplicate + Clone + Drop,
    requires { at ≤ length message.now }
{
    let (first, second) = message.split_at(at);
    let of_first = output_of(rt, start, first);
    let of_second = output_of(rt, start, second);
    let of_both = output_of(rt, start, message);
    let mut state = start.duplicate();
    update_checked(rt, &mut state, first);
    let clone = state.clone().expect(rt, "a clone");
    check_output(rt, clone, second, of_both.as_slice());
    check_output(rt, state.duplicate(), second, of_both.as_slice());
    let mut reset = state.duplicate();
    reset.reset();
    check_output(rt, reset, second, of_second.as_slice());
    let mut again = state.duplicate();
    let output = again.finalize_fixed_reset();
    assert!(rt; output.as_slice() == of_first.as_slice());
    check_output(rt, again, second, of_second.as_slice());
    check_output(rt, state, second, of_both.as_slice());
    of_both
}

// Checks each pair of lengths, and BLAKE2b-256 of all outputs for both pieces.
fn check_outputs_of_each_two_lengths<S, const N: usize>(rt: &impl Abort, start: &S, wanted: &str)
where
    S: FixedOutputReset<N> + Duplicate + Clone + Drop,
{
    let mut message = [0u8; 514];
    fill_with_counting_bytes(&mut message);
    let mut outputs = Blake2b256::new();
    for first in LENGTHS {
        for second in LENGTHS {
            assert!(rt; first <= 257 && second <= 257);
            let output: [u8; N] = check_copies_between_two_pieces(
                rt,
                start,
                &message[..first + second],
                first,
            );
            update_checked(rt, &mut outputs, output.as_slice());
        }
    }
    check_digits(rt, &outputs.finalize(), wanted);
}

#[test]
fn blake2b_copies_between_two_pieces(rt: HostRuntime) {
    let wanted = "350ea43946262be65cbea82c6834f599e396f2b3bc19a82058e584b5ceff5298";
    check_outputs_of_each_two_lengths(&rt, &Blake2b128::new(), wanted);
    let wanted = "9ef56fa22be8e82b255cef96b293856fbe401912660aaa2a86d53e76ac0badc2";
    check_outputs_of_each_two_lengths(&rt, &Blake2b256::new(), wanted);
    let wanted = "e3daa74c613f0eb619f757374ee61d8caa318610cd6e3ffc8e14a812095aa278";
    check_outputs_of_each_two_lengths(&rt, &Blake2b512::new(), wanted);
}

#[test]
fn blake2s_copies_between_two_pieces(rt: HostRuntime) {
    let wanted = "e15b12367b4746be0955f31902ab2a7574f2f81a9806bf26467ecbc2f7f99b5e";
    check_outputs_of_each_two_lengths(&rt, &Blake2s128::new(), wanted);
    let wanted = "7b55b8396e3d36ec1a00e70509b7de72ee48b643d354128566218889bb906b43";
    check_outputs_of_each_two_lengths(&rt, &Blake2s256::new(), wanted);
}

// Checks the outputs of BLAKE2b's MAC under these.
fn check_blake2b_mac_outputs(
    rt: &impl Abort,
    key: Option<&[u8]>,
    salt: &[u8],
    persona: &[u8],
    wanted: &str,
) {
    let start = Blake2bMac512::new_with_salt_and_personal(key, salt, persona).expect(rt, wanted);
    check_outputs_of_each_two_lengths(rt, &start, wanted);
}

// Checks the outputs of BLAKE2s's MAC under these.
fn check_blake2s_mac_outputs(
    rt: &impl Abort,
    key: Option<&[u8]>,
    salt: &[u8],
    persona: &[u8],
    wanted: &str,
) {
    let start = Blake2sMac256::new_with_salt_and_personal(key, salt, persona).expect(rt, wanted);
    check_outputs_of_each_two_lengths(rt, &start, wanted);
}

#[test]
fn blake2b_mac_copies_between_two_pieces(rt: HostRuntime) {
    let wanted = "f23c3e6e036e16dfc1a0f0b28ca81196436de0bd0ab659a349cb839c9e4fd3ea";
    check_blake2b_mac_outputs(&rt, Some(&[42]), b"", b"", wanted);
    let wanted = "e3daa74c613f0eb619f757374ee61d8caa318610cd6e3ffc8e14a812095aa278";
    check_blake2b_mac_outputs(&rt, None, b"", b"", wanted);
    let wanted = "4bfda7e2578e6bba3c638b27d879477b7520016e5a9df98acf8be7367d5fb1a5";
    check_blake2b_mac_outputs(&rt, Some(&[42]), b"salt", b"persona", wanted);
    let wanted = "f63ba749914457e114385f39ab53f788e3e2f2412d19ec0986f3b82ac54dc6e9";
    check_blake2b_mac_outputs(&rt, None, b"salt", b"persona", wanted);
}

#[test]
fn blake2s_mac_copies_between_two_pieces(rt: HostRuntime) {
    let wanted = "5dcf7679b0de239a0d1326df502c2d8bfdbe69ee6e8343af6fbd13c04b9fa226";
    check_blake2s_mac_outputs(&rt, Some(&[42]), b"", b"", wanted);
    let wanted = "7b55b8396e3d36ec1a00e70509b7de72ee48b643d354128566218889bb906b43";
    check_blake2s_mac_outputs(&rt, None, b"", b"", wanted);
    let wanted = "8fc5772e4fbb5348aa7cc5137208ecc7d48ef654d0253717db00215dd7242521";
    check_blake2s_mac_outputs(&rt, Some(&[42]), b"salt", b"persona", wanted);
    let wanted = "b8567a8c63227534d0f2f24350a2516f2545f3f2081ccded8591d47881f59a20";
    check_blake2s_mac_outputs(&rt, None, b"salt", b"persona", wanted);
}

// Checks the calls of `Digest` between two pieces, and absorbs the digests of the first and of
// the second that `finalize_reset` returns, one after the other.
fn check_digest_trait_between_two_pieces<H: Digest<N> + Drop, const N: usize>(
    rt: &impl Abort,
    digests: &mut Blake2b256,
    message: &[u8],
    at: usize,
)
    requires supported { H.is_supported }
    requires within { at ≤ length message.now }
    requires size { N ≤ 64 }
{
    let (first, second) = message.split_at(at);
    let of_second = H::digest(second);
    let of_both = H::digest(message);
    let mut hasher = H::new().chain_update(first);
    update_checked(rt, digests, hasher.finalize_reset().as_slice());
    update_checked(rt, &mut hasher, second);
    update_checked(rt, digests, hasher.finalize_reset().as_slice());
    let mut hasher = H::new().chain_update(first);
    Digest::reset(&mut hasher);
    check_output(rt, hasher, second, of_second.as_slice());
    let mut hasher = H::new().chain_update(first);
    Digest::update(&mut hasher, second);
    let mut output = [0; N];
    Digest::finalize_into(hasher, &mut output);
    assert!(rt; output.as_slice() == of_both.as_slice());
    let hasher = H::new().chain_update(first);
    check_output(rt, hasher, second, of_both.as_slice());
}

// Checks each pair of lengths, and BLAKE2b-256 of the digests of both pieces.
fn check_hasher_of_each_two_lengths<H: Digest<N> + Drop, const N: usize>(
    rt: &impl Abort,
    wanted: &str,
)
    requires supported { H.is_supported }
    requires size { N ≤ 64 }
{
    let mut message = [0; 514];
    fill_with_counting_bytes(&mut message);
    let mut digests = Blake2b256::new();
    for first in LENGTHS {
        for second in LENGTHS {
            assert!(rt; first <= 257 && second <= 257);
            check_digest_trait_between_two_pieces::<H, N>(
                rt,
                &mut digests,
                &message[..first + second],
                first,
            );
        }
    }
    check_digits(rt, &digests.finalize(), wanted);
}

// The expected digests are those of `tests/expected_values.py`, under `resets`.
#[test]
fn hashers_reset_between_two_pieces(rt: HostRuntime) {
    let wanted = "172193683d7b8c95cfcab29b74b22869c51db37129aa2321d25c0593d813c9ca";
    check_hasher_of_each_two_lengths::<Blake2b128, 16>(&rt, wanted);
    let wanted = "f0467383d8f965217da130a1cac7995388fdb34f2486ed56909c02a7db816f26";
    check_hasher_of_each_two_lengths::<Blake2b256, 32>(&rt, wanted);
    let wanted = "88c13660c1020ae1b7dce870880a12f0e0e339202afc06926a99057f6041866f";
    check_hasher_of_each_two_lengths::<Blake2b512, 64>(&rt, wanted);
    let wanted = "c2c5307c91d9cd03b1474edc286b274c9f61a645f00e9f3b441e442fab7b6d3c";
    check_hasher_of_each_two_lengths::<Blake2s128, 16>(&rt, wanted);
    let wanted = "603246713ad142197ce49439f222de0ea3b5a6ebfc729670533f3e31d6339296";
    check_hasher_of_each_two_lengths::<Blake2s256, 32>(&rt, wanted);
}

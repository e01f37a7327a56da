//! Digests of the hashers.

ghost use Rattle.std.specs.Prelude.{◌≤◌, length};

use crate::checks::{check_digits, update_checked};
use blake2::{Blake2b, Blake2b512, Blake2s, Blake2s256, Digest};
use blake2_test_support::inputs::has_hex_digits;
use std::process::Abort;

// The digest of a message that comes in two pieces, cut after `at` bytes.
fn digest_of_two_pieces<H: Digest<N> + Drop, const N: usize>(message: &[u8], at: usize) -> [u8; N]
    requires supported { H.is_supported }
    requires size { N ≤ 64 }
    requires within { at ≤ length message.now }
{
    let mut hasher = H::new();
    Digest::update(&mut hasher, &message[..at]);
    Digest::update(&mut hasher, &message[at..]);
    hasher.finalize()
}

// Checks each digest of the message, whole and cut after each byte.
fn check_digest_cut_after_each_byte<H: Digest<N> + Drop, const N: usize>(
    rt: &impl Abort,
    message: &[u8],
    wanted: &str,
)
    requires supported { H.is_supported }
    requires size { N ≤ 64 }
{
    for at in 0..message.len() {
        let digest = digest_of_two_pieces::<H, N>(message, at);
        assert!(rt;
            has_hex_digits(digest.as_slice(), wanted),
            "cut after {at}, {wanted}"
        );
    }
    check_digits(rt, H::digest(message).as_slice(), wanted);
}

#[test]
fn digest_is_the_same_cut_after_each_byte(rt: HostRuntime) {
    let wanted = "786a02f742015903c6c6fd852552d272912f4740e15847618a86e217f71f5419\
         d25e1031afee585313896444934eb04b903a685b1448b755d56f701afe9be2ce";
    check_digest_cut_after_each_byte::<Blake2b512, 64>(&rt, b"", wanted);
    let wanted = "ba80a53f981c4d0d6a2797b69f12f6e94c212f14685ac4b74b12bb6fdbffa2d1\
         7d87c5392aab792dc252d5de4533cc9518d38aa8dbf1925ab92386edd4009923";
    check_digest_cut_after_each_byte::<Blake2b512, 64>(&rt, b"abc", wanted);
    let wanted = "021ced8799296ceca557832ab941a50b4a11f83478cf141f51f933f653ab9fbc\
         c05a037cddbed06e309bf334942c4e58cdf1a46e237911ccd7fcf9787cbc7fd0";
    check_digest_cut_after_each_byte::<Blake2b512, 64>(&rt, b"hello world", wanted);
    let wanted = "69217a3079908094e11121d042354a7c1f55b6482ca1a51e1b250dfd1ed0eef9";
    check_digest_cut_after_each_byte::<Blake2s256, 32>(&rt, b"", wanted);
    let wanted = "508c5e8c327c14e2e1a72ba34eeb452f37458b209ed63a294d999b4c86675982";
    check_digest_cut_after_each_byte::<Blake2s256, 32>(&rt, b"abc", wanted);
    let wanted = "9aec6806794561107e594b1f6a8a6b0c92a0cba9acf5e5e93cca06f781813b0b";
    check_digest_cut_after_each_byte::<Blake2s256, 32>(&rt, b"hello world", wanted);
}

// The digest of a message that comes in these pieces.
fn digest_of_pieces<H: Digest<N> + Drop, const N: usize>(
    rt: &impl Abort,
    pieces: &[&[u8]],
) -> [u8; N]
    requires supported { H.is_supported }
    requires size { N ≤ 64 }
{
    let mut hasher = H::new();
    for piece in pieces {
        update_checked(rt, &mut hasher, piece);
    }
    hasher.finalize()
}

#[test]
fn digest_of_three_pieces_is_that_of_abc(rt: HostRuntime) {
    let pieces: [&[u8]; 3] = [b"hello ", b"", b"world"];
    let wanted = "021ced8799296ceca557832ab941a50b4a11f83478cf141f51f933f653ab9fbc\
         c05a037cddbed06e309bf334942c4e58cdf1a46e237911ccd7fcf9787cbc7fd0";
    assert!(rt; has_hex_digits(&digest_of_pieces::<Blake2b512, 64>(&rt, &pieces), wanted));
    let wanted = "9aec6806794561107e594b1f6a8a6b0c92a0cba9acf5e5e93cca06f781813b0b";
    assert!(rt; has_hex_digits(&digest_of_pieces::<Blake2s256, 32>(&rt, &pieces), wanted));
}

#[test]
fn digests_of_other_sizes(rt: HostRuntime) {
    assert!(rt; has_hex_digits(&Blake2b::<10>::digest(b"my_input"), "2cc55c84e416924e6400"));
    let none = Blake2b::<0>::new().finalize();
    assert!(rt; none.len() == 0);
    let none = Blake2s::<0>::new().finalize();
    assert!(rt; none.len() == 0);
}

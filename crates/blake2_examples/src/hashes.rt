//! Callers of the hash functions.

ghost use Rattle.std.specs.Prelude.{◌≡◌, ◌+◌, ◌*◌, ◌^◌, ◌<◌, ◌++◌, false, [], length, None};
ghost use Rattle.blake2_simd.specs.Family.{blake2b, blake2s};
ghost use Rattle.blake2.specs.States.{digest_of};
ghost use Rattle.blake2_examples.specs.Pieces.{joined_pieces};

use blake2::digest::Digest;
use blake2::{Blake2b512, Blake2s256};

/// Returns the digest of two pieces, absorbed as one message.
pub fn digest_of_parts(first: &[u8], second: &[u8]) -> [u8; 64]
    requires { length first.now + length second.now < 2 ^ 64 }
    ensures { result ≡ digest_of blake2b 64 [] [] None (first.now ++ second.now) }
{
    let mut hasher = Blake2b512::new();
    hasher.update(first);
    hasher.update(second);
    hasher.finalize()
}

/// Returns the digest of all pieces, absorbed as one message.
pub fn digest_of_pieces(pieces: &[&[u8]]) -> [u8; 32]
    requires { length (joined_pieces pieces.now) < 2 ^ 64 }
    ensures { result ≡ digest_of blake2s 32 [] [] None (joined_pieces pieces.now) }
{
    let mut hasher = Blake2s256::new();
    for piece in pieces {
        hasher.update(piece);
    }
    hasher.finalize()
}

/// Returns the digests of two messages, by one hasher.
pub fn digests_in_turn(first: &[u8], second: &[u8]) -> ([u8; 64], [u8; 64])
    requires first { length first.now < 2 ^ 64 }
    requires second { length second.now < 2 ^ 64 }
    ensures first { result.0 ≡ digest_of blake2b 64 [] [] None first.now }
    ensures second { result.1 ≡ digest_of blake2b 64 [] [] None second.now }
{
    let mut hasher = Blake2b512::new();
    hasher.update(first);
    let digest = hasher.finalize_reset();
    hasher.update(second);
    (digest, hasher.finalize())
}

/// Returns the digest of a message by any hash function of the traits.
pub fn digest_by<D: Digest<N> + Drop, const N: usize>(message: &[u8]) -> [u8; N]
    requires supported { D.is_supported }
    requires fits { length message.now < 2 ^ 64 }
    ensures { result ≡ D.digest_of false message.now }
{
    let mut hasher = D::new();
    Digest::update(&mut hasher, message);
    hasher.finalize()
}

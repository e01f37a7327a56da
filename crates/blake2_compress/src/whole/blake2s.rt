// Made by tools/twins.py from src/whole/blake2b.rt.
//! A whole message of BLAKE2s.

ghost use Rattle.std.specs.Prelude.{◌≡◌, ◌+◌, ◌<◌, ◌≤◌, ◌^◌, false, length, take, Some};
ghost use Rattle.blake2_simd.specs.Family.{blake2s, output_bytes};
ghost use Rattle.blake2_simd.specs.Rows.{chaining_words};
ghost use Rattle.blake2_compress.specs.Hash.{data_bytes, digest, final, last_chain};
ghost use Rattle.blake2_compress.specs.Inputs.{KeyFits};
ghost use Rattle.blake2_compress.specs.Views.{key_of};
ghost use Rattle.blake2_compress.specs.Whole.{whole_input};

use super::parameters;
use crate::compress::Flags;
use crate::compress::blake2s::{compress, to_bytes};
use crate::params::blake2s::start_rows;
use blake2_simd::padded;
use blake2_simd::rows::u32x4;

// Compresses all blocks of a message, before which `counted` bytes were counted. The last one is
// padded in a copy, and the others are read from the message.
fn compress_all(h: &mut [u32x4; 2], message: &[u8], counted: u64)
    requires { counted + length message.now < 2 ^ 64 }
    ensures { chaining_words h.new
        ≡ last_chain blake2s (chaining_words h.old) counted message.now (final false) }
{
    let inner = message.len().saturating_sub(1) / 64;
    let (whole, _) = message.as_chunks::<64>();
    for i in 0..inner {
        compress(h, &whole[i], counted + (64 * i as u64 + 64), Flags::INNER);
    }
    let block = padded(&message[64 * inner..]);
    let count = counted + message.len() as u64;
    compress(h, &block, count, Flags::last_block(false));
}

// The same from a key on, whose block comes before the message. It is the last one if there is no
// message.
fn absorb_keyed(h: &mut [u32x4; 2], key: &[u8], message: &[u8])
    requires key { KeyFits blake2s (Some key.now) }
    requires counted { 64 + length message.now < 2 ^ 64 }
    ensures { chaining_words h.new ≡ last_chain blake2s (chaining_words h.old) 0
        (data_bytes blake2s (Some key.now) message.now) (final false) }
{
    let block = padded(key);
    if message.is_empty() {
        compress(h, &block, 64, Flags::last_block(false));
        return;
    }
    compress(h, &block, 64, Flags::INNER);
    compress_all(h, message, 64);
}

/// Returns 32 bytes whose first `output_size`, at most 32, are the digest of the message under the
/// key, if there is one, without a salt and a persona (RFC 7693, 3.3). The remaining bytes are the
/// rest of the last chaining words. They are not part of the digest, and the contract promises
/// nothing about them. A key has 1 to 32 bytes, and its 64 bytes and those of the message are
/// fewer than 2^64. The call allocates nothing, and leaves copies of the key on the stack.
//
// It is written out where it is called: with a size and no key that the compiler knows, the first
// words are constants.
#[inline(always)]
pub fn hash(output_size: usize, key: Option<&[u8]>, message: &[u8]) -> [u8; 32]
    requires size { output_size ≤ output_bytes blake2s }
    requires key { KeyFits blake2s (key_of key) }
    requires counted { length (data_bytes blake2s (key_of key) message.now) < 2 ^ 64 }
    ensures { take output_size result
        ≡ digest blake2s output_size (whole_input (key_of key.entry) message.now) }
{
    let mut h = start_rows(&parameters(output_size, &key));
    match key {
        None => compress_all(&mut h, message, 0),
        Some(key) => absorb_keyed(&mut h, key, message),
    }
    to_bytes(&h)
}

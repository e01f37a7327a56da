//! BLAKE2b: words of 64 bits, blocks of 128 bytes, twelve rounds.

ghost use Rattle.std.specs.Prelude.{◌≡◌, ◌%◌, [], take, drop, slice_index_or};
ghost use Rattle.blake2_simd.specs.Family.{blake2b, sigma};
ghost use Rattle.blake2_simd.specs.Round;
ghost use Rattle.blake2_simd.specs.Rows.{chaining_words, work_words};
ghost use Rattle.blake2_compress.specs.Hash;
ghost use Rattle.blake2_compress.specs.Hash.{after_rounds, before_rounds, bytes_of};
ghost use Rattle.blake2_compress.specs.Hash.{words_of, xor_words};
ghost use Rattle.blake2_compress.specs.Views.{given_flags};

use super::Flags;
use crate::consts::{BLAKE2B_IV, SIGMA};
use blake2_simd::rows::u64x4;

// The sixteen words of a block.
#[inline(always)]
pub(crate) fn block_words(block: &[u8; 128]) -> [u64; 16]
    ensures { result ≡ words_of blake2b 16 block.now }
{
    let [m0, m1, m2, m3] = u64x4::from_le_bytes(&block[..32]).to_array();
    let [m4, m5, m6, m7] = u64x4::from_le_bytes(&block[32..64]).to_array();
    let [m8, m9, m10, m11] = u64x4::from_le_bytes(&block[64..96]).to_array();
    let [m12, m13, m14, m15] = u64x4::from_le_bytes(&block[96..128]).to_array();
    [
        m0, m1, m2, m3, m4, m5, m6, m7, m8, m9, m10, m11, m12, m13, m14, m15,
    ]
}

// The rows before the first round: the chaining words, and IV with the counter xored into its
// fifth and sixth word, which for 64 bits is only into the fifth, with all ones xored into its
// seventh if the final flag is on, and into its eighth if the last-node flag is on.
//
// Each flag chooses between two constant rows, which is faster than to choose its word and then
// to make the row of both flags.
#[tactic(auto, using(crate::proofs::FlagRows::bit_xor_zero_right), unfolding(crate::specs::Hash::before_rounds, crate::specs::Hash::xor_words))]
#[inline(always)]
fn work_vector(h: [u64x4; 2], counter: u64, flags: Flags) -> [u64x4; 4]
    ensures { work_words result
        ≡ before_rounds blake2b (chaining_words h) counter (given_flags flags) }
{
    let [low, high] = to_rows(&BLAKE2B_IV);
    let none = u64x4::new(0, 0, 0, 0);
    let last = if flags.last {
        u64x4::new(0, 0, u64::MAX, 0)
    } else {
        none
    };
    let last_node = if flags.last_node {
        u64x4::new(0, 0, 0, u64::MAX)
    } else {
        none
    };
    let marks = u64x4::new(counter, 0, 0, 0) ^ last ^ last_node;
    [h[0], h[1], low, high ^ marks]
}

// The round that comes after `i` others, which uses the words of the block in the order of a row
// of SIGMA (RFC 7693, 2.7).
#[inline(always)]
fn round_at(v: &mut [u64x4; 4], m: &[u64; 16], i: usize)
    ensures { work_words v.new
        ≡ Round.round blake2b (work_words v.old) m.now (slice_index_or sigma (i % 10) []) }
{
    u64x4::round(v, m, &SIGMA[i % 10]);
}

// The twelve rounds. They are written out, since a loop would look up the index of each word in
// SIGMA at run time.
#[inline(always)]
fn rounds(v: &mut [u64x4; 4], m: &[u64; 16])
    ensures { work_words v.new ≡ after_rounds blake2b (work_words v.old) m.now 12 }
{
    round_at(v, m, 0);
    round_at(v, m, 1);
    round_at(v, m, 2);
    round_at(v, m, 3);
    round_at(v, m, 4);
    round_at(v, m, 5);
    round_at(v, m, 6);
    round_at(v, m, 7);
    round_at(v, m, 8);
    round_at(v, m, 9);
    round_at(v, m, 10);
    round_at(v, m, 11);
}

// The chaining words with both halves of the rows xored into them.
#[tactic(auto, unfolding(crate::specs::Hash::xor_words))]
#[inline(always)]
fn xor_halves(h: [u64x4; 2], v: [u64x4; 4]) -> [u64x4; 2]
    ensures { chaining_words result
        ≡ xor_words (xor_words (chaining_words h) (take 8 (work_words v))) (drop 8 (work_words v)) }
{
    [h[0] ^ v[0] ^ v[2], h[1] ^ v[1] ^ v[3]]
}

/// Computes F, the compression (RFC 7693, 3.2). `h` holds the eight chaining words as two rows,
/// and receives the new ones. `block` is the next 128 bytes of the data, and `counter` the number
/// of bytes counted up to and including this block, without padding.
#[tactic(auto, unfolding(crate::specs::Hash::compress))]
#[inline]
pub fn compress(h: &mut [u64x4; 2], block: &[u8; 128], counter: u64, flags: Flags)
    ensures { chaining_words h.new
        ≡ Hash.compress blake2b (chaining_words h.old) block.now counter (given_flags flags) }
{
    let m = block_words(block);
    let mut v = work_vector(*h, counter, flags);
    rounds(&mut v, &m);
    *h = xor_halves(*h, v);
}

/// Computes the same as `compress`, with the eight chaining words as an array.
pub fn compress_words(h: &mut [u64; 8], block: &[u8; 128], counter: u64, flags: Flags)
    ensures { h.new ≡ Hash.compress blake2b h.old block.now counter (given_flags flags) }
{
    let mut rows = to_rows(h);
    compress(&mut rows, block, counter, flags);
    *h = to_words(&rows);
}

/// Returns eight words as two rows of four.
#[inline(always)]
pub fn to_rows(words: &[u64; 8]) -> [u64x4; 2]
    ensures { chaining_words result ≡ words.now }
{
    [
        u64x4::new(words[0], words[1], words[2], words[3]),
        u64x4::new(words[4], words[5], words[6], words[7]),
    ]
}

/// Returns the eight words of two rows.
pub fn to_words(rows: &[u64x4; 2]) -> [u64; 8]
    ensures { result ≡ chaining_words rows.now }
{
    let [h0, h1, h2, h3] = rows[0].to_array();
    let [h4, h5, h6, h7] = rows[1].to_array();
    [h0, h1, h2, h3, h4, h5, h6, h7]
}

/// Returns the 64 bytes of the eight words of two rows, each word's low byte first (RFC 7693,
/// 2.4). Those of the last chaining words begin with the digest (3.3).
#[inline(always)]
pub fn to_bytes(rows: &[u64x4; 2]) -> [u8; 64]
    ensures { result ≡ bytes_of blake2b (chaining_words rows.now) }
{
    let mut bytes = [0; 64];
    bytes[..32].copy_from_slice(&rows[0].to_bytes());
    bytes[32..].copy_from_slice(&rows[1].to_bytes());
    bytes
}

// Each of eight words xored with that of the others.
#[tactic(auto, unfolding(crate::specs::Hash::xor_words))]
#[inline(always)]
pub(crate) fn xor_rows(a: [u64x4; 2], b: [u64x4; 2]) -> [u64x4; 2]
    ensures { chaining_words result ≡ xor_words (chaining_words a) (chaining_words b) }
{
    [a[0] ^ b[0], a[1] ^ b[1]]
}

//! Eight messages of BLAKE2s: eight rows hold their chaining words, row k having word k of each.
// tools/twins.py makes what blake2b/eight.rt has too, except what tools/twins.txt names.

ghost use Rattle.std.specs.Prelude.{◌≡◌, ◌↔◌, ◌<◌, ◌≤◌, ◌+◌, ◌-◌, ◌*◌, ◌^◌, ◌%◌, ℕ, List, [], ◌++◌};
ghost use Rattle.std.specs.Prelude.{◌∷◌, ◌⊎◌, IsTrue, length, bit_xor, map, take, drop};
ghost use Rattle.std.specs.Prelude.{slice_index, slice_index_or};
ghost use Rattle.blake2_simd.specs.Family.{blake2s, output_bytes, sigma};
ghost use Rattle.blake2_simd.specs.Lanes.{in_lane};
ghost use Rattle.blake2_simd.specs.Round;
ghost use Rattle.blake2_simd.specs.Rows.{chaining_words, lane};
ghost use Rattle.blake2_compress.specs.Hash;
ghost use Rattle.blake2_compress.specs.Hash.{after_rounds, before_rounds, blocks, bytes_of, chain};
ghost use Rattle.blake2_compress.specs.Hash.{digest, input_data, input_flags, input_start};
ghost use Rattle.blake2_compress.specs.Hash.{last_chain, words_of, xor_words};
ghost use Rattle.blake2_compress.specs.Inputs.{Accepts};
ghost use Rattle.blake2_compress.specs.Lanes.{AcceptsAtOnce, after_blocks, block_lists, flags_at};
ghost use Rattle.blake2_compress.specs.Lanes.{input_at, texts};
ghost use Rattle.blake2_compress.specs.Run;
ghost use Rattle.blake2_compress.specs.Views.{given_flags, input_of};

use super::{counters_after, later_blocks};
use crate::compress::Flags;
use crate::compress::blake2s::{block_words, to_bytes, to_rows};
use crate::consts::{BLAKE2S_IV, SIGMA};
use crate::inputs::Input;
use crate::inputs::blake2s::accepts;
use crate::inputs::blocks::{block_at, counted, input_parameters, step_count};
use crate::params::blake2s::start_words;
use blake2_simd::rows::{u32x4, u32x8};

/// Returns how many messages are best hashed in parallel: 1 or 8. It is 8, and a build for a
/// processor on which one after another is faster has 1 in its place. So a caller must be right for
/// both.
pub fn best_lane_count() -> usize
    ensures { (result ≡ 1) ⊎ (result ≡ 8) }
{
    8
}

// The row of word k of each of eight messages.
#[inline(always)]
fn row(words: &[[u32; 8]; 8], k: usize) -> u32x8
    requires { k < 8 }
    ensures { (j : ℕ) → j < 8
        → slice_index result j ≡ slice_index (slice_index_or words.now j []) k }
{
    u32x8::from_array([
        words[0][k],
        words[1][k],
        words[2][k],
        words[3][k],
        words[4][k],
        words[5][k],
        words[6][k],
        words[7][k],
    ])
}

/// Returns the eight words of each of eight messages as rows: row k has word k of each message,
/// that of message j in lane j.
#[inline(always)]
pub fn interleave(words: &[[u32; 8]; 8]) -> [u32x8; 8]
    ensures { (j k : ℕ) → j < 8 → k < 8
        → lane result k j ≡ slice_index (slice_index_or words.now j []) k }
{
    [
        row(words, 0),
        row(words, 1),
        row(words, 2),
        row(words, 3),
        row(words, 4),
        row(words, 5),
        row(words, 6),
        row(words, 7),
    ]
}

/// Returns the chaining words of message `j`, those in its lane, as two rows.
#[inline(always)]
pub fn lane_rows(rows: &[u32x8; 8], j: usize) -> [u32x4; 2]
    requires { j < 8 }
    ensures { chaining_words result ≡ in_lane j rows.now }
{
    let words = u32x8::transpose(*rows);
    to_rows(&words[j].to_array())
}

// The eight words of a block from word k on.
#[inline(always)]
fn eight_words(words: &[u32; 16], k: usize) -> u32x8
    requires { k ≤ 8 }
    ensures { (i : ℕ) → i < 8 → slice_index result i ≡ slice_index words.now (k + i) }
{
    u32x8::from_array([
        words[k],
        words[k + 1],
        words[k + 2],
        words[k + 3],
        words[k + 4],
        words[k + 5],
        words[k + 6],
        words[k + 7],
    ])
}

// Row i of the result has the words k + i of eight blocks.
#[inline(always)]
fn interleave_from(words: &[[u32; 16]; 8], k: usize) -> [u32x8; 8]
    requires { k ≤ 8 }
    ensures { (i j : ℕ) → i < 8 → j < 8
        → lane result i j ≡ slice_index (slice_index_or words.now j []) (k + i) }
{
    u32x8::transpose([
        eight_words(&words[0], k),
        eight_words(&words[1], k),
        eight_words(&words[2], k),
        eight_words(&words[3], k),
        eight_words(&words[4], k),
        eight_words(&words[5], k),
        eight_words(&words[6], k),
        eight_words(&words[7], k),
    ])
}

// The rows of the words of eight blocks.
#[inline(always)]
fn block_rows(blocks: &[&[u8; 64]; 8]) -> [u32x8; 16]
    ensures { (j : ℕ) → j < 8
        → in_lane j result ≡ words_of blake2s 16 (slice_index_or (texts blocks.now) j []) }
{
    let m = [
        block_words(blocks[0]),
        block_words(blocks[1]),
        block_words(blocks[2]),
        block_words(blocks[3]),
        block_words(blocks[4]),
        block_words(blocks[5]),
        block_words(blocks[6]),
        block_words(blocks[7]),
    ];
    let a = interleave_from(&m, 0);
    let b = interleave_from(&m, 8);
    [
        a[0], a[1], a[2], a[3], a[4], a[5], a[6], a[7], b[0], b[1], b[2], b[3], b[4], b[5], b[6],
        b[7],
    ]
}

// The words 8 to 15 before the first round: IV with the counter xored into its fifth and sixth
// word, the low 32 bits and the high ones, with all ones xored into its seventh if the final flag
// is on, and into its eighth if the last-node flag is on.
#[tactic(auto, unfolding(crate::specs::Hash::before_rounds, crate::specs::Hash::xor_words))]
#[inline(always)]
fn work_vector_end(counter: u64, flags: Flags) -> [u32; 8]
    ensures { (h : List ℕ) → h ++ result ≡ before_rounds blake2s h counter (given_flags flags) }
{
    let [v8, v9, v10, v11, v12, v13, v14, v15] = BLAKE2S_IV;
    let last = if flags.last { u32::MAX } else { 0 };
    let last_node = if flags.last_node { u32::MAX } else { 0 };
    let low_count = (counter % (1 << 32)) as u32;
    let high_count = (counter >> 32) as u32;
    [
        v8,
        v9,
        v10,
        v11,
        v12 ^ low_count,
        v13 ^ high_count,
        v14 ^ last,
        v15 ^ last_node,
    ]
}

// The rows before the first round: the chaining words, and in each lane the last words with its
// counter and under its flags.
#[inline(always)]
fn work_vector(h: &[u32x8; 8], counters: &[u64; 8], flags: &[Flags; 8]) -> [u32x8; 16]
    ensures { (j : ℕ) → j < 8
        → in_lane j result ≡ before_rounds blake2s (in_lane j h.now)
        (slice_index counters.now j) (flags_at flags.now j) }
{
    let last = [
        work_vector_end(counters[0], flags[0]),
        work_vector_end(counters[1], flags[1]),
        work_vector_end(counters[2], flags[2]),
        work_vector_end(counters[3], flags[3]),
        work_vector_end(counters[4], flags[4]),
        work_vector_end(counters[5], flags[5]),
        work_vector_end(counters[6], flags[6]),
        work_vector_end(counters[7], flags[7]),
    ];
    let w = interleave(&last);
    [
        h[0], h[1], h[2], h[3], h[4], h[5], h[6], h[7], w[0], w[1], w[2], w[3], w[4], w[5], w[6],
        w[7],
    ]
}

// The round that comes after `i` others, which uses the words of the blocks in the order of a row
// of SIGMA (RFC 7693, 2.7).
#[inline(always)]
fn round_at(v: &mut [u32x8; 16], m: &[u32x8; 16], i: usize)
    ensures { (j : ℕ) → j < 8 → in_lane j v.new
        ≡ Round.round blake2s (in_lane j v.old) (in_lane j m.now)
        (slice_index_or sigma (i % 10) []) }
{
    u32x8::round_each(v, m, &SIGMA[i % 10]);
}

// The ten rounds. They are written out, since a loop would look up the index of each word in
// SIGMA at run time, and work on a copy of the rows, which stays in registers.
#[inline(always)]
fn rounds(v: &mut [u32x8; 16], m: &[u32x8; 16])
    ensures { (j : ℕ) → j < 8
        → in_lane j v.new ≡ after_rounds blake2s (in_lane j v.old) (in_lane j m.now) 10 }
{
    let mut rows = *v;
    round_at(&mut rows, m, 0);
    round_at(&mut rows, m, 1);
    round_at(&mut rows, m, 2);
    round_at(&mut rows, m, 3);
    round_at(&mut rows, m, 4);
    round_at(&mut rows, m, 5);
    round_at(&mut rows, m, 6);
    round_at(&mut rows, m, 7);
    round_at(&mut rows, m, 8);
    round_at(&mut rows, m, 9);
    *v = rows;
}

// The exclusive or of three rows.
#[inline(always)]
fn xor3(a: u32x8, b: u32x8, c: u32x8) -> u32x8
    ensures { (j : ℕ) → j < 8 → slice_index result j
        ≡ bit_xor (bit_xor (slice_index a j) (slice_index b j)) (slice_index c j) }
{
    a ^ b ^ c
}

// The chaining words with both halves of the rows xored into them.
#[inline(always)]
fn xor_halves(h: &[u32x8; 8], v: &[u32x8; 16]) -> [u32x8; 8]
    ensures { (j : ℕ) → j < 8 → in_lane j result
        ≡ xor_words (xor_words (in_lane j h.now) (take 8 (in_lane j v.now)))
        (drop 8 (in_lane j v.now)) }
{
    let mut result = *h;
    for k in 0..8 {
        result[k] = xor3(h[k], v[k], v[8 + k]);
    }
    result
}

// Computes F, the compression (RFC 7693, 3.2), of eight messages in parallel. `h` holds their
// chaining words, block j is the next 64 bytes of message j, with it `counters[j]` bytes of that
// message are counted, without padding, and its flags are `flags[j]`. It is written out in each of
// its callers, also when compiled: a loop that passed the rows to a call and back would take a
// fifth longer.
#[tactic(auto, unfolding(crate::specs::Hash::compress))]
#[inline(always)]
fn compress_lanes(
    h: &mut [u32x8; 8],
    blocks: &[&[u8; 64]; 8],
    counters: &[u64; 8],
    flags: &[Flags; 8],
)
    ensures { (j : ℕ) → j < 8 → in_lane j h.new
        ≡ Hash.compress blake2s (in_lane j h.old) (slice_index_or (texts blocks.now) j [])
        (slice_index counters.now j) (flags_at flags.now j) }
{
    let m = block_rows(blocks);
    let mut v = work_vector(h, counters, flags);
    rounds(&mut v, &m);
    *h = xor_halves(h, &v);
}

/// Computes F, the compression (RFC 7693, 3.2), of eight messages in parallel. `h` holds their
/// chaining words, block j is the next 64 bytes of message j, and its flags are `flags[j]`.
/// `counter` is the number of bytes counted for each message up to and including this block,
/// without padding.
#[inline]
pub fn compress(h: &mut [u32x8; 8], blocks: &[&[u8; 64]; 8], counter: u64, flags: &[Flags; 8])
    ensures { (j : ℕ) → j < 8 → in_lane j h.new
        ≡ Hash.compress blake2s (in_lane j h.old) (slice_index_or (texts blocks.now) j [])
        counter (flags_at flags.now j) }
{
    compress_lanes(h, blocks, &[counter; 8], flags);
}

/// Computes the same as `compress`, with a counter for each message: that of message j is
/// `counters[j]`.
#[inline]
pub fn compress_each(
    h: &mut [u32x8; 8],
    blocks: &[&[u8; 64]; 8],
    counters: &[u64; 8],
    flags: &[Flags; 8],
)
    ensures { (j : ℕ) → j < 8 → in_lane j h.new
        ≡ Hash.compress blake2s (in_lane j h.old) (slice_index_or (texts blocks.now) j [])
        (slice_index counters.now j) (flags_at flags.now j) }
{
    compress_lanes(h, blocks, counters, flags);
}

// The chaining words that the inputs start from, at digests of `output_size` bytes.
fn start_lanes(output_size: usize, inputs: &[Input<'_>; 8]) -> [u32x8; 8]
    requires size { output_size ≤ output_bytes blake2s }
    requires accepted { (j : ℕ) → j < 8 → Accepts blake2s (input_at inputs.now j) }
    ensures { (j : ℕ) → j < 8
        → in_lane j result ≡ input_start blake2s output_size (input_at inputs.now j) }
{
    let mut words = [[0; 8]; 8];
    for j in 0..8 {
        words[j] = start_words(&input_parameters(&inputs[j], output_size));
    }
    interleave(&words)
}

// Compresses blocks of each of eight messages, one after another, the same number of each, with
// flags j for message j. With the first of them `counters[j]` bytes are counted for message j, 64
// more with each that follows, and less than 2^64 with the last, as `counted` says for any number
// of blocks. It works on a copy of the rows, so that what is the same for all blocks is computed
// once.
fn compress_blocks(
    h: &mut [u32x8; 8],
    blocks: &[&[[u8; 64]]; 8],
    counters: &[u64; 8],
    flags: &[Flags; 8],
)
    requires same_number { (j : ℕ) → j < 8
        → length (slice_index_or (block_lists blocks.now) j [])
        ≡ length (slice_index_or (block_lists blocks.now) 0 []) }
    requires counted { (j : ℕ) → j < 8 → slice_index counters.now j
        + 64 * length (slice_index_or (block_lists blocks.now) 0 []) ≤ 2 ^ 64 + 63 }
    ensures { (j : ℕ) → j < 8 → in_lane j h.new
        ≡ after_blocks blake2s (in_lane j h.old) (slice_index_or (block_lists blocks.now) j [])
        (slice_index counters.now j) (flags_at flags.now j)
        (length (slice_index_or (block_lists blocks.now) 0 [])) }
{
    let [p0, p1, p2, p3, p4, p5, p6, p7] = *blocks;
    let mut rows = *h;
    for i in 0..p0.len() {
        let here = [
            &p0[i], &p1[i], &p2[i], &p3[i], &p4[i], &p5[i], &p6[i], &p7[i],
        ];
        let counted = counters_after(counters, 64 * i as u64);
        compress_lanes(&mut rows, &here, &counted, flags);
    }
    *h = rows;
}

// Compresses a block of each of eight messages.
fn compress_next(
    h: &mut [u32x8; 8],
    blocks: &[[u8; 64]; 8],
    counters: &[u64; 8],
    flags: &[Flags; 8],
)
    ensures { (j : ℕ) → j < 8 → in_lane j h.new
        ≡ Hash.compress blake2s (in_lane j h.old) (slice_index_or blocks.now j [])
        (slice_index counters.now j) (flags_at flags.now j) }
{
    let b0 = [blocks[0]];
    let b1 = [blocks[1]];
    let b2 = [blocks[2]];
    let b3 = [blocks[3]];
    let b4 = [blocks[4]];
    let b5 = [blocks[5]];
    let b6 = [blocks[6]];
    let b7 = [blocks[7]];
    compress_blocks(
        h,
        &[&b0, &b1, &b2, &b3, &b4, &b5, &b6, &b7],
        counters,
        flags,
    );
}

// Compresses block i of each of eight inputs.
fn compress_at(
    h: &mut [u32x8; 8],
    inputs: &[Input<'_>; 8],
    i: usize,
    counter: u64,
    flags: &[Flags; 8],
)
    requires accepted { (j : ℕ) → j < 8 → Accepts blake2s (input_at inputs.now j) }
    requires within { (j : ℕ) → j < 8 → i < Run.step_count blake2s (input_at inputs.now j) }
    ensures { (j : ℕ) → j < 8 → in_lane j h.new
        ≡ Hash.compress blake2s (in_lane j h.old)
        (slice_index_or (blocks blake2s (input_data blake2s (input_at inputs.now j))) i [])
        counter (flags_at flags.now j) }
{
    let here = [
        block_at(&inputs[0], i),
        block_at(&inputs[1], i),
        block_at(&inputs[2], i),
        block_at(&inputs[3], i),
        block_at(&inputs[4], i),
        block_at(&inputs[5], i),
        block_at(&inputs[6], i),
        block_at(&inputs[7], i),
    ];
    compress_next(h, &here, &[counter; 8], flags);
}

// Compresses all blocks of eight inputs except the last. Those from the second on are read from
// the messages without a copy.
fn compress_all_but_last(h: &mut [u32x8; 8], inputs: &[Input<'_>; 8])
    requires accepted { (j : ℕ) → j < 8 → Accepts blake2s (input_at inputs.now j) }
    requires same_number { (j : ℕ) → j < 8
        → Run.step_count blake2s (input_at inputs.now j)
        ≡ Run.step_count blake2s (input_at inputs.now 0) }
    ensures { (j : ℕ) → j < 8 → in_lane j h.new
        ≡ chain blake2s (in_lane j h.old) 0
        (blocks blake2s (input_data blake2s (input_at inputs.now j)))
        (Run.step_count blake2s (input_at inputs.now 0) - 1) }
{
    let count = step_count::<64>(&inputs[0]) as usize;
    if count == 1 {
        return;
    }
    let flags = [Flags::INNER; 8];
    compress_at(h, inputs, 0, 64, &flags);
    let mut later: [&[[u8; 64]]; 8] = [&[]; 8];
    for j in 0..8 {
        later[j] = later_blocks(&inputs[j], count - 2);
    }
    // A variable, since a reference to a literal would be to data of the program.
    let counters = [128; 8];
    compress_blocks(h, &later, &counters, &flags);
}

// The flags of the last compression of eight inputs.
fn last_flags(inputs: &[Input<'_>; 8]) -> [Flags; 8]
    ensures { (j : ℕ) → j < 8 → flags_at result j ≡ input_flags (input_at inputs.now j) }
{
    [
        Flags::last_block(inputs[0].last_node),
        Flags::last_block(inputs[1].last_node),
        Flags::last_block(inputs[2].last_node),
        Flags::last_block(inputs[3].last_node),
        Flags::last_block(inputs[4].last_node),
        Flags::last_block(inputs[5].last_node),
        Flags::last_block(inputs[6].last_node),
        Flags::last_block(inputs[7].last_node),
    ]
}

// Compresses all blocks of eight inputs.
fn compress_all(h: &mut [u32x8; 8], inputs: &[Input<'_>; 8])
    requires accepted { (j : ℕ) → j < 8 → Accepts blake2s (input_at inputs.now j) }
    requires same_count { (j : ℕ) → j < 8
        → length (input_data blake2s (input_at inputs.now j))
        ≡ length (input_data blake2s (input_at inputs.now 0)) }
    ensures { (j : ℕ) → j < 8 → in_lane j h.new
        ≡ last_chain blake2s (in_lane j h.old) 0 (input_data blake2s (input_at inputs.now j))
        (input_flags (input_at inputs.now j)) }
{
    compress_all_but_last(h, inputs);
    let last = step_count::<64>(&inputs[0]) as usize - 1;
    let flags = last_flags(inputs);
    compress_at(h, inputs, last, counted::<64>(&inputs[0]), &flags);
}

// The first N bytes of the chaining words of a message.
fn output<const N: usize>(h: &[u32x4; 2]) -> [u8; N]
    requires { N ≤ output_bytes blake2s }
    ensures { result ≡ take N (bytes_of blake2s (chaining_words h.now)) }
{
    let whole = to_bytes(h);
    let mut bytes = [0; N];
    let out = &mut bytes[..];
    out.copy_from_slice(&whole[..N]);
    bytes
}

// The first N bytes of the last chaining words of each of eight inputs, at digests of
// `output_size` bytes.
fn outputs<const N: usize>(output_size: usize, inputs: &[Input<'_>; 8]) -> [[u8; N]; 8]
    requires room { N ≤ output_bytes blake2s }
    requires size { output_size ≤ output_bytes blake2s }
    requires accepted { AcceptsAtOnce blake2s 8 inputs.now }
    ensures { (j : ℕ) → j < 8 → slice_index_or result j []
        ≡ take N (bytes_of blake2s (last_chain blake2s
        (input_start blake2s output_size (input_at inputs.now j)) 0
        (input_data blake2s (input_at inputs.now j)) (input_flags (input_at inputs.now j)))) }
{
    let mut h = start_lanes(output_size, inputs);
    compress_all(&mut h, inputs);
    let words = u32x8::transpose(h);
    let mut outputs = [[0; N]; 8];
    for j in 0..8 {
        outputs[j] = output(&to_rows(&words[j].to_array()));
    }
    outputs
}

/// Returns whether `hash_eight` accepts these inputs: `accepts` returns true for each, and the
/// same number of bytes is counted for each, those of its message and 64 if it has a key.
pub fn accepts_eight(inputs: &[Input<'_>; 8]) -> bool
    ensures { IsTrue result ↔ AcceptsAtOnce blake2s 8 inputs.now }
{
    if !accepts(&inputs[0]) {
        return false;
    }
    let count = counted::<64>(&inputs[0]);
    for j in 1..8 {
        if !accepts(&inputs[j]) {
            return false;
        }
        if counted::<64>(&inputs[j]) != count {
            return false;
        }
    }
    true
}

/// Returns the digests of eight inputs, in their order, of N bytes each, at most 32 (RFC 7693,
/// 3.3). The inputs must be such that `accepts_eight` returns true: each is accepted, and the
/// same number of bytes is counted for each. The call allocates nothing.
pub fn hash_eight<const N: usize>(inputs: &[Input<'_>; 8]) -> [[u8; N]; 8]
    requires size { N ≤ output_bytes blake2s }
    requires accepted { AcceptsAtOnce blake2s 8 inputs.now }
    ensures { result ≡ map (λ input. digest blake2s N (input_of input)) inputs.now }
{
    outputs(N, inputs)
}

/// Returns the same digests with a size that is chosen at run time: the first `output_size`
/// bytes, at most 32, of each array are the digest of its input. The remaining bytes are the rest
/// of the last chaining words. They are not part of the digest, and the contract promises nothing
/// about them. The inputs must be such that `accepts_eight` returns true.
pub fn hash_eight_sized(output_size: usize, inputs: &[Input<'_>; 8]) -> [[u8; 32]; 8]
    requires size { output_size ≤ output_bytes blake2s }
    requires accepted { AcceptsAtOnce blake2s 8 inputs.now }
    ensures { map (take output_size) result
        ≡ map (λ input. digest blake2s output_size (input_of input)) inputs.now }
{
    outputs(output_size, inputs)
}

// The eight words of each message, from rows.
#[inline(always)]
fn separate(rows: &[u32x8; 8]) -> [[u32; 8]; 8]
    ensures { (j : ℕ) → j < 8 → slice_index_or result j [] ≡ in_lane j rows.now }
{
    let words = u32x8::transpose(*rows);
    [
        words[0].to_array(),
        words[1].to_array(),
        words[2].to_array(),
        words[3].to_array(),
        words[4].to_array(),
        words[5].to_array(),
        words[6].to_array(),
        words[7].to_array(),
    ]
}

/// Returns the chaining words of each of eight messages after one more block, `first`, and then the
/// same number of blocks of each. `words[j]` are those of message j before, for which `counters[j]`
/// bytes are counted; less than 2^64 are with the last block. So the messages may be at different
/// places. None of the blocks is the last of its message.
pub fn continue_eight(
    words: &[[u32; 8]; 8],
    first: &[[u8; 64]; 8],
    later: &[&[[u8; 64]]; 8],
    counters: &[u64; 8],
) -> [[u32; 8]; 8]
    // The type says so, and a proof has to know it.
    requires long { (j : ℕ) → j < 8 → length (slice_index_or words.now j []) ≡ 8 }
    requires same_number { (j : ℕ) → j < 8
        → length (slice_index_or (block_lists later.now) j [])
        ≡ length (slice_index_or (block_lists later.now) 0 []) }
    requires counted { (j : ℕ) → j < 8 → slice_index counters.now j
        + 64 * length (slice_index_or (block_lists later.now) 0 []) + 64 < 2 ^ 64 }
    ensures { (j : ℕ) → j < 8 → slice_index_or result j []
        ≡ chain blake2s (slice_index_or words.now j []) (slice_index counters.now j)
        (slice_index_or first.now j [] ∷ slice_index_or (block_lists later.now) j [])
        (length (slice_index_or (block_lists later.now) 0 []) + 1) }
{
    let mut rows = interleave(words);
    let flags = [Flags::INNER; 8];
    compress_next(&mut rows, first, &counters_after(counters, 64), &flags);
    if !later[0].is_empty() {
        compress_blocks(&mut rows, later, &counters_after(counters, 128), &flags);
    }
    separate(&rows)
}

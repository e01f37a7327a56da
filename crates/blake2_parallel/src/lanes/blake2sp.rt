// Made by tools/twins.py from src/lanes/blake2bp.rt.
//! The eight leaves of BLAKE2sp.

ghost use Rattle.std.specs.Prelude.{◌≡◌, ℕ, ◌+◌, ◌-◌, ◌*◌, ◌^◌, ◌<◌, ◌≤◌, ◌↔◌, List, [], ◌∷◌, ◌++◌};
ghost use Rattle.std.specs.Prelude.{length, take, drop, min, nat_eq, nat_lt, if◌then◌else◌};
ghost use Rattle.std.specs.Prelude.{replicate, slice_index, slice_index_or, IsTrue};
ghost use Rattle.std.specs.List.{flat_map};
ghost use Rattle.blake2_simd.specs.Family.{blake2s};
ghost use Rattle.blake2_simd.specs.Lanes.{in_lane};
ghost use Rattle.blake2_simd.specs.Rows.{chaining_words};
ghost use Rattle.blake2_compress.specs.Hash.{bytes_of, compress as F, final, padded as filled};
ghost use Rattle.blake2_compress.specs.Lanes.{flags_at, texts};
ghost use Rattle.blake2_compress.specs.MessagePieces.{piece};
ghost use Rattle.blake2_compress.specs.Views.{given_flags};
ghost use Rattle.blake2_parallel.specs.LeafStates.{HasAbsorbed, HasAbsorbedPrefix};
ghost use Rattle.blake2_parallel.specs.LeafStates.{last_but_one_stripe_flags, leaf_chain};
ghost use Rattle.blake2_parallel.specs.LeafStates.{leaf_future};
ghost use Rattle.blake2_parallel.specs.LeafStates.{total};
ghost use Rattle.blake2_parallel.specs.Blake2sp.{HasBoundedCounts, leaves_of};

use blake2_compress::compress::Flags;
use blake2_compress::compress::blake2s::{compress, to_bytes, to_words};
use blake2_compress::many::blake2s as many;
use blake2_compress::many::blake2s::lane_rows;
use blake2_digest::padded;
use blake2_simd::rows::{u32x4, u32x8};

// ---- words and rows

// The rows of the words of eight leaves.
#[inline(always)]
fn to_vectors(words: &[[u32; 8]; 8]) -> [u32x8; 8]
    ensures { (j : ℕ) → j < 8 → in_lane j result ≡ in_lane j words.now }
{
    [
        to_vector(&words[0]),
        to_vector(&words[1]),
        to_vector(&words[2]),
        to_vector(&words[3]),
        to_vector(&words[4]),
        to_vector(&words[5]),
        to_vector(&words[6]),
        to_vector(&words[7]),
    ]
}

// A row of eight words.
#[inline(always)]
fn to_vector(words: &[u32; 8]) -> u32x8
    ensures { result ≡ words.now }
{
    u32x8::from_array(*words)
}

// The words of eight leaves, row by row.
#[inline(always)]
pub(crate) fn to_arrays(rows: &[u32x8; 8]) -> [[u32; 8]; 8]
    ensures { (j : ℕ) → j < 8 → in_lane j result ≡ in_lane j rows.now }
{
    [
        rows[0].to_array(),
        rows[1].to_array(),
        rows[2].to_array(),
        rows[3].to_array(),
        rows[4].to_array(),
        rows[5].to_array(),
        rows[6].to_array(),
        rows[7].to_array(),
    ]
}

// ---- stripes

// Compresses the blocks of the first `count` stripes of `bytes`, with the leaves in lanes. Each
// leaf has counted `counter` bytes before.
fn compress_in_lanes(rows: &mut [u32x8; 8], bytes: &[u8], counter: u64, count: usize)
    requires whole { 512 * count ≤ length bytes.now }
    requires counted { counter + 64 * count < 2 ^ 64 }
    ensures { (j : ℕ) → j < 8 → in_lane j rows.new
        ≡ leaf_chain blake2s (in_lane j rows.old) counter bytes.now j count }
{
    let (blocks, _) = bytes.as_chunks::<64>();
    let mut all = *rows;
    for i in 0..count {
        let k = 8 * i;
        let here = [
            &blocks[k],
            &blocks[k + 1],
            &blocks[k + 2],
            &blocks[k + 3],
            &blocks[k + 4],
            &blocks[k + 5],
            &blocks[k + 6],
            &blocks[k + 7],
        ];
        let counted = counter + 64 * (i as u64 + 1);
        many::compress(&mut all, &here, counted, &[Flags::INNER; 8]);
    }
    *rows = all;
}

// The chaining words of leaf `j` after its blocks of the first `count` stripes of `bytes`.
fn compress_leaf(h: [u32x4; 2], bytes: &[u8], j: usize, counter: u64, count: usize) -> [u32; 8]
    requires lane { j < 8 }
    requires whole { 512 * count ≤ length bytes.now }
    requires counted { counter + 64 * count < 2 ^ 64 }
    ensures { result ≡ leaf_chain blake2s (chaining_words h) counter bytes.now j count }
{
    let (blocks, _) = bytes.as_chunks::<64>();
    let mut words = h;
    for i in 0..count {
        let counted = counter + 64 * (i as u64 + 1);
        compress(&mut words, &blocks[8 * i + j], counted, Flags::INNER);
    }
    to_words(&words)
}

// Does the same as `compress_in_lanes`, leaf by leaf.
fn compress_by_leaf(rows: &mut [u32x8; 8], bytes: &[u8], counter: u64, count: usize)
    requires whole { 512 * count ≤ length bytes.now }
    requires counted { counter + 64 * count < 2 ^ 64 }
    ensures { (j : ℕ) → j < 8 → in_lane j rows.new
        ≡ leaf_chain blake2s (in_lane j rows.old) counter bytes.now j count }
{
    let words = [
        compress_leaf(lane_rows(rows, 0), bytes, 0, counter, count),
        compress_leaf(lane_rows(rows, 1), bytes, 1, counter, count),
        compress_leaf(lane_rows(rows, 2), bytes, 2, counter, count),
        compress_leaf(lane_rows(rows, 3), bytes, 3, counter, count),
        compress_leaf(lane_rows(rows, 4), bytes, 4, counter, count),
        compress_leaf(lane_rows(rows, 5), bytes, 5, counter, count),
        compress_leaf(lane_rows(rows, 6), bytes, 6, counter, count),
        compress_leaf(lane_rows(rows, 7), bytes, 7, counter, count),
    ];
    let all = many::interleave(&words);
    *rows = all;
}

// Compresses the blocks of the first `count` stripes of `bytes` in the way that is faster on this
// processor.
#[inline(always)]
fn compress_stripes(rows: &mut [u32x8; 8], bytes: &[u8], counter: u64, count: usize)
    requires whole { 512 * count ≤ length bytes.now }
    requires counted { counter + 64 * count < 2 ^ 64 }
    ensures { (j : ℕ) → j < 8 → in_lane j rows.new
        ≡ leaf_chain blake2s (in_lane j rows.old) counter bytes.now j count }
{
    if many::best_lane_count() >= 8 {
        compress_in_lanes(rows, bytes, counter, count);
    } else {
        compress_by_leaf(rows, bytes, counter, count);
    }
}

// ---- the end

// The chaining words of a leaf after one more block.
fn compress_one(h: [u32x4; 2], block: &[u8; 64], counter: u64, flags: Flags) -> [u32; 8]
    ensures { result ≡ F blake2s (chaining_words h) block.now counter (given_flags flags) }
{
    let mut words = h;
    compress(&mut words, block, counter, flags);
    to_words(&words)
}

// Does the same as `many::compress_each`, leaf by leaf.
fn compress_one_by_one(
    rows: &mut [u32x8; 8],
    blocks: &[&[u8; 64]; 8],
    counters: &[u64; 8],
    flags: &[Flags; 8],
)
    ensures { (j : ℕ) → j < 8 → in_lane j rows.new
        ≡ F blake2s (in_lane j rows.old) (slice_index_or (texts blocks.now) j [])
        (slice_index counters.now j) (flags_at flags.now j) }
{
    let words = [
        compress_one(lane_rows(rows, 0), blocks[0], counters[0], flags[0]),
        compress_one(lane_rows(rows, 1), blocks[1], counters[1], flags[1]),
        compress_one(lane_rows(rows, 2), blocks[2], counters[2], flags[2]),
        compress_one(lane_rows(rows, 3), blocks[3], counters[3], flags[3]),
        compress_one(lane_rows(rows, 4), blocks[4], counters[4], flags[4]),
        compress_one(lane_rows(rows, 5), blocks[5], counters[5], flags[5]),
        compress_one(lane_rows(rows, 6), blocks[6], counters[6], flags[6]),
        compress_one(lane_rows(rows, 7), blocks[7], counters[7], flags[7]),
    ];
    let all = many::interleave(&words);
    *rows = all;
}

// Compresses a block of each leaf in the way that is faster on this processor.
#[inline(always)]
fn compress_each(
    rows: &mut [u32x8; 8],
    blocks: &[&[u8; 64]; 8],
    counters: &[u64; 8],
    flags: &[Flags; 8],
)
    ensures { (j : ℕ) → j < 8 → in_lane j rows.new
        ≡ F blake2s (in_lane j rows.old) (slice_index_or (texts blocks.now) j [])
        (slice_index counters.now j) (flags_at flags.now j) }
{
    if many::best_lane_count() >= 8 {
        many::compress_each(rows, blocks, counters, flags);
    } else {
        compress_one_by_one(rows, blocks, counters, flags);
    }
}

// The number of bytes that block `j` of `n` bytes has.
#[inline(always)]
fn part(n: usize, j: usize) -> u64
    requires { j < 8 }
    ensures { result ≡ min 64 (n - j * 64) }
{
    n.saturating_sub(j * 64).min(64) as u64
}

// Compresses a block of each leaf, the eight of a stripe, of which only the first `n` bytes are
// counted. Each leaf has counted `counter` bytes before.
#[inline(always)]
fn compress_stripe(rows: &mut [u32x8; 8], stripe: &[u8], n: usize, counter: u64, flags: &[Flags; 8])
    requires whole { length stripe.now ≡ 512 }
    requires counted { counter < 2 ^ 63 }
    ensures { (j : ℕ) → j < 8 → in_lane j rows.new ≡ F blake2s (in_lane j rows.old)
        (piece 64 stripe.now j) (counter + min 64 (n - j * 64)) (flags_at flags.now j) }
{
    let (blocks, _) = stripe.as_chunks::<64>();
    let here = [
        &blocks[0], &blocks[1], &blocks[2], &blocks[3], &blocks[4], &blocks[5], &blocks[6],
        &blocks[7],
    ];
    let counters = [
        counter + part(n, 0),
        counter + part(n, 1),
        counter + part(n, 2),
        counter + part(n, 3),
        counter + part(n, 4),
        counter + part(n, 5),
        counter + part(n, 6),
        counter + part(n, 7),
    ];
    compress_each(rows, &here, &counters, flags);
}

// Compresses a block of each leaf, padded with zeros: the eight of at most a stripe. Each leaf has
// counted `counter` bytes before.
fn compress_short(rows: &mut [u32x8; 8], bytes: &[u8], counter: u64, flags: &[Flags; 8])
    requires short { length bytes.now ≤ 512 }
    requires counted { counter < 2 ^ 63 }
    ensures { (j : ℕ) → j < 8 → in_lane j rows.new ≡ F blake2s (in_lane j rows.old)
        (filled 64 (piece 64 bytes.now j)) (counter + length (piece 64 bytes.now j))
        (flags_at flags.now j) }
{
    if bytes.len() == 512 {
        compress_stripe(rows, bytes, 512, counter, flags);
    } else {
        let whole = padded::<512>(bytes);
        compress_stripe(rows, &whole, bytes.len(), counter, flags);
    }
}

// The flags of leaf `j`'s block of the last stripe but one, if the last has `n` bytes.
#[inline(always)]
fn flags_before(n: usize, j: usize) -> Flags
    requires { j < 8 }
    ensures { given_flags result ≡ last_but_one_stripe_flags blake2s n j }
{
    if j * 64 < n {
        Flags::INNER
    } else {
        Flags::last_block(j == 7)
    }
}

// The rows after the last stripe but one, which may be the last. The last has `n` bytes.
fn compress_first(rows: &[u32x8; 8], bytes: &[u8], counter: u64, n: usize) -> [u32x8; 8]
    requires short { length bytes.now ≤ 512 }
    requires counted { counter < 2 ^ 63 }
    ensures { (j : ℕ) → j < 8 → in_lane j result ≡ F blake2s (in_lane j rows.now)
        (filled 64 (piece 64 bytes.now j)) (counter + length (piece 64 bytes.now j))
        (last_but_one_stripe_flags blake2s n j) }
{
    let flags = [
        flags_before(n, 0),
        flags_before(n, 1),
        flags_before(n, 2),
        flags_before(n, 3),
        flags_before(n, 4),
        flags_before(n, 5),
        flags_before(n, 6),
        flags_before(n, 7),
    ];
    let mut after = *rows;
    compress_short(&mut after, bytes, counter, &flags);
    after
}

// The rows after the last stripe too, if it has a byte.
fn compress_second(rows: &[u32x8; 8], bytes: &[u8], counter: u64) -> [u32x8; 8]
    requires short { length bytes.now ≤ 512 }
    requires counted { counter < 2 ^ 63 }
    ensures { (j : ℕ) → j < 8 → 0 < length bytes.now → in_lane j result
        ≡ F blake2s (in_lane j rows.now) (filled 64 (piece 64 bytes.now j))
        (counter + length (piece 64 bytes.now j)) (final (nat_eq (j + 1) 8)) }
{
    if bytes.is_empty() {
        return *rows;
    }
    let flags = [
        Flags::last_block(false),
        Flags::last_block(false),
        Flags::last_block(false),
        Flags::last_block(false),
        Flags::last_block(false),
        Flags::last_block(false),
        Flags::last_block(false),
        Flags::last_block(true),
    ];
    let mut after = *rows;
    compress_short(&mut after, bytes, counter, &flags);
    after
}

// The outputs of eight leaves with these chaining words.
#[inline(always)]
fn outputs_of(rows: &[u32x8; 8]) -> [[u8; 32]; 8]
    ensures { (j : ℕ) → j < 8 → slice_index_or result j [] ≡ bytes_of blake2s (in_lane j rows.now) }
{
    [
        to_bytes(&lane_rows(rows, 0)),
        to_bytes(&lane_rows(rows, 1)),
        to_bytes(&lane_rows(rows, 2)),
        to_bytes(&lane_rows(rows, 3)),
        to_bytes(&lane_rows(rows, 4)),
        to_bytes(&lane_rows(rows, 5)),
        to_bytes(&lane_rows(rows, 6)),
        to_bytes(&lane_rows(rows, 7)),
    ]
}

// The output of leaf `j`, whose last block is in the last stripe, of `n` bytes, or in the one
// before it.
#[inline(always)]
fn output(before: &[[u8; 32]; 8], after: &[[u8; 32]; 8], n: usize, j: usize) -> [u8; 32]
    requires { j < 8 }
    ensures { result ≡ (if nat_lt (j * 64) n then slice_index_or after.now j []
        else slice_index_or before.now j []) }
{
    if j * 64 < n { after[j] } else { before[j] }
}

// ---- the leaves

/// The eight leaves, one in each lane, and the bytes that are not dealt out yet. A stripe is
/// compressed once the eighth leaf has a byte after its block of it, since only the end shows which
/// block of a leaf is its last. So up to fifteen blocks are pending. All values of the fields are
/// leaves, and none is unsafe.
#[repr(C)]
#[derive(Drop)]
pub struct Lanes {
    /// The chaining words: row k has word k of each leaf.
    pub rows: [[u32; 8]; 8],
    /// The number of bytes of the blocks that each leaf has compressed.
    pub counter: u64,
    /// The number of pending bytes, 0 to 960.
    pub length: usize,
    /// The pending bytes, at the beginning.
    pub pending: [u8; 960],
}

impl Lanes {
    // The leaves that start from these words, with the first `held` bytes of eight times a block
    // pending: that of a key for each leaf, or nothing.
    pub(crate) fn new(rows: &[[u32; 8]; 8], block: &[u8; 64], held: usize) -> Self
        requires { held ≤ 512 }
        ensures rows { result.rows ≡ rows.now }
        ensures counter { result.counter ≡ 0 }
        ensures held { result.length ≡ held }
        ensures pending { take result.length result.pending
            ≡ take held (flat_map (λ x. x) (replicate 8 block.now)) }
    {
        if held == 0 {
            return Lanes {
                rows: *rows,
                counter: 0,
                length: held,
                pending: [0; 960],
            };
        }
        Lanes {
            rows: *rows,
            counter: 0,
            length: held,
            pending: padded::<960>([*block; 8].as_flattened()),
        }
    }

    // Whether at most fifteen blocks are pending, and the count is below 2^64.
    pub(crate) fn is_sound(&self) -> bool
        ensures { IsTrue result ↔ HasBoundedCounts self.now }
    {
        self.length <= 960 && self.counter <= (u64::MAX - self.length as u64) / 8
    }

    // Absorbs an input that there is room for.
    fn append_pending(&mut self, input: &[u8])
        requires sound { HasBoundedCounts self.old }
        requires room { self.old.length + length input.now ≤ 960 }
        requires counted { total blake2s (leaves_of self.old) + length input.now < 2 ^ 64 }
        ensures sound { HasBoundedCounts self.new }
        ensures rows { self.new.rows ≡ self.old.rows }
        ensures counter { self.new.counter ≡ self.old.counter }
        ensures pending { take self.new.length self.new.pending
            ≡ take self.old.length self.old.pending ++ input.now }
        ensures length { self.new.length ≡ self.old.length + length input.now }
    {
        let end = self.length + input.len();
        self.pending[self.length..end].copy_from_slice(input);
        self.length = end;
    }

    // Compresses the pending stripe. Each leaf has bytes after it.
    fn compress_held(&mut self, input: &[u8])
        requires sound { HasBoundedCounts self.old }
        requires stripe { 512 ≤ self.old.length }
        requires more { 960 < self.old.length + length input.now }
        requires counted { total blake2s (leaves_of self.old) + length input.now < 2 ^ 64 }
        ensures sound { HasBoundedCounts self.new }
        ensures went_on { HasAbsorbedPrefix blake2s (leaves_of self.old) input.now
            (leaves_of self.new)
            input.now }
        ensures fewer { self.new.length + 512 ≡ self.old.length }
    {
        let mut rows = to_vectors(&self.rows);
        let counter = self.counter;
        compress_stripes(&mut rows, &self.pending, counter, 1);
        let pending = padded::<960>(&self.pending[512..self.length]);
        self.rows = to_arrays(&rows);
        self.counter = counter + 64;
        self.pending = pending;
        self.length -= 512;
    }

    // Compresses the stripes of an input, as long as each leaf has bytes after them. Returns what
    // is left. No bytes are pending.
    fn compress_input<'a>(&mut self, input: &'a [u8]) -> &'a [u8]
        requires sound { HasBoundedCounts self.old }
        requires none { self.old.length ≡ 0 }
        requires more { 960 < length input.now }
        requires counted { total blake2s (leaves_of self.old) + length input.now < 2 ^ 64 }
        ensures sound { HasBoundedCounts self.new }
        ensures went_on { HasAbsorbedPrefix blake2s (leaves_of self.old) input.now
            (leaves_of self.new)
            result.now }
        ensures short { length result.now ≤ 960 }
        ensures none { self.new.length ≡ 0 }
    {
        let count = (input.len() - 449) / 512;
        let mut rows = to_vectors(&self.rows);
        compress_stripes(&mut rows, input, self.counter, count);
        self.rows = to_arrays(&rows);
        self.counter += 64 * count as u64;
        &input[512 * count..]
    }

    // Fills the pending stripe up and compresses it. Returns what is left of the input.
    fn compress_filled<'a>(&mut self, input: &'a [u8]) -> &'a [u8]
        requires sound { HasBoundedCounts self.old }
        requires open { self.old.length < 512 }
        requires more { 960 < self.old.length + length input.now }
        requires counted { total blake2s (leaves_of self.old) + length input.now < 2 ^ 64 }
        ensures sound { HasBoundedCounts self.new }
        ensures went_on { HasAbsorbedPrefix blake2s (leaves_of self.old) input.now
            (leaves_of self.new)
            result.now }
        ensures fewer { self.new.length + length result.now < self.old.length + length input.now }
    {
        let (head, rest) = input.split_at(512 - self.length);
        self.append_pending(head);
        self.compress_held(rest);
        rest
    }

    // Compresses stripes. Returns what is left of the input.
    fn take_stripes<'a>(&mut self, input: &'a [u8]) -> &'a [u8]
        requires sound { HasBoundedCounts self.old }
        requires more { 960 < self.old.length + length input.now }
        requires counted { total blake2s (leaves_of self.old) + length input.now < 2 ^ 64 }
        ensures sound { HasBoundedCounts self.new }
        ensures went_on { HasAbsorbedPrefix blake2s (leaves_of self.old) input.now
            (leaves_of self.new)
            result.now }
        ensures fewer { self.new.length + length result.now < self.old.length + length input.now }
    {
        if self.length == 0 {
            return self.compress_input(input);
        }
        if self.length < 512 {
            return self.compress_filled(input);
        }
        self.compress_held(input);
        input
    }

    // Absorbs the input after all that was absorbed before. Fewer than 2^64 bytes may be counted
    // in all.
    pub(crate) fn update(&mut self, input: &[u8])
        requires sound { HasBoundedCounts self.old }
        requires counted { total blake2s (leaves_of self.old) + length input.now < 2 ^ 64 }
        ensures sound { HasBoundedCounts self.new }
        ensures took { HasAbsorbed blake2s (leaves_of self.old) input.now (leaves_of self.new) }
    {
        let mut rest = input;
        while rest.len() > 960 - self.length {
            rest = self.take_stripes(rest);
        }
        self.append_pending(rest);
    }

    // The outputs of the leaves, if nothing more comes.
    pub(crate) fn outputs(&self) -> [[u8; 32]; 8]
        requires { HasBoundedCounts self.now }
        ensures { (j : ℕ) → j < 8 → slice_index_or result j []
            ≡ leaf_future blake2s (leaves_of self.now) [] j }
    {
        let held = &self.pending[..self.length];
        let (first, second) = held.split_at(held.len().min(512));
        let n = second.len();
        let before = compress_first(&to_vectors(&self.rows), first, self.counter, n);
        let firsts = outputs_of(&before);
        if n == 0 {
            return firsts;
        }
        let after = compress_second(&before, second, self.counter + 64);
        let lasts = outputs_of(&after);
        [
            output(&firsts, &lasts, n, 0),
            output(&firsts, &lasts, n, 1),
            output(&firsts, &lasts, n, 2),
            output(&firsts, &lasts, n, 3),
            output(&firsts, &lasts, n, 4),
            output(&firsts, &lasts, n, 5),
            output(&firsts, &lasts, n, 6),
            output(&firsts, &lasts, n, 7),
        ]
    }
}

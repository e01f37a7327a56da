//! Rows of BLAKE2s: four words of 32 bits.
// tools/twins.py makes what u64_lanes.rt has too, except what tools/twins.txt names.

ghost use Rattle.std.specs.Prelude.{◌≡◌, ◌↔◌, ℕ, IsTrue, ◌+◌, ◌%◌, ◌^◌, ◌<◌, List, [], ◌∷◌, length};
ghost use Rattle.std.specs.Prelude.{slice_index};
ghost use mir.Val.{bits};
ghost use Rattle.blake2_simd.specs.Family.{blake2s, word};
ghost use Rattle.blake2_simd.specs.Round.{AreWords, mix, round};
ghost use Rattle.blake2_simd.specs.Lanes.{in_lane};
ghost use Rattle.blake2_simd.specs.Rows.{four, lane_sums, lane_xors, lane_rotations, shuffle_left};
ghost use Rattle.blake2_simd.specs.Rows.{shuffle_right, word_at, lane_bytes, work_words, columns};
ghost use Rattle.blake2_simd.specs.Rows.{rows_rotated, last_row_rotated, shuffled_rows};

use blake2_digest::Wipe;
use std::marker::Model;
use std::ops::{Add, BitXor};
use std::simd::Simd;
use std::simd::prelude::*;

// R1 to R4: by how many bits G rotates a word to the right, in its order (RFC 7693, section 2.1).
pub(super) const R1: u32 = 16;

pub(super) const R2: u32 = 12;

const R3: u32 = 8;

pub(super) const R4: u32 = 7;

/// Four words of 32 bits in a vector, one in each lane. A contract sees the list of the four
/// words, lane 0 first.
#[allow(non_camel_case_types)]
#[derive(Clone, Copy)]
pub struct u32x4 {
    lanes: Simd<u32, 4>,
}

impl Model for u32x4 {
    ghost Value = { List ℕ };

    ghost view = { λ row. row.lanes };

    ghost inverse = { λ words. record { lanes = words } };
}

impl u32x4 {
    /// Returns the row of these four words, the first in lane 0.
    #[inline(always)]
    pub fn new(e0: u32, e1: u32, e2: u32, e3: u32) -> Self
        ensures { result ≡ e0 ∷ e1 ∷ e2 ∷ e3 ∷ [] }
    {
        Self {
            lanes: Simd::from_array([e0, e1, e2, e3]),
        }
    }

    /// Returns the row of the words of `src` at four indices, each of which must be below the
    /// length of `src`.
    #[inline(always)]
    pub fn gather(src: &[u32], i0: usize, i1: usize, i2: usize, i3: usize) -> Self
        requires i0_in { i0 < length src.now }
        requires i1_in { i1 < length src.now }
        requires i2_in { i2 < length src.now }
        requires i3_in { i3 < length src.now }
        ensures { result
            ≡ slice_index src.now i0 ∷ slice_index src.now i1
            ∷ slice_index src.now i2 ∷ slice_index src.now i3 ∷ [] }
    {
        Self::new(src[i0], src[i1], src[i2], src[i3])
    }

    /// Returns the sum of each lane, modulo 2^32.
    #[inline(always)]
    pub fn wrapping_add(self, rhs: Self) -> Self
        ensures { result ≡ lane_sums blake2s self rhs }
    {
        Self {
            lanes: self.lanes + rhs.lanes,
        }
    }

    /// Returns the row with each lane rotated to the right by `n` modulo 32 bits, for every `n`.
    #[inline(always)]
    pub fn rotate_right_const(self, n: u32) -> Self
        ensures { result ≡ lane_rotations blake2s self n }
    {
        let right = u32::from(n % u32::BITS);
        let left = (32 - right) % 32;
        Self {
            lanes: (self.lanes >> Simd::splat(right)) | (self.lanes << Simd::splat(left)),
        }
    }

    /// Returns the row with the lanes moved left by one: lanes 1, 2, 3, 0.
    #[inline(always)]
    pub fn shuffle_left_1(self) -> Self
        ensures lanes { result ≡ shuffle_left 1 self }
        ensures back { shuffle_right 1 result ≡ self }
    {
        Self {
            lanes: self.lanes.rotate_elements_left::<1>(),
        }
    }

    /// Returns the row with the lanes moved left by two: lanes 2, 3, 0, 1.
    #[inline(always)]
    pub fn shuffle_left_2(self) -> Self
        ensures lanes { result ≡ shuffle_left 2 self }
        ensures back { shuffle_right 2 result ≡ self }
    {
        Self {
            lanes: self.lanes.rotate_elements_left::<2>(),
        }
    }

    /// Returns the row with the lanes moved left by three: lanes 3, 0, 1, 2.
    #[inline(always)]
    pub fn shuffle_left_3(self) -> Self
        ensures lanes { result ≡ shuffle_left 3 self }
        ensures back { shuffle_right 3 result ≡ self }
    {
        Self {
            lanes: self.lanes.rotate_elements_left::<3>(),
        }
    }

    /// Returns the row with the lanes moved right by one: lanes 3, 0, 1, 2.
    #[inline(always)]
    pub fn shuffle_right_1(self) -> Self
        ensures { result ≡ shuffle_right 1 self }
    {
        Self {
            lanes: self.lanes.rotate_elements_right::<1>(),
        }
    }

    /// Returns the row with the lanes moved right by two: lanes 2, 3, 0, 1.
    #[inline(always)]
    pub fn shuffle_right_2(self) -> Self
        ensures { result ≡ shuffle_right 2 self }
    {
        Self {
            lanes: self.lanes.rotate_elements_right::<2>(),
        }
    }

    /// Returns the row with the lanes moved right by three: lanes 1, 2, 3, 0.
    #[inline(always)]
    pub fn shuffle_right_3(self) -> Self
        ensures { result ≡ shuffle_right 3 self }
    {
        Self {
            lanes: self.lanes.rotate_elements_right::<3>(),
        }
    }

    /// Returns the row of four words read from 16 bytes, each in little-endian order (RFC 7693,
    /// section 2.4). There must be exactly 16 bytes.
    #[inline(always)]
    pub fn from_le_bytes(bytes: &[u8]) -> Self
        requires { length bytes.now ≡ 16 }
        ensures { result ≡ four (λ j. word_at blake2s bytes.now j) }
    {
        Self {
            lanes: Simd::<u32, 4>::from_le_bytes(u8x16::from_slice(bytes)),
        }
    }

    /// Returns the 16 bytes of the lanes, lane 0 first, each in little-endian order (RFC 7693,
    /// section 2.4).
    #[inline(always)]
    pub fn to_bytes(self) -> [u8; 16]
        ensures { result ≡ lane_bytes blake2s self }
    {
        let words = self.lanes.to_array();
        Simd::<u32, 4>::from_array(words).to_le_bytes().to_array()
    }

    /// Returns whether the four words are zero.
    #[inline(always)]
    pub fn is_zero(self) -> bool
        ensures { IsTrue result ↔ (self ≡ 0 ∷ 0 ∷ 0 ∷ 0 ∷ []) }
    {
        self.to_array() == [0; 4]
    }

    /// Returns the four words, lane 0 first.
    #[inline(always)]
    pub fn to_array(self) -> [u32; 4]
        ensures { result ≡ four (λ j. slice_index self j) }
    {
        self.lanes.to_array()
    }

    // Each lane rotated to the right by R3 bits, and the lanes moved left by two. The moves come
    // first: LLVM then joins both in one choice of bytes if the processor has one, and makes a
    // plain rotation if it has none. The other order is 6 percent slower with SSE4.2.
    #[inline(always)]
    fn rotate_and_shuffle(self) -> Self
        ensures { result ≡ shuffle_left 2 (lane_rotations blake2s self 8) }
    {
        self.shuffle_left_2().rotate_right_const(R3)
    }

    // The sum of three rows, lane by lane, modulo 2^32.
    #[inline(always)]
    fn sum_of(a: Self, b: Self, x: Self) -> Self
        ensures { result ≡ four (λ j.
            (slice_index a j + slice_index b j + slice_index x j) % 2 ^ bits (word blake2s)) }
    {
        Self {
            // `b` comes last: it is the row computed last.
            lanes: a.lanes + x.lanes + b.lanes,
        }
    }

    // G in each lane, except for the last rotation of row d, by R3 bits: lane j of the six rows
    // has the words of the j-th mixing.
    #[inline(always)]
    fn mix(a: Self, b: Self, c: Self, d: Self, x: Self, y: Self) -> (Self, Self, Self, Self)
        ensures { (j : ℕ) → j < 4 → in_lane j (rows_rotated blake2s result)
            ≡ mix blake2s (in_lane j (a ∷ b ∷ c ∷ d ∷ [])) 0 1 2 3
            (slice_index x j) (slice_index y j) }
    {
        let a1 = Self::sum_of(a, b, x);
        let d1 = (d ^ a1).rotate_right_const(R1);
        let c1 = c + d1;
        let b1 = (b ^ c1).rotate_right_const(R2);
        let a2 = Self::sum_of(a1, b1, y);
        let d2 = d1 ^ a2;
        let c2 = c1 + d2.rotate_right_const(R3);
        let b2 = (b1 ^ c2).rotate_right_const(R4);
        (a2, b2, c2, d2)
    }

    // Half a round, the mixings of the four columns of `v` in parallel, column j with lane j of
    // `x` and of `y`, except for the last rotation of row 3 (RFC 7693, section 3.2).
    #[inline(always)]
    fn mix_rows(v: [Self; 4], x: Self, y: Self) -> (Self, Self, Self, Self)
        ensures { last_row_rotated blake2s result ≡ columns blake2s (work_words v) x y }
    {
        let [a, b, c, d] = v;
        Self::mix(a, b, c, d, x, y)
    }

    // The last row is rotated, and the diagonals become columns. Row 1, which `mix` computes last,
    // stays in place.
    #[inline(always)]
    fn diagonals_to_columns(rows: (Self, Self, Self, Self)) -> [Self; 4]
        ensures { work_words result ≡ shuffled_rows 3 0 1 2 (last_row_rotated blake2s rows) }
    {
        let (a, b, c, d) = rows;
        [
            a.shuffle_left_3(),
            b,
            c.shuffle_left_1(),
            d.rotate_and_shuffle(),
        ]
    }

    // The last row is rotated, and the columns become diagonals again.
    #[inline(always)]
    fn columns_to_diagonals(rows: (Self, Self, Self, Self)) -> [Self; 4]
        ensures { work_words result ≡ shuffled_rows 1 0 3 2 (last_row_rotated blake2s rows) }
    {
        let (a, b, c, d) = rows;
        [
            a.shuffle_left_1(),
            b,
            c.shuffle_left_3(),
            d.rotate_and_shuffle(),
        ]
    }

    /// Replaces the sixteen words of the rows `v` by those after one round, with the block's
    /// sixteen words `m` in the order `s` (RFC 7693, section 3.2). Each number of `s` must be
    /// below 16.
    #[inline(always)]
    pub fn round(v: &mut [Self; 4], m: &[u32; 16], s: &[usize; 16])
        requires { (j : ℕ) → j < 16 → slice_index s.now j < 16 }
        ensures { work_words v.new ≡ round blake2s (work_words v.old) m.now s.now }
    {
        let columns = Self::mix_rows(
            *v,
            Self::gather(m, s[0], s[2], s[4], s[6]),
            Self::gather(m, s[1], s[3], s[5], s[7]),
        );
        let diagonals = Self::mix_rows(
            Self::diagonals_to_columns(columns),
            Self::gather(m, s[14], s[8], s[10], s[12]),
            Self::gather(m, s[15], s[9], s[11], s[13]),
        );
        *v = Self::columns_to_diagonals(diagonals);
    }

    /// Returns the sixteen words of the rows `v`, those of row 0 first.
    #[inline(always)]
    pub fn words(v: &[Self; 4]) -> [u32; 16]
        ensures { result ≡ work_words v.now }
    {
        let [a, b, c, d] = *v;
        let [w0, w1, w2, w3] = a.to_array();
        let [w4, w5, w6, w7] = b.to_array();
        let [w8, w9, w10, w11] = c.to_array();
        let [w12, w13, w14, w15] = d.to_array();
        [
            w0, w1, w2, w3, w4, w5, w6, w7, w8, w9, w10, w11, w12, w13, w14, w15,
        ]
    }

    // The four rows of sixteen words, row 0 having the first.
    fn to_rows(words: &[u32; 16]) -> [Self; 4]
        ensures rows { work_words result ≡ words.now }
        ensures are_words { AreWords blake2s (work_words result) }
    {
        [
            Self::gather(words, 0, 1, 2, 3),
            Self::gather(words, 4, 5, 6, 7),
            Self::gather(words, 8, 9, 10, 11),
            Self::gather(words, 12, 13, 14, 15),
        ]
    }

    /// Undoes one round: replaces `v` by the only rows that `round`, with the same `m` and `s`,
    /// turns into those that were given. Each number of `s` must be below 16.
    pub fn unround(v: &mut [Self; 4], m: &[u32; 16], s: &[usize; 16])
        requires { (j : ℕ) → j < 16 → slice_index s.now j < 16 }
        ensures undoes { round blake2s (work_words v.new) m.now s.now ≡ work_words v.old }
        ensures only { (u : List ℕ) → AreWords blake2s u → length u ≡ 16
            → round blake2s u m.now s.now ≡ work_words v.old → u ≡ work_words v.new }
    {
        let mut w = Self::words(v);
        unmix(&mut w, 3, 4, 9, 14, m[s[14]], m[s[15]]);
        unmix(&mut w, 2, 7, 8, 13, m[s[12]], m[s[13]]);
        unmix(&mut w, 1, 6, 11, 12, m[s[10]], m[s[11]]);
        unmix(&mut w, 0, 5, 10, 15, m[s[8]], m[s[9]]);
        unmix(&mut w, 3, 7, 11, 15, m[s[6]], m[s[7]]);
        unmix(&mut w, 2, 6, 10, 14, m[s[4]], m[s[5]]);
        unmix(&mut w, 1, 5, 9, 13, m[s[2]], m[s[3]]);
        unmix(&mut w, 0, 4, 8, 12, m[s[0]], m[s[1]]);
        *v = Self::to_rows(&w);
    }
}

// Undoes G: what is in `w` at the indices `a`, `b`, `c` and `d` afterwards is what G, with `x`
// and `y`, turns into what was there.
fn unmix(w: &mut [u32; 16], a: usize, b: usize, c: usize, d: usize, x: u32, y: u32)
    requires { (a < b) × (b < c) × (c < d) × (d < 16) }
    ensures { mix blake2s w.new a b c d x y ≡ w.old }
{
    w[b] = w[b].rotate_left(R4) ^ w[c];
    w[c] = w[c].wrapping_sub(w[d]);
    w[d] = w[d].rotate_left(R3) ^ w[a];
    w[a] = w[a].wrapping_sub(w[b]).wrapping_sub(y);
    w[b] = w[b].rotate_left(R2) ^ w[c];
    w[c] = w[c].wrapping_sub(w[d]);
    w[d] = w[d].rotate_left(R1) ^ w[a];
    w[a] = w[a].wrapping_sub(w[b]).wrapping_sub(x);
}

/// The sum of each lane, modulo 2^32.
impl Add for u32x4 {
    type Output = u32x4;

    ghost add_gives = { λ a b sum. sum ≡ lane_sums blake2s a b };

    #[inline(always)]
    fn add(self, rhs: u32x4) -> u32x4 {
        self.wrapping_add(rhs)
    }
}

/// The exclusive or of each lane.
impl BitXor for u32x4 {
    type Output = u32x4;

    ghost bitxor_gives = { λ a b xor. xor ≡ lane_xors a b };

    #[inline(always)]
    fn bitxor(self, rhs: u32x4) -> u32x4 {
        Self {
            lanes: self.lanes ^ rhs.lanes,
        }
    }
}

/// Overwrites the four lanes with zeros.
impl Wipe for u32x4 {
    ghost is_wiped = { λ row. row ≡ 0 ∷ 0 ∷ 0 ∷ 0 ∷ [] };

    #[inline(always)]
    fn wipe(&mut self)
        ensures wiped { self.new ≡ 0 ∷ 0 ∷ 0 ∷ 0 ∷ [] }
    {
        self.lanes = Simd::splat(0);
    }
}

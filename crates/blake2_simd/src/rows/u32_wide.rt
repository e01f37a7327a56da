//! Rows of BLAKE2s in several states: eight words of 32 bits.
// tools/twins.py makes what u64_wide.rt has too, except what tools/twins.txt names.

ghost use Rattle.std.specs.Prelude.{◌≡◌, ℕ, ◌+◌, ◌%◌, ◌^◌, ◌<◌, List, [], ◌∷◌};
ghost use Rattle.std.specs.Prelude.{bit_xor, slice_index};
ghost use Rattle.std.specs.Int.{rotate_right};
ghost use mir.Val.{bits};
ghost use Rattle.blake2_simd.specs.Family.{blake2s, word};
ghost use Rattle.blake2_simd.specs.Lanes.{columns_within, eight_lanes, in_lane};
ghost use Rattle.blake2_simd.specs.Rows.{lane};
ghost use Rattle.blake2_simd.specs.Round.{mix};

use super::u32_lanes::{R1, R2, R4};
use std::marker::Model;
use std::ops::{Add, BitXor};
use std::simd::Simd;
use std::simd::prelude::*;

/// Eight words of 32 bits in a vector, one in each lane. A contract sees the list of the eight
/// words, lane 0 first.
#[allow(non_camel_case_types)]
#[derive(Clone, Copy)]
pub struct u32x8 {
    lanes: Simd<u32, 8>,
}

impl Model for u32x8 {
    ghost Value = { List ℕ };

    ghost view = { λ row. row.lanes };

    ghost inverse = { λ words. record { lanes = words } };
}

impl u32x8 {
    /// Returns the row of these eight words, the first in lane 0.
    #[inline(always)]
    pub fn from_array(words: [u32; 8]) -> Self
        ensures { result ≡ words }
    {
        Self {
            lanes: Simd::from_array(words),
        }
    }

    /// Returns the eight words, lane 0 first.
    #[inline(always)]
    pub fn to_array(self) -> [u32; 8]
        ensures { result ≡ self }
    {
        self.lanes.to_array()
    }

    /// Returns the row with each lane rotated to the right by `n` modulo 32 bits, for every `n`.
    #[inline(always)]
    pub fn rotate_right_const(self, n: u32) -> Self
        ensures { result ≡ eight_lanes (λ j. rotate_right (word blake2s) (slice_index self j) n) }
    {
        let right = u32::from(n % u32::BITS);
        let left = (32 - right) % 32;
        Self {
            lanes: (self.lanes >> Simd::splat(right)) | (self.lanes << Simd::splat(left)),
        }
    }

    // Each lane rotated to the right by R3 bits, which are one whole byte: a choice of its bytes.
    #[inline(always)]
    fn rotate_bytes(self) -> Self
        ensures { result ≡ eight_lanes (λ j. rotate_right (word blake2s) (slice_index self j) 8) }
    {
        let bytes = self.lanes.to_le_bytes();
        let chosen = bytes.swizzle([
            1, 2, 3, 0, 5, 6, 7, 4, 9, 10, 11, 8, 13, 14, 15, 12, 17, 18, 19, 16, 21, 22, 23, 20,
            25, 26, 27, 24, 29, 30, 31, 28,
        ]);
        Self {
            lanes: Simd::<u32, 8>::from_le_bytes(chosen),
        }
    }

    /// Returns the rows as columns: lane j of row k is lane k of the given row j.
    #[inline(always)]
    pub fn transpose(rows: [Self; 8]) -> [Self; 8]
        ensures { (j k : ℕ) → j < 8 → k < 8 → lane result k j ≡ lane rows j k }
    {
        let [a, b, c, d, e, f, g, h] = rows;
        let (a0, a1, a2, a3) = Self::columns_within(a, b, c, d);
        let (e0, e1, e2, e3) = Self::columns_within(e, f, g, h);
        [
            Self::low_halves(a0, e0),
            Self::low_halves(a1, e1),
            Self::low_halves(a2, e2),
            Self::low_halves(a3, e3),
            Self::high_halves(a0, e0),
            Self::high_halves(a1, e1),
            Self::high_halves(a2, e2),
            Self::high_halves(a3, e3),
        ]
    }

    // The columns of four rows within the halves of the vectors: the k-th row has lanes k of the
    // four, and then lanes k + 4.
    #[inline(always)]
    fn columns_within(a: Self, b: Self, c: Self, d: Self) -> (Self, Self, Self, Self)
        ensures { result.0 ∷ result.1 ∷ result.2 ∷ result.3 ∷ [] ≡ columns_within a b c d }
    {
        let ab_low = a.lanes.shuffle(b.lanes, [0, 8, 1, 9, 4, 12, 5, 13]);
        let ab_high = a.lanes.shuffle(b.lanes, [2, 10, 3, 11, 6, 14, 7, 15]);
        let cd_low = c.lanes.shuffle(d.lanes, [0, 8, 1, 9, 4, 12, 5, 13]);
        let cd_high = c.lanes.shuffle(d.lanes, [2, 10, 3, 11, 6, 14, 7, 15]);
        (
            Self {
                lanes: ab_low.shuffle(cd_low, [0, 1, 8, 9, 4, 5, 12, 13]),
            },
            Self {
                lanes: ab_low.shuffle(cd_low, [2, 3, 10, 11, 6, 7, 14, 15]),
            },
            Self {
                lanes: ab_high.shuffle(cd_high, [0, 1, 8, 9, 4, 5, 12, 13]),
            },
            Self {
                lanes: ab_high.shuffle(cd_high, [2, 3, 10, 11, 6, 7, 14, 15]),
            },
        )
    }

    // The first four lanes of each of two rows.
    #[inline(always)]
    fn low_halves(a: Self, b: Self) -> Self
        ensures { result ≡ slice_index a 0 ∷ slice_index a 1 ∷ slice_index a 2 ∷ slice_index a 3
            ∷ slice_index b 0 ∷ slice_index b 1 ∷ slice_index b 2 ∷ slice_index b 3 ∷ [] }
    {
        Self {
            lanes: a.lanes.shuffle(b.lanes, [0, 1, 2, 3, 8, 9, 10, 11]),
        }
    }

    // The last four lanes of each of two rows.
    #[inline(always)]
    fn high_halves(a: Self, b: Self) -> Self
        ensures { result ≡ slice_index a 4 ∷ slice_index a 5 ∷ slice_index a 6 ∷ slice_index a 7
            ∷ slice_index b 4 ∷ slice_index b 5 ∷ slice_index b 6 ∷ slice_index b 7 ∷ [] }
    {
        Self {
            lanes: a.lanes.shuffle(b.lanes, [4, 5, 6, 7, 12, 13, 14, 15]),
        }
    }

    // The sum of three rows, lane by lane, modulo 2^32.
    #[inline(always)]
    fn sum_of(a: Self, b: Self, x: Self) -> Self
        ensures { result ≡ eight_lanes (λ j.
            (slice_index a j + slice_index b j + slice_index x j) % 2 ^ bits (word blake2s)) }
    {
        Self {
            // `b` comes last: it is the row computed last.
            lanes: a.lanes + x.lanes + b.lanes,
        }
    }

    // G in each lane: lane j of the six rows has the words of the j-th mixing.
    #[inline(always)]
    pub(super) fn mix(
        a: Self,
        b: Self,
        c: Self,
        d: Self,
        x: Self,
        y: Self,
    ) -> (Self, Self, Self, Self)
        ensures { (j : ℕ) → j < 8 → in_lane j (result.0 ∷ result.1 ∷ result.2 ∷ result.3 ∷ [])
            ≡ mix blake2s (in_lane j (a ∷ b ∷ c ∷ d ∷ [])) 0 1 2 3
            (slice_index x j) (slice_index y j) }
    {
        let a1 = Self::sum_of(a, b, x);
        let d1 = (d ^ a1).rotate_right_const(R1);
        let c1 = c + d1;
        let b1 = (b ^ c1).rotate_right_const(R2);
        let a2 = Self::sum_of(a1, b1, y);
        let d2 = (d1 ^ a2).rotate_bytes();
        let c2 = c1 + d2;
        let b2 = (b1 ^ c2).rotate_right_const(R4);
        (a2, b2, c2, d2)
    }
}

/// The sum of each lane, modulo 2^32.
impl Add for u32x8 {
    type Output = u32x8;

    ghost add_gives = { λ a b sum. sum ≡ eight_lanes (λ j.
        (slice_index a j + slice_index b j) % 2 ^ bits (word blake2s)) };

    #[inline(always)]
    fn add(self, rhs: u32x8) -> u32x8 {
        Self {
            lanes: self.lanes + rhs.lanes,
        }
    }
}

/// The exclusive or of each lane.
impl BitXor for u32x8 {
    type Output = u32x8;

    ghost bitxor_gives = { λ a b xor. xor
        ≡ eight_lanes (λ j. bit_xor (slice_index a j) (slice_index b j)) };

    #[inline(always)]
    fn bitxor(self, rhs: u32x8) -> u32x8 {
        Self {
            lanes: self.lanes ^ rhs.lanes,
        }
    }
}

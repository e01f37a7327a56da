//! Rows of BLAKE2b in eight states: eight words of 64 bits.

ghost use Rattle.std.specs.Prelude.{◌≡◌, ℕ, ◌+◌, ◌%◌, ◌^◌, ◌<◌, List, [], ◌∷◌};
ghost use Rattle.std.specs.Prelude.{bit_xor, slice_index};
ghost use Rattle.std.specs.Int.{rotate_right};
ghost use mir.Val.{bits};
ghost use Rattle.blake2_simd.specs.Family.{blake2b, word};
ghost use Rattle.blake2_simd.specs.Lanes.{columns_in_pairs, eight_lanes, in_lane};
ghost use Rattle.blake2_simd.specs.Rows.{lane};
ghost use Rattle.blake2_simd.specs.Round.{mix};

use super::u64_lanes::{R1, R2, R3, R4};
use std::marker::Model;
use std::ops::{Add, BitXor};
use std::simd::Simd;
use std::simd::prelude::*;

/// Eight words of 64 bits in a vector, one in each lane. A contract sees the list of the eight
/// words, lane 0 first.
#[allow(non_camel_case_types)]
#[derive(Clone, Copy)]
pub struct u64x8 {
    lanes: Simd<u64, 8>,
}

impl Model for u64x8 {
    ghost Value = { List ℕ };

    ghost view = { λ row. row.lanes };

    ghost inverse = { λ words. record { lanes = words } };
}

impl u64x8 {
    /// Returns the row of these eight words, the first in lane 0.
    #[inline(always)]
    pub fn from_array(words: [u64; 8]) -> Self
        ensures { result ≡ words }
    {
        Self {
            lanes: Simd::from_array(words),
        }
    }

    /// Returns the eight words, lane 0 first.
    #[inline(always)]
    pub fn to_array(self) -> [u64; 8]
        ensures { result ≡ self }
    {
        self.lanes.to_array()
    }

    /// Returns the row with each lane rotated to the right by `n` modulo 64 bits, for every `n`.
    #[inline(always)]
    pub fn rotate_right_const(self, n: u32) -> Self
        ensures { result ≡ eight_lanes (λ j. rotate_right (word blake2b) (slice_index self j) n) }
    {
        let right = u64::from(n % u64::BITS);
        let left = (64 - right) % 64;
        Self {
            lanes: (self.lanes >> Simd::splat(right)) | (self.lanes << Simd::splat(left)),
        }
    }

    /// Returns the rows as columns: lane j of row k is lane k of the given row j.
    #[inline(always)]
    pub fn transpose(rows: [Self; 8]) -> [Self; 8]
        ensures { (j k : ℕ) → j < 8 → k < 8 → lane result k j ≡ lane rows j k }
    {
        let [a, b, c, d, e, f, g, h] = rows;
        let (a0, a1, a2, a3) = Self::columns_in_pairs(a, b, c, d);
        let (e0, e1, e2, e3) = Self::columns_in_pairs(e, f, g, h);
        [
            Self::even_pairs(a0, e0),
            Self::even_pairs(a1, e1),
            Self::even_pairs(a2, e2),
            Self::even_pairs(a3, e3),
            Self::odd_pairs(a0, e0),
            Self::odd_pairs(a1, e1),
            Self::odd_pairs(a2, e2),
            Self::odd_pairs(a3, e3),
        ]
    }

    // The columns of four rows in pairs of lanes: the k-th row has lanes k of the first two rows,
    // their lanes k + 4, and then the same of the last two. Pairs of lanes move as a whole, which
    // needs no table of indices.
    #[inline(always)]
    fn columns_in_pairs(a: Self, b: Self, c: Self, d: Self) -> (Self, Self, Self, Self)
        ensures { result.0 ∷ result.1 ∷ result.2 ∷ result.3 ∷ [] ≡ columns_in_pairs a b c d }
    {
        let ab_even = a.lanes.shuffle(b.lanes, [0, 8, 2, 10, 4, 12, 6, 14]);
        let ab_odd = a.lanes.shuffle(b.lanes, [1, 9, 3, 11, 5, 13, 7, 15]);
        let cd_even = c.lanes.shuffle(d.lanes, [0, 8, 2, 10, 4, 12, 6, 14]);
        let cd_odd = c.lanes.shuffle(d.lanes, [1, 9, 3, 11, 5, 13, 7, 15]);
        (
            Self {
                lanes: ab_even.shuffle(cd_even, [0, 1, 4, 5, 8, 9, 12, 13]),
            },
            Self {
                lanes: ab_odd.shuffle(cd_odd, [0, 1, 4, 5, 8, 9, 12, 13]),
            },
            Self {
                lanes: ab_even.shuffle(cd_even, [2, 3, 6, 7, 10, 11, 14, 15]),
            },
            Self {
                lanes: ab_odd.shuffle(cd_odd, [2, 3, 6, 7, 10, 11, 14, 15]),
            },
        )
    }

    // The first and the third pair of lanes of each of two rows.
    #[inline(always)]
    fn even_pairs(a: Self, b: Self) -> Self
        ensures { result ≡ slice_index a 0 ∷ slice_index a 1 ∷ slice_index a 4 ∷ slice_index a 5
            ∷ slice_index b 0 ∷ slice_index b 1 ∷ slice_index b 4 ∷ slice_index b 5 ∷ [] }
    {
        Self {
            lanes: a.lanes.shuffle(b.lanes, [0, 1, 4, 5, 8, 9, 12, 13]),
        }
    }

    // The second and the fourth pair of lanes of each of two rows.
    #[inline(always)]
    fn odd_pairs(a: Self, b: Self) -> Self
        ensures { result ≡ slice_index a 2 ∷ slice_index a 3 ∷ slice_index a 6 ∷ slice_index a 7
            ∷ slice_index b 2 ∷ slice_index b 3 ∷ slice_index b 6 ∷ slice_index b 7 ∷ [] }
    {
        Self {
            lanes: a.lanes.shuffle(b.lanes, [2, 3, 6, 7, 10, 11, 14, 15]),
        }
    }

    // The sum of three rows, lane by lane, modulo 2^64.
    #[inline(always)]
    fn sum_of(a: Self, b: Self, x: Self) -> Self
        ensures { result ≡ eight_lanes (λ j.
            (slice_index a j + slice_index b j + slice_index x j) % 2 ^ bits (word blake2b)) }
    {
        Self {
            // `b` comes last: it is the row computed last.
            lanes: a.lanes + x.lanes + b.lanes,
        }
    }

    // G in each lane: lane j of the six rows has the words of the j-th mixing.
    #[inline(always)]
    pub(super) fn mix(
        a: Self,
        b: Self,
        c: Self,
        d: Self,
        x: Self,
        y: Self,
    ) -> (Self, Self, Self, Self)
        ensures { (j : ℕ) → j < 8 → in_lane j (result.0 ∷ result.1 ∷ result.2 ∷ result.3 ∷ [])
            ≡ mix blake2b (in_lane j (a ∷ b ∷ c ∷ d ∷ [])) 0 1 2 3
            (slice_index x j) (slice_index y j) }
    {
        let a1 = Self::sum_of(a, b, x);
        let d1 = (d ^ a1).rotate_right_const(R1);
        let c1 = c + d1;
        let b1 = (b ^ c1).rotate_right_const(R2);
        let a2 = Self::sum_of(a1, b1, y);
        let d2 = (d1 ^ a2).rotate_right_const(R3);
        let c2 = c1 + d2;
        let b2 = (b1 ^ c2).rotate_right_const(R4);
        (a2, b2, c2, d2)
    }
}

/// The sum of each lane, modulo 2^64.
impl Add for u64x8 {
    type Output = u64x8;

    ghost add_gives = { λ a b sum. sum ≡ eight_lanes (λ j.
        (slice_index a j + slice_index b j) % 2 ^ bits (word blake2b)) };

    #[inline(always)]
    fn add(self, rhs: u64x8) -> u64x8 {
        Self {
            lanes: self.lanes + rhs.lanes,
        }
    }
}

/// The exclusive or of each lane.
impl BitXor for u64x8 {
    type Output = u64x8;

    ghost bitxor_gives = { λ a b xor. xor
        ≡ eight_lanes (λ j. bit_xor (slice_index a j) (slice_index b j)) };

    #[inline(always)]
    fn bitxor(self, rhs: u64x8) -> u64x8 {
        Self {
            lanes: self.lanes ^ rhs.lanes,
        }
    }
}

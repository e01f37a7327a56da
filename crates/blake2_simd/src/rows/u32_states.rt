//! Eight states of BLAKE2s in parallel, one in each lane: sixteen rows hold them, row k having
//! word k of each.
// tools/twins.py makes what u64_wide_states.rt has too, except what tools/twins.txt names.

ghost use Rattle.std.specs.Prelude.{◌≡◌, ℕ, ◌<◌, slice_index};
ghost use Rattle.blake2_simd.specs.Family.{blake2s};
ghost use Rattle.blake2_simd.specs.Round;
ghost use Rattle.blake2_simd.specs.Round.{mix};
ghost use Rattle.blake2_simd.specs.Lanes.{in_lane};

use super::u32_wide::u32x8;

impl u32x8 {
    // G at the indices `a`, `b`, `c` and `d` of each state, with lane j of `x` and of `y` in lane
    // j (RFC 7693, section 3.1).
    #[inline(always)]
    fn mix_each(v: &mut [Self; 16], a: usize, b: usize, c: usize, d: usize, x: Self, y: Self)
        requires { (a < b) × (b < c) × (c < d) × (d < 16) }
        ensures { (j : ℕ) → j < 8 → in_lane j v.new
            ≡ mix blake2s (in_lane j v.old) a b c d (slice_index x j) (slice_index y j) }
    {
        let (va, vb, vc, vd) = Self::mix(v[a], v[b], v[c], v[d], x, y);
        v[a] = va;
        v[b] = vb;
        v[c] = vc;
        v[d] = vd;
    }

    /// Replaces each of eight states by the one after a round: row k of `v` has their words k,
    /// and row k of `m` the words k of their blocks, used in the order `s` (RFC 7693, section
    /// 3.2). Each number of `s` must be below 16.
    #[inline(always)]
    pub fn round_each(v: &mut [Self; 16], m: &[Self; 16], s: &[usize; 16])
        requires { (j : ℕ) → j < 16 → slice_index s.now j < 16 }
        ensures { (j : ℕ) → j < 8
            → in_lane j v.new ≡ Round.round blake2s (in_lane j v.old) (in_lane j m.now) s.now }
    {
        Self::mix_each(v, 0, 4, 8, 12, m[s[0]], m[s[1]]);
        Self::mix_each(v, 1, 5, 9, 13, m[s[2]], m[s[3]]);
        Self::mix_each(v, 2, 6, 10, 14, m[s[4]], m[s[5]]);
        Self::mix_each(v, 3, 7, 11, 15, m[s[6]], m[s[7]]);
        Self::mix_each(v, 0, 5, 10, 15, m[s[8]], m[s[9]]);
        Self::mix_each(v, 1, 6, 11, 12, m[s[10]], m[s[11]]);
        Self::mix_each(v, 2, 7, 8, 13, m[s[12]], m[s[13]]);
        Self::mix_each(v, 3, 4, 9, 14, m[s[14]], m[s[15]]);
    }
}

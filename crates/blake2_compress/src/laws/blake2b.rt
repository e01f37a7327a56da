//! Laws of BLAKE2b.

ghost use Rattle.std.specs.Prelude.{◌≡◌, ◌≢◌, ℕ, ◌<◌, ◌≤◌, length, slice_index};
ghost use Rattle.blake2_simd.specs.Family.{blake2b};
ghost use Rattle.blake2_simd.specs.Round.{round};
ghost use Rattle.blake2_simd.specs.Rows.{work_words};
ghost use Rattle.blake2_compress.specs.Hash;
ghost use Rattle.blake2_compress.specs.DigestLaws.{TrailingZerosKeepDigest};

use blake2_simd::padded;
use blake2_simd::rows::u64x4;

/// Returns what a round makes of the sixteen words of `v`, and leaves `v` as it was: `unround`
/// undoes `round`, for any sixteen words of a block `m` and any row `s`. Each number of `s` must
/// be below 16.
pub fn unround_undoes_round(v: &mut [u64x4; 4], m: &[u64; 16], s: &[usize; 16]) -> [u64x4; 4]
    requires { (j : ℕ) → j < 16 → slice_index s.now j < 16 }
    ensures between { work_words result ≡ round blake2b (work_words v.old) m.now s.now }
    ensures undone { work_words v.new ≡ work_words v.old }
{
    // Their type says that they are words.
    let _words = u64x4::words(v);
    u64x4::round(v, m, s);
    let between = *v;
    u64x4::unround(v, m, s);
    between
}

/// Returns the words whose round `w` is, and leaves `w` as it was: `round` undoes `unround`. Each
/// number of `s` must be below 16.
pub fn round_undoes_unround(w: &mut [u64x4; 4], m: &[u64; 16], s: &[usize; 16]) -> [u64x4; 4]
    requires { (j : ℕ) → j < 16 → slice_index s.now j < 16 }
    ensures between { round blake2b (work_words result) m.now s.now ≡ work_words w.old }
    ensures undone { work_words w.new ≡ work_words w.old }
{
    u64x4::unround(w, m, s);
    let between = *w;
    u64x4::round(w, m, s);
    between
}

/// Replaces `a` and `b` by what a round, with the same `m` and `s`, makes of them. It turns
/// different lists of sixteen words into different lists. Each number of `s` must be below 16.
pub fn round_keeps_apart(a: &mut [u64x4; 4], b: &mut [u64x4; 4], m: &[u64; 16], s: &[usize; 16])
    requires { (j : ℕ) → j < 16 → slice_index s.now j < 16 }
    ensures first { work_words a.new ≡ round blake2b (work_words a.old) m.now s.now }
    ensures second { work_words b.new ≡ round blake2b (work_words b.old) m.now s.now }
    ensures apart { work_words a.old ≢ work_words b.old → work_words a.new ≢ work_words b.new }
{
    // Their type says that they are words.
    let _words = (u64x4::words(a), u64x4::words(b));
    u64x4::round(a, m, s);
    u64x4::round(b, m, s);
    // Only one list of words has the round that is now in `a`.
    let mut before = *a;
    u64x4::unround(&mut before, m, s);
}

/// Returns a salt or persona with zeros up to 16 bytes. It must have at most 16. Zeros after a
/// salt or a persona, within its 16 bytes, leave each digest as it is (the BLAKE2 document, 2.8).
pub fn padded_text(text: &[u8]) -> [u8; 16]
    requires { length text.now ≤ 16 }
    ensures padding { result ≡ Hash.padded 16 text.now }
    ensures law { TrailingZerosKeepDigest blake2b }
{
    padded(text)
}

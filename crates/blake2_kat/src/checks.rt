//! Checks, and transcripts and readings with room for them, that several tests of this crate share.

ghost use Rattle.std.specs.Prelude.{◌≤◌, length};

use blake2::digest::Update;
use blake2::transcripts::{Entry, Input, Reading, Transcript};
use blake2::{Blake2b256, Digest};
use blake2_test_support::inputs;
use blake2_test_support::inputs::has_hex_digits;
use std::fmt;
use std::process::Abort;

/// Checks that these digits are the bytes, as `has_hex_digits` returns.
pub(crate) fn check_digits(rt: &impl Abort, bytes: &[u8], digits: &str) {
    assert!(rt; has_hex_digits(bytes, digits), "not {digits}");
}

/// Checks that `Debug` writes this of the value.
pub(crate) fn check_debug<T: fmt::Debug>(rt: &(impl Abort + AllocGlobal), value: &T, wanted: &str) {
    let text = format!(in rt.alloc(); "{value:?}").expect(rt, wanted);
    assert!(rt; text.as_str() == wanted, "{text} in place of {wanted}");
}

/// Checks that BLAKE2b-256 of the bytes is this in hexadecimal.
pub(crate) fn check_digest_of(rt: &impl Abort, bytes: &[u8], wanted: &str) {
    check_digits(rt, &Blake2b256::digest(bytes), wanted);
}

/// Absorbs a short piece, if few bytes are counted so far, and checks the new count.
pub(crate) fn update_checked<S: Update>(rt: &impl Abort, state: &mut S, piece: &[u8]) {
    let before = state.counted();
    assert!(rt; before <= 0x10_0000 && piece.len() <= 0x1000);
    state.update(piece);
    let wanted = before + piece.len() as u64;
    assert!(rt; state.counted() == wanted, "{wanted}");
}

/// A transcript of these words and entries.
pub(crate) fn transcript<W: Drop, const B: usize>(
    rt: &(impl Abort + AllocGlobal),
    words: [W; 8],
    entries: &[Entry<B>],
) -> Transcript<W, B> {
    inputs::transcript(rt.alloc(), words, entries).expect(rt, "room for entries")
}

/// What a transcript of this input and output size is read as.
pub(crate) fn reading<const S: usize>(
    rt: &(impl Abort + AllocGlobal),
    input: &Input<'_>,
    output_size: usize,
) -> Reading<S>
    requires salt { length input.now.salt.now ≤ S }
    requires persona { length input.now.persona.now ≤ S }
{
    inputs::reading(rt.alloc(), input, output_size).expect(rt, "room for a reading")
}

// Made by tools/twins.py from src/laws/blake2b.rt.
//! What a transcript of BLAKE2s shows about its input.

ghost use Rattle.std.specs.Prelude.{◌≡◌, ◌↔◌, IsTrue};
ghost use Rattle.blake2_simd.specs.Family.{blake2s};
ghost use Rattle.blake2_transcript.specs.Transcript.{TranscriptDeterminesInput};

use crate::steps::Transcript;

/// Returns whether two transcripts are equal, words and entries. A transcript belongs to one
/// output size and, except for zeros after a salt and a persona, to one input: inputs with equal
/// transcripts are the same.
pub fn equal(a: &Transcript<u32, 64>, b: &Transcript<u32, 64>) -> bool
    ensures equal { IsTrue result
        ↔ ((a.now.words ≡ b.now.words) × (a.now.entries.items ≡ b.now.entries.items)) }
    ensures law { TranscriptDeterminesInput blake2s }
{
    a == b
}

//! What a transcript of BLAKE2b shows about its input.

ghost use Rattle.std.specs.Prelude.{◌≡◌, ◌↔◌, IsTrue};
ghost use Rattle.blake2_simd.specs.Family.{blake2b};
ghost use Rattle.blake2_transcript.specs.Transcript.{TranscriptDeterminesInput};

use crate::steps::Transcript;

/// Returns whether two transcripts are equal, words and entries. A transcript belongs to one
/// output size and, except for zeros after a salt and a persona, to one input: inputs with equal
/// transcripts are the same.
pub fn equal(a: &Transcript<u64, 128>, b: &Transcript<u64, 128>) -> bool
    ensures equal { IsTrue result
        ↔ ((a.now.words ≡ b.now.words) × (a.now.entries.items ≡ b.now.entries.items)) }
    ensures law { TranscriptDeterminesInput blake2b }
{
    a == b
}

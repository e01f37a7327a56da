//! Callers of `blake2::engine`, which runs a hasher over a stream, and of `blake2::steps`, which
//! has the steps of a run as values.

ghost use Rattle.std.specs.Prelude.{◌≡◌, ◌↔◌, ◌+◌, ◌<◌, ◌^◌, List, ℕ, length, map, false, [], None};
ghost use Rattle.std.specs.Prelude.{IfOk, IsSome, IfSome};
ghost use Rattle.std.specs.Io.KnownBytes.{Appends};
ghost use Rattle.blake2_streams.specs.Streams.{ReturnsAllBytes, line_of};
ghost use Rattle.blake2_transcript.specs.Transcript.{entry};
ghost use Rattle.blake2_transcript.specs.StepViews.{entries_of};
ghost use Rattle.blake2_compress.specs.Hash.{steps};
ghost use Rattle.blake2_compress.specs.Inputs.{Accepts};
ghost use Rattle.blake2_compress.specs.Views.{input_of};
ghost use Rattle.blake2_simd.specs.Family.{blake2b};
ghost use Rattle.blake2.specs.States.{digest_of};

use blake2::engine::{Sink, Source, StreamFault, hash_stream};
use blake2::steps::{Input, Transcript};
use blake2::{Blake2b256, Blake2bVarCore, Digest};
use std::alloc::{AllocError, Global};

/// Writes the digest of all that the source returns as a line, and returns how many bytes it read.
/// Neither device may have failed before. The error is a `StreamFault`.
pub fn print_digest<S: Source, K: Sink>(source: &mut S, sink: &mut K) -> Result<u64, StreamFault>
    requires source { S.failed source.old ≡ false }
    requires sink { K.failed sink.old ≡ false }
    ensures { IfOk result (λ n. (bytes : List ℕ) × (length bytes ≡ n)
        × ReturnsAllBytes (S.left source.old) (S.left source.new) bytes
        × Appends (K.held sink.old) (K.held sink.new)
        (line_of (digest_of blake2b 32 [] [] None bytes))) }
{
    hash_stream(source, sink, Blake2b256::new())
}

/// Returns the transcript of an input at a digest of 64 bytes, or `None` if BLAKE2b does not accept
/// the input. The error is `AllocError`, if an allocation fails.
pub fn transcript_of(
    alloc: Global,
    input: &Input<'_>,
) -> Result<Option<Transcript<u64, 128>>, AllocError>
    ensures accepted { IfOk result (λ t. IsSome t ↔ Accepts blake2b (input_of input.now)) }
    ensures steps { IfOk result (λ t. IfSome t (λ transcript.
        entries_of transcript ≡ map entry (steps blake2b 64 (input_of input.now)))) }
{
    if !Blake2bVarCore::accepts(input) {
        return Ok(None);
    }
    Ok(Some(Blake2bVarCore::transcript(alloc, input, 64)?))
}

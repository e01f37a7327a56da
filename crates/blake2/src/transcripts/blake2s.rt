// Made by tools/twins.py from src/transcripts/blake2b.rt.
//! The steps of BLAKE2s.

ghost use Rattle.std.specs.Prelude.{◌≡◌, ◌≤◌, ◌↔◌, map, IsTrue, IsOk, IsSome, IfOk, IfErr, IfSome};
ghost use Rattle.blake2_simd.specs.Family.{blake2s};
ghost use Rattle.blake2_compress.specs.Hash.{steps};
ghost use Rattle.blake2_compress.specs.Inputs.{Accepts};
ghost use Rattle.blake2_transcript.specs.Transcript.{entry, DescribesSomeInput, IsTranscript};
ghost use Rattle.blake2_transcript.specs.Transcript.{DescribesOnlyThisInput};
ghost use Rattle.blake2_compress.specs.Views.{input_of};
ghost use Rattle.blake2_transcript.specs.StepViews.{entries_of, input_of_reading, step_of};
ghost use Rattle.blake2_transcript.specs.Witness.{Collide, IsWitness};

use super::{Input, Reading, Step, Transcript};
use crate::cores::blake2s::Blake2sVarCore;
use blake2_compress::inputs::blake2s as inputs;
use blake2_transcript::collision::blake2s as collision;
use blake2_transcript::steps::blake2s as run;
use std::alloc::{AllocError, Global};

impl Blake2sVarCore {
    /// Returns whether BLAKE2s accepts the input: salt and persona have at most 8 bytes each,
    /// the key is absent or has 1 to 32 bytes, `admits_tree` is true of the tree parameters, and
    /// fewer than 2^64 bytes are counted, those of the message with 64 for a key (RFC 7693, 2.1;
    /// the BLAKE2 document, 2.8).
    pub fn accepts(input: &Input<'_>) -> bool
        ensures { IsTrue result ↔ Accepts blake2s (input_of input.now) }
    {
        inputs::accepts(input)
    }

    /// Returns the transcript of an input at a digest of `output_size` bytes, at most 32: the
    /// parameter words, and an entry for each block, with its counter and flags. The key, if
    /// there is one, is the first block (RFC 7693, 3.3). `accepts` must be true of the input. The
    /// error is `AllocError`, if there is no memory for a vector with exactly the room for the
    /// entries, of 80 bytes each.
    pub fn transcript(
        alloc: Global,
        input: &Input<'_>,
        output_size: usize,
    ) -> Result<Transcript<u32, 64>, AllocError>
        requires accepted { Accepts blake2s (input_of input.now) }
        requires output_size { output_size ≤ 32 }
        ensures transcript { IfOk result (λ t.
            IsTranscript blake2s t.words (entries_of t) output_size (input_of input.now)) }
        ensures steps { IfOk result (λ t.
            entries_of t ≡ map entry (steps blake2s output_size (input_of input.now))) }
    {
        run::transcript(alloc, input, output_size)
    }

    /// Returns the input and the output size that have this transcript, with salt and persona
    /// padded with zeros to 8 bytes, or `None` if no accepted input at a size of at most 32
    /// bytes has it. The error is `AllocError`, if an allocation fails. It comes only if some
    /// input has the transcript. The transcript stays as it is.
    pub fn read_transcript(
        alloc: Global,
        transcript: &Transcript<u32, 64>,
    ) -> Result<Option<Reading<8>>, AllocError>
        ensures some { IfOk result (λ r. IsSome r
            ↔ DescribesSomeInput blake2s transcript.now.words (entries_of transcript.now)) }
        ensures reading { IfOk result (λ r. IfSome r (λ x.
            DescribesOnlyThisInput blake2s transcript.now.words (entries_of transcript.now)
            x.output_size (input_of_reading x))) }
        ensures memory { IfErr result (λ _.
            DescribesSomeInput blake2s transcript.now.words (entries_of transcript.now)) }
    {
        run::read_transcript(alloc, transcript)
    }

    /// Returns the witness of a collision. For two inputs that are not the same and have equal
    /// digests of `output_size` bytes, it is a step of the first input's run and a step of the
    /// second's. These steps differ, and their outputs agree: in the first `output_size` bytes if
    /// they are the last of their runs, and in all bytes if they are not. They are at the same
    /// distance from the ends of their runs, and all steps nearer to the ends are equal in pairs.
    /// The result is `None` for all other inputs, such as two that differ only in zeros after a
    /// salt or a persona.
    ///
    /// `accepts` must be true of both inputs, and `output_size` is at most 32.
    ///
    /// The signature is that of `transcript` and `read_transcript`, which allocate memory. This
    /// call allocates none and never fails: it does not use `alloc`, and its result is always
    /// `Ok`.
    pub fn witness(
        alloc: Global,
        a: &Input<'_>,
        b: &Input<'_>,
        output_size: usize,
    ) -> Result<Option<(Step<u32, 64>, Step<u32, 64>)>, AllocError>
        requires a { Accepts blake2s (input_of a.now) }
        requires b { Accepts blake2s (input_of b.now) }
        requires output_size { output_size ≤ 32 }
        ensures ok { IsOk result }
        ensures some { IfOk result (λ pair. IsSome pair
            ↔ Collide blake2s output_size (input_of a.now) (input_of b.now)) }
        ensures pair { IfOk result (λ pair. IfSome pair (λ p.
            IsWitness blake2s (input_of a.now) (input_of b.now) output_size
            (step_of p.0) (step_of p.1))) }
    {
        collision::witness(alloc, a, b, output_size)
    }
}

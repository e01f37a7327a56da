//! The steps of BLAKE2b: blocks of 128 bytes, words of 64 bits, salts and personas of 16 bytes.

ghost use Rattle.std.specs.Prelude.{◌≡◌, ◌≤◌, ◌↔◌, map, IsTrue, IsSome, IfOk, IfErr, IfSome};
ghost use Rattle.blake2_simd.specs.Family.{blake2b, output_bytes};
ghost use Rattle.blake2_compress.specs.Hash.{steps};
ghost use Rattle.blake2_compress.specs.Inputs.{Accepts};
ghost use Rattle.blake2_transcript.specs.Transcript.{entry, DescribesSomeInput, IsTranscript};
ghost use Rattle.blake2_transcript.specs.Transcript.{DescribesOnlyThisInput};
ghost use Rattle.blake2_compress.specs.Views.{input_of, given_parameters};
ghost use Rattle.blake2_transcript.specs.StepViews.{entries_of, entry_of, input_of_reading};
ghost use Rattle.blake2_transcript.specs.Reader.{AreWellFormedEntries, IsReadable};

use super::{Entry, Reading, Transcript, entries, reader};
use blake2_compress::compress::blake2b::{to_bytes, to_rows};
use blake2_compress::inputs::{Input, blocks};
use blake2_compress::params::{Parameters, blake2b as params};
use std::alloc::{AllocError, Global};

/// Returns the transcript of an input at a digest of `output_size` bytes, at most 64: the
/// parameter words, and an entry for each block. The key, if there is one, is the first block
/// (RFC 7693, 3.3). `accepts` must be true of the input. The error is `AllocError`, if there is
/// no memory for a vector with exactly the room for the entries, of 144 bytes each.
pub fn transcript(
    alloc: Global,
    input: &Input<'_>,
    output_size: usize,
) -> Result<Transcript<u64, 128>, AllocError>
    requires accepted { Accepts blake2b (input_of input.now) }
    requires size { output_size ≤ output_bytes blake2b }
    ensures transcript { IfOk result
        (λ t. IsTranscript blake2b t.words (entries_of t) output_size (input_of input.now)) }
    ensures steps { IfOk result
        (λ t. entries_of t ≡ map entry (steps blake2b output_size (input_of input.now))) }
{
    let words = params::parameter_words(&blocks::input_parameters(input, output_size));
    let entries = entries::entries(alloc, input)?;
    Ok(Transcript { words, entries })
}

// Whether the words and entries are the transcript of some input with these parameters.
fn is_readable(told: &Parameters<'_>, words: &[u64; 8], entries: &[Entry<128>]) -> bool
    ensures readable { IsTrue result
        ↔ IsReadable blake2b (given_parameters told.now) words.now (map entry_of entries.now) }
    ensures typed { IsTrue result → AreWellFormedEntries blake2b (map entry_of entries.now) }
{
    let key_size = told.key_size;
    params::fits(told)
        && params::parameter_words(told) == *words
        && reader::is_run(entries)
        && (key_size == 0 || reader::has_key(entries, key_size))
}

/// Returns the input and the output size that have this transcript, with salt and persona padded
/// with zeros to 16 bytes, or `None` if no accepted input at a size of at most 64 bytes has it.
/// The error is `AllocError`, if an allocation fails. It comes only if some input has the
/// transcript: all tests come before the first allocation. The transcript stays as it is.
pub fn read_transcript(
    alloc: Global,
    transcript: &Transcript<u64, 128>,
) -> Result<Option<Reading<16>>, AllocError>
    ensures some { IfOk result
        (λ r. IsSome r ↔ DescribesSomeInput blake2b transcript.now.words
        (entries_of transcript.now)) }
    ensures reading { IfOk result (λ r. IfSome r (λ x.
        DescribesOnlyThisInput blake2b transcript.now.words (entries_of transcript.now)
        x.output_size (input_of_reading x))) }
    ensures memory { IfErr result
        (λ _. DescribesSomeInput blake2b transcript.now.words (entries_of transcript.now)) }
{
    let words = &transcript.words;
    let entries = transcript.entries.as_slice();
    let block = to_bytes(&to_rows(words));
    let told = params::parameters_in(&block);
    if !is_readable(&told, words, entries) {
        return Ok(None);
    }
    Ok(Some(reader::input_of_entries(alloc, &told, entries)?))
}

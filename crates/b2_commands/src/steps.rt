//! `b2 steps`: the transcript of the input.

ghost use Rattle.std.specs.Prelude.{◌≡◌, ◌≤◌, ◌↔◌, ◌++◌, map, false, IsTrue, OnOk, IsOkUnless};
ghost use Rattle.std.specs.List.{flat_map};
ghost use Rattle.std.specs.Result.{IsErrOf};
ghost use Rattle.std.specs.Io.KnownBytes.{Appends};
ghost use Rattle.blake2.specs.Family.{blake2b, blake2s};
ghost use Rattle.blake2.specs.MacArguments.{key_count};
ghost use Rattle.blake2.specs.Views.{input_of, key_of};
ghost use Rattle.blake2.specs.StepViews.{entry_of, entries_of};
ghost use Rattle.b2_commands.specs.ReadOptions.{given_options};
ghost use Rattle.b2_commands.specs.Tasks.{input_with, IsRefusedByFamily};
ghost use Rattle.b2_commands.specs.TaskEnds.{EndsByPrinting};
ghost use Rattle.b2_commands.specs.Inputs.{IsKeyOfBytes, ConsistsOfBytes};
ghost use Rattle.b2_commands.specs.PrintedLines.{entry_line, parameter_words_line};
ghost use Rattle.b2_commands.specs.PrintedLines.{transcript_lines};

use crate::arguments::Options;
use crate::fault::Fault;
use crate::input::read_all;
use crate::print::Line;
use blake2::digest::tell_bytes;
use blake2::streams::{Sink, Source};
use blake2::transcripts::{Entry, Input, Transcript, Tree};
use blake2::{Blake2bVarCore, Blake2sVarCore};
use std::alloc::Global;

/// Prints the transcript of all that the source returns under BLAKE2b, with digests of
/// `output_size` bytes, at most 64: a line of its parameter words, and then a line for each
/// entry. The whole input is held in memory, and next to it the transcript, which has about the
/// same number of bytes. Neither device may have failed before.
///
/// The error is a `Fault`: `WrongLength` if BLAKE2b does not accept the length of a key, salt or
/// persona; `ReadFailed` if a read returns an error; `TooLong` if the input, with the key's block
/// if there is a key, has 2^64 bytes or more; `NoMemory` if an allocation fails; `WriteFailed` if
/// a write fails. If it is not `WriteFailed`, nothing was printed.
#[tactic(auto, unfolding(blake2::specs::MacArguments::HasRefusedLength))]
pub(crate) fn steps_blake2b<S: Source, K: Sink>(
    alloc: Global,
    options: &Options,
    output_size: usize,
    source: &mut S,
    sink: &mut K,
) -> Result<(), Fault>
    requires size { output_size ≤ 64 }
    requires source { S.failed source.old ≡ false }
    requires sink { K.failed sink.old ≡ false }
    ensures length { IsErrOf result Fault.WrongLength
        ↔ IsRefusedByFamily blake2b (given_options options.now) }
    ensures read { IsErrOf result Fault.ReadFailed ↔ IsTrue (S.failed source.new) }
    ensures write { IsErrOf result Fault.WriteFailed ↔ IsTrue (K.failed sink.new) }
    ensures ends { EndsByPrinting (λ message.
        transcript_lines blake2b output_size (input_with (given_options options.now) message))
        (key_count blake2b (given_options options.now).key) result (S.left source.old)
        (K.held sink.old) (K.held sink.new) }
{
    // The lengths are checked before the input is read.
    if !Blake2bVarCore::accepts(&input_under(options, &[])) {
        return Err(Fault::WrongLength);
    }
    let message = read_all(alloc, source)?;
    let input = input_under(options, message.as_slice());
    if !Blake2bVarCore::accepts(&input) {
        return Err(Fault::TooLong);
    }
    let transcript = Blake2bVarCore::transcript(alloc, &input, output_size)?;
    print_blake2b(&transcript, sink)
}

// Prints the lines of a transcript: its parameter words, and then its entries. The sink must not
// have failed before. The error is `Fault::WriteFailed`, if a write fails.
fn print_blake2b<K: Sink>(transcript: &Transcript<u64, 128>, sink: &mut K) -> Result<(), Fault>
    requires { K.failed sink.old ≡ false }
    ensures write { IsErrOf result Fault.WriteFailed ↔ IsTrue (K.failed sink.new) }
    ensures fault { IsOkUnless result Fault.WriteFailed }
    ensures lines { OnOk result (Appends (K.held sink.old) (K.held sink.new)
        (parameter_words_line blake2b transcript.now.words
        ++ flat_map entry_line (entries_of transcript.now))) }
{
    let mut line = Line::starting(b"w");
    line.add_words_of_64(&transcript.words);
    line.print(sink)?;
    print_entries(transcript.entries.as_slice(), sink)
}

/// Does what `steps_blake2b` does, under BLAKE2s, with digests of at most 32 bytes.
#[tactic(auto, unfolding(blake2::specs::MacArguments::HasRefusedLength))]
pub(crate) fn steps_blake2s<S: Source, K: Sink>(
    alloc: Global,
    options: &Options,
    output_size: usize,
    source: &mut S,
    sink: &mut K,
) -> Result<(), Fault>
    requires size { output_size ≤ 32 }
    requires source { S.failed source.old ≡ false }
    requires sink { K.failed sink.old ≡ false }
    ensures length { IsErrOf result Fault.WrongLength
        ↔ IsRefusedByFamily blake2s (given_options options.now) }
    ensures read { IsErrOf result Fault.ReadFailed ↔ IsTrue (S.failed source.new) }
    ensures write { IsErrOf result Fault.WriteFailed ↔ IsTrue (K.failed sink.new) }
    ensures ends { EndsByPrinting (λ message.
        transcript_lines blake2s output_size (input_with (given_options options.now) message))
        (key_count blake2s (given_options options.now).key) result (S.left source.old)
        (K.held sink.old) (K.held sink.new) }
{
    // The lengths are checked before the input is read.
    if !Blake2sVarCore::accepts(&input_under(options, &[])) {
        return Err(Fault::WrongLength);
    }
    let message = read_all(alloc, source)?;
    let input = input_under(options, message.as_slice());
    if !Blake2sVarCore::accepts(&input) {
        return Err(Fault::TooLong);
    }
    let transcript = Blake2sVarCore::transcript(alloc, &input, output_size)?;
    print_blake2s(&transcript, sink)
}

// Prints the lines of a transcript: its parameter words, and then its entries. The sink must not
// have failed before. The error is `Fault::WriteFailed`, if a write fails.
fn print_blake2s<K: Sink>(transcript: &Transcript<u32, 64>, sink: &mut K) -> Result<(), Fault>
    requires { K.failed sink.old ≡ false }
    ensures write { IsErrOf result Fault.WriteFailed ↔ IsTrue (K.failed sink.new) }
    ensures fault { IsOkUnless result Fault.WriteFailed }
    ensures lines { OnOk result (Appends (K.held sink.old) (K.held sink.new)
        (parameter_words_line blake2s transcript.now.words
        ++ flat_map entry_line (entries_of transcript.now))) }
{
    let mut line = Line::starting(b"w");
    line.add_words_of_32(&transcript.words);
    line.print(sink)?;
    print_entries(transcript.entries.as_slice(), sink)
}

// Returns the input of this message, with the options' key, salt and persona.
fn input_under<'a>(options: &'a Options, message: &'a [u8]) -> Input<'a>
    ensures input { input_of result ≡ input_with (given_options options.now) message.now }
    ensures bytes { ConsistsOfBytes (input_of result) }
{
    let input = Input {
        salt: options.salt(),
        persona: options.persona(),
        key: options.key(),
        tree: Tree::sequential(),
        last_node: false,
        message,
    };
    tell_bytes(input.salt);
    tell_bytes(input.persona);
    tell_key_bytes(&input.key);
    input
}

// Does nothing. It shows proofs that a key, if there is one, is a list of bytes.
fn tell_key_bytes(key: &Option<&[u8]>)
    ensures { IsKeyOfBytes (key_of key.now) }
{
    if let Some(key) = *key {
        tell_bytes(key);
    }
}

// Prints a line for each entry, whose block has at most 128 bytes. The sink must not have failed
// before. The error is `Fault::WriteFailed`, if a write fails.
fn print_entries<K: Sink, const B: usize>(entries: &[Entry<B>], sink: &mut K) -> Result<(), Fault>
    requires block { B ≤ 128 }
    requires sink { K.failed sink.old ≡ false }
    ensures write { IsErrOf result Fault.WriteFailed ↔ IsTrue (K.failed sink.new) }
    ensures fault { IsOkUnless result Fault.WriteFailed }
    ensures lines { OnOk result
        (Appends (K.held sink.old) (K.held sink.new)
        (flat_map entry_line (map entry_of entries.now))) }
{
    for entry in entries {
        print_entry(entry, sink)?;
    }
    Ok(())
}

// Prints an entry's line: its counter, its final flag and its block of at most 128 bytes. The
// sink must not have failed before. The error is `Fault::WriteFailed`, if a write fails.
fn print_entry<K: Sink, const B: usize>(entry: &Entry<B>, sink: &mut K) -> Result<(), Fault>
    requires block { B ≤ 128 }
    requires sink { K.failed sink.old ≡ false }
    ensures write { IsErrOf result Fault.WriteFailed ↔ IsTrue (K.failed sink.new) }
    ensures fault { IsOkUnless result Fault.WriteFailed }
    ensures line { OnOk result
        (Appends (K.held sink.old) (K.held sink.new) (entry_line (entry_of entry.now))) }
{
    let mut line = Line::starting(b"e");
    line.add_number(entry.counter);
    line.add_flag(entry.last);
    line.add_block(&entry.block);
    line.print(sink)
}

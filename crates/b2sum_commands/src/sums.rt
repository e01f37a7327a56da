//! The digests of files.

ghost use Rattle.std.specs.Prelude.{◌++◌, ◌∷◌, []};
ghost use Rattle.hex.specs.Hex.{encode_lower};
ghost use Rattle.b2sum_commands.specs.PrintedSums.{printed, line_terminator};
ghost use Rattle.std.specs.Prelude.{◌≡◌, ◌≢◌, ℕ, ◌≤◌, List, length, map, take, true, false, IfOk};
ghost use Rattle.std.specs.Prelude.{IsErrOf, IsOkUnless, IfErr, OnOk, OnErr, Some, ◌⊎◌, ◌<◌, ◌^◌};
ghost use Rattle.std.specs.Io.KnownBytes.{Appends};
ghost use Rattle.blake2_streams.specs.Streams.{ReturnsAllBytes};
ghost use Rattle.std.specs.Result.{result_ok};
ghost use Rattle.b2sum_commands.specs.declared.sums.Read.TheVariants.{Whole, Missing, Failed};
ghost use Rattle.b2sum_commands.specs.Messages.{is_standard_input};
ghost use Rattle.b2sum_commands.specs.ReadAhead.{AreDigestsOfFiles};
ghost use Rattle.b2sum_commands.specs.World.{
  world_of,
  NamesAreDoneInTurn,
  KeepsOutputAndPlace,
  AcceptsNothingOrPart,
};
ghost use Rattle.b2sum_commands.specs.PrintedSums.{
  SourceHasText,
  KeepsInputUnlessRead,
  FileIsMissing,
  DigestLineIsPrinted,
};
ghost use Rattle.b2sum_commands.specs.PrintedSums.{terminated_line, ListKeepsPrinted};
ghost use Rattle.b2sum_commands.specs.PrintedSums.{TellsWhyNoDigest};

use crate::ahead::{Ahead, digest_ahead, go_on};
use crate::devices::{Disk, Fault, OpenFile, Output, put};
use crate::hashes::{Function, Hashes};
use crate::messages::warn_of_file;
use crate::options::{Options, Shape};
use crate::session::{Host, Session};
use b2sum_lines::{Entry, write_line, write_plain_line};
use blake2_streams::Sink;
use std::alloc::Global;
use std::io;

/// What reading a file for its digest returns.
#[derive(Clone, Copy, Debug, PartialEq, Eq)]
pub(crate) enum Read {
    /// The digest is in the buffer.
    Whole,
    /// There is no such file, and that is to be ignored.
    Missing,
    /// The file cannot be read, as a message says.
    Failed,
}

/// Writes the digest of the file of this name, or of standard input for `-`, by this function at
/// the front of `out`: that which was made ahead, if the file was read before its turn. A file that
/// cannot be read has a message.
pub(crate) fn digest_file<H: Hashes, D: Disk, K: Output, E: Sink>(
    host: &Host<H, D>,
    options: &Options,
    session: &mut Session<D::File, K, E>,
    ahead: &Ahead,
    name: &[u8],
    function: Function,
    out: &mut [u8; 64],
) -> Result<Read, Fault>
    requires { AreDigestsOfFiles (D.files host.now.disk) H.hashing options.now
        ahead.now.found.items }
    ensures whole { IfOk result (λ read. read ≡ Whole → (text : List ℕ)
        × SourceHasText (is_standard_input name.now) ((D.files host.now.disk).holds name.now)
        session.old.left session.new.left text
        × (take function.bytes out.new ≡ H.hashing.digest options.now function text)) }
    ensures missing { IfOk result (λ read. read ≡ Missing → (options.now.ignores_missing ≡ true)
        × (is_standard_input name.now ≡ false) × FileIsMissing (D.files host.now.disk) name.now) }
    ensures told { IfOk result (λ read. read ≡ Failed → TellsWhyNoDigest
        (world_of host.now.program.name.items D.File.named D.File.failed D.File.failure
        (D.files host.now.disk) H.hashing)
        options.now function name.now session.old session.new) }
    ensures silent { IfOk result (λ read. read ≢ Failed → session.new.told ≡ session.old.told) }
    ensures leaves { KeepsInputUnlessRead (is_standard_input name.now) session.old.left
        session.new.left }
    ensures output { KeepsOutputAndPlace session.old session.new }
    ensures memory { IsOkUnless result Fault.NoMemory }
{
    let hashes = &host.hashes;
    if is_standard_input(name) {
        let input = &mut session.input;
        let buffer = session.buffer.as_mut_slice();
        if let Err(error) = digest_open(hashes, options, function, input, buffer, out) {
            warn_of_file(host, error, &mut session.messages, name)?;
            return Ok(Read::Failed);
        }
        return Ok(Read::Whole);
    }
    if let Some(digest) = digest_ahead(host, options, ahead, name, function) {
        *out = digest;
        return Ok(Read::Whole);
    }
    let mut file = match host.disk.open(host.program.alloc, name) {
        Ok(file) => file,
        Err(error) => {
            if options.ignores_missing && error.kind() == io::ErrorKind::NotFound {
                return Ok(Read::Missing);
            }
            warn_of_file(host, error, &mut session.messages, name)?;
            return Ok(Read::Failed);
        }
    };
    let buffer = session.buffer.as_mut_slice();
    if let Err(error) = digest_open(hashes, options, function, &mut file, buffer, out) {
        warn_of_file(host, error, &mut session.messages, name)?;
        return Ok(Read::Failed);
    }
    Ok(Read::Whole)
}

// Writes the digest of what is left of an open file, by this function, at the front of `out`. The
// error is that of a read, now or before, or any if the hash function refuses the file.
fn digest_open<H: Hashes, F: OpenFile>(
    hashes: &H,
    options: &Options,
    function: Function,
    source: &mut F,
    buffer: &mut [u8],
    out: &mut [u8; 64],
) -> io::Result<()>
    requires room { 0 < length buffer.old }
    requires most { length buffer.old ≤ 2 ^ 24 }
    ensures whole { OnOk result ((text : List ℕ)
        × ReturnsAllBytes (F.left source.old) (F.left source.new) text
        × (take function.bytes out.new ≡ H.hashing.digest options.now function text)) }
    ensures error { IfErr result (λ e. ((F.failed source.new ≡ true)
        × (F.failure source.new ≡ Some e))
        ⊎ (H.hashing.rejects options.now function ≡ true)) }
    ensures name { F.named source.new ≡ F.named source.old }
{
    if source.failed() {
        return Err(source.last_error());
    }
    if hashes
        .digest_source(options, function, source, buffer, out)
        .is_ok()
    {
        return Ok(());
    }
    Err(source.last_error())
}

/// Prints the line of each file, and nothing else. Returns whether all were read. A file that
/// cannot be read has a message. The digests have at most 64 bytes. The error is
/// `Fault::NoMemory` or `Fault::WriteFailed`; the lines before it are printed, and of the next
/// nothing or a part.
pub fn print_sums<H: Hashes, D: Disk, K: Output, E: Sink>(
    host: &Host<H, D>,
    options: &Options,
    session: &mut Session<D::File, K, E>,
    names: &[Vec<u8>],
) -> Result<bool, Fault>
    requires { options.now.bytes ≤ 64 }
    ensures lines { NamesAreDoneInTurn (DigestLineIsPrinted
        (world_of host.now.program.name.items D.File.named D.File.failed D.File.failure
        (D.files host.now.disk) H.hashing) options.now)
        (map (λ name. name.items) names.now) session.old session.new (result_ok result) }
    ensures write { IsErrOf result Fault.WriteFailed → session.new.output_failed ≡ true }
{
    let mut list = Vec::new(host.program.alloc);
    print_lines(host, options, session, names, &mut list)
}

/// Prints the lines of files, as `print_sums` does, and appends them to the list, if it is to be
/// sealed.
pub(crate) fn print_lines<H: Hashes, D: Disk, K: Output, E: Sink>(
    host: &Host<H, D>,
    options: &Options,
    session: &mut Session<D::File, K, E>,
    names: &[Vec<u8>],
    list: &mut Vec<u8>,
) -> Result<bool, Fault>
    requires { options.now.bytes ≤ 64 }
    ensures lines { NamesAreDoneInTurn (DigestLineIsPrinted
        (world_of host.now.program.name.items D.File.named D.File.failed D.File.failure
        (D.files host.now.disk) H.hashing) options.now)
        (map (λ name. name.items) names.now) session.old session.new (result_ok result) }
    ensures kept { IfOk result
        (λ _. ListKeepsPrinted options.now.is_sealed session.old.held session.new.held
        list.old.items list.new.items) }
    ensures write { IsErrOf result Fault.WriteFailed → session.new.output_failed ≡ true }
{
    let mut are_read = true;
    let mut ahead = Ahead::new(host.program.alloc);
    for name in names {
        go_on(host, options, names, &mut ahead);
        let is_read = print_sum(host, options, session, &ahead, name.as_slice(), list)?;
        are_read &= is_read;
    }
    Ok(are_read)
}

// Prints the line of a file, and appends it to the list, if that is to be sealed. Returns whether
// the file was read.
fn print_sum<H: Hashes, D: Disk, K: Output, E: Sink>(
    host: &Host<H, D>,
    options: &Options,
    session: &mut Session<D::File, K, E>,
    ahead: &Ahead,
    name: &[u8],
    list: &mut Vec<u8>,
) -> Result<bool, Fault>
    requires bytes { options.now.bytes ≤ 64 }
    requires ahead { AreDigestsOfFiles (D.files host.now.disk) H.hashing options.now
        ahead.now.found.items }
    ensures line { DigestLineIsPrinted
        (world_of host.now.program.name.items D.File.named D.File.failed D.File.failure
        (D.files host.now.disk) H.hashing)
        options.now name.now session.old session.new (result_ok result) }
    ensures kept { IfOk result
        (λ _. ListKeepsPrinted options.now.is_sealed session.old.held session.new.held
        list.old.items list.new.items) }
    ensures write { IsErrOf result Fault.WriteFailed → session.new.output_failed ≡ true }
{
    let mut digest = [0u8; 64];
    let size = options.bytes;
    let function = Function {
        algorithm: options.algorithm,
        bytes: size,
    };
    let read = digest_file(host, options, session, ahead, name, function, &mut digest)?;
    if read != Read::Whole {
        return Ok(false);
    }
    let all = &digest[..];
    let line = printed(host.program.alloc, options, &all[..size], name)?;
    put_line(options, &mut session.output, list, line.as_slice())?;
    Ok(true)
}

// Prints a line, and appends it to the list, if that is to be sealed.
fn put_line<K: Sink>(
    options: &Options,
    output: &mut K,
    list: &mut Vec<u8>,
    line: &[u8],
) -> Result<(), Fault>
    ensures whole { OnOk result (Appends (K.held output.old) (K.held output.new) line.now) }
    ensures part { OnErr result
        (AcceptsNothingOrPart (K.held output.old) (K.held output.new) line.now) }
    ensures kept { OnOk result (ListKeepsPrinted options.now.is_sealed (K.held output.old)
        (K.held output.new) list.old.items list.new.items) }
    ensures write { IsErrOf result Fault.WriteFailed → K.failed output.new ≡ true }
{
    if options.is_sealed {
        list.extend_from_slice(line)?;
    }
    put(output, line)?;
    Ok(())
}

// Returns what is printed of a digest and a name.
fn printed(alloc: Global, options: &Options, digest: &[u8], name: &[u8]) -> Result<Vec<u8>, Fault>
    requires { length digest.now ≤ 64 }
    ensures text { IfOk result (λ text. text.items
        ≡ printed options.now.shape options.now.ends_zero (record {
          algorithm = options.now.algorithm;
          digest = digest.now;
          name = name.now;
          style = options.now.style;
        })) }
    ensures memory { IsOkUnless result Fault.NoMemory }
{
    match options.shape {
        Shape::Named => line_of(alloc, options, digest, name),
        Shape::Digits => digits_of(alloc, options, digest),
        Shape::Bytes => copied(alloc, digest),
    }
}

// Returns the digits of a digest, with the end of a line.
fn digits_of(alloc: Global, options: &Options, digest: &[u8]) -> Result<Vec<u8>, Fault>
    ensures text { IfOk result (λ text. text.items
        ≡ encode_lower digest.now ++ (line_terminator options.now.ends_zero ∷ [])) }
    ensures memory { IsOkUnless result Fault.NoMemory }
{
    let mut text = copied(alloc, hex::encode(alloc, digest)?.as_bytes())?;
    text.push(if options.ends_zero { 0 } else { b'\n' })
        .map_err(|_| Fault::NoMemory)?;
    Ok(text)
}

// Returns the line of a digest and a name, with its end.
fn line_of(alloc: Global, options: &Options, digest: &[u8], name: &[u8]) -> Result<Vec<u8>, Fault>
    requires { length digest.now ≤ 64 }
    ensures line { IfOk result (λ line. line.items ≡ terminated_line options.now.ends_zero (record {
      algorithm = options.now.algorithm;
      digest = digest.now;
      name = name.now;
      style = options.now.style;
    })) }
    ensures memory { IsOkUnless result Fault.NoMemory }
{
    let entry = Entry {
        algorithm: options.algorithm,
        digest: copied(alloc, digest)?,
        name: copied(alloc, name)?,
        style: options.style,
    };
    let mut line = if options.ends_zero {
        write_plain_line(alloc, &entry)?
    } else {
        write_line(alloc, &entry)?
    };
    line.push(if options.ends_zero { 0 } else { b'\n' })
        .map_err(|_| Fault::NoMemory)?;
    Ok(line)
}

fn copied(alloc: Global, bytes: &[u8]) -> Result<Vec<u8>, Fault>
    ensures same { IfOk result (λ copy. copy.items ≡ bytes.now) }
    ensures memory { IsOkUnless result Fault.NoMemory }
{
    let mut copy = Vec::new(alloc);
    copy.extend_from_slice(bytes)?;
    Ok(copy)
}

/// Returns whether the name is `-`, which means standard input.
pub(crate) fn is_standard_input(name: &[u8]) -> bool
    ensures { result ≡ is_standard_input name.now }
{
    name == b"-".as_slice()
}

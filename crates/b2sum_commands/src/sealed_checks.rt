//! The check of lists that are sealed.

ghost use Rattle.std.specs.Prelude.{◌≡◌, ◌⊎◌, ℕ, ◌<◌, ◌≤◌, List, Option, None, length, true};
ghost use Rattle.std.specs.Prelude.{IfOk, IfSome, IsErr, IsErrOf, IsOkUnless};
ghost use Rattle.std.specs.Io.KnownBytes.{Consumes, IsAtEnd};
ghost use Rattle.std.specs.Result.{result_ok};
ghost use Rattle.std.specs.declared.io.Error.{Error};
ghost use Rattle.text_lines.specs.Cuts.{lines_of};
ghost use Rattle.b2sum_commands.specs.declared.check.Verdict as verdict;
ghost use Rattle.b2sum_commands.specs.ManifestChecks.{IsWholeText};
ghost use Rattle.b2sum_commands.specs.Manifests.{StopsInLine, LineIsChecked};
ghost use Rattle.b2sum_commands.specs.Messages.{Cannot, is_standard_input, message};
ghost use Rattle.b2sum_commands.specs.Reports.{CountsMatchVerdicts};
ghost use Rattle.b2sum_commands.specs.LongLists.{HasMoreBytesThan, list_too_long_reason};
ghost use Rattle.b2sum_commands.specs.SealedLists.{ListOrManifestIsChecked, ListIsNotRead};
ghost use Rattle.b2sum_commands.specs.World.{
  OpenFileHasError,
  AreDoneInTurn,
  IsStoppedInTurn,
  SinkAcceptsOrFails,
  world_of,
};

use crate::ahead::Ahead;
use crate::check::{Counts, check_line, end_manifest};
use crate::devices::{Disk, Fault, OpenFile, Output};
use crate::folder_checks::has_all;
use crate::hashes::Hashes;
use crate::listed_ahead::{Unchecked, go_on_in_list};
use crate::messages::{warn_of_file, warn_of_name};
use crate::options::Options;
use crate::seals::is_sealed;
use crate::session::{Host, Session};
use crate::sums::is_standard_input;
use blake2_streams::Sink;
use std::alloc::{AllocError, Global};
use text_lines::split_line;

/// The most bytes of a list.
pub(crate) const MOST_BYTES: usize = 1 << 28;

// The number of bytes that a read requests.
const PIECE_BYTES: usize = 1 << 16;

/// Checks the sealed list of this name, or standard input for `-`. All of it is read once, and
/// nothing of it is used before its last line is found to seal it. Then it is checked as a manifest
/// is, and all that is in the folders of the options has to be listed. Returns whether it is
/// sealed, holds as a manifest, and lists that.
pub(crate) fn check_sealed<H: Hashes, D: Disk, K: Output, E: Sink>(
    host: &Host<H, D>,
    options: &Options,
    session: &mut Session<D::File, K, E>,
    name: &[u8],
) -> Result<bool, Fault>
    ensures checked { ListOrManifestIsChecked true
        (world_of host.now.program.name.items D.File.named D.File.failed D.File.failure
        (D.files host.now.disk) H.hashing)
        options.now name.now session.old session.new (result_ok result) }
    ensures write { IsErrOf result Fault.WriteFailed → session.new.output_failed ≡ true }
{
    session.begin_manifest(host.program.alloc, options, name)?;
    let Some(list) = read_list(host, session, name, MOST_BYTES)? else {
        return Ok(false);
    };
    let text = list.as_slice();
    if !is_sealed(host.program.alloc, &host.hashes, options, text)? {
        let reason = b"the seal does not hold";
        warn_of_name(&host.program, &mut session.messages, name, reason)?;
        return Ok(false);
    }
    let is_input = is_standard_input(name);
    let spacing = session.spacing();
    let counts = check_text(host, options, session, is_input, text)?;
    let (program, messages) = (&host.program, &mut session.messages);
    let holds = end_manifest(program, options, messages, name, Some(counts))?;
    let has_all = has_all(host, options, session, spacing, is_input, text)?;
    Ok(holds & has_all)
}

// Returns all bytes of the list of this name. The result is `None` if it cannot be read, or has
// more bytes than `most`, after a message.
fn read_list<H: Hashes, D: Disk, K: Output, E: Sink>(
    host: &Host<H, D>,
    session: &mut Session<D::File, K, E>,
    name: &[u8],
    most: usize,
) -> Result<Option<Vec<u8>>, Fault>
    ensures text { IfOk result (λ found. IfSome found (λ list. (left : Option (List ℕ))
        × (session.new ≡ record session.old { left = left })
        × IsWholeText (is_standard_input name.now) ((D.files host.now.disk).holds name.now)
        session.old.left left list.items
        × (length list.items ≤ most))) }
    ensures unlisted { IfOk result (λ found. found ≡ None → ListIsNotRead
        (world_of host.now.program.name.items D.File.named D.File.failed D.File.failure
        (D.files host.now.disk) H.hashing) name.now most session.old session.new) }
    ensures held { session.new.held ≡ session.old.held }
    ensures memory { IsOkUnless result Fault.NoMemory }
{
    let messages = &mut session.messages;
    if is_standard_input(name) {
        return read_list_from(host, &mut session.input, name, most, messages);
    }
    match host.disk.open(host.program.alloc, name) {
        Ok(mut file) => read_list_from(host, &mut file, name, most, messages),
        Err(error) => {
            warn_of_file(host, error, messages, name)?;
            Ok(None)
        }
    }
}

/// Returns all bytes of an open list of this name, as `read_list` does.
pub(crate) fn read_list_from<H, D: Disk, E: Sink>(
    host: &Host<H, D>,
    file: &mut D::File,
    name: &[u8],
    most: usize,
    messages: &mut E,
) -> Result<Option<Vec<u8>>, Fault>
    requires { D.File.named file.old ≡ name.now }
    ensures text { IfOk result (λ found. IfSome found (λ list.
        Consumes (D.File.left file.old) (D.File.left file.new) list.items
        × IsAtEnd (D.File.left file.new) × (length list.items ≤ most))) }
    ensures kept { IfOk result (λ found. IfSome found (λ _. messages.new ≡ messages.old)) }
    ensures name { D.File.named file.new ≡ name.now }
    ensures told { IfOk result (λ found. found ≡ None → (reason : List ℕ)
        × (((e : Error) × OpenFileHasError D.File.named D.File.failed D.File.failure name.now e
        × (D.files host.now.disk).describes e reason)
        ⊎ (HasMoreBytesThan (D.File.left file.old) most × (reason ≡ list_too_long_reason)))
        × SinkAcceptsOrFails (E.failed messages.old) (E.failed messages.new) (E.held messages.old)
        (E.held messages.new) (message host.now.program.name.items (Cannot name.now reason))) }
    ensures memory { IsOkUnless result Fault.NoMemory }
{
    let mut piece = new_piece(host.program.alloc)?;
    let piece = piece.as_mut_slice();
    let Some(list) = read_whole(host.program.alloc, file, piece, most)? else {
        warn_of_file(host, file.last_error(), messages, name)?;
        return Ok(None);
    };
    if list.len() > most {
        let reason = b"the list has more than 268435456 bytes";
        warn_of_name(&host.program, messages, name, reason)?;
        return Ok(None);
    }
    Ok(Some(list))
}

// Returns what a read writes to.
fn new_piece(alloc: Global) -> Result<Vec<u8>, AllocError>
    ensures { IfOk result (λ piece. 0 < length piece.items) }
{
    vec![in alloc; 0u8; PIECE_BYTES]
}

// Returns all bytes that the source returns, or more than `most` if it has more. Each read writes
// to the piece. The result is `None` if a read failed.
fn read_whole<S: OpenFile>(
    alloc: Global,
    source: &mut S,
    piece: &mut [u8],
    most: usize,
) -> Result<Option<Vec<u8>>, Fault>
    requires { 0 < length piece.old }
    ensures given { IfOk result (λ found. IfSome found
        (λ list. Consumes (S.left source.old) (S.left source.new) list.items)) }
    ensures whole { IfOk result (λ found. IfSome found
        (λ list. length list.items ≤ most → IsAtEnd (S.left source.new))) }
    ensures failed { IfOk result (λ found. found ≡ None → S.failed source.new ≡ true) }
    ensures name { S.named source.new ≡ S.named source.old }
    ensures memory { IsOkUnless result Fault.NoMemory }
{
    let mut list = Vec::new(alloc);
    for _ in 0..u64::MAX {
        let Ok(count) = source.read(piece) else {
            return Ok(None);
        };
        if count == 0 {
            return Ok(Some(list));
        }
        list.extend_from_slice(&piece[..count])?;
        if list.len() > most {
            return Ok(Some(list));
        }
    }
    Err(Fault::NoMemory)
}

// Checks each line of a text, and prints what became of the entries. `is_input` says that the text
// is that of standard input.
fn check_text<H: Hashes, D: Disk, K: Output, E: Sink>(
    host: &Host<H, D>,
    options: &Options,
    session: &mut Session<D::File, K, E>,
    is_input: bool,
    text: &[u8],
) -> Result<Counts, Fault>
    ensures lines { IfOk result
        (λ counts. (vs : List verdict.Verdict) × AreDoneInTurn (LineIsChecked
        (world_of host.now.program.name.items D.File.named D.File.failed D.File.failure
        (D.files host.now.disk) H.hashing) options.now is_input)
        (lines_of text.now) session.old session.new vs × CountsMatchVerdicts vs counts) }
    ensures stopped { IsErr result → IsStoppedInTurn (LineIsChecked
        (world_of host.now.program.name.items D.File.named D.File.failed D.File.failure
        (D.files host.now.disk) H.hashing) options.now is_input) (StopsInLine
        (world_of host.now.program.name.items D.File.named D.File.failed D.File.failure
        (D.files host.now.disk) H.hashing) options.now is_input)
        (lines_of text.now) session.old session.new }
    ensures write { IsErrOf result Fault.WriteFailed → session.new.output_failed ≡ true }
{
    let mut counts = Counts::none();
    let mut ahead = Ahead::new(host.program.alloc);
    let mut rest = text;
    'line: while !rest.is_empty() {
        let (line, after) = split_line(rest);
        let lines = Unchecked {
            line,
            rest: after,
            spacing: session.spacing(),
            is_input,
        };
        go_on_in_list(host, options, &lines, &mut ahead);
        let verdict = check_line(host, options, session, &ahead, is_input, line)?;
        counts.add(verdict);
        rest = after;
    }
    Ok(counts)
}

//! The last line of lists that are sealed.

ghost use Rattle.std.specs.Prelude.{◌≡◌, ◌↔◌, ◌==◌, ◌≤◌, true, length, count_by, IfOk};
ghost use Rattle.std.specs.Prelude.{IsErrOf, IsOkUnless, map};
ghost use Rattle.std.specs.Result.{result_ok};
ghost use Rattle.b2sum_commands.specs.SealedLists.{
  FilesArePrinted,
  LastLineSealsText,
  line_count,
  seal_line,
};
ghost use Rattle.b2sum_commands.specs.TextParts.{above_last_line};
ghost use Rattle.b2sum_commands.specs.World.{world_of};

use crate::devices::{Disk, Fault, Output, put};
use crate::hashes::Hashes;
use crate::options::Options;
use crate::session::{Host, Session, after_last};
use crate::sums::{print_lines, print_sums};
use blake2_digest::constant_time_eq;
use blake2_streams::Sink;
use std::alloc::Global;
use text_lines::push_decimal;

/// Prints the line of each file, as `print_sums` does, and, if the options say so, one more that
/// seals them, unless a file cannot be read. Returns whether all were read. The digests have at
/// most 64 bytes. The errors are those of `print_sums`; of the last line nothing or a part is
/// printed then.
pub fn print_list<H: Hashes, D: Disk, K: Output, E: Sink>(
    host: &Host<H, D>,
    options: &Options,
    session: &mut Session<D::File, K, E>,
    names: &[Vec<u8>],
) -> Result<bool, Fault>
    requires { options.now.bytes ≤ 64 }
    ensures lines { FilesArePrinted options.now.is_sealed
        (world_of host.now.program.name.items D.File.named D.File.failed D.File.failure
        (D.files host.now.disk) H.hashing) options.now
        (map (λ name. name.items) names.now) session.old session.new (result_ok result) }
    ensures write { IsErrOf result Fault.WriteFailed → session.new.output_failed ≡ true }
{
    if !options.is_sealed {
        return print_sums(host, options, session, names);
    }
    let alloc = host.program.alloc;
    let mut list = Vec::new(alloc);
    if !print_lines(host, options, session, names, &mut list)? {
        return Ok(false);
    }
    let seal = seal_line(alloc, &host.hashes, options, list.as_slice())?;
    put(&mut session.output, seal.as_slice())?;
    Ok(true)
}

// Returns the line that seals a list.
fn seal_line<H: Hashes>(
    alloc: Global,
    hashes: &H,
    options: &Options,
    list: &[u8],
) -> Result<Vec<u8>, Fault>
    ensures line { IfOk result (λ line. line.items ≡ seal_line H.hashing options.now list.now) }
    ensures memory { IsOkUnless result Fault.NoMemory }
{
    let mut mac = [0u8; 64];
    hashes.seal(options, list, &mut mac);
    let mut line = Vec::new(alloc);
    line.extend_from_slice(b"# sealed ")?;
    push_decimal(&mut line, line_count(list) as u64)?;
    line.extend_from_slice(b" ")?;
    line.extend_from_slice(hex::encode(alloc, &mac[..])?.as_bytes())?;
    line.push(b'\n').map_err(|_| Fault::NoMemory)?;
    Ok(line)
}

// Returns the number of lines of a list.
fn line_count(list: &[u8]) -> usize
    ensures { result ≡ line_count list.now }
{
    list.iter().filter(|byte| **byte == b'\n').count()
}

/// Returns whether the last line of a text seals what is above it. The time of the comparison does
/// not depend on where the line differs. The error is `Fault::NoMemory`.
pub(crate) fn is_sealed<H: Hashes>(
    alloc: Global,
    hashes: &H,
    options: &Options,
    text: &[u8],
) -> Result<bool, Fault>
    ensures sealed { IfOk result
        (λ is. is ≡ true ↔ LastLineSealsText H.hashing options.now text.now) }
    ensures memory { IsOkUnless result Fault.NoMemory }
{
    let list = above_last_line(text);
    let seal = seal_line(alloc, hashes, options, list)?;
    Ok(constant_time_eq(&text[list.len()..], seal.as_slice()))
}

// Returns what is above the last line of a text.
fn above_last_line(text: &[u8]) -> &[u8]
    ensures above { result.now ≡ above_last_line text.now }
    ensures shorter { length result.now ≤ length text.now }
{
    let size = text.len().saturating_sub(1);
    let last = after_last(&text[..size], b'\n');
    &text[..size - last.len()]
}

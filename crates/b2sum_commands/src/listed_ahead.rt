//! Files that a manifest lists, and that are read before the turn of their lines.

ghost use Rattle.std.specs.Prelude.{length};
ghost use Rattle.b2sum_commands.specs.ReadAhead.{AreDigestsOfFiles};

use crate::ahead::{Ahead, are_same, begins_group, read_group, width};
use crate::check::{Item, read_item, spacing_after_entry};
use crate::devices::{Disk, Fault};
use crate::hashes::{Function, Hashes};
use crate::options::Options;
use crate::session::Host;
use b2sum_lines::{Entry, Spacing};
use std::alloc::Global;
use text_lines::split_once;

/// The lines of a manifest that were read: one, and those after it, of which the last has no
/// newline if it is not whole.
#[derive(Drop)]
pub(crate) struct Unchecked<'a> {
    pub(crate) line: &'a [u8],
    pub(crate) rest: &'a [u8],
    /// The spacing of the lines before.
    pub(crate) spacing: Spacing,
    /// They are from standard input.
    pub(crate) is_input: bool,
}

/// Goes on to the next line of a manifest, as `go_on` does to the next of some names. A group ends
/// before a line whose file has no digest by the function of the first.
pub(crate) fn go_on_in_list<H: Hashes, D: Disk>(
    host: &Host<H, D>,
    options: &Options,
    lines: &Unchecked<'_>,
    ahead: &mut Ahead,
)
    requires { AreDigestsOfFiles (D.files host.now.disk) H.hashing options.now
        ahead.old.found.items }
    ensures { AreDigestsOfFiles (D.files host.now.disk) H.hashing options.now
        ahead.new.found.items }
{
    if !begins_group(options, ahead) {
        return;
    }
    let most = width(ahead);
    // Without memory nothing is read ahead.
    if let Ok(Some((function, names))) = listed_names(host.program.alloc, options, lines, most) {
        let _ = read_group(host, options, function, names.as_slice(), ahead);
    }
}

// Returns the function and the names of the first of these lines, at most so many, whose files have
// digests by one function. The result is `None` if the first line has no entry to check.
fn listed_names(
    alloc: Global,
    options: &Options,
    lines: &Unchecked<'_>,
    most: usize,
) -> Result<Option<(Function, Vec<Vec<u8>>)>, Fault> {
    let Some(first) = listed(alloc, options, lines, lines.spacing, lines.line)? else {
        return Ok(None);
    };
    let function = function_of(&first);
    let mut spacing = spacing_after_entry(lines.spacing, first.style);
    let mut names = Vec::new(alloc);
    names.push(first.name).map_err(|_| Fault::NoMemory)?;
    let mut rest = lines.rest;
    'line: while names.len() < most {
        let Some((line, after)) = split_once(rest, b'\n') else {
            break;
        };
        if let (Spacing::Two, Some(name)) = (spacing, plain_name(line, function.bytes)) {
            let name = Vec::from_slice(alloc, name)?;
            names.push(name).map_err(|_| Fault::NoMemory)?;
        } else {
            let Some(entry) = listed(alloc, options, lines, spacing, line)? else {
                break;
            };
            if !are_same(function_of(&entry), function) {
                break;
            }
            spacing = spacing_after_entry(spacing, entry.style);
            names.push(entry.name).map_err(|_| Fault::NoMemory)?;
        }
        rest = after;
    }
    Ok(Some((function, names)))
}

// Returns the name of a line that looks like one without a tag, with a digest of so many bytes. The
// digits are not looked at, which takes longest: in vain one file more is read.
fn plain_name(line: &[u8], bytes: usize) -> Option<&[u8]> {
    let (digits, rest) = line.split_at_checked(bytes.saturating_mul(2))?;
    match (digits.first(), rest) {
        (Some(b'0'..=b'9' | b'a'..=b'f' | b'A'..=b'F'), [b' ', b' ' | b'*', name @ ..]) =>
            match name {
                [] | [.., b'\r'] => None,
                _ => Some(name),
            },
        _ => None,
    }
}

// Returns the entry of a line, if it has one that the options can check.
fn listed(
    alloc: Global,
    options: &Options,
    lines: &Unchecked<'_>,
    spacing: Spacing,
    line: &[u8],
) -> Result<Option<Entry>, Fault> {
    match read_item(alloc, options, spacing, lines.is_input, line)? {
        Item::Listed(entry) => Ok(Some(entry)),
        _ => Ok(None),
    }
}

// Returns the hash function of an entry's digest.
fn function_of(entry: &Entry) -> Function {
    Function {
        algorithm: entry.algorithm,
        bytes: entry.digest.len(),
    }
}

//! The check that a list names all that is in folders.

ghost use Rattle.std.specs.Prelude.{◌≡◌, ◌++◌, ℕ, List, IfOk, IsOkUnless, OnOk, Bool, map};
ghost use Rattle.std.specs.Cmp.Lexicographic.{slice_cmp};
ghost use Rattle.std.specs.List.{list_all};
ghost use Rattle.std.specs.Option.{option_map};
ghost use Rattle.std.specs.List.Sorted.{IsPermutation, IsSorted};
ghost use Rattle.std.specs.Ordering.{nat_cmp};
ghost use Rattle.text_lines.specs.Cuts.{lines_of};
ghost use Rattle.b2sum_commands.specs.FolderChecks.{
  FoldersAreComparedIfAny,
  NameIsLookedUp,
  has_name,
  name_as_list,
};
ghost use Rattle.b2sum_commands.specs.FolderChecks.{entry_name_of_line};
ghost use Rattle.b2sum_commands.specs.FolderChecks.{entry_names_of_lines};
ghost use Rattle.b2sum_commands.specs.Manifests.{item, spacing_after_line};
ghost use Rattle.b2sum_commands.specs.World.{AreDoneInTurn, world_of};

use crate::check::{
    Item, line_content_unless_comment, prints_nothing, read_item, spacing_after_entry,
};
use crate::devices::{Disk, Fault, Output};
use crate::folders::walk;
use crate::hashes::Hashes;
use crate::messages::warn_of_name;
use crate::options::Options;
use crate::session::{Host, Session};
use b2sum_lines::{Spacing, read_line};
use blake2_streams::Sink;
use std::alloc::{AllocError, Global};
use text_lines::split_line;

/// Looks for all that is in the folders of the options and below in the names of a list, which has
/// this text, from lines with this spacing on. What is not there has a message. Returns whether all
/// is there, and each folder could be listed. The error is `Fault::NoMemory`.
pub(crate) fn has_all<H: Hashes, D: Disk, K: Output, E: Sink>(
    host: &Host<H, D>,
    options: &Options,
    session: &mut Session<D::File, K, E>,
    spacing: Spacing,
    is_input: bool,
    text: &[u8],
) -> Result<bool, Fault>
    ensures compared { IfOk result (FoldersAreComparedIfAny
        (world_of host.now.program.name.items D.File.named D.File.failed D.File.failure
        (D.files host.now.disk) H.hashing) options.now
        (map (λ name. name.items) options.now.folders.items)
        (entry_names_of_lines options.now is_input spacing (lines_of text.now)) session.old
        session.new) }
    ensures held { session.new.held ≡ session.old.held }
    ensures memory { IsOkUnless result Fault.NoMemory }
{
    if options.folders.is_empty() {
        return Ok(true);
    }
    let names = sorted_names(host.program.alloc, options, spacing, is_input, text)?;
    let (mut found, are_listed) = walk(host, session, options.folders.as_slice())?;
    let mut things = found.files;
    things.append(&mut found.others)?;
    things.sort_unstable();
    let (names, things) = (names.as_slice(), things.as_slice());
    let are_there = look_for(host, options, session, names, things)?;
    Ok(are_listed & are_there)
}

// Returns the names of the entries of a list, in the order of their bytes.
fn sorted_names(
    alloc: Global,
    options: &Options,
    spacing: Spacing,
    is_input: bool,
    text: &[u8],
) -> Result<Vec<Vec<u8>>, Fault>
    ensures names { IfOk result (λ names. IsPermutation
        (entry_names_of_lines options.now is_input spacing (lines_of text.now))
        (map (λ name. name.items) names.items)) }
    ensures sorted { IfOk result (λ names.
        IsSorted (λ a b. slice_cmp nat_cmp a.items b.items) names.items) }
    ensures memory { IsOkUnless result Fault.NoMemory }
{
    let mut names = Vec::new(alloc);
    let mut spacing = spacing;
    let mut rest = text;
    'line: while !rest.is_empty() {
        let (line, after) = split_line(rest);
        spacing = push_name_of(alloc, options, spacing, is_input, line, &mut names)?;
        rest = after;
    }
    names.sort_unstable();
    Ok(names)
}

// Puts the name of the entry of a line, if it has one, after the others. Returns the spacing after
// the line.
fn push_name_of(
    alloc: Global,
    options: &Options,
    spacing: Spacing,
    is_input: bool,
    line: &[u8],
    names: &mut Vec<Vec<u8>>,
) -> Result<Spacing, Fault>
    ensures name { OnOk result (map (λ name. name.items) names.new.items
        ≡ map (λ name. name.items) names.old.items
        ++ name_as_list (entry_name_of_line options.now spacing line.now)) }
    ensures spacing { IfOk result
        (λ after. after ≡ spacing_after_line spacing (item options.now is_input spacing line.now)) }
    ensures memory { IsOkUnless result Fault.NoMemory }
{
    if let Some(name) = entry_name_of_line(alloc, options, spacing, line)? {
        names.push(name).map_err(|_| Fault::NoMemory)?;
    }
    match read_item(alloc, options, spacing, is_input, line)? {
        Item::Listed(entry) => Ok(spacing_after_entry(spacing, entry.style)),
        _ => Ok(spacing),
    }
}

// Returns the name of the entry of a line, if it has one, also if that needs other options.
fn entry_name_of_line(
    alloc: Global,
    options: &Options,
    spacing: Spacing,
    line: &[u8],
) -> Result<Option<Vec<u8>>, Fault>
    ensures name { IfOk result (λ found. option_map (λ name. name.items) found
        ≡ entry_name_of_line options.now spacing line.now) }
    ensures memory { IsOkUnless result Fault.NoMemory }
{
    let Some(line) = line_content_unless_comment(line) else {
        return Ok(None);
    };
    match read_line(alloc, options.algorithm, spacing, line)? {
        Some(entry) => Ok(Some(entry.name)),
        None => Ok(None),
    }
}

// Looks for each of these things in the names of a list, which are sorted. What is not there has a
// message. Returns whether all is there.
fn look_for<H: Hashes, D: Disk, K: Output, E: Sink>(
    host: &Host<H, D>,
    options: &Options,
    session: &mut Session<D::File, K, E>,
    names: &[Vec<u8>],
    things: &[Vec<u8>],
) -> Result<bool, AllocError>
    requires { IsSorted (λ a b. slice_cmp nat_cmp a.items b.items) names.now }
    ensures looked { IfOk result (λ are. (all : List (List ℕ))
        → IsPermutation all (map (λ name. name.items) names.now)
        → (each : List Bool) × AreDoneInTurn (NameIsLookedUp
        (world_of host.now.program.name.items D.File.named D.File.failed D.File.failure
        (D.files host.now.disk) H.hashing) options.now all)
        (map (λ thing. thing.items) things.now) session.old session.new each
        × (are ≡ list_all (λ is. is) each)) }
    ensures held { session.new.held ≡ session.old.held }
{
    let mut are_there = true;
    for thing in things {
        let is_there = look_for_one(host, options, session, names, thing)?;
        are_there &= is_there;
    }
    Ok(are_there)
}

// Looks for a thing in the names of a list, which are sorted. If it is not there, a message says
// so. Returns whether it is.
fn look_for_one<H: Hashes, D: Disk, K: Output, E: Sink>(
    host: &Host<H, D>,
    options: &Options,
    session: &mut Session<D::File, K, E>,
    names: &[Vec<u8>],
    thing: &Vec<u8>,
) -> Result<bool, AllocError>
    requires { IsSorted (λ a b. slice_cmp nat_cmp a.items b.items) names.now }
    ensures looked { IfOk result (λ is. (all : List (List ℕ))
        → IsPermutation all (map (λ name. name.items) names.now) → NameIsLookedUp
        (world_of host.now.program.name.items D.File.named D.File.failed D.File.failure
        (D.files host.now.disk) H.hashing) options.now all thing.now.items session.old session.new
        is) }
    ensures held { session.new.held ≡ session.old.held }
{
    let is_there = has_name(names, thing);
    if is_there {
        return Ok(true);
    }
    if prints_nothing(options.report) {
        return Ok(false);
    }
    let reason = b"is not in the list";
    warn_of_name(
        &host.program,
        &mut session.messages,
        thing.as_slice(),
        reason,
    )?;
    Ok(false)
}

// Returns whether one of the names, which are sorted, is this.
fn has_name(names: &[Vec<u8>], name: &Vec<u8>) -> bool
    requires { IsSorted (λ a b. slice_cmp nat_cmp a.items b.items) names.now }
    ensures { result ≡ has_name (map (λ n. n.items) names.now) name.now.items }
{
    names.binary_search(name).is_ok()
}

//! Folders, and the files in them.

ghost use Rattle.std.specs.Prelude.{◌≡◌, ℕ, List, [], ◌∷◌, ◌++◌, map, Option, IfOk, OnOk, is_some};
ghost use Rattle.std.specs.Prelude.{IsOkUnless, codes};
ghost use Rattle.b2sum_commands.specs.Messages.{Cannot, message};
ghost use Rattle.std.specs.Option.{option_map};
ghost use Rattle.b2sum_commands.specs.Folders.{
  IsSortedPermutation,
  FoldersAreWalked,
  FolderIsListed,
  path_in_folder,
  not_regular_file_messages,
};
ghost use Rattle.b2sum_commands.specs.Folders.{entry_path_if, is_file, is_folder_letter};
ghost use Rattle.b2sum_commands.specs.Folders.{is_other_letter};
ghost use Rattle.b2sum_commands.specs.Folders.{listed_names, entry_paths_in_list};
ghost use Rattle.b2sum_commands.specs.World.{OnlyTells, TellsText, world_of};

use crate::devices::{Disk, Fault, OpenFile, Output};
use crate::hashes::Hashes;
use crate::messages::{warn_of_file, warn_of_name};
use crate::sealed_checks::{MOST_BYTES, read_list_from};
use crate::session::{Host, Program, Session};
use blake2_streams::Sink;
use std::alloc::{AllocError, Global};
use text_lines::split_once;

/// The names of what is found in folders.
#[derive(Drop)]
pub(crate) struct Found {
    /// The folders: those that are given, and those in them.
    pub(crate) folders: Vec<Vec<u8>>,
    /// The regular files.
    pub(crate) files: Vec<Vec<u8>>,
    /// Anything else, such as links.
    pub(crate) others: Vec<Vec<u8>>,
}

impl Found {
    // Nothing is found in these folders so far.
    fn new(alloc: Global, given: &[Vec<u8>]) -> Result<Found, AllocError>
        ensures folders { IfOk result (λ found. map (λ name. name.items) found.folders.items
            ≡ map (λ name. name.items) given.now) }
        ensures files { IfOk result (λ found. found.files.items ≡ []) }
        ensures others { IfOk result (λ found. found.others.items ≡ []) }
    {
        let mut folders = Vec::new(alloc);
        for name in given {
            push_name(&mut folders, copied(alloc, name.as_slice())?)?;
        }
        Ok(Found {
            folders,
            files: Vec::new(alloc),
            others: Vec::new(alloc),
        })
    }

    // Adds what is in this folder, which has this list.
    fn add_entries(&mut self, alloc: Global, folder: &[u8], list: &[u8]) -> Result<(), AllocError>
        ensures folders { OnOk result (map (λ name. name.items) self.new.folders.items
            ≡ map (λ name. name.items) self.old.folders.items
            ++ entry_paths_in_list is_folder_letter folder.now list.now) }
        ensures files { OnOk result (map (λ name. name.items) self.new.files.items
            ≡ map (λ name. name.items) self.old.files.items
            ++ entry_paths_in_list is_file folder.now list.now) }
        ensures others { OnOk result (map (λ name. name.items) self.new.others.items
            ≡ map (λ name. name.items) self.old.others.items
            ++ entry_paths_in_list is_other_letter folder.now list.now) }
    {
        let mut rest = list;
        'entry: while let Some((entry, after)) = split_once(rest, 0) {
            self.add_entry(alloc, folder, entry)?;
            rest = after;
        }
        self.add_entry(alloc, folder, rest)?;
        Ok(())
    }

    // Adds an entry of this folder, if it is one.
    fn add_entry(&mut self, alloc: Global, folder: &[u8], entry: &[u8]) -> Result<(), AllocError>
        ensures folders { OnOk result (map (λ name. name.items) self.new.folders.items
            ≡ map (λ name. name.items) self.old.folders.items
            ++ entry_path_if is_folder_letter folder.now entry.now) }
        ensures files { OnOk result (map (λ name. name.items) self.new.files.items
            ≡ map (λ name. name.items) self.old.files.items
            ++ entry_path_if is_file folder.now entry.now) }
        ensures others { OnOk result (map (λ name. name.items) self.new.others.items
            ≡ map (λ name. name.items) self.old.others.items
            ++ entry_path_if is_other_letter folder.now entry.now) }
    {
        let Some((kind, name)) = entry.split_first() else {
            return Ok(());
        };
        let name = path_in_folder(alloc, folder, name)?;
        match *kind {
            b'd' => push_name(&mut self.folders, name),
            b'f' => push_name(&mut self.files, name),
            _ => push_name(&mut self.others, name),
        }
    }
}

// Puts a name after the others.
fn push_name(names: &mut Vec<Vec<u8>>, name: Vec<u8>) -> Result<(), AllocError>
    ensures { OnOk result (map (λ n. n.items) names.new.items
        ≡ map (λ n. n.items) names.old.items ++ name.items ∷ []) }
{
    names.push(name).map_err(|_| AllocError)
}

fn copied(alloc: Global, name: &[u8]) -> Result<Vec<u8>, AllocError>
    ensures { IfOk result (λ copy. copy.items ≡ name.now) }
{
    Vec::from_slice(alloc, name)
}

// Returns the name of an entry of a folder.
fn path_in_folder(alloc: Global, folder: &[u8], name: &[u8]) -> Result<Vec<u8>, AllocError>
    ensures { IfOk result (λ whole. whole.items ≡ path_in_folder folder.now name.now) }
{
    let mut whole = copied(alloc, folder)?;
    if !folder.ends_with(b"/".as_slice()) {
        whole.push(b'/').map_err(|_| AllocError)?;
    }
    whole.extend_from_slice(name)?;
    Ok(whole)
}

/// Finds what is in these folders and below, with the names of files and of all else in the order
/// of their bytes. Links are not followed. Returns it, and whether each folder could be listed:
/// otherwise there is a message. The error is `Fault::NoMemory`.
pub(crate) fn walk<H: Hashes, D: Disk, K: Output, E: Sink>(
    host: &Host<H, D>,
    session: &mut Session<D::File, K, E>,
    given: &[Vec<u8>],
) -> Result<(Found, bool), Fault>
    ensures walked { IfOk result (λ found. FoldersAreWalked
        (world_of host.now.program.name.items D.File.named D.File.failed D.File.failure
        (D.files host.now.disk) H.hashing) (map (λ name. name.items) given.now)
        session.old session.new (map (λ name. name.items) found.0.files.items)
        (map (λ name. name.items) found.0.others.items) found.1) }
    ensures held { session.new.held ≡ session.old.held }
    ensures memory { IsOkUnless result Fault.NoMemory }
{
    let mut found = Found::new(host.program.alloc, given)?;
    let mut are_listed = true;
    for at in 0..usize::MAX {
        if at == found.folders.len() {
            return Ok((in_order(found), are_listed));
        }
        let folder = copied(host.program.alloc, found.folders[at].as_slice())?;
        let is_listed = list_folder(host, session, folder.as_slice(), &mut found)?;
        are_listed &= is_listed;
    }
    Err(Fault::NoMemory)
}

// Returns what is found, with the files, and all else, in the order of their names.
fn in_order(found: Found) -> Found
    ensures files { IsSortedPermutation (map (λ name. name.items) found.files.items)
        (map (λ name. name.items) result.files.items) }
    ensures others { IsSortedPermutation (map (λ name. name.items) found.others.items)
        (map (λ name. name.items) result.others.items) }
{
    let mut found = found;
    found.files.sort_unstable();
    found.others.sort_unstable();
    found
}

// Adds what is in this folder. Returns whether it could be listed: otherwise there is a message.
fn list_folder<H: Hashes, D: Disk, K: Output, E: Sink>(
    host: &Host<H, D>,
    session: &mut Session<D::File, K, E>,
    folder: &[u8],
    found: &mut Found,
) -> Result<bool, Fault>
    ensures listed { IfOk result (λ is. (list : Option (List ℕ)) × (is ≡ is_some list)
        × FolderIsListed
        (world_of host.now.program.name.items D.File.named D.File.failed D.File.failure
        (D.files host.now.disk) H.hashing) folder.now session.old session.new list
        × (map (λ name. name.items) found.new.folders.items
        ≡ map (λ name. name.items) found.old.folders.items
        ++ listed_names is_folder_letter folder.now list)
        × (map (λ name. name.items) found.new.files.items
        ≡ map (λ name. name.items) found.old.files.items
        ++ listed_names is_file folder.now list)
        × (map (λ name. name.items) found.new.others.items
        ≡ map (λ name. name.items) found.old.others.items
        ++ listed_names is_other_letter folder.now list)) }
    ensures held { session.new.held ≡ session.old.held }
    ensures memory { IsOkUnless result Fault.NoMemory }
{
    let Some(list) = read_folder(host, session, folder)? else {
        return Ok(false);
    };
    found.add_entries(host.program.alloc, folder, list.as_slice())?;
    Ok(true)
}

// Returns the list of this folder, or `None` if it cannot be read, after a message.
fn read_folder<H: Hashes, D: Disk, K: Output, E: Sink>(
    host: &Host<H, D>,
    session: &mut Session<D::File, K, E>,
    folder: &[u8],
) -> Result<Option<Vec<u8>>, Fault>
    ensures listed { IfOk result (λ found. FolderIsListed
        (world_of host.now.program.name.items D.File.named D.File.failed D.File.failure
        (D.files host.now.disk) H.hashing) folder.now session.old session.new
        (option_map (λ list. list.items) found)) }
    ensures held { session.new.held ≡ session.old.held }
    ensures memory { IsOkUnless result Fault.NoMemory }
{
    let messages = &mut session.messages;
    let mut list = match host.disk.open_folder(host.program.alloc, folder) {
        Ok(list) => list,
        Err(error) => {
            warn_of_file(host, error, messages, folder)?;
            return Ok(None);
        }
    };
    read_list_from(host, &mut list, folder, MOST_BYTES, messages)
}

/// Says of each of these names that it is not that of a regular file.
pub(crate) fn warn_of_others<F: OpenFile, K: Output, E: Sink>(
    program: &Program,
    session: &mut Session<F, K, E>,
    names: &[Vec<u8>],
) -> Result<(), AllocError>
    ensures told { OnOk result (TellsText session.old session.new
        (not_regular_file_messages program.now.name.items (map (λ name. name.items) names.now))) }
    ensures only { OnlyTells session.old session.new }
{
    for name in names {
        warn_of_other(program, session, name.as_slice())?;
    }
    Ok(())
}

// Says of this name that it is not that of a regular file.
fn warn_of_other<F: OpenFile, K: Output, E: Sink>(
    program: &Program,
    session: &mut Session<F, K, E>,
    name: &[u8],
) -> Result<(), AllocError>
    ensures told { OnOk result (TellsText session.old session.new (message program.now.name.items
        (Cannot name.now (codes "is not a regular file")))) }
    ensures only { OnlyTells session.old session.new }
{
    warn_of_name(
        program,
        &mut session.messages,
        name,
        b"is not a regular file",
    )
}

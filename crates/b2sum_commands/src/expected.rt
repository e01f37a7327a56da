//! Files that are to have a digest that is given.

ghost use Rattle.std.specs.Prelude.{◌≡◌, IfOk, IsErrOf, true};
ghost use Rattle.std.specs.Result.{result_ok};
ghost use Rattle.b2sum_commands.specs.Expected.{IsComparedWithDigest, expected_entry};
ghost use Rattle.b2sum_commands.specs.Manifests.{is_equal};
ghost use Rattle.b2sum_commands.specs.World.{world_of};
ghost use Rattle.b2sum_lines.specs.EntryViews.{entry_value};

use crate::ahead::Ahead;
use crate::check::{Verdict, check_entry};
use crate::devices::{Disk, Fault, Output};
use crate::digest::ExpectedDigest;
use crate::hashes::Hashes;
use crate::options::Options;
use crate::session::{Host, Session};
use b2sum_lines::Entry;
use blake2_streams::Sink;
use std::alloc::{AllocError, Global};

/// Compares a file with this digest, and prints its line, as the check of an entry does. Returns
/// whether the file has the digest. The errors are those of that check.
pub(crate) fn check_expected<H: Hashes, D: Disk, K: Output, E: Sink>(
    host: &Host<H, D>,
    options: &Options,
    session: &mut Session<D::File, K, E>,
    digest: &ExpectedDigest,
    name: &[u8],
) -> Result<bool, Fault>
    ensures checked { IsComparedWithDigest
        (world_of host.now.program.name.items D.File.named D.File.failed D.File.failure
        (D.files host.now.disk) H.hashing) options.now digest.now.bytes.items name.now session.old
        session.new (result_ok result) }
    ensures write { IsErrOf result Fault.WriteFailed → session.new.output_failed ≡ true }
{
    let ahead = Ahead::new(host.program.alloc);
    let entry = entry_of(host.program.alloc, options, digest.bytes.as_slice(), name)?;
    let verdict = check_entry(host, options, session, &ahead, &entry)?;
    Ok(is_equal(verdict))
}

// Returns whether the file has the digest.
fn is_equal(verdict: Verdict) -> bool
    ensures { result ≡ is_equal verdict }
{
    matches!(verdict, Verdict::Equal)
}

// Returns the entry of a file of this name that is to have this digest.
fn entry_of(
    alloc: Global,
    options: &Options,
    digest: &[u8],
    name: &[u8],
) -> Result<Entry, AllocError>
    ensures entry { IfOk result
        (λ e. entry_value e ≡ expected_entry options.now digest.now name.now) }
{
    Ok(Entry {
        algorithm: options.algorithm,
        digest: Vec::from_slice(alloc, digest)?,
        name: Vec::from_slice(alloc, name)?,
        style: options.style,
    })
}

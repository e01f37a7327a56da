//! `b2 tree` and `b2 root`: the root of a tree of hashes over the input, or over the digests of its
//! leaves.

ghost use Rattle.std.specs.Prelude.{◌≡◌, ◌≢◌, ◌↔◌, ◌⊎◌, ◌+◌, ◌^◌, ◌<◌, ◌≤◌, length, false};
ghost use Rattle.std.specs.Prelude.{IsTrue, IfErr, IfSome, OnOk};
ghost use Rattle.std.specs.Io.KnownBytes.{Appends, Keeps};
ghost use Rattle.std.specs.Result.{IsErrOf};
ghost use Rattle.blake2.specs.Streams.{line_of};
ghost use Rattle.blake2_tree.specs.TreeHashers.{count, HasAbsorbed};
ghost use Rattle.b2_commands.specs.declared.fault.Fault.TheVariants.{ReadFailed, TooLong};
ghost use Rattle.b2_commands.specs.declared.fault.Fault.TheVariants.{WriteFailed};
ghost use Rattle.b2_commands.specs.TaskEnds.{EndsTask};
ghost use Rattle.b2_commands.specs.ArgumentTasks.{blake2b_of};
ghost use Rattle.b2_commands.specs.ArgumentTasks.Task.{to_root, to_tree};
ghost use Rattle.b2_commands.specs.Kinds.{blake2b_value};
ghost use Rattle.b2_commands.specs.ReadOptions.{given_options};
ghost use Rattle.b2_commands.specs.ReadTasks.{root_task};
ghost use Rattle.b2_commands.specs.Tasks.{IsRefusedByTree, root_with};
ghost use Rattle.b2_commands.specs.TreeFaults.{IsFaultOfTree};

use crate::arguments::{Blake2bKind, Options};
use crate::fault::Fault;
use crate::input::{fill, read_all};
use crate::leaf_lines::digests_of;
use crate::print::print_digest;
use crate::tree_arguments::{Over, Root};
use blake2::streams::{Sink, Source};
use blake2_tree::{LABEL_BYTES, MESSAGE_LIMIT, TreeHasher, best_piece_length, root_of_leaves};
use std::alloc::Global;

/// Prints the root as a line: of all that the source returns, or over the digests in its lines.
/// Neither device may have failed before. The errors are those of `print_message_root` and of
/// `print_root_over_digests`.
pub(crate) fn tree<S: Source, K: Sink>(
    alloc: Global,
    root: &Root,
    source: &mut S,
    sink: &mut K,
) -> Result<(), Fault>
    requires source { S.failed source.old ≡ false }
    requires sink { K.failed sink.old ≡ false }
    ensures { EndsTask (root_task root.now) result (S.left source.old)
        (S.failed source.new) (K.failed sink.new) (K.held sink.old) (K.held sink.new) }
{
    match root.over {
        Over::Message => print_message_root(alloc, root, source, sink),
        Over::Leaves => print_root_over_digests(alloc, root, source, sink),
    }
}

// Prints the root of all that the source returns, as a line. It reads the source in pieces, and
// allocates memory for one. Neither device may have failed before.
//
// The error is a `Fault`: `WrongLength` if the salt or the persona has more than 16 bytes;
// `ReadFailed` if a read returns an error; `TooLong` if the input has 2^58 bytes or more;
// `NoMemory` if the allocation fails; `WriteFailed` if a write fails. If it is not
// `WriteFailed`, nothing was printed.
fn print_message_root<S: Source, K: Sink>(
    alloc: Global,
    root: &Root,
    source: &mut S,
    sink: &mut K,
) -> Result<(), Fault>
    requires source { S.failed source.old ≡ false }
    requires sink { K.failed sink.old ≡ false }
    ensures { EndsTask
        (to_tree (blake2b_value root.now.kind) root.now.leaf_length
        (given_options root.now.options))
        result (S.left source.old) (S.failed source.new) (K.failed sink.new)
        (K.held sink.old) (K.held sink.new) }
{
    let options = &root.options;
    match root.kind {
        Blake2bKind::B128 => print_root::<S, K, 16>(alloc, root.leaf_length, options, source, sink),
        Blake2bKind::B256 => print_root::<S, K, 32>(alloc, root.leaf_length, options, source, sink),
        Blake2bKind::B512 => print_root::<S, K, 64>(alloc, root.leaf_length, options, source, sink),
    }
}

// Prints the root of `N` bytes, at most 64, with leaves of `leaf_length` bytes, at least 1. The
// errors are those of `print_message_root`.
fn print_root<S: Source, K: Sink, const N: usize>(
    alloc: Global,
    leaf_length: u32,
    options: &Options,
    source: &mut S,
    sink: &mut K,
) -> Result<(), Fault>
    requires size { N ≤ 64 }
    requires leaf { 1 ≤ leaf_length }
    requires source { S.failed source.old ≡ false }
    requires sink { K.failed sink.old ≡ false }
    ensures length { IsErrOf result Fault.WrongLength
        ↔ IsRefusedByTree (given_options options.now) }
    ensures read { IsErrOf result Fault.ReadFailed ↔ IsTrue (S.failed source.new) }
    ensures write { IsErrOf result Fault.WriteFailed ↔ IsTrue (K.failed sink.new) }
    ensures root { OnOk result (IfSome (S.left source.old) (λ message. (length message < 2 ^ 58)
        × Appends (K.held sink.old) (K.held sink.new) (line_of
        (root_with N leaf_length (given_options options.now) message)))) }
    ensures too_long { IsErrOf result Fault.TooLong
        → IfSome (S.left source.old) (λ message. 2 ^ 58 ≤ length message) }
    ensures fault { IfErr result IsFaultOfTree }
    ensures unprinted { IfErr result (λ fault. fault ≢ WriteFailed
        → Keeps (K.held sink.old) (K.held sink.new)) }
{
    let salt = options.salt();
    let persona = options.persona();
    if salt.len() > LABEL_BYTES || persona.len() > LABEL_BYTES {
        return Err(Fault::WrongLength);
    }
    let mut piece = vec![in alloc; 0u8; best_piece_length(leaf_length)]?;
    let mut hasher = TreeHasher::<N>::new(salt, persona, leaf_length);
    absorb_source(source, piece.as_mut_slice(), &mut hasher)?;
    print_digest(&hasher.finalize(), sink)
}

// Passes all that the source returns to the hasher, in pieces of the buffer's length. That is at
// least 1 and at most 16 MiB, so that a longer piece fails the proof. The source must not have
// failed before. The error is a `Fault`: `ReadFailed` if a read returns an error, `TooLong` if
// the hasher's count would reach 2^58.
fn absorb_source<S: Source, const N: usize>(
    source: &mut S,
    buffer: &mut [u8],
    hasher: &mut TreeHasher<N>,
) -> Result<(), Fault>
    requires source { S.failed source.old ≡ false }
    requires buffer { 0 < length buffer.old }
    requires most { length buffer.old ≤ 2 ^ 24 }
    ensures read { IsErrOf result Fault.ReadFailed ↔ IsTrue (S.failed source.new) }
    ensures fault { IfErr result (λ fault. (fault ≡ ReadFailed) ⊎ (fault ≡ TooLong)) }
    ensures whole { OnOk result (IfSome (S.left source.old) (λ bytes.
        HasAbsorbed hasher.old bytes hasher.new)) }
    ensures too_long { IsErrOf result Fault.TooLong → IfSome (S.left source.old) (λ bytes.
        2 ^ 58 ≤ count hasher.old + length bytes) }
{
    'pieces: loop {
        let filled = fill(source, buffer)?;
        if filled as u64 >= MESSAGE_LIMIT - hasher.counted() {
            return Err(Fault::TooLong);
        }
        hasher.update(&buffer[..filled]);
        if filled < buffer.len() {
            return Ok(());
        }
    }
}

// Prints the root over the digests of leaves in the source's lines, as a line. The text and the
// digests are held in memory. Neither device may have failed before.
//
// The error is a `Fault`: `WrongLength` if the salt or the persona has more than 16 bytes;
// `ReadFailed` if a read returns an error; `WrongLine` if there is no line, or one is not a digest;
// `NoMemory` if an allocation fails; `WriteFailed` if a write fails. If it is not `WriteFailed`,
// nothing was printed.
fn print_root_over_digests<S: Source, K: Sink>(
    alloc: Global,
    root: &Root,
    source: &mut S,
    sink: &mut K,
) -> Result<(), Fault>
    requires source { S.failed source.old ≡ false }
    requires sink { K.failed sink.old ≡ false }
    ensures { EndsTask
        (to_root (blake2b_value root.now.kind) root.now.leaf_length
        (given_options root.now.options))
        result (S.left source.old) (S.failed source.new) (K.failed sink.new)
        (K.held sink.old) (K.held sink.new) }
{
    let (leaf, options) = (root.leaf_length, &root.options);
    match root.kind {
        Blake2bKind::B128 => print_root_over::<S, K, 16>(alloc, leaf, options, source, sink),
        Blake2bKind::B256 => print_root_over::<S, K, 32>(alloc, leaf, options, source, sink),
        Blake2bKind::B512 => print_root_over::<S, K, 64>(alloc, leaf, options, source, sink),
    }
}

// Prints the root of `N` bytes, at most 64, over the digests of leaves of `leaf_length` bytes, at
// least 1. The errors are those of `print_root_over_digests`.
fn print_root_over<S: Source, K: Sink, const N: usize>(
    alloc: Global,
    leaf_length: u32,
    options: &Options,
    source: &mut S,
    sink: &mut K,
) -> Result<(), Fault>
    requires size { N ≤ 64 }
    requires leaf { 1 ≤ leaf_length }
    requires source { S.failed source.old ≡ false }
    requires sink { K.failed sink.old ≡ false }
    ensures { EndsTask (to_root (blake2b_of N) leaf_length (given_options options.now)) result
        (S.left source.old) (S.failed source.new) (K.failed sink.new)
        (K.held sink.old) (K.held sink.new) }
{
    let salt = options.salt();
    let persona = options.persona();
    if salt.len() > LABEL_BYTES || persona.len() > LABEL_BYTES {
        return Err(Fault::WrongLength);
    }
    let text = read_all(alloc, source)?;
    let digests = digests_of(alloc, text.as_slice())?;
    let root = root_of_leaves::<N>(salt, persona, leaf_length, digests.as_slice());
    print_digest(&root, sink)
}

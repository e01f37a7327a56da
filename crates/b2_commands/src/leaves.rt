//! `b2 leaves`: the digests of the leaves of a part of a message.

ghost use Rattle.std.specs.Prelude.{◌≡◌, ◌↔◌, ◌⊎◌, ◌+◌, ◌*◌, ◌^◌, ◌<◌, ◌≤◌, length, take, false};
ghost use Rattle.std.specs.Prelude.{unwrap_or, [], IfErr, IfOk};
ghost use Rattle.std.specs.Result.{IsErrOf};
ghost use Rattle.blake2_tree.specs.LeafRanges.{IsLeafRange, range_digests};
ghost use Rattle.blake2_tree.specs.NodeViews.{shared_parameters, node_digest};
ghost use Rattle.b2_commands.specs.declared.fault.Fault.TheVariants.{WrongLength, NoMemory};
ghost use Rattle.b2_commands.specs.ReadOptions.{given_options};
ghost use Rattle.b2_commands.specs.ReadTasks.{part_task};
ghost use Rattle.b2_commands.specs.TaskEnds.{EndsTask};
ghost use Rattle.b2_commands.specs.Tasks.{tree_with};

use crate::fault::Fault;
use crate::input::read_all;
use crate::leaf_lines::print_digests;
use crate::tree_arguments::Part;
use blake2::Blake2b;
use blake2::digest::{FixedOutput, LastNode, Update};
use blake2::streams::{Sink, Source};
use blake2_tree::nodes::Nodes;
use blake2_tree::{LABEL_BYTES, is_range, leaf_count};
use std::alloc::{AllocError, Global};

/// Prints the digests of the leaves of all that the source returns, which is this part of a
/// message, a line each. The input and the digests are held in memory. Neither device may have
/// failed before.
///
/// The error is a `Fault`: `WrongLength` if the salt or the persona has more than 16 bytes, or the
/// input is no such part; `ReadFailed` if a read returns an error; `NoMemory` if an allocation
/// fails; `WriteFailed` if a write fails. If it is not `WriteFailed`, nothing was printed.
pub(crate) fn leaves<S: Source, K: Sink>(
    alloc: Global,
    part: &Part,
    source: &mut S,
    sink: &mut K,
) -> Result<(), Fault>
    requires source { S.failed source.old ≡ false }
    requires sink { K.failed sink.old ≡ false }
    ensures { EndsTask (part_task part.now) result (S.left source.old)
        (S.failed source.new) (K.failed sink.new) (K.held sink.old) (K.held sink.new) }
{
    let options = &part.options;
    if options.salt().len() > LABEL_BYTES || options.persona().len() > LABEL_BYTES {
        return Err(Fault::WrongLength);
    }
    let bytes = read_all(alloc, source)?;
    let digests = hash_part(alloc, part, bytes.as_slice())?;
    print_digests(digests.as_slice(), sink)
}

// Returns the joined digests of the leaves of a part, 64 bytes each. The salt and the persona have
// at most 16 bytes each. The error is a `Fault`: `WrongLength` if the bytes are not a range of a
// message's leaves that begins and ends as the part does, `NoMemory` if an allocation fails.
fn hash_part(alloc: Global, part: &Part, bytes: &[u8]) -> Result<Vec<u8>, Fault>
    requires salt { length (unwrap_or (given_options part.now.options).salt []) ≤ 16 }
    requires persona { length (unwrap_or (given_options part.now.options).persona []) ≤ 16 }
    ensures refused { IsErrOf result Fault.WrongLength
        ↔ ¬ IsLeafRange part.now.leaf_length part.now.first part.now.ends (length bytes.now) }
    ensures fault { IfErr result (λ fault. (fault ≡ WrongLength) ⊎ (fault ≡ NoMemory)) }
    ensures digests { IfOk result (λ digests. digests.items ≡ range_digests
        (tree_with part.now.leaf_length (given_options part.now.options)) part.now.first
        part.now.ends
        bytes.now) }
{
    if !is_range(part.leaf_length, part.first, part.ends, bytes.len() as u64) {
        return Err(Fault::WrongLength);
    }
    let nodes = Nodes::new(
        part.options.salt(),
        part.options.persona(),
        part.leaf_length,
    );
    let digests = hash_range(alloc, &nodes, part, bytes)?;
    Ok(digests)
}

// Returns the joined digests of the leaves of a part, which are nodes of this tree. The bytes are a
// range of a message's leaves that begins and ends as the part does. The error is `AllocError`, if
// an allocation fails.
fn hash_range(
    alloc: Global,
    nodes: &Nodes,
    part: &Part,
    bytes: &[u8],
) -> Result<Vec<u8>, AllocError>
    requires leaf { (shared_parameters nodes.now).leaf_length ≡ part.now.leaf_length }
    requires range { IsLeafRange part.now.leaf_length part.now.first part.now.ends
        (length bytes.now) }
    ensures { IfOk result (λ digests. digests.items ≡ range_digests (shared_parameters nodes.now)
        part.now.first part.now.ends bytes.now) }
{
    let length = part.leaf_length as usize;
    let leaves = leaf_count(part.leaf_length, bytes.len() as u64);
    let mut digests = Vec::with_capacity(alloc, 64 * leaves as usize)?;
    let mut first = part.first;
    let mut rest = bytes;
    'hashing: while rest.len() > length {
        let mut next = [0; 512];
        let count = hash_next(nodes, part.leaf_length, first, rest, &mut next);
        digests.extend_from_slice(&next[..64 * count])?;
        first += count as u64;
        rest = &rest[count * length..];
    }
    digests.extend_from_slice(&hash_leaf(nodes, first, part.ends, rest))?;
    Ok(digests)
}

// Hashes the next whole leaves of a message, of which more than one is left: as many as
// `Nodes::hash_next` hashes if more than four are left, and one otherwise. Returns how many, and
// writes their digests, of 64 bytes each, at the beginning of `digests`.
fn hash_next(nodes: &Nodes, leaf_length: u32, i: u64, text: &[u8], digests: &mut [u8; 512]) -> usize
    requires leaf { (shared_parameters nodes.now).leaf_length ≡ leaf_length }
    requires place { i + 7 < 2 ^ 64 }
    requires more { leaf_length < length text.now }
    ensures some { 1 ≤ result }
    ensures most { result ≤ 8 }
    ensures more { result * leaf_length < length text.now }
    ensures digests { take (64 * result) digests.new ≡ range_digests
        (shared_parameters nodes.now) i false (take (result * leaf_length) text.now) }
{
    let length = leaf_length as usize;
    if text.len() > 4 * length {
        return nodes.hash_next(i, text, digests);
    }
    digests[..64].copy_from_slice(&hash_leaf(nodes, i, false, &text[..length]));
    1
}

// Returns the digest of leaf `i`, which is the message's last or not.
fn hash_leaf(nodes: &Nodes, i: u64, last: bool, bytes: &[u8]) -> [u8; 64]
    ensures { result ≡ node_digest 64 (shared_parameters nodes.now) i 0 last bytes.now }
{
    let place = nodes.place(i, 0);
    let mut leaf = Blake2b::<64>::new_with_tree(nodes.salt(), nodes.persona(), &place);
    leaf.set_last_node(last);
    leaf.update(bytes);
    leaf.finalize_fixed()
}

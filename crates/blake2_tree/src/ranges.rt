//! Ranges of a message's leaves, each hashed separately, and the root over their joined digests.
//! So threads, processes or machines may each hash a part of a message, in any order, and after a
//! change only the changed leaf is hashed.

ghost use Rattle.std.specs.Prelude.{◌≡◌, ◌*◌, ◌<◌, ◌≤◌, ◌↔◌, length, IsTrue};
ghost use Rattle.blake2_simd.specs.Family.{blake2b};
ghost use Rattle.blake2_compress.specs.Hash.{digest};
ghost use Rattle.blake2_tree.specs.TreeRoot.{leaf_count, root_input_over_digests, tree_parameters};
ghost use Rattle.blake2_tree.specs.LeafRanges.{IsLeafRange, range_digests};
ghost use Rattle.blake2_tree.specs.LeafRanges.{AreDigestsInEveryMessage, IsRootOfCuts};
ghost use Rattle.blake2_tree.specs.LeafRanges.{IsRootAfterReplacement};

use crate::limits::MESSAGE_LIMIT;
use crate::nodes::Nodes;

/// Returns the number of leaves of a message of `message_length` bytes: at least one. A range of
/// leaves has the same number as a message of its bytes. A leaf has `leaf_length` bytes, at least
/// 1.
pub fn leaf_count(leaf_length: u32, message_length: u64) -> u64
    requires { 1 ≤ leaf_length }
    ensures { result ≡ leaf_count leaf_length message_length }
{
    message_length.div_ceil(u64::from(leaf_length)).max(1)
}

/// Returns whether `range_length` bytes are a range of a message's leaves, the first of which is
/// leaf `first`, from 0. If the range `ends` the message, its last leaf may be shorter; otherwise
/// all are whole. A range has bytes, unless it is a message of none, and its leaves are within
/// the first 2^58 - 1 bytes. A leaf has `leaf_length` bytes, at least 1.
pub fn is_range(leaf_length: u32, first: u64, ends: bool, range_length: u64) -> bool
    requires { 1 ≤ leaf_length }
    ensures { IsTrue result ↔ IsLeafRange leaf_length first ends range_length }
{
    let leaf = u64::from(leaf_length);
    let has_bytes = range_length > 0 || (ends && first == 0);
    let is_whole = ends || range_length % leaf == 0;
    has_bytes
        && is_whole
        && range_length < MESSAGE_LIMIT
        && first <= (MESSAGE_LIMIT - 1 - range_length) / leaf
}

/// Writes the digests of a range of a message's leaves, 64 bytes each, in order: the leaves from
/// `first` on that these bytes make. If the range `ends` the message, the last of them is the
/// message's last. `is_range` must be true of the bytes, and `digests` must have exactly 64 bytes
/// for each leaf, of which `leaf_count` returns the number. Salt and persona have at most 16
/// bytes each, and a leaf has `leaf_length` bytes, 1 to 2^32 - 1. The call allocates nothing, and
/// hashes whole leaves in parallel.
pub fn hash_leaves(
    salt: &[u8],
    persona: &[u8],
    leaf_length: u32,
    first: u64,
    ends: bool,
    bytes: &[u8],
    digests: &mut [u8],
)
    requires salt { length salt.now ≤ 16 }
    requires persona { length persona.now ≤ 16 }
    requires leaf_length { 1 ≤ leaf_length }
    requires range { IsLeafRange leaf_length first ends (length bytes.now) }
    requires room { length digests.old ≡ 64 * leaf_count leaf_length (length bytes.now) }
    ensures digests { digests.new ≡ range_digests
        (tree_parameters salt.now persona.now leaf_length) first ends bytes.now }
    ensures part { AreDigestsInEveryMessage (tree_parameters salt.now persona.now leaf_length) first
        ends
        bytes.now digests.new }
{
    Nodes::new(salt, persona, leaf_length).write_digests(first, ends, bytes, digests);
}

/// Returns the root over the joined digests of a message's leaves, in `N` bytes, at most 64. It
/// is the `tree_root` of a message that was cut into ranges of leaves, if these are the digests
/// of all ranges, in order. Salt and persona have at most 16 bytes each, and a leaf has
/// `leaf_length` bytes, 1 to 2^32 - 1.
///
/// If a range of the message changes, replace its digests with the new ones: this is then the
/// root of the changed message. That message may be longer, if the range ends it.
///
/// If a message becomes shorter, it is cut into two ranges, and two calls are enough. Keep the
/// digests of the whole leaves before the new last range, and let [`hash_leaves`] write those of
/// that range after them, with `ends`, and with the number of kept leaves as `first`. Then call
/// this function with both. The new last leaf is in that range even if its bytes are the same,
/// since it was not the last before.
pub fn root_of_leaves<const N: usize>(
    salt: &[u8],
    persona: &[u8],
    leaf_length: u32,
    digests: &[u8],
) -> [u8; N]
    requires size { N ≤ 64 }
    requires salt { length salt.now ≤ 16 }
    requires persona { length persona.now ≤ 16 }
    requires leaf_length { 1 ≤ leaf_length }
    ensures root { result ≡ digest blake2b N
        (root_input_over_digests (tree_parameters salt.now persona.now leaf_length) digests.now) }
    ensures cuts { IsRootOfCuts N (tree_parameters salt.now persona.now leaf_length) digests.now
        result }
    ensures changes { IsRootAfterReplacement N (tree_parameters salt.now persona.now leaf_length)
        digests.now result }
{
    Nodes::new(salt, persona, leaf_length).root_of(digests)
}

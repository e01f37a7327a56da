//! Callers of nodes of a tree of hashes, and of a whole tree.

ghost use Rattle.std.specs.Prelude.{◌≡◌, ℕ, ◌+◌, ◌*◌, ◌^◌, ◌<◌, ◌≤◌, ◌↔◌, ◌⊎◌, true, List, []};
ghost use Rattle.std.specs.Prelude.{◌++◌, ◌%◌, length, None, OnOk, OnErr, IsErr};
ghost use Rattle.blake2_simd.specs.Family.{blake2b};
ghost use Rattle.blake2_compress.specs.Hash.{AdmitsTree};
ghost use Rattle.blake2_compress.specs.Views.{tree_of};
ghost use Rattle.blake2.specs.States.{node_digest_of};
ghost use Rattle.blake2_tree.specs.TreeRoot.{tree_parameters, tree_root as root_of, leaf_count};
ghost use Rattle.blake2_tree.specs.TreeRoot.{leaf_digests};
ghost use Rattle.blake2_tree.specs.LeafRanges.{IsLeafRange, AreWholeLeaves, ReplacesOldLeaves};
ghost use Rattle.blake2_tree.specs.LeafRanges.{overwritten_from};

use blake2::digest::{Digest, LastNode};
use blake2::{Blake2b512, Tree};
use blake2_digest::InvalidLength;
use blake2_state::tree::TreeState;
use blake2_tree::{TreeHasher, hash_leaves, leaf_count, root_of_leaves, tree_root};

/// Returns the digest of a node with these tree parameters, the last of its level.
pub fn last_node_digest(tree: &Tree, bytes: &[u8]) -> [u8; 64]
    requires tree { AdmitsTree blake2b (tree_of tree.now) }
    requires fits { length bytes.now < 2 ^ 64 }
    ensures { result ≡ node_digest_of blake2b 64 [] [] None (tree_of tree.now) true bytes.now }
{
    let mut hasher = Blake2b512::new_with_tree(b"", b"", tree);
    hasher.set_last_node(true);
    hasher.update(bytes);
    hasher.finalize()
}

/// Returns the root of a message in a tree with leaves of 65,536 bytes.
pub fn root(message: &[u8]) -> [u8; 64]
    requires { length message.now < 2 ^ 58 }
    ensures { result ≡ root_of 64 (tree_parameters [] [] 65536) message.now }
{
    tree_root(b"", b"", 65536, message)
}

/// Returns the same root for a message that comes in two pieces.
pub fn root_of_parts(first: &[u8], second: &[u8]) -> [u8; 64]
    requires { length first.now + length second.now < 2 ^ 58 }
    ensures { result ≡ root_of 64 (tree_parameters [] [] 65536) (first.now ++ second.now) }
{
    let mut hasher = TreeHasher::new(b"", b"", 65536);
    hasher.update(first);
    hasher.update(second);
    hasher.finalize()
}

/// Fills `out`, of 1 to 64 bytes, with the root of a message in two pieces. The error is
/// `InvalidLength`, exactly for another length. `out` then stays as it is.
pub fn fill_root(out: &mut [u8], first: &[u8], second: &[u8]) -> Result<(), InvalidLength>
    requires { length first.now + length second.now < 2 ^ 58 }
    ensures refused { IsErr result ↔ ((length out.old ≡ 0) ⊎ (64 < length out.old)) }
    ensures filled { OnOk result (out.new
        ≡ root_of (length out.old) (tree_parameters [] [] 65536) (first.now ++ second.now)) }
    ensures same { OnErr result (out.new ≡ out.old) }
{
    let mut state = TreeState::new(out.len(), b"", b"", 65536)?;
    state.update(first);
    state.update(second);
    state.write_root(out);
    Ok(())
}

/// Returns the root of a message, of which two ranges of leaves are hashed separately: `front`,
/// which is whole leaves, and `last`. Each could be hashed by another thread.
pub fn root_of_ranges(front: &[u8], last: &[u8], digests: &mut [u8]) -> [u8; 64]
    requires whole { AreWholeLeaves 65536 front.now }
    requires some { 0 < length last.now }
    requires fits { length front.now + length last.now < 2 ^ 58 }
    requires room { length digests.old ≡ 64
        * (leaf_count 65536 (length front.now) + leaf_count 65536 (length last.now)) }
    ensures { result ≡ root_of 64 (tree_parameters [] [] 65536) (front.now ++ last.now) }
{
    let count = leaf_count(65536, front.len() as u64);
    let at = 64 * count as usize;
    hash_leaves(b"", b"", 65536, 0, false, front, &mut digests[..at]);
    hash_leaves(b"", b"", 65536, count, true, last, &mut digests[at..]);
    root_of_leaves(b"", b"", 65536, digests)
}

/// Returns the root of a message, of which a hasher absorbs whole leaves by their digests:
/// `first` comes as bytes, `middle` and `more` are hashed separately, which other threads could
/// do, and `last` follows.
pub fn root_by_digests(
    first: &[u8],
    middle: &[u8],
    more: &[u8],
    last: &[u8],
    digests: &mut [u8],
) -> [u8; 64]
    requires first { length first.now % 65536 ≡ 0 }
    requires middle { AreWholeLeaves 65536 middle.now }
    requires more { AreWholeLeaves 65536 more.now }
    requires last { 0 < length last.now }
    requires fits { length first.now + length middle.now + length more.now + length last.now
        < 2 ^ 58 }
    requires room { length digests.old ≡ 64
        * (leaf_count 65536 (length middle.now) + leaf_count 65536 (length more.now)) }
    ensures { result ≡ root_of 64 (tree_parameters [] [] 65536)
        (first.now ++ ((middle.now ++ more.now) ++ last.now)) }
{
    let mut hasher = TreeHasher::new(b"", b"", 65536);
    hasher.update(first);
    let next = hasher.counted() / 65536;
    let count = leaf_count(65536, middle.len() as u64);
    let at = 64 * count as usize;
    hash_leaves(b"", b"", 65536, next, false, middle, &mut digests[..at]);
    hash_leaves(
        b"",
        b"",
        65536,
        next + count,
        false,
        more,
        &mut digests[at..],
    );
    hasher.update_leaves(digests, last);
    hasher.finalize()
}

/// Returns the root of a message after one leaf has changed. `digests` must be those of the
/// leaves before the change, and are then those after it. Only the new leaf is hashed.
pub fn root_after_change(digests: &mut [u8], first: u64, ends: bool, leaf: &[u8]) -> [u8; 64]
    requires range { IsLeafRange 65536 first ends (length leaf.now) }
    requires one { length leaf.now ≤ 65536 }
    requires within { 64 * (first + 1) ≤ length digests.old }
    ensures root { (old : List ℕ) → digests.old ≡ leaf_digests (tree_parameters [] [] 65536) old
        → ReplacesOldLeaves 65536 (length old) first ends (length leaf.now)
        → result
        ≡ root_of 64 (tree_parameters [] [] 65536) (overwritten_from (first * 65536) leaf.now old) }
    ensures digests { (old : List ℕ)
        → digests.old ≡ leaf_digests (tree_parameters [] [] 65536) old
        → ReplacesOldLeaves 65536 (length old) first ends (length leaf.now)
        → digests.new
        ≡ leaf_digests (tree_parameters [] [] 65536)
        (overwritten_from (first * 65536) leaf.now old) }
{
    let at = 64 * first as usize;
    hash_leaves(
        b"",
        b"",
        65536,
        first,
        ends,
        leaf,
        &mut digests[at..at + 64],
    );
    root_of_leaves(b"", b"", 65536, digests)
}

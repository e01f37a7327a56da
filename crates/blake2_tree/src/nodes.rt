//! The nodes of a tree: their tree parameters, hashers and inputs of them, and their digests.

ghost use Rattle.std.specs.Prelude.{◌≡◌, ◌+◌, ◌*◌, ◌^◌, ◌<◌, ◌≤◌, ◌++◌, length, IfOk, true, take};
ghost use Rattle.std.specs.Prelude.{drop, false};
ghost use Rattle.blake2.specs.Hashers.{blake2b_meaning};
ghost use Rattle.blake2_digest.specs.States.{Fresh};
ghost use Rattle.blake2_simd.specs.Family.{blake2b};
ghost use Rattle.blake2_compress.specs.Inputs.{Accepts};
ghost use Rattle.blake2_compress.specs.Views.{tree_of, input_of};
ghost use Rattle.blake2_tree.specs.TreeRoot.{node_tree_parameters, node, leaf_count, leaf_digests};
ghost use Rattle.blake2_tree.specs.TreeRoot.{leaf_input};
ghost use Rattle.blake2_tree.specs.TreeRoot.{root_input_over_digests, tree_parameters};
ghost use Rattle.blake2_tree.specs.LeafRanges.{IsLeafRange, range_digests, overwritten_from};

use crate::kept_salt::KeptSalt;
use crate::ranges::leaf_count;
use blake2::digest::{FixedOutput, LastNode, Update};
use blake2::laws::pieces::{piece, piece_count};
use blake2::transcripts::{Input, Tree};
use blake2::{Blake2b, many};
use std::alloc::{AllocError, Global};

/// What the nodes of one tree share: salt and persona of at most 16 bytes each, and the number of
/// bytes of a leaf, 1 to 2^32 - 1.
#[derive(Drop)]
pub struct Nodes {
    salt: KeptSalt,
    persona: KeptSalt,
    pub(crate) leaf_length: u32,
    ghost some_length: { 1 ≤ leaf_length },
}

// Writes the bytes from index `at` on.
fn write_at(out: &mut [u8], at: usize, bytes: &[u8])
    requires { at + length bytes.now ≤ length out.old }
    ensures { out.new ≡ overwritten_from at bytes.now out.old }
{
    out[at..at + bytes.len()].copy_from_slice(bytes);
}

impl Nodes {
    ghost use Rattle.blake2_tree.specs.NodeViews.{shared_parameters, node_digest};
    ghost use Rattle.blake2_tree.specs.NodeViews.{digests_of_four_leaves};

    /// Returns what all nodes of a tree share: salt and persona, at most 16 bytes each, and the
    /// number of bytes of a leaf, at least 1.
    pub fn new(salt: &[u8], persona: &[u8], leaf_length: u32) -> Self
        requires salt { length salt.now ≤ 16 }
        requires persona { length persona.now ≤ 16 }
        requires leaf_length { 1 ≤ leaf_length }
        ensures { shared_parameters result ≡ tree_parameters salt.now persona.now leaf_length }
    {
        Nodes {
            salt: KeptSalt::new(salt),
            persona: KeptSalt::new(persona),
            leaf_length,
        }
    }

    /// Returns the salt, 0 to 16 bytes.
    pub fn salt(&self) -> &[u8]
        ensures is { result.now ≡ (shared_parameters self.now).salt }
        ensures short { length result.now ≤ 16 }
    {
        self.salt.as_slice()
    }

    /// Returns the persona, 0 to 16 bytes.
    pub fn persona(&self) -> &[u8]
        ensures is { result.now ≡ (shared_parameters self.now).persona }
        ensures short { length result.now ≤ 16 }
    {
        self.persona.as_slice()
    }

    /// Returns the tree parameters of a node: depth 0 is that of the leaves, and depth 1 the
    /// root's, at offset 0.
    pub fn place(&self, node_offset: u64, node_depth: u8) -> Tree
        ensures { tree_of result
            ≡ node_tree_parameters (shared_parameters self.now).leaf_length node_offset node_depth }
    {
        Tree {
            fanout: 0,
            depth: 2,
            leaf_length: self.leaf_length,
            node_offset,
            node_depth,
            inner_length: 64,
        }
    }

    /// Returns a hasher of a node that has absorbed nothing, with a digest of at most 64 bytes.
    pub(crate) fn open_node<const N: usize>(&self, node_offset: u64, node_depth: u8) -> Blake2b<N>
        requires { N ≤ 64 }
        ensures { Fresh (blake2b_meaning N)
            (node_digest N (shared_parameters self.now) node_offset node_depth) 0 result }
    {
        let place = self.place(node_offset, node_depth);
        Blake2b::new_with_tree(self.salt.as_slice(), self.persona.as_slice(), &place)
    }

    // A node as an input.
    fn node<'a>(
        &'a self,
        node_offset: u64,
        node_depth: u8,
        last_node: bool,
        bytes: &'a [u8],
    ) -> Input<'a>
        ensures is { input_of result
            ≡ node (shared_parameters self.now) node_offset node_depth last_node bytes.now }
        ensures accepted { Accepts blake2b (input_of result) }
    {
        Input {
            salt: self.salt.as_slice(),
            persona: self.persona.as_slice(),
            key: None,
            tree: self.place(node_offset, node_depth),
            last_node,
            message: bytes,
        }
    }

    /// Returns leaf `i` of a message as an input. `i` must be below the number of leaves.
    pub(crate) fn leaf<'a>(&'a self, message: &'a [u8], i: usize) -> Input<'a>
        requires { i < leaf_count self.now.leaf_length (length message.now) }
        ensures is { input_of result ≡ leaf_input (shared_parameters self.now) message.now i }
        ensures accepted { Accepts blake2b (input_of result) }
    {
        let length = self.leaf_length as usize;
        let is_last = i + 1 == piece_count(length, message);
        self.node(i as u64, 0, is_last, piece(length, message, i))
    }

    /// Returns the root over the joined digests of the leaves, as an input.
    pub(crate) fn root<'a>(&'a self, digests: &'a [u8]) -> Input<'a>
        ensures is { input_of result ≡ root_input_over_digests (shared_parameters self.now)
            digests.now }
        ensures accepted { Accepts blake2b (input_of result) }
    {
        self.node(0, 1, true, digests)
    }

    /// Returns the number of bytes of four leaves, which are hashed in parallel.
    pub(crate) fn four_leaves(&self) -> usize
        ensures { result ≡ 4 * self.now.leaf_length }
    {
        4 * self.leaf_length as usize
    }

    /// Returns the digests, of 64 bytes each, of four whole leaves, which are hashed in parallel:
    /// leaf `i` of a message, whose bytes are the first of `text`, and the next three. `last`
    /// says whether the fourth is the message's last. `text` must have at least the bytes of four
    /// leaves, and `i` is at most 2^64 - 4.
    pub fn hash_four(&self, i: u64, last: bool, text: &[u8]) -> [[u8; 64]; 4]
        requires place { i + 3 < 2 ^ 64 }
        requires whole { 4 * self.now.leaf_length ≤ length text.now }
        ensures { result ≡ digests_of_four_leaves (shared_parameters self.now) i last text.now }
    {
        let length = self.leaf_length as usize;
        let leaves = [
            self.node(i, 0, false, &text[..length]),
            self.node(i + 1, 0, false, &text[length..2 * length]),
            self.node(i + 2, 0, false, &text[2 * length..3 * length]),
            self.node(i + 3, 0, last, &text[3 * length..4 * length]),
        ];
        many::blake2b::hash_four(&leaves)
    }

    // The same of eight whole leaves, none of which is the message's last.
    fn hash_eight(&self, i: u64, text: &[u8]) -> [[u8; 64]; 8]
        requires place { i + 7 < 2 ^ 64 }
        requires whole { 8 * self.now.leaf_length ≤ length text.now }
        ensures { result ≡ digests_of_four_leaves (shared_parameters self.now) i false text.now
            ++ digests_of_four_leaves (shared_parameters self.now) (i + 4) false
            (drop (4 * self.now.leaf_length) text.now) }
    {
        let length = self.leaf_length as usize;
        let behind = &text[4 * length..];
        let leaves = [
            self.node(i, 0, false, &text[..length]),
            self.node(i + 1, 0, false, &text[length..2 * length]),
            self.node(i + 2, 0, false, &text[2 * length..3 * length]),
            self.node(i + 3, 0, false, &text[3 * length..4 * length]),
            self.node(i + 4, 0, false, &behind[..length]),
            self.node(i + 5, 0, false, &behind[length..2 * length]),
            self.node(i + 6, 0, false, &behind[2 * length..3 * length]),
            self.node(i + 7, 0, false, &behind[3 * length..4 * length]),
        ];
        many::blake2b::eight::hash_eight(&leaves)
    }

    /// Hashes the next whole leaves of a message, of which more than four are left: eight or four
    /// in parallel, or one, as is fastest here. Returns how many, and writes their digests, of 64
    /// bytes each, at the beginning of `digests`. `text` begins with leaf `i` and goes on after
    /// those that are hashed, and `i` is at most 2^64 - 8.
    pub fn hash_next(&self, i: u64, text: &[u8], digests: &mut [u8; 512]) -> usize
        requires place { i + 7 < 2 ^ 64 }
        requires more { 4 * self.now.leaf_length < length text.now }
        ensures some { 1 ≤ result }
        ensures most { result ≤ 8 }
        ensures more { result * self.now.leaf_length < length text.now }
        ensures digests { take (64 * result) digests.new ≡ range_digests
            (shared_parameters self.now) i false (take (result * self.now.leaf_length) text.now) }
    {
        let length = self.leaf_length as usize;
        let lanes = many::blake2b::best_lane_count();
        if lanes >= 8 && text.len() > 8 * length {
            digests.copy_from_slice(self.hash_eight(i, text).as_flattened());
            8
        } else if lanes >= 4 {
            digests[..256].copy_from_slice(self.hash_four(i, false, text).as_flattened());
            4
        } else {
            digests[..64].copy_from_slice(&self.leaf_digest(i, false, &text[..length]));
            1
        }
    }

    // The digest of a leaf, which is the message's last or not.
    fn leaf_digest(&self, i: u64, last: bool, bytes: &[u8]) -> [u8; 64]
        ensures { result ≡ node_digest 64 (shared_parameters self.now) i 0 last bytes.now }
    {
        let mut leaf = self.open_node::<64>(i, 0);
        leaf.set_last_node(last);
        leaf.update(bytes);
        leaf.finalize_fixed()
    }

    /// Returns the root over the joined digests of the leaves, in `N` bytes, at most 64.
    pub(crate) fn root_of<const N: usize>(&self, digests: &[u8]) -> [u8; N]
        requires { N ≤ 64 }
        ensures { result ≡ node_digest N (shared_parameters self.now) 0 1 true digests.now }
    {
        let mut root = self.open_node::<N>(0, 1);
        root.set_last_node(true);
        root.update(digests);
        root.finalize_fixed()
    }

    /// Writes the digests of a range of leaves, the first of which is leaf `first`. `ends` says
    /// whether the last of them is the message's last. `out` must have exactly 64 bytes for each
    /// leaf.
    pub(crate) fn write_digests(&self, first: u64, ends: bool, bytes: &[u8], out: &mut [u8])
        requires range { IsLeafRange self.now.leaf_length first ends (length bytes.now) }
        requires room { length out.old ≡ 64 * leaf_count self.now.leaf_length (length bytes.now) }
        ensures { out.new ≡ range_digests (shared_parameters self.now) first ends bytes.now }
    {
        let mut done = 0;
        let mut rest = bytes;
        while rest.len() > self.four_leaves() {
            let mut digests = [0; 512];
            let count = self.hash_next(first + done as u64, rest, &mut digests);
            write_at(out, 64 * done, &digests[..64 * count]);
            done += count;
            rest = &rest[count * self.leaf_length as usize..];
        }
        self.write_last(first + done as u64, ends, rest, &mut out[64 * done..]);
    }

    // The same for at most four leaves. Four whole ones are hashed in parallel, if that is faster.
    fn write_last(&self, first: u64, ends: bool, bytes: &[u8], out: &mut [u8])
        requires short { length bytes.now ≤ 4 * self.now.leaf_length }
        requires place { first + 3 < 2 ^ 64 }
        requires room { length out.old ≡ 64 * leaf_count self.now.leaf_length (length bytes.now) }
        ensures { out.new ≡ range_digests (shared_parameters self.now) first ends bytes.now }
    {
        if many::blake2b::best_lane_count() >= 4 && bytes.len() == self.four_leaves() {
            out.copy_from_slice(self.hash_four(first, ends, bytes).as_flattened());
        } else {
            self.write_one_by_one(first, ends, bytes, out);
        }
    }

    // The same, one leaf at a time.
    fn write_one_by_one(&self, first: u64, ends: bool, bytes: &[u8], out: &mut [u8])
        requires short { length bytes.now ≤ 4 * self.now.leaf_length }
        requires place { first + 3 < 2 ^ 64 }
        requires room { length out.old ≡ 64 * leaf_count self.now.leaf_length (length bytes.now) }
        ensures { out.new ≡ range_digests (shared_parameters self.now) first ends bytes.now }
    {
        let length = self.leaf_length as usize;
        let mut done = 0;
        let mut rest = bytes;
        while rest.len() > length {
            let digest = self.leaf_digest(first + done as u64, false, &rest[..length]);
            write_at(out, 64 * done, &digest);
            done += 1;
            rest = &rest[length..];
        }
        let digest = self.leaf_digest(first + done as u64, ends, rest);
        write_at(out, 64 * done, &digest);
    }

    /// Returns the joined digests of a message's leaves. The message has fewer than 2^58 bytes.
    /// The error is `AllocError`, if an allocation fails.
    pub(crate) fn leaf_digests(&self, alloc: Global, message: &[u8]) -> Result<Vec<u8>, AllocError>
        requires { length message.now < 2 ^ 58 }
        ensures { IfOk result (λ digests.
            digests.items ≡ leaf_digests (shared_parameters self.now) message.now) }
    {
        let length = 64 * leaf_count(self.leaf_length, message.len() as u64);
        let mut digests = vec![in alloc; 0; length as usize]?;
        self.write_digests(0, true, message, &mut digests);
        Ok(digests)
    }
}

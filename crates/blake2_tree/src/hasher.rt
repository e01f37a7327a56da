//! The tree over a message that comes in pieces.

ghost use Rattle.std.specs.Prelude.{◌≡◌, ℕ, ◌+◌, ◌*◌, ◌^◌, ◌<◌, ◌≤◌, List, [], ◌++◌, length, true};
ghost use Rattle.std.specs.Prelude.{false, ◌/◌, ◌%◌, ◌↔◌, IsTrue};
ghost use Rattle.blake2.specs.Hashers.{blake2b_meaning};
ghost use Rattle.blake2_tree.specs.NodeViews.{shared_parameters, IsFreshLeaf};
ghost use Rattle.blake2_tree.specs.LeafRanges.{AreWholeLeaves, range_digests};
ghost use Rattle.blake2_tree.specs.TreeRoot.{tree_parameters, tree_root as root_of};

use crate::limits::has_room_for;
use crate::nodes::Nodes;
use blake2::digest::{FixedOutput, LastNode, Update};
use blake2::{Blake2b, many};
use std::mem;

/// A tree of hashes with two levels over BLAKE2b (the BLAKE2 document, 2.10), with a root of `N`
/// bytes, at most 64. It allocates nothing, and hashes four or eight whole leaves in
/// parallel if more input follows them and that is faster than one after another.
// A full leaf stays open until more input comes, since only the end shows which leaf is the last.
#[derive(Drop)]
pub struct TreeHasher<const N: usize> {
    nodes: Nodes,
    // How many leaves are closed: the root has absorbed their digests.
    closed: u64,
    // The open leaf, full or not.
    leaf: Blake2b<64>,
    root: Blake2b<N>,
    ghost within_a_leaf: { (blake2b_meaning 64).count leaf ≤ nodes.leaf_length },
    ghost not_the_last: { (blake2b_meaning 64).last_node leaf ≡ false },
    ghost counted: { closed * nodes.leaf_length + (blake2b_meaning 64).count leaf < 2 ^ 58 },
    ghost digests_taken: { (blake2b_meaning N).count root ≡ 64 * closed },
    // A leaf that has no bytes yet is as it was opened.
    ghost opened: { (blake2b_meaning 64).count leaf ≡ 0
        → IsFreshLeaf (blake2b_meaning 64) (shared_parameters nodes) closed leaf },
    // The digest of the open leaf still fits the root's count.
    ghost one_more_fits: { closed + 1 < 2 ^ 58 },
}

impl<const N: usize> TreeHasher<N> {
    ghost use Rattle.blake2_tree.specs.OpenTrees.{room, HasAbsorbedPrefix};
    ghost use Rattle.blake2_tree.specs.LeafUpdates.{IsAtLeafBoundary, next_leaf_index};
    ghost use Rattle.blake2_tree.specs.LeafUpdates.{AcceptsLeafDigests};
    ghost use Rattle.blake2_tree.specs.LeafUpdates.{HasAbsorbedLeaves, HasAbsorbedDigests};
    ghost use Rattle.blake2_tree.specs.LeafUpdates.{root_after_leaf_digests};
    ghost use Rattle.blake2_tree.specs.TreeHashers.{held_tree, future, count, HasAbsorbed};

    /// Returns a hasher that has absorbed nothing. Salt and persona have at most 16 bytes each,
    /// and a leaf has `leaf_length` bytes, 1 to 2^32 - 1.
    pub fn new(salt: &[u8], persona: &[u8], leaf_length: u32) -> Self
        requires size { N ≤ 64 }
        requires salt { length salt.now ≤ 16 }
        requires persona { length persona.now ≤ 16 }
        requires leaf_length { 1 ≤ leaf_length }
        ensures root { (y : List ℕ) → future result y
            ≡ root_of N (tree_parameters salt.now persona.now leaf_length) y }
        ensures nothing { count result ≡ 0 }
        ensures shared { (held_tree result).shared
            ≡ tree_parameters salt.now persona.now leaf_length }
    {
        let nodes = Nodes::new(salt, persona, leaf_length);
        TreeHasher {
            leaf: nodes.open_node(0, 0),
            root: nodes.open_node(0, 1),
            closed: 0,
            nodes,
        }
    }

    /// Absorbs the input after all that was absorbed before. The message must have fewer than
    /// 2^58 bytes in all; `counted` returns the count so far.
    pub fn update(&mut self, input: &[u8])
        requires { count self.old + length input.now < 2 ^ 58 }
        ensures { HasAbsorbed self.old input.now self.new }
    {
        let mut rest = input;
        while rest.len() as u64 > self.room() {
            rest = if self.leaf.counted() == 0 && rest.len() > self.nodes.four_leaves() {
                self.close_next(rest)
            } else {
                self.close_leaf(rest)
            };
        }
        self.leaf.update(rest);
    }

    /// Returns whether what was absorbed is whole leaves, or nothing.
    pub fn is_at_boundary(&self) -> bool
        ensures { IsTrue result ↔ IsAtLeafBoundary (held_tree self.now) }
    {
        self.counted() % u64::from(self.nodes.leaf_length) == 0
    }

    /// Returns whether [`TreeHasher::update_leaves`] accepts `digests_length` bytes of digests
    /// and `input_length` bytes of input after them. The digests must be whole, and the message
    /// stays below 2^58 bytes. If there are digests, the hasher must be at a leaf boundary, and
    /// at least one byte of input follows them.
    pub fn accepts_leaves(&self, digests_length: usize, input_length: usize) -> bool
        ensures { IsTrue result ↔ AcceptsLeafDigests (held_tree self.now) digests_length
            input_length }
    {
        let leaves = digests_length as u64 / 64;
        let is_in_place = digests_length == 0 || (input_length > 0 && self.is_at_boundary());
        let length = u64::from(self.nodes.leaf_length);
        digests_length % 64 == 0
            && is_in_place
            && has_room_for(self.counted(), leaves, length, input_length as u64)
    }

    /// Absorbs whole leaves that others have hashed, which are passed as their joined digests,
    /// and then the input. It is then as after an [`TreeHasher::update`] with the leaves' bytes
    /// and one with the input. The digests have 64 bytes each, and are those of the next leaves
    /// in order, as `hash_leaves` writes them for a range that does not end the message. They
    /// must come at a leaf boundary, and at least one byte of input after them. Without digests
    /// the call is an `update`. [`TreeHasher::accepts_leaves`] must be true of the two lengths.
    pub fn update_leaves(&mut self, digests: &[u8], input: &[u8])
        requires { AcceptsLeafDigests (held_tree self.old) (length digests.now) (length input.now) }
        ensures took { HasAbsorbedLeaves (held_tree self.old) digests.now input.now
            (held_tree self.new) }
        ensures digests { HasAbsorbedDigests (held_tree self.old) digests.now input.now
            (held_tree self.new) }
    {
        if digests.is_empty() {
            return self.update(input);
        }
        self.begin_leaf();
        self.close_given(digests);
        self.update(input);
    }

    /// Returns the number of bytes of the message that it has absorbed so far.
    pub fn counted(&self) -> u64
        ensures { result ≡ count self.now }
    {
        self.closed * u64::from(self.nodes.leaf_length) + self.leaf.counted()
    }

    /// Returns the root of all that was absorbed, `N` bytes.
    pub fn finalize(self) -> [u8; N]
        ensures { result ≡ future self.entry [] }
    {
        let TreeHasher {
            nodes: _,
            closed: _,
            mut leaf,
            mut root,
        } = self;
        leaf.set_last_node(true);
        root.update(&leaf.finalize_fixed());
        root.set_last_node(true);
        root.finalize_fixed()
    }

    // The number of bytes that the open leaf still has room for.
    fn room(&self) -> u64
        ensures { result ≡ room (held_tree self.now) }
    {
        u64::from(self.nodes.leaf_length) - self.leaf.counted()
    }

    // Fills the open leaf up and closes it; it is not the last, since more follows. Opens the
    // next one and returns what is left of the input.
    fn close_leaf<'a>(&mut self, input: &'a [u8]) -> &'a [u8]
        requires more { room (held_tree self.old) < length input.now }
        requires fits { count self.old + length input.now < 2 ^ 58 }
        ensures { HasAbsorbedPrefix (held_tree self.old) input.now (held_tree self.new) result.now }
    {
        let (head, rest) = input.split_at(self.room() as usize);
        self.leaf.update(head);
        self.close_full();
        rest
    }

    // Closes the open leaf, which is full, and opens the next one: more follows.
    fn close_full(&mut self)
        requires full { room (held_tree self.old) ≡ 0 }
        requires fits { count self.old + 1 < 2 ^ 58 }
        ensures future { (y : List ℕ) → 0 < length y → future self.new y ≡ future self.old y }
        ensures root { (z : List ℕ) → (held_tree self.new).root z
            ≡ (held_tree self.old).root ((held_tree self.old).leaf false [] ++ z) }
        ensures count { count self.new ≡ count self.old }
        ensures closed { self.new.closed ≡ self.old.closed + 1 }
        ensures nodes { self.new.nodes ≡ self.old.nodes }
        ensures empty { (blake2b_meaning 64).count self.new.leaf ≡ 0 }
    {
        let next = self.nodes.open_node(self.closed + 1, 0);
        let full = mem::replace(&mut self.leaf, next);
        self.root.update(&full.finalize_fixed());
        self.closed += 1;
    }

    // Closes the open leaf if it is full, so that the open one is empty: more follows.
    fn begin_leaf(&mut self)
        requires boundary { IsAtLeafBoundary (held_tree self.old) }
        requires fits { count self.old + 1 < 2 ^ 58 }
        ensures future { (y : List ℕ) → 0 < length y → future self.new y ≡ future self.old y }
        ensures root { (z : List ℕ)
            → (held_tree self.new).root z ≡ root_after_leaf_digests (held_tree self.old) z }
        ensures count { count self.new ≡ count self.old }
        ensures closed { self.new.closed ≡ next_leaf_index (held_tree self.old) }
        ensures nodes { self.new.nodes ≡ self.old.nodes }
        ensures empty { (blake2b_meaning 64).count self.new.leaf ≡ 0 }
    {
        if self.leaf.counted() > 0 {
            self.close_full();
        }
    }

    // Closes the whole leaves of which these are the digests: the open one, which is empty, and
    // those after it. More follows. Opens the next one.
    fn close_given(&mut self, digests: &[u8])
        requires empty { (blake2b_meaning 64).count self.old.leaf ≡ 0 }
        requires whole { length digests.now % 64 ≡ 0 }
        requires fits { count self.old + length digests.now / 64 * self.old.nodes.leaf_length + 1
            < 2 ^ 58 }
        ensures future { (x y : List ℕ) → AreWholeLeaves self.old.nodes.leaf_length x → 0 < length y
            → digests.now ≡ range_digests (shared_parameters self.old.nodes) self.old.closed false x
            → future self.new y ≡ future self.old (x ++ y) }
        ensures root { (y : List ℕ) → future self.new y
            ≡ (held_tree self.old).root (digests.now ++ range_digests
            (shared_parameters self.old.nodes) (self.old.closed + length digests.now / 64) true y) }
        ensures count { count self.new
            ≡ count self.old + length digests.now / 64 * self.old.nodes.leaf_length }
        ensures nodes { self.new.nodes ≡ self.old.nodes }
        ensures empty { (blake2b_meaning 64).count self.new.leaf ≡ 0 }
    {
        self.root.update(digests);
        self.closed += digests.len() as u64 / 64;
        self.leaf = self.nodes.open_node(self.closed, 0);
    }

    // Closes the next leaves, which are whole and not the last: the open one, which is empty, and
    // those that are hashed in parallel with it. Opens the next one and returns what is left of the
    // input.
    fn close_next<'a>(&mut self, input: &'a [u8]) -> &'a [u8]
        requires empty { (blake2b_meaning 64).count self.old.leaf ≡ 0 }
        requires more { 4 * self.old.nodes.leaf_length < length input.now }
        requires fits { count self.old + length input.now < 2 ^ 58 }
        ensures went_on { HasAbsorbedPrefix (held_tree self.old) input.now (held_tree self.new)
            result.now }
        ensures empty { (blake2b_meaning 64).count self.new.leaf ≡ 0 }
    {
        let mut digests = [0; 512];
        let count = self.nodes.hash_next(self.closed, input, &mut digests);
        let taken = count * self.nodes.leaf_length as usize;
        self.close_given(&digests[..64 * count]);
        &input[taken..]
    }

    // Closes leaves in parallel as long as more than four are left, if the open one is empty.
    // Returns what is left of the input: at most four leaves, of which none is closed.
    fn close_fours<'a>(&mut self, input: &'a [u8]) -> &'a [u8]
        requires empty { (blake2b_meaning 64).count self.old.leaf ≡ 0 }
        requires fits { count self.old + length input.now < 2 ^ 58 }
        ensures future { (y : List ℕ)
            → future self.new (result.now ++ y) ≡ future self.old (input.now ++ y) }
        ensures count { count self.new + length result.now ≡ count self.old + length input.now }
        ensures empty { (blake2b_meaning 64).count self.new.leaf ≡ 0 }
        ensures short { length result.now ≤ 4 * self.new.nodes.leaf_length }
    {
        let mut rest = input;
        while rest.len() > self.nodes.four_leaves() {
            rest = self.close_next(rest);
        }
        rest
    }

    // The root of all that was absorbed and of four whole leaves after it: the open one, which is
    // empty, and three more, the last of the tree.
    fn finish_four(self, input: &[u8]) -> [u8; N]
        requires empty { (blake2b_meaning 64).count self.leaf ≡ 0 }
        requires whole { length input.now ≡ 4 * self.nodes.leaf_length }
        requires fits { count self + length input.now < 2 ^ 58 }
        ensures { result ≡ future self.entry input.now }
    {
        let digests = self.nodes.hash_four(self.closed, true, input);
        let TreeHasher {
            nodes: _,
            closed: _,
            leaf: _,
            mut root,
        } = self;
        root.update(digests.as_flattened());
        root.set_last_node(true);
        root.finalize_fixed()
    }

    // The root of all that was absorbed, if the open leaf is empty, and of the input after it.
    fn finish(mut self, input: &[u8]) -> [u8; N]
        requires empty { (blake2b_meaning 64).count self.leaf ≡ 0 }
        requires fits { count self + length input.now < 2 ^ 58 }
        ensures { result ≡ future self.entry input.now }
    {
        let rest = self.close_fours(input);
        if many::blake2b::best_lane_count() >= 4 && rest.len() == self.nodes.four_leaves() {
            self.finish_four(rest)
        } else {
            self.update(rest);
            self.finalize()
        }
    }
}

/// The root of a message, as [`TreeHasher`] returns it: `N` bytes, at most 64. Salt and persona
/// have at most 16 bytes each, a leaf has `leaf_length` bytes, 1 to 2^32 - 1, and the message fewer
/// than 2^58. The call allocates nothing, and hashes whole leaves in parallel, the last four too.
pub fn tree_root<const N: usize>(
    salt: &[u8],
    persona: &[u8],
    leaf_length: u32,
    message: &[u8],
) -> [u8; N]
    requires size { N ≤ 64 }
    requires salt { length salt.now ≤ 16 }
    requires persona { length persona.now ≤ 16 }
    requires leaf_length { 1 ≤ leaf_length }
    requires message { length message.now < 2 ^ 58 }
    ensures { result ≡ root_of N (tree_parameters salt.now persona.now leaf_length) message.now }
{
    TreeHasher::new(salt, persona, leaf_length).finish(message)
}

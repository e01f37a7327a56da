//! The tree over a message that comes in pieces, with a state of plain numbers: any caller can
//! keep one anywhere, copy it and pass it on as bytes, and the root's size is chosen at run time.
//! `blake2_ffi` makes it available to C.

ghost use Rattle.std.specs.Prelude.{◌≡◌, ℕ, ◌+◌, ◌*◌, ◌^◌, ◌<◌, ◌≤◌, ◌↔◌, List, [], ◌++◌, length};
ghost use Rattle.std.specs.Prelude.{◌/◌, ◌%◌, drop, true, false, IfOk, IsErr, IsTrue};
ghost use Rattle.blake2_digest.specs.States.{Fresh, IsAtStart, digest_now};
ghost use Rattle.blake2_simd.specs.Family.{blake2b};
ghost use Rattle.blake2_compress.specs.Hash.{digest};
ghost use Rattle.blake2_state.specs.Blake2b.{IsReady as IsNodeReady, meaning};
ghost use Rattle.blake2_tree.specs.NodeViews.{shared_parameters, node_digest};
ghost use Rattle.blake2_tree.specs.TreeRoot.{tree_parameters, tree_root as root_of};
ghost use Rattle.blake2_tree.specs.TreeRoot.{root_input_over_digests};
ghost use Rattle.blake2_tree.specs.TreeRoot.{leaf_count};
ghost use Rattle.blake2_tree.specs.LeafRanges.{AreWholeLeaves, range_digests};
ghost use Rattle.blake2_tree.specs.LeafRanges.{AreDigestsInEveryMessage};
ghost use Rattle.blake2_tree.specs.LeafRanges.{IsRootOfCuts};
ghost use Rattle.blake2_tree.specs.LeafRanges.{IsRootAfterReplacement};
ghost use Rattle.blake2_state.specs.TreeStates.{HasTreeLengths, HasTreeCounts, IsReady};
ghost use Rattle.blake2_state.specs.TreeStates.{HasEmptyOpenLeaf};
ghost use Rattle.blake2_state.specs.TreeStates.{HasFreshLeafIfEmpty, HasAbsorbed, parameters};
ghost use Rattle.blake2_state.specs.TreeStates.{state_tree, future};
ghost use Rattle.blake2_state.specs.TreeStates.{count, zeros};
ghost use Rattle.blake2_tree.specs.TreeLengths.{AreAcceptedTreeLengths, tree_lengths_of};
ghost use Rattle.blake2_tree.specs.OpenTrees.{room, HasAbsorbedPrefix};
ghost use Rattle.blake2_tree.specs.LeafUpdates.{IsAtLeafBoundary, next_leaf_index, AreNextLeaves};
ghost use Rattle.blake2_tree.specs.LeafUpdates.{AcceptsLeafDigests, HasAbsorbedLeaves};
ghost use Rattle.blake2_tree.specs.LeafUpdates.{HasAbsorbedDigests, root_after_leaf_digests};

use crate::blake2b::State;
use blake2_compress::params::Parameters;
use blake2_digest::{InvalidLength, padded};
use blake2_tree::nodes::Nodes;
use blake2_tree::{LABEL_BYTES, MESSAGE_LIMIT, accepts, has_room_for, hash_leaves, is_range};

/// A state of the tree as plain numbers. All values of the fields are states, and none is unsafe.
/// A state returns a root if it is ready ([`TreeState::is_ready`]), as all are that `new` has
/// made.
// A full leaf stays open until more input comes, since only the end shows which leaf is the last.
#[repr(C)]
#[derive(Drop)]
pub struct TreeState {
    /// The open leaf, full or not.
    pub leaf: State,
    /// The root, which has absorbed the digests of the closed leaves.
    pub root: State,
    /// How many leaves are closed.
    pub closed: u64,
    /// The number of bytes of a leaf, 1 to 2^32 - 1.
    pub leaf_length: u64,
    /// The number of bytes of the salt, 0 to 16.
    pub salt_length: usize,
    /// The number of bytes of the persona, 0 to 16.
    pub persona_length: usize,
    /// The salt, at the beginning.
    pub salt: [u8; LABEL_BYTES],
    /// The persona, at the beginning.
    pub persona: [u8; LABEL_BYTES],
}

// A state of a node.
fn node_state(nodes: &Nodes, output_size: usize, node_offset: u64, node_depth: u8) -> State
    requires least { 1 ≤ output_size }
    requires most { output_size ≤ 64 }
    ensures ready { IsNodeReady result }
    ensures size { result.output_size ≡ output_size }
    ensures fresh { Fresh meaning
        (node_digest output_size (shared_parameters nodes.now) node_offset node_depth) 0 result }
{
    State::unkeyed(&Parameters {
        output_size,
        key_size: 0,
        salt: nodes.salt(),
        persona: nodes.persona(),
        tree: nodes.place(node_offset, node_depth),
    })
}

/// Returns a state of leaf `i` of a message, which has absorbed nothing, and whose digest has 64
/// bytes. Its last-node flag says whether it is the message's last leaf. Salt and persona have at
/// most 16 bytes each, and a leaf has `leaf_length` bytes, 1 to 2^32 - 1.
pub fn leaf_state(salt: &[u8], persona: &[u8], leaf_length: u32, i: u64, last: bool) -> State
    requires salt { length salt.now ≤ 16 }
    requires persona { length persona.now ≤ 16 }
    requires leaf_length { 1 ≤ leaf_length }
    ensures ready { IsNodeReady result }
    ensures size { result.output_size ≡ 64 }
    ensures leaf { IsAtStart meaning
        (node_digest 64 (tree_parameters salt.now persona.now leaf_length) i 0) 0 result }
    ensures last { meaning.last_node result ≡ last }
{
    let nodes = Nodes::new(salt, persona, leaf_length);
    let mut leaf = node_state(&nodes, 64, i, 0);
    leaf.set_last_node(last);
    leaf
}

/// Returns a state of the root, which absorbs the joined digests of all leaves of a message, and
/// whose digest is the root: `output_size` bytes, 1 to 64. Its last-node flag is on. Salt and
/// persona have at most 16 bytes each, and a leaf has `leaf_length` bytes, 1 to 2^32 - 1.
pub fn root_state(salt: &[u8], persona: &[u8], leaf_length: u32, output_size: usize) -> State
    requires least { 1 ≤ output_size }
    requires most { output_size ≤ 64 }
    requires salt { length salt.now ≤ 16 }
    requires persona { length persona.now ≤ 16 }
    requires leaf_length { 1 ≤ leaf_length }
    ensures ready { IsNodeReady result }
    ensures size { result.output_size ≡ output_size }
    ensures root { IsAtStart meaning
        (node_digest output_size (tree_parameters salt.now persona.now leaf_length) 0 1) 0 result }
    ensures last { meaning.last_node result ≡ true }
{
    let nodes = Nodes::new(salt, persona, leaf_length);
    let mut root = node_state(&nodes, output_size, 0, 1);
    root.set_last_node(true);
    root
}

/// Writes the root over the joined digests of a message's leaves, as `root_of_leaves` of the
/// crate `blake2_tree` returns it, in all bytes of `out`, which must have 1 to 64. Salt and
/// persona have at most 16 bytes each, and a leaf has `leaf_length` bytes, 1 to 2^32 - 1.
pub fn write_root_of_leaves(
    out: &mut [u8],
    digests: &[u8],
    salt: &[u8],
    persona: &[u8],
    leaf_length: u32,
)
    requires least { 1 ≤ length out.old }
    requires most { length out.old ≤ 64 }
    requires salt { length salt.now ≤ 16 }
    requires persona { length persona.now ≤ 16 }
    requires leaf_length { 1 ≤ leaf_length }
    ensures root { out.new ≡ digest blake2b (length out.old)
        (root_input_over_digests (tree_parameters salt.now persona.now leaf_length) digests.now) }
    ensures cuts { IsRootOfCuts (length out.old)
        (tree_parameters salt.now persona.now leaf_length) digests.now out.new }
    ensures changes { IsRootAfterReplacement (length out.old)
        (tree_parameters salt.now persona.now leaf_length) digests.now out.new }
{
    let mut root = root_state(salt, persona, leaf_length, out.len());
    root.update(digests);
    root.write_digest(out);
}

// The digest of a leaf.
fn digest_of(leaf: &State) -> [u8; 64]
    requires ready { IsNodeReady leaf.now }
    requires size { leaf.now.output_size ≡ 64 }
    ensures { result ≡ digest_now meaning leaf.now }
{
    let mut digest = [0; 64];
    leaf.write_digest(&mut digest);
    digest
}

impl TreeState {
    /// Returns whether the state returns a root.
    pub fn is_ready(&self) -> bool
        ensures { IsTrue result ↔ IsReady self.now }
    {
        self.leaf.is_ready()
            && self.root.is_ready()
            && self.leaf.output_size == 64
            && self.has_lengths()
            && self.has_counts()
    }

    // Whether the lengths are those of a tree.
    fn has_lengths(&self) -> bool
        ensures { IsTrue result ↔ HasTreeLengths self.now }
    {
        self.leaf_length >= 1
            && self.leaf_length <= u64::from(u32::MAX)
            && self.salt_length <= LABEL_BYTES
            && self.persona_length <= LABEL_BYTES
    }

    // Whether the counts are those of a tree.
    fn has_counts(&self) -> bool
        requires leaf { IsNodeReady self.now.leaf }
        requires root { IsNodeReady self.now.root }
        requires lengths { HasTreeLengths self.now }
        ensures { IsTrue result ↔ HasTreeCounts self.now }
    {
        let taken = self.leaf.counted();
        taken <= self.leaf_length
            && has_room_for(0, self.closed, self.leaf_length, taken)
            && self.closed < MESSAGE_LIMIT - 1
            && self.root.counted() == 64 * self.closed
    }

    /// Returns the zeroed state, which is not ready.
    pub fn zeros() -> Self
        ensures { result ≡ zeros }
    {
        TreeState {
            leaf: State::zeros(),
            root: State::zeros(),
            closed: 0,
            leaf_length: 0,
            salt_length: 0,
            persona_length: 0,
            salt: [0; LABEL_BYTES],
            persona: [0; LABEL_BYTES],
        }
    }

    /// Overwrites everything with zeros. The state is then not ready.
    pub fn wipe(&mut self)
        ensures { self.new ≡ zeros }
    {
        *self = Self::zeros();
    }

    /// Returns a state that has absorbed nothing: a root of 1 to 64 bytes, a salt and a persona
    /// of up to 16 each, and leaves of `leaf_length` bytes, at least 1 (the BLAKE2 document,
    /// 2.10). The error is `InvalidLength`, exactly for other lengths.
    pub fn new(
        output_size: usize,
        salt: &[u8],
        persona: &[u8],
        leaf_length: u32,
    ) -> Result<Self, InvalidLength>
        ensures refused { IsErr result
            ↔ ¬ AreAcceptedTreeLengths
            (tree_lengths_of output_size (tree_parameters salt.now persona.now leaf_length)) }
        ensures ready { IfOk result (λ t. IsReady t) }
        ensures size { IfOk result (λ t. t.root.output_size ≡ output_size) }
        ensures root { IfOk result (λ t. (y : List ℕ) → future t y
            ≡ root_of output_size (tree_parameters salt.now persona.now leaf_length) y) }
        ensures nothing { IfOk result (λ t. count t ≡ 0) }
        ensures shared { IfOk result (λ t.
            parameters t ≡ tree_parameters salt.now persona.now leaf_length) }
        ensures opened { IfOk result (λ t. HasFreshLeafIfEmpty t) }
    {
        if !accepts(output_size, salt.len(), persona.len(), leaf_length) {
            return Err(InvalidLength);
        }
        Ok(Self::new_accepted(output_size, salt, persona, leaf_length))
    }

    // The same if the lengths are accepted.
    fn new_accepted(output_size: usize, salt: &[u8], persona: &[u8], leaf_length: u32) -> Self
        requires least { 1 ≤ output_size }
        requires most { output_size ≤ 64 }
        requires salt { length salt.now ≤ 16 }
        requires persona { length persona.now ≤ 16 }
        requires leaf_length { 1 ≤ leaf_length }
        ensures ready { IsReady result }
        ensures size { result.root.output_size ≡ output_size }
        ensures root { (y : List ℕ) → future result y
            ≡ root_of output_size (tree_parameters salt.now persona.now leaf_length) y }
        ensures nothing { count result ≡ 0 }
        ensures shared { parameters result ≡ tree_parameters salt.now persona.now leaf_length }
        ensures opened { HasFreshLeafIfEmpty result }
    {
        let nodes = Nodes::new(salt, persona, leaf_length);
        TreeState {
            leaf: node_state(&nodes, 64, 0, 0),
            root: node_state(&nodes, output_size, 0, 1),
            closed: 0,
            leaf_length: u64::from(leaf_length),
            salt_length: salt.len(),
            persona_length: persona.len(),
            salt: padded(salt),
            persona: padded(persona),
        }
    }

    // What its nodes share.
    fn nodes(&self) -> Nodes
        requires { IsReady self.now }
        ensures { shared_parameters result ≡ parameters self.now }
    {
        let salt = &self.salt[..self.salt_length];
        let persona = &self.persona[..self.persona_length];
        Nodes::new(salt, persona, self.leaf_length as u32)
    }

    /// Returns the number of bytes of the message that the state has absorbed so far. The state
    /// must be ready.
    pub fn counted(&self) -> u64
        requires { IsReady self.now }
        ensures { result ≡ count self.now }
    {
        self.closed * self.leaf_length + self.leaf.counted()
    }

    // The number of bytes that the open leaf still has room for.
    fn room(&self) -> u64
        requires { IsReady self.now }
        ensures { result ≡ room (state_tree self.now) }
    {
        self.leaf_length - self.leaf.counted()
    }

    /// Returns whether what was absorbed is whole leaves, or nothing. The state must be ready.
    pub fn is_at_boundary(&self) -> bool
        requires { IsReady self.now }
        ensures { IsTrue result ↔ IsAtLeafBoundary (state_tree self.now) }
    {
        self.counted() % self.leaf_length == 0
    }

    /// Returns whether the state is at a leaf boundary, and `length` bytes are whole leaves of
    /// its tree, at least one, of which the first comes `skip` leaves after the next one, and all
    /// end below 2^58 bytes of the message. The state must be ready.
    pub fn are_leaves_ahead(&self, skip: u64, length: u64) -> bool
        requires { IsReady self.now }
        ensures { IsTrue result ↔ AreNextLeaves (state_tree self.now) skip length }
    {
        self.is_at_boundary()
            && skip < MESSAGE_LIMIT
            && is_range(
                self.leaf_length as u32,
                self.counted() / self.leaf_length + skip,
                false,
                length,
            )
    }

    /// Writes the digests of whole leaves of this tree, 64 bytes each, in order. The first of
    /// them comes `skip` leaves after the next one of the state, and none is the last of the
    /// message. The state must be ready, [`TreeState::are_leaves_ahead`] must be true, and
    /// `digests` must have exactly 64 bytes for each leaf. The state stays as it is.
    pub fn hash_leaves_ahead(&self, skip: u64, bytes: &[u8], digests: &mut [u8])
        requires ready { IsReady self.now }
        requires next { AreNextLeaves (state_tree self.now) skip (length bytes.now) }
        requires room { length digests.old
            ≡ 64 * leaf_count self.now.leaf_length (length bytes.now) }
        ensures digests { digests.new ≡ range_digests (parameters self.now)
            (next_leaf_index (state_tree self.now) + skip) false bytes.now }
        ensures part { AreDigestsInEveryMessage (parameters self.now)
            (next_leaf_index (state_tree self.now) + skip) false bytes.now digests.new }
    {
        let salt = &self.salt[..self.salt_length];
        let persona = &self.persona[..self.persona_length];
        let first = self.counted() / self.leaf_length + skip;
        hash_leaves(
            salt,
            persona,
            self.leaf_length as u32,
            first,
            false,
            bytes,
            digests,
        );
    }

    /// Returns whether [`TreeState::update_leaves`] accepts `digests_length` bytes of digests and
    /// `input_length` bytes of input after them. The digests must be whole, and the message stays
    /// below 2^58 bytes. If there are digests, the state must be at a leaf boundary, and at least
    /// one byte of input follows them. The state must be ready.
    pub fn accepts_leaves(&self, digests_length: usize, input_length: usize) -> bool
        requires { IsReady self.now }
        ensures { IsTrue result ↔ AcceptsLeafDigests (state_tree self.now) digests_length
            input_length }
    {
        let leaves = digests_length as u64 / 64;
        let is_in_place = digests_length == 0 || (input_length > 0 && self.is_at_boundary());
        digests_length % 64 == 0
            && is_in_place
            && has_room_for(
                self.counted(),
                leaves,
                self.leaf_length,
                input_length as u64,
            )
    }

    /// Absorbs whole leaves that others have hashed, which are passed as their joined digests,
    /// and then the input. A state that `new` made, and that only calls have changed, is then as
    /// after an update with the leaves' bytes and one with the input. The digests have 64 bytes
    /// each, and are those of the next leaves in order, as [`TreeState::hash_leaves_ahead`] writes
    /// them. They must come at a leaf boundary, and at least one byte of input after them.
    /// Without digests the call is an update. The state must be ready, and
    /// [`TreeState::accepts_leaves`] true of the two lengths.
    pub fn update_leaves(&mut self, digests: &[u8], input: &[u8])
        requires ready { IsReady self.old }
        requires accepted { AcceptsLeafDigests (state_tree self.old) (length digests.now)
            (length input.now) }
        ensures ready { IsReady self.new }
        ensures size { self.new.root.output_size ≡ self.old.root.output_size }
        ensures none { digests.now ≡ [] → HasAbsorbed self.old input.now self.new }
        ensures digests { HasAbsorbedDigests (state_tree self.old) digests.now input.now
            (state_tree self.new) }
        ensures taken { HasFreshLeafIfEmpty self.old
            → HasAbsorbedLeaves (state_tree self.old) digests.now input.now
            (state_tree self.new) }
        ensures opened { HasFreshLeafIfEmpty self.old → HasFreshLeafIfEmpty self.new }
    {
        if digests.is_empty() {
            return self.update(input);
        }
        self.begin_leaf();
        self.close_given(digests);
        self.update(input);
    }

    // Closes the whole leaves of which these are the digests: the open one, which is empty, and
    // those after it. More follows. Opens the next one.
    fn close_given(&mut self, digests: &[u8])
        requires ready { IsReady self.old }
        requires empty { meaning.count self.old.leaf ≡ 0 }
        requires whole { length digests.now % 64 ≡ 0 }
        requires fits { count self.old + length digests.now / 64 * self.old.leaf_length + 1
            < 2 ^ 58 }
        ensures ready { IsReady self.new }
        ensures size { self.new.root.output_size ≡ self.old.root.output_size }
        ensures shared { parameters self.new ≡ parameters self.old }
        ensures begun { HasEmptyOpenLeaf self.new }
        ensures future { HasEmptyOpenLeaf self.old
            → (x y : List ℕ) → AreWholeLeaves self.old.leaf_length x → 0 < length y
            → digests.now ≡ range_digests (parameters self.old) self.old.closed false x
            → future self.new y ≡ future self.old (x ++ y) }
        ensures root { (y : List ℕ) → future self.new y
            ≡ (state_tree self.old).root (digests.now ++ range_digests (parameters self.old)
            (self.old.closed + length digests.now / 64) true y) }
        ensures count { count self.new
            ≡ count self.old + length digests.now / 64 * self.old.leaf_length }
    {
        let nodes = self.nodes();
        self.root.update(digests);
        self.closed += digests.len() as u64 / 64;
        self.leaf = node_state(&nodes, 64, self.closed, 0);
    }

    /// Absorbs the input after all that was absorbed before. The state must be ready, and the
    /// message must have fewer than 2^58 bytes in all; `counted` returns the count so far.
    pub fn update(&mut self, input: &[u8])
        requires ready { IsReady self.old }
        requires counted { count self.old + length input.now < 2 ^ 58 }
        ensures ready { IsReady self.new }
        ensures size { self.new.root.output_size ≡ self.old.root.output_size }
        ensures taken { HasAbsorbed self.old input.now self.new }
        ensures opened { HasFreshLeafIfEmpty self.old → HasFreshLeafIfEmpty self.new }
    {
        if input.len() as u64 <= self.room() {
            self.leaf.update(input);
        } else {
            let rest = self.close_leaf(input);
            self.take_leaves(rest);
        }
    }

    // Absorbs the input, if the open leaf has absorbed nothing.
    fn take_leaves(&mut self, input: &[u8])
        requires ready { IsReady self.old }
        requires begun { HasEmptyOpenLeaf self.old }
        requires counted { count self.old + length input.now < 2 ^ 58 }
        ensures ready { IsReady self.new }
        ensures size { self.new.root.output_size ≡ self.old.root.output_size }
        ensures taken { HasAbsorbed self.old input.now self.new }
        ensures opened { HasFreshLeafIfEmpty self.new }
    {
        let mut rest = input;
        while rest.len() as u64 > self.leaf_length {
            rest = if rest.len() as u64 > 4 * self.leaf_length {
                self.close_next(rest)
            } else {
                self.close_leaf(rest)
            };
        }
        self.leaf.update(rest);
    }

    // Fills the open leaf up and closes it; it is not the last, since more follows. Opens the
    // next one and returns what is left of the input.
    fn close_leaf<'a>(&mut self, input: &'a [u8]) -> &'a [u8]
        requires ready { IsReady self.old }
        requires more { room (state_tree self.old) < length input.now }
        requires fits { count self.old + length input.now < 2 ^ 58 }
        ensures ready { IsReady self.new }
        ensures size { self.new.root.output_size ≡ self.old.root.output_size }
        ensures begun { HasEmptyOpenLeaf self.new }
        ensures went_on { HasAbsorbedPrefix (state_tree self.old) input.now (state_tree self.new)
            result.now }
    {
        let (head, rest) = input.split_at(self.room() as usize);
        self.leaf.update(head);
        self.close_full();
        rest
    }

    // Closes the open leaf, which is full, and opens the next one: more follows.
    fn close_full(&mut self)
        requires ready { IsReady self.old }
        requires full { room (state_tree self.old) ≡ 0 }
        requires fits { count self.old + 1 < 2 ^ 58 }
        ensures ready { IsReady self.new }
        ensures size { self.new.root.output_size ≡ self.old.root.output_size }
        ensures shared { parameters self.new ≡ parameters self.old }
        ensures future { (y : List ℕ) → 0 < length y → future self.new y ≡ future self.old y }
        ensures root { (z : List ℕ) → (state_tree self.new).root z
            ≡ (state_tree self.old).root ((state_tree self.old).leaf false [] ++ z) }
        ensures count { count self.new ≡ count self.old }
        ensures closed { self.new.closed ≡ self.old.closed + 1 }
        ensures begun { HasEmptyOpenLeaf self.new }
    {
        let nodes = self.nodes();
        self.leaf.set_last_node(false);
        self.root.update(&digest_of(&self.leaf));
        self.closed += 1;
        self.leaf = node_state(&nodes, 64, self.closed, 0);
    }

    // Closes the open leaf if it is full, so that the open one is empty: more follows.
    fn begin_leaf(&mut self)
        requires ready { IsReady self.old }
        requires boundary { IsAtLeafBoundary (state_tree self.old) }
        requires fits { count self.old + 1 < 2 ^ 58 }
        ensures ready { IsReady self.new }
        ensures size { self.new.root.output_size ≡ self.old.root.output_size }
        ensures shared { parameters self.new ≡ parameters self.old }
        ensures future { (y : List ℕ) → 0 < length y → future self.new y ≡ future self.old y }
        ensures root { (z : List ℕ) → (state_tree self.new).root z
            ≡ root_after_leaf_digests (state_tree self.old) z }
        ensures count { count self.new ≡ count self.old }
        ensures closed { self.new.closed ≡ next_leaf_index (state_tree self.old) }
        ensures empty { meaning.count self.new.leaf ≡ 0 }
        ensures begun { HasFreshLeafIfEmpty self.old → HasEmptyOpenLeaf self.new }
    {
        if self.leaf.counted() > 0 {
            self.close_full();
        }
    }

    // Closes the next leaves, which are whole and not the last: the open one, which is empty, and
    // those that are hashed in parallel with it. Opens the next one and returns what is left of the
    // input.
    fn close_next<'a>(&mut self, input: &'a [u8]) -> &'a [u8]
        requires ready { IsReady self.old }
        requires begun { HasEmptyOpenLeaf self.old }
        requires more { 4 * self.old.leaf_length < length input.now }
        requires fits { count self.old + length input.now < 2 ^ 58 }
        ensures ready { IsReady self.new }
        ensures size { self.new.root.output_size ≡ self.old.root.output_size }
        ensures begun { HasEmptyOpenLeaf self.new }
        ensures went_on { HasAbsorbedPrefix (state_tree self.old) input.now (state_tree self.new)
            result.now }
    {
        let nodes = self.nodes();
        let mut digests = [0; 512];
        let count = nodes.hash_next(self.closed, input, &mut digests);
        let taken = count * self.leaf_length as usize;
        self.close_given(&digests[..64 * count]);
        &input[taken..]
    }

    /// Writes the root of all that was absorbed at the beginning of `out`, which must have at
    /// least the root's bytes. Those after the root stay as they are. The state must be ready. It
    /// stays as it is, and can absorb more.
    pub fn write_root(&self, out: &mut [u8])
        requires ready { IsReady self.now }
        requires room { self.now.root.output_size ≤ length out.old }
        ensures { out.new ≡ future self.now [] ++ drop self.now.root.output_size out.old }
    {
        let mut leaf = State { ..self.leaf };
        leaf.set_last_node(true);
        let mut root = State { ..self.root };
        root.update(&digest_of(&leaf));
        root.set_last_node(true);
        root.write_digest(out);
    }
}

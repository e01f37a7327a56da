//! The hasher of BLAKE2b.

ghost use Rattle.std.specs.Prelude.{◌≡◌, ⊤, ◌≤◌, [], length, None};
ghost use Rattle.std.proofs.Common.{arith};
ghost use Rattle.blake2_simd.specs.Family.{blake2b};
ghost use Rattle.blake2_compress.specs.Hash.{AdmitsTree, sequential};
ghost use Rattle.blake2_compress.specs.Views.{tree_of};
ghost use Rattle.blake2.specs.States.{node_digest_of};

use crate::contexts::blake2b::Blake2bContext;
use crate::cores::blake2b::Blake2bVarCore;
use blake2_compress::params::Tree;
use blake2_compress::whole::blake2b::hash;
use blake2_digest::{
    BlockSizeUser, CustomizedInit, Digest, Duplicate, FixedOutput, FixedOutputReset, HashMarker,
    LastNode, LazyBuffer, OutputSizeUser, Reset, TreeNode, Update, Wipe, ZeroizeOnDrop,
};
use std::alloc::AllocError;

/// BLAKE2b with digests of `N` bytes, at most 64, as the unkeyed hash function.
#[derive(Drop)]
pub struct Blake2b<const N: usize> {
    context: Blake2bContext,
    ghost supported: { N ≤ 64 },
}

impl<const N: usize> Blake2b<N> {
    ghost use Rattle.blake2.specs.Hashers.{blake2b_meaning};
    ghost use Rattle.blake2_digest.specs.States.{Fresh};

    /// Returns a hasher of a node of a tree of hashes that has absorbed nothing, with a salt and
    /// a persona of up to 16 bytes each. `Blake2bVarCore::admits_tree` must accept the tree
    /// parameters (the BLAKE2 document, 2.10). The last-node flag is off;
    /// [`LastNode::set_last_node`] sets it.
    pub fn new_with_tree(salt: &[u8], persona: &[u8], tree: &Tree) -> Self
        requires supported { N ≤ 64 }
        requires salt { length salt.now ≤ 16 }
        requires persona { length persona.now ≤ 16 }
        requires tree { AdmitsTree blake2b (tree_of tree.now) }
        ensures { Fresh (blake2b_meaning N)
            (node_digest_of blake2b N salt.now persona.now None (tree_of tree.now)) 0 result }
    {
        let core = Blake2bVarCore::new_with_tree(salt, persona, 0, N, tree);
        Blake2b {
            context: Blake2bContext::new(core, LazyBuffer::default()),
        }
    }
}

impl<const N: usize> BlockSizeUser for Blake2b<N> {
    const BLOCK_SIZE: usize = 128;
}

impl<const N: usize> OutputSizeUser for Blake2b<N> {
    const OUTPUT_SIZE: usize = N;
}

impl<const N: usize> HashMarker for Blake2b<N> {}

impl<const N: usize> Update for Blake2b<N> {
    ghost use Rattle.std.specs.Prelude.{◌-◌, ◌*◌};
    ghost use Rattle.blake2.specs.Hashers.{blake2b_meaning, blake2b_state};
    ghost use Rattle.blake2_digest.specs.Blocks.{chunk_count};

    ghost meaning = { blake2b_meaning N };

    fn update(&mut self, input: &[u8]) {
        self.context.update(input);
    }

    /// Returns the number of bytes counted since the last start, including those that are
    /// pending. All of their blocks but one are compressed.
    fn counted(&self) -> u64
        ensures count { result ≡ (blake2b_meaning N).count self.now }
        ensures one_block_left { (blake2b_state self.now).core.count
            ≡ 128 * (chunk_count 128 result - 1) }
    {
        self.context.counted()
    }
}

impl<const N: usize> FixedOutput<N> for Blake2b<N> {
    fn finalize_into(mut self, out: &mut [u8; N]) {
        self.context.finish(out);
    }

    ghost output_fits = { λ s. Prim.omega (arith, s.supported) };
}

impl<const N: usize> LastNode for Blake2b<N> {
    ghost use Rattle.blake2.specs.Hashers.{blake2b_meaning};
    ghost use Rattle.blake2_digest.specs.States.{LastNodeFlagSet};

    ghost is_node_set = { LastNodeFlagSet (blake2b_meaning N) };

    fn set_last_node(&mut self, on: bool)
        ensures { LastNodeFlagSet (blake2b_meaning N) self.old on self.new }
    {
        self.context.set_last_node(on);
    }
}

impl<const N: usize> TreeNode for Blake2b<N> {
    ghost set_changes_the_flag = { λ old on new is_set. is_set };
}

impl<const N: usize> Reset for Blake2b<N> {
    ghost use Rattle.blake2.specs.States.{IsRestarted};
    ghost use Rattle.blake2.specs.Hashers.{blake2b_state};

    ghost is_reset = { IsRestarted blake2b_state };

    fn reset(&mut self) {
        self.context.restart(LazyBuffer::default());
    }
}

impl<const N: usize> FixedOutputReset<N> for Blake2b<N> {
    ghost use Rattle.blake2.specs.Hashers.{blake2b_state};
    ghost use Rattle.blake2.specs.Restarts.{StartedAgain_by};

    fn finalize_into_reset(&mut self, out: &mut [u8; N]) {
        self.context.finish_reset(LazyBuffer::default(), out);
    }

    ghost reset_starts_again = { StartedAgain_by blake2b N blake2b_state };
}

impl<const N: usize> CustomizedInit for Blake2b<N> {
    ghost use Rattle.blake2.specs.Hashers.{blake2b_meaning};
    ghost use Rattle.blake2_digest.specs.States.{Fresh};

    ghost can_customize = { λ persona. (N ≤ 64) × (length persona ≤ 16) };

    ghost customized = { λ persona. node_digest_of blake2b N [] persona None sequential };

    fn new_customized(customization: &[u8]) -> Self
        requires supported { N ≤ 64 }
        requires persona { length customization.now ≤ 16 }
        ensures { Fresh (blake2b_meaning N)
            (node_digest_of blake2b N [] customization.now None sequential) 0 result }
    {
        Self::new_with_tree(&[], customization, &Tree::sequential())
    }
}

impl<const N: usize> Digest<N> for Blake2b<N> {
    ghost use Rattle.blake2.specs.Hashers.{blake2b_meaning};
    ghost use Rattle.blake2_digest.specs.States.{Fresh};

    ghost is_supported = { N ≤ 64 };

    ghost digest_of = { node_digest_of blake2b N [] [] None sequential };

    fn new() -> Self
        requires { N ≤ 64 }
        ensures { Fresh (blake2b_meaning N)
            (node_digest_of blake2b N [] [] None sequential) 0 result }
    {
        Self::new_with_tree(&[], &[], &Tree::sequential())
    }

    // Of a whole message, which needs no hasher.
    fn digest(input: &[u8]) -> [u8; N] {
        let mut out = [0; N];
        out.copy_from_slice(&hash(N, None, input)[..N]);
        out
    }
}

impl<const N: usize> Duplicate for Blake2b<N> {
    fn duplicate(&self) -> Self {
        Blake2b {
            context: self.context.duplicate(),
        }
    }
}

impl<const N: usize> Clone for Blake2b<N> {
    ghost is_clone = { λ x y. y ≡ x };

    ghost is_infallible = { λ _. ⊤ };

    fn clone(&self) -> Result<Self, AllocError> {
        Ok(self.duplicate())
    }
}

impl<const N: usize> Wipe for Blake2b<N> {
    ghost use Rattle.blake2.specs.States.{IsWiped};
    ghost use Rattle.blake2.specs.Hashers.{blake2b_state};

    ghost is_wiped = { λ s. IsWiped (blake2b_state s) };

    /// Overwrites the core and the pending bytes with zeros. The number of pending bytes stays.
    fn wipe(&mut self)
        ensures wiped { IsWiped (blake2b_state self.new) }
        ensures pending { length (blake2b_state self.new).pending
            ≡ length (blake2b_state self.old).pending }
    {
        self.context.wipe();
        self.context.settle();
    }
}

impl<const N: usize> ZeroizeOnDrop for Blake2b<N> {}

#[cfg(test)]
impl<const N: usize> Blake2b<N> {
    ghost use Rattle.blake2.specs.Hashers.{blake2b_meaning};
    ghost use Rattle.std.specs.Prelude.{◌+◌, ◌-◌, ◌*◌, ◌^◌, ◌<◌};
    ghost use Rattle.blake2_digest.specs.Blocks.{chunk_count};

    // A hasher that has compressed `counter` bytes and keeps `pending`.
    pub(crate) fn counting_from(counter: u64, pending: &[u8]) -> Self
        requires supported { N ≤ 64 }
        requires within_a_block { length pending.now ≤ 128 }
        requires counted { counter + length pending.now < 2 ^ 64 }
        requires one_block_left { counter
            ≡ 128 * (chunk_count 128 (counter + length pending.now) - 1) }
        ensures { (blake2b_meaning N).count result ≡ counter + length pending.now }
    {
        Blake2b {
            context: Blake2bContext::counting_from(N, counter, pending),
        }
    }

    // The words that the hasher started from.
    pub(crate) fn first_words(&self) -> [u64; 8] {
        self.context.first_words()
    }
}

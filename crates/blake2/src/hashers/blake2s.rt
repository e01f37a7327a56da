// Made by tools/twins.py from src/hashers/blake2b.rt.
//! The hasher of BLAKE2s.

ghost use Rattle.std.specs.Prelude.{◌≡◌, ⊤, ◌≤◌, [], length, None};
ghost use Rattle.std.proofs.Common.{arith};
ghost use Rattle.blake2_simd.specs.Family.{blake2s};
ghost use Rattle.blake2_compress.specs.Hash.{AdmitsTree, sequential};
ghost use Rattle.blake2_compress.specs.Views.{tree_of};
ghost use Rattle.blake2.specs.States.{node_digest_of};

use crate::contexts::blake2s::Blake2sContext;
use crate::cores::blake2s::Blake2sVarCore;
use blake2_compress::params::Tree;
use blake2_compress::whole::blake2s::hash;
use blake2_digest::{
    BlockSizeUser, CustomizedInit, Digest, Duplicate, FixedOutput, FixedOutputReset, HashMarker,
    LastNode, LazyBuffer, OutputSizeUser, Reset, TreeNode, Update, Wipe, ZeroizeOnDrop,
};
use std::alloc::AllocError;

/// BLAKE2s with digests of `N` bytes, at most 32, as the unkeyed hash function.
#[derive(Drop)]
pub struct Blake2s<const N: usize> {
    context: Blake2sContext,
    ghost supported: { N ≤ 32 },
}

impl<const N: usize> Blake2s<N> {
    ghost use Rattle.blake2.specs.Hashers.{blake2s_meaning};
    ghost use Rattle.blake2_digest.specs.States.{Fresh};

    /// Returns a hasher of a node of a tree of hashes that has absorbed nothing, with a salt and
    /// a persona of up to 8 bytes each. `Blake2sVarCore::admits_tree` must accept the tree
    /// parameters (the BLAKE2 document, 2.10). The last-node flag is off;
    /// [`LastNode::set_last_node`] sets it.
    pub fn new_with_tree(salt: &[u8], persona: &[u8], tree: &Tree) -> Self
        requires supported { N ≤ 32 }
        requires salt { length salt.now ≤ 8 }
        requires persona { length persona.now ≤ 8 }
        requires tree { AdmitsTree blake2s (tree_of tree.now) }
        ensures { Fresh (blake2s_meaning N)
            (node_digest_of blake2s N salt.now persona.now None (tree_of tree.now)) 0 result }
    {
        let core = Blake2sVarCore::new_with_tree(salt, persona, 0, N, tree);
        Blake2s {
            context: Blake2sContext::new(core, LazyBuffer::default()),
        }
    }
}

impl<const N: usize> BlockSizeUser for Blake2s<N> {
    const BLOCK_SIZE: usize = 64;
}

impl<const N: usize> OutputSizeUser for Blake2s<N> {
    const OUTPUT_SIZE: usize = N;
}

impl<const N: usize> HashMarker for Blake2s<N> {}

impl<const N: usize> Update for Blake2s<N> {
    ghost use Rattle.std.specs.Prelude.{◌-◌, ◌*◌};
    ghost use Rattle.blake2.specs.Hashers.{blake2s_meaning, blake2s_state};
    ghost use Rattle.blake2_digest.specs.Blocks.{chunk_count};

    ghost meaning = { blake2s_meaning N };

    fn update(&mut self, input: &[u8]) {
        self.context.update(input);
    }

    /// Returns the number of bytes counted since the last start, including those that are
    /// pending. All of their blocks but one are compressed.
    fn counted(&self) -> u64
        ensures count { result ≡ (blake2s_meaning N).count self.now }
        ensures one_block_left { (blake2s_state self.now).core.count
            ≡ 64 * (chunk_count 64 result - 1) }
    {
        self.context.counted()
    }
}

impl<const N: usize> FixedOutput<N> for Blake2s<N> {
    fn finalize_into(mut self, out: &mut [u8; N]) {
        self.context.finish(out);
    }

    ghost output_fits = { λ s. Prim.omega (arith, s.supported) };
}

impl<const N: usize> LastNode for Blake2s<N> {
    ghost use Rattle.blake2.specs.Hashers.{blake2s_meaning};
    ghost use Rattle.blake2_digest.specs.States.{LastNodeFlagSet};

    ghost is_node_set = { LastNodeFlagSet (blake2s_meaning N) };

    fn set_last_node(&mut self, on: bool)
        ensures { LastNodeFlagSet (blake2s_meaning N) self.old on self.new }
    {
        self.context.set_last_node(on);
    }
}

impl<const N: usize> TreeNode for Blake2s<N> {
    ghost set_changes_the_flag = { λ old on new is_set. is_set };
}

impl<const N: usize> Reset for Blake2s<N> {
    ghost use Rattle.blake2.specs.States.{IsRestarted};
    ghost use Rattle.blake2.specs.Hashers.{blake2s_state};

    ghost is_reset = { IsRestarted blake2s_state };

    fn reset(&mut self) {
        self.context.restart(LazyBuffer::default());
    }
}

impl<const N: usize> FixedOutputReset<N> for Blake2s<N> {
    ghost use Rattle.blake2.specs.Hashers.{blake2s_state};
    ghost use Rattle.blake2.specs.Restarts.{StartedAgain_by};

    fn finalize_into_reset(&mut self, out: &mut [u8; N]) {
        self.context.finish_reset(LazyBuffer::default(), out);
    }

    ghost reset_starts_again = { StartedAgain_by blake2s N blake2s_state };
}

impl<const N: usize> CustomizedInit for Blake2s<N> {
    ghost use Rattle.blake2.specs.Hashers.{blake2s_meaning};
    ghost use Rattle.blake2_digest.specs.States.{Fresh};

    ghost can_customize = { λ persona. (N ≤ 32) × (length persona ≤ 8) };

    ghost customized = { λ persona. node_digest_of blake2s N [] persona None sequential };

    fn new_customized(customization: &[u8]) -> Self
        requires supported { N ≤ 32 }
        requires persona { length customization.now ≤ 8 }
        ensures { Fresh (blake2s_meaning N)
            (node_digest_of blake2s N [] customization.now None sequential) 0 result }
    {
        Self::new_with_tree(&[], customization, &Tree::sequential())
    }
}

impl<const N: usize> Digest<N> for Blake2s<N> {
    ghost use Rattle.blake2.specs.Hashers.{blake2s_meaning};
    ghost use Rattle.blake2_digest.specs.States.{Fresh};

    ghost is_supported = { N ≤ 32 };

    ghost digest_of = { node_digest_of blake2s N [] [] None sequential };

    fn new() -> Self
        requires { N ≤ 32 }
        ensures { Fresh (blake2s_meaning N)
            (node_digest_of blake2s N [] [] None sequential) 0 result }
    {
        Self::new_with_tree(&[], &[], &Tree::sequential())
    }

    // Of a whole message, which needs no hasher.
    fn digest(input: &[u8]) -> [u8; N] {
        let mut out = [0; N];
        out.copy_from_slice(&hash(N, None, input)[..N]);
        out
    }
}

impl<const N: usize> Duplicate for Blake2s<N> {
    fn duplicate(&self) -> Self {
        Blake2s {
            context: self.context.duplicate(),
        }
    }
}

impl<const N: usize> Clone for Blake2s<N> {
    ghost is_clone = { λ x y. y ≡ x };

    ghost is_infallible = { λ _. ⊤ };

    fn clone(&self) -> Result<Self, AllocError> {
        Ok(self.duplicate())
    }
}

impl<const N: usize> Wipe for Blake2s<N> {
    ghost use Rattle.blake2.specs.States.{IsWiped};
    ghost use Rattle.blake2.specs.Hashers.{blake2s_state};

    ghost is_wiped = { λ s. IsWiped (blake2s_state s) };

    /// Overwrites the core and the pending bytes with zeros. The number of pending bytes stays.
    fn wipe(&mut self)
        ensures wiped { IsWiped (blake2s_state self.new) }
        ensures pending { length (blake2s_state self.new).pending
            ≡ length (blake2s_state self.old).pending }
    {
        self.context.wipe();
        self.context.settle();
    }
}

impl<const N: usize> ZeroizeOnDrop for Blake2s<N> {}

#[cfg(test)]
impl<const N: usize> Blake2s<N> {
    ghost use Rattle.blake2.specs.Hashers.{blake2s_meaning};
    ghost use Rattle.std.specs.Prelude.{◌+◌, ◌-◌, ◌*◌, ◌^◌, ◌<◌};
    ghost use Rattle.blake2_digest.specs.Blocks.{chunk_count};

    // A hasher that has compressed `counter` bytes and keeps `pending`.
    pub(crate) fn counting_from(counter: u64, pending: &[u8]) -> Self
        requires supported { N ≤ 32 }
        requires within_a_block { length pending.now ≤ 64 }
        requires counted { counter + length pending.now < 2 ^ 64 }
        requires one_block_left { counter
            ≡ 64 * (chunk_count 64 (counter + length pending.now) - 1) }
        ensures { (blake2s_meaning N).count result ≡ counter + length pending.now }
    {
        Blake2s {
            context: Blake2sContext::counting_from(N, counter, pending),
        }
    }

    // The words that the hasher started from.
    pub(crate) fn first_words(&self) -> [u32; 8] {
        self.context.first_words()
    }
}

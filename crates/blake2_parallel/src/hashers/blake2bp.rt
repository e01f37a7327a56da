//! The hasher of BLAKE2bp.

ghost use Rattle.std.specs.Prelude.{◌≡◌, ⊤, ◌≤◌, [], length};
ghost use Rattle.std.proofs.Common.{arith};
ghost use Rattle.blake2_simd.specs.Family.{blake2b};
ghost use Rattle.blake2_parallel.specs.Parallel.{digests, settings};
ghost use Rattle.blake2_parallel.specs.Blake2bp.{IsWithinLimits, zeros_for};

use crate::blake2bp::State;
use blake2_digest::{
    BlockSizeUser, CustomizedInit, Digest, Duplicate, FixedOutput, FixedOutputReset, HashMarker,
    OutputSizeUser, Reset, Update, Wipe, ZeroizeOnDrop,
};
use std::alloc::AllocError;

/// BLAKE2bp with digests of `N` bytes, at most 64, as the unkeyed hash function.
pub struct Blake2bp<const N: usize> {
    state: State,
    ghost supported: { N ≤ 64 },
    ghost size: { state.output_size ≡ N },
    ghost within: { IsWithinLimits state },
}

impl<const N: usize> Blake2bp<N> {
    ghost use Rattle.blake2_parallel.specs.HasherMeanings.{blake2bp_meaning};
    ghost use Rattle.blake2_digest.specs.States.{Fresh};

    /// Returns a hasher that has absorbed nothing, with a salt and a persona of up to 16 bytes
    /// each. BLAKE2bp itself has neither; here they are in the parameter block of each node.
    pub fn new_with_salt_and_personal(salt: &[u8], persona: &[u8]) -> Self
        requires supported { N ≤ 64 }
        requires salt { length salt.now ≤ 16 }
        requires persona { length persona.now ≤ 16 }
        ensures { Fresh (blake2bp_meaning N)
            (digests blake2b (settings N [] salt.now persona.now)) 0 result }
    {
        Blake2bp {
            state: State::new(N, &[], salt, persona),
        }
    }
}

impl<const N: usize> BlockSizeUser for Blake2bp<N> {
    const BLOCK_SIZE: usize = 128;
}

impl<const N: usize> OutputSizeUser for Blake2bp<N> {
    const OUTPUT_SIZE: usize = N;
}

impl<const N: usize> HashMarker for Blake2bp<N> {}

impl<const N: usize> Update for Blake2bp<N> {
    ghost use Rattle.blake2_parallel.specs.HasherMeanings.{blake2bp_meaning};

    ghost meaning = { blake2bp_meaning N };

    fn update(&mut self, input: &[u8]) {
        self.state.update(input);
    }

    fn counted(&self) -> u64 {
        self.state.counted()
    }
}

impl<const N: usize> FixedOutput<N> for Blake2bp<N> {
    fn finalize_into(self, out: &mut [u8; N]) {
        self.state.write_digest(&mut out[..]);
    }

    ghost output_fits = { λ s. Prim.omega (arith, s.supported) };
}

impl<const N: usize> Reset for Blake2bp<N> {
    ghost use Rattle.blake2_parallel.specs.HasherMeanings.{blake2bp_meaning};
    ghost use Rattle.blake2_digest.specs.States.{ResetToStart};

    ghost is_reset = { ResetToStart (blake2bp_meaning N) };

    fn reset(&mut self) {
        self.state.reset();
    }
}

impl<const N: usize> FixedOutputReset<N> for Blake2bp<N> {
    fn finalize_into_reset(&mut self, out: &mut [u8; N]) {
        self.state.write_digest(&mut out[..]);
        self.state.reset();
    }

    ghost reset_starts_again = { λ old new again. again };
}

impl<const N: usize> CustomizedInit for Blake2bp<N> {
    ghost use Rattle.blake2_parallel.specs.HasherMeanings.{blake2bp_meaning};
    ghost use Rattle.blake2_digest.specs.States.{Fresh};

    ghost can_customize = { λ persona. (N ≤ 64) × (length persona ≤ 16) };

    ghost customized = { λ persona. digests blake2b (settings N [] [] persona) };

    fn new_customized(customization: &[u8]) -> Self
        requires supported { N ≤ 64 }
        requires persona { length customization.now ≤ 16 }
        ensures { Fresh (blake2bp_meaning N)
            (digests blake2b (settings N [] [] customization.now)) 0 result }
    {
        Self::new_with_salt_and_personal(&[], customization)
    }
}

impl<const N: usize> Digest<N> for Blake2bp<N> {
    ghost use Rattle.blake2_parallel.specs.HasherMeanings.{blake2bp_meaning};
    ghost use Rattle.blake2_digest.specs.States.{Fresh};

    ghost is_supported = { N ≤ 64 };

    ghost digest_of = { digests blake2b (settings N [] [] []) };

    fn new() -> Self
        requires { N ≤ 64 }
        ensures { Fresh (blake2bp_meaning N) (digests blake2b (settings N [] [] [])) 0 result }
    {
        Self::new_with_salt_and_personal(&[], &[])
    }
}

impl<const N: usize> Duplicate for Blake2bp<N> {
    fn duplicate(&self) -> Self {
        Blake2bp {
            state: self.state.duplicate(),
        }
    }
}

impl<const N: usize> Clone for Blake2bp<N> {
    ghost is_clone = { λ x y. y ≡ x };

    ghost is_infallible = { λ _. ⊤ };

    fn clone(&self) -> Result<Self, AllocError> {
        Ok(self.duplicate())
    }
}

impl<const N: usize> Wipe for Blake2bp<N> {
    ghost is_wiped = { λ s. s.state ≡ zeros_for N };

    /// Overwrites all words, counts and bytes with zeros.
    fn wipe(&mut self)
        ensures { self.new.state ≡ zeros_for N }
    {
        self.state = State::zeros_for(N);
        self.state.settle();
    }
}

impl<const N: usize> Drop for Blake2bp<N> {
    fn drop(mut self) {
        self.state = State::zeros_for(N);
        let Blake2bp { state: _state } = self;
    }
}

impl<const N: usize> ZeroizeOnDrop for Blake2bp<N> {}

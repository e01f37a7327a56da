// Made by tools/twins.py from src/macs/blake2bp.rt.
//! The MAC of BLAKE2sp.

ghost use Rattle.std.specs.Prelude.{◌≡◌, ⊤, ◌<◌, ◌≤◌, ◌↔◌, ◌⊎◌, [], length, IfOk, IsErr};
ghost use Rattle.std.proofs.Common.{arith};
ghost use Rattle.blake2_simd.specs.Family.{blake2s};
ghost use Rattle.blake2_parallel.specs.Parallel.{digests, settings};
ghost use Rattle.blake2_parallel.specs.Blake2sp.{IsWithinLimits, zeros_for};

use crate::blake2sp::State;
use blake2_digest::{
    Duplicate, FixedOutput, FixedOutputReset, InvalidLength, KeyInit, KeySizeUser, Mac, MacMarker,
    OutputSizeUser, Reset, Update, Wipe, ZeroizeOnDrop,
};
use std::alloc::AllocError;
use std::fmt;
use std::fmt::Write;

/// BLAKE2sp with outputs of `N` bytes, at most 32, as a message authentication code.
pub struct Blake2spMac<const N: usize> {
    state: State,
    ghost supported: { N ≤ 32 },
    ghost size: { state.output_size ≡ N },
    ghost within: { IsWithinLimits state },
}

impl<const N: usize> Blake2spMac<N> {
    ghost use Rattle.blake2_parallel.specs.HasherMeanings.{blake2sp_mac_meaning};
    ghost use Rattle.blake2_digest.specs.States.{Fresh};

    /// Returns a MAC that has absorbed no message, under a key of 1 to 32 bytes, with a salt and a
    /// persona of up to 8 bytes each. The error is `InvalidLength`, exactly for a key of no bytes
    /// or of more than 32, and for a salt or a persona of more than 8. BLAKE2sp itself has no salt
    /// and no persona; here they are in the parameter block of each node.
    pub fn new_with_salt_and_personal(
        key: &[u8],
        salt: &[u8],
        persona: &[u8],
    ) -> Result<Self, InvalidLength>
        requires { N ≤ 32 }
        ensures refused { IsErr result ↔ ((length key.now ≡ 0) ⊎ (32 < length key.now)
            ⊎ (8 < length salt.now) ⊎ (8 < length persona.now)) }
        ensures made { IfOk result (λ mac. Fresh (blake2sp_mac_meaning N)
            (digests blake2s (settings N key.now salt.now persona.now)) 512 mac) }
    {
        if key.is_empty() || key.len() > 32 || salt.len() > 8 || persona.len() > 8 {
            return Err(InvalidLength);
        }
        Ok(Self::under_key(key, salt, persona))
    }

    // A MAC under this key that has absorbed nothing else.
    fn under_key(key: &[u8], salt: &[u8], persona: &[u8]) -> Self
        requires supported { N ≤ 32 }
        requires some { 0 < length key.now }
        requires key { length key.now ≤ 32 }
        requires salt { length salt.now ≤ 8 }
        requires persona { length persona.now ≤ 8 }
        ensures { Fresh (blake2sp_mac_meaning N)
            (digests blake2s (settings N key.now salt.now persona.now)) 512 result }
    {
        Blake2spMac {
            state: State::new(N, key, salt, persona),
        }
    }
}

impl<const N: usize> KeySizeUser for Blake2spMac<N> {
    const KEY_SIZE: usize = 32;
}

impl<const N: usize> OutputSizeUser for Blake2spMac<N> {
    const OUTPUT_SIZE: usize = N;
}

impl<const N: usize> MacMarker for Blake2spMac<N> {}

impl<const N: usize> KeyInit<32> for Blake2spMac<N> {
    ghost use Rattle.blake2_parallel.specs.HasherMeanings.{blake2sp_mac_meaning};
    ghost use Rattle.blake2_digest.specs.States.{Fresh};

    ghost is_supported = { N ≤ 32 };

    ghost keyed = { λ key. digests blake2s (settings N key [] []) };

    ghost key_count = { 512 };

    fn new(key: &[u8; 32]) -> Self
        requires { N ≤ 32 }
        ensures { Fresh (blake2sp_mac_meaning N) (digests blake2s (settings N key.now [] [])) 512
            result }
    {
        Self::under_key(key, &[], &[])
    }

    fn new_from_slice(key: &[u8]) -> Result<Self, InvalidLength>
        requires { N ≤ 32 }
        ensures refused { IsErr result ↔ ((length key.now ≡ 0) ⊎ (32 < length key.now)) }
        ensures made { IfOk result (λ mac. Fresh (blake2sp_mac_meaning N)
            (digests blake2s (settings N key.now [] [])) 512 mac) }
    {
        Self::new_with_salt_and_personal(key, &[], &[])
    }
}

impl<const N: usize> Update for Blake2spMac<N> {
    ghost use Rattle.blake2_parallel.specs.HasherMeanings.{blake2sp_mac_meaning};

    ghost meaning = { blake2sp_mac_meaning N };

    fn update(&mut self, input: &[u8]) {
        self.state.update(input);
    }

    fn counted(&self) -> u64 {
        self.state.counted()
    }
}

impl<const N: usize> FixedOutput<N> for Blake2spMac<N> {
    fn finalize_into(self, out: &mut [u8; N]) {
        self.state.write_digest(&mut out[..]);
    }

    ghost output_fits = { λ s. Prim.omega (arith, s.supported) };
}

impl<const N: usize> Reset for Blake2spMac<N> {
    ghost use Rattle.blake2_parallel.specs.HasherMeanings.{blake2sp_mac_meaning};
    ghost use Rattle.blake2_digest.specs.States.{ResetToStart};

    ghost is_reset = { ResetToStart (blake2sp_mac_meaning N) };

    fn reset(&mut self) {
        self.state.reset();
    }
}

impl<const N: usize> FixedOutputReset<N> for Blake2spMac<N> {
    fn finalize_into_reset(&mut self, out: &mut [u8; N]) {
        self.state.write_digest(&mut out[..]);
        self.state.reset();
    }

    ghost reset_starts_again = { λ old new again. again };
}

impl<const N: usize> Mac<N> for Blake2spMac<N> {}

impl<const N: usize> Duplicate for Blake2spMac<N> {
    fn duplicate(&self) -> Self {
        Blake2spMac {
            state: self.state.duplicate(),
        }
    }
}

impl<const N: usize> Clone for Blake2spMac<N> {
    ghost is_clone = { λ x y. y ≡ x };

    ghost is_infallible = { λ _. ⊤ };

    fn clone(&self) -> Result<Self, AllocError> {
        Ok(self.duplicate())
    }
}

impl<const N: usize> Wipe for Blake2spMac<N> {
    ghost is_wiped = { λ s. s.state ≡ zeros_for N };

    /// Overwrites all words, counts and bytes, those of the key among them, with zeros.
    fn wipe(&mut self)
        ensures { self.new.state ≡ zeros_for N }
    {
        self.state = State::zeros_for(N);
        self.state.settle();
    }
}

impl<const N: usize> Drop for Blake2spMac<N> {
    fn drop(mut self) {
        self.wipe();
        let Blake2spMac { state: _state } = self;
    }
}

impl<const N: usize> ZeroizeOnDrop for Blake2spMac<N> {}

// Writes the name of a MAC with outputs of `N` bytes, for `Debug`. It has no MAC as an argument,
// so that it can write nothing of a key.
fn write_name<const N: usize, W: fmt::Write>(f: &mut fmt::Formatter<W>) -> fmt::Result {
    write!(f, "Blake2spMac{N} {{ ... }}")
}

impl<const N: usize> fmt::Debug for Blake2spMac<N> {
    fn fmt<W: fmt::Write>(&self, f: &mut fmt::Formatter<W>) -> fmt::Result {
        write_name::<N, W>(f)
    }
}

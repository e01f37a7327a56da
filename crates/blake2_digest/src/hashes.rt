//! Hash functions.

ghost use Rattle.std.specs.Prelude.{◌≡◌, ℕ, ◌+◌, ◌^◌, ◌<◌, Bool, false, List, length};
ghost use Rattle.blake2_digest.specs.States.{digest_now, Updated, Fresh};

use crate::state::{FixedOutput, FixedOutputReset, Reset, Update};

/// Marks a hash function that needs no key.
pub trait HashMarker {}

/// States that are made with a customization.
pub trait CustomizedInit: Update {
    // The customization and the output size are within the type's limits.
    ghost can_customize: { List ℕ → Type 0 };

    // The digest of a message under a customization and a last-node flag.
    ghost customized: { List ℕ → Bool → List ℕ → List ℕ };

    /// Returns a state that has absorbed nothing, with this customization. For BLAKE2 it is the
    /// persona, of at most 16 bytes in BLAKE2b and 8 in BLAKE2s. The output size must be within
    /// the type's limit.
    fn new_customized(customization: &[u8]) -> Self
        requires { can_customize customization.now }
        ensures { Fresh Self.meaning (customized customization.now) 0 result };
}

/// Hash functions with a digest of `N` bytes.
pub trait Digest<const N: usize>: FixedOutputReset<N> {
    // The output size is within the type's limit.
    ghost is_supported: { Type 0 };

    // The digest of a message under a last-node flag.
    ghost digest_of: { Bool → List ℕ → List ℕ };

    /// Returns a hasher that has absorbed nothing. The output size must be within the type's
    /// limit.
    fn new() -> Self
        requires { is_supported }
        ensures { Fresh Self.meaning digest_of 0 result };

    /// Absorbs the input after all that was absorbed before. Fewer than 2^64 bytes may be counted
    /// in all; `counted` returns the count so far.
    fn update(&mut self, input: &[u8])
        requires { Self.meaning.count self.old + length input.now < 2 ^ 64 }
        ensures { Updated Self.meaning self.old input.now self.new }
    {
        Update::update(self, input);
    }

    /// Returns this hasher after it has absorbed the input too. Fewer than 2^64 bytes may be
    /// counted in all.
    fn chain_update(mut self, input: &[u8]) -> Self
        requires { Self.meaning.count self + length input.now < 2 ^ 64 }
        ensures { Updated Self.meaning self input.now result }
    {
        Update::update(&mut self, input);
        self
    }

    /// Returns the digest of what was absorbed since the last start.
    fn finalize(self) -> [u8; N]
        ensures { result ≡ digest_now Self.meaning self }
    {
        self.finalize_fixed()
    }

    /// Writes the digest of what was absorbed since the last start.
    fn finalize_into(self, out: &mut [u8; N])
        ensures { out.new ≡ digest_now Self.meaning self }
    {
        FixedOutput::finalize_into(self, out);
    }

    /// Returns the digest of what was absorbed since the last start, and resets the hasher.
    fn finalize_reset(&mut self) -> [u8; N]
        ensures output { result ≡ digest_now Self.meaning self.old }
        ensures reset { Self.is_reset self.old self.new }
    {
        self.finalize_fixed_reset()
    }

    /// Starts again: the hasher has then absorbed nothing, under the parameters that it was made
    /// with. The last-node flag stays as it is.
    fn reset(&mut self)
        ensures { Self.is_reset self.old self.new }
    {
        Reset::reset(self);
    }

    /// Returns the digest of the input, of fewer than 2^64 bytes. The output size must be within
    /// the type's limit. The last-node flag is off.
    fn digest(input: &[u8]) -> [u8; N]
        requires supported { is_supported }
        requires fits { length input.now < 2 ^ 64 }
        ensures { result ≡ digest_of false input.now }
    {
        let mut state = Self::new();
        Update::update(&mut state, input);
        state.finalize_fixed()
    }
}

//! Message authentication codes.

ghost use Rattle.std.specs.Prelude.{◌≡◌, ℕ, ◌+◌, ◌^◌, ◌<◌, ◌↔◌, ◌⊎◌, Bool, List, length, IfOk};
ghost use Rattle.std.specs.Prelude.{IsErr, IsOk, IsTrue};
ghost use Rattle.blake2_digest.specs.States.{digest_now, Updated, Fresh};

use crate::faults::{InvalidLength, MacError};
use crate::state::{FixedOutput, Update};
use crate::wiping::settle;
use std::marker::Model;

/// Returns whether the bytes are equal: the comparison for tags. If the lengths are equal, all
/// bytes are compared, wherever they differ, and no branch here depends on one. Only the result
/// is promised, not the time that compiled code needs.
pub fn constant_time_eq(a: &[u8], b: &[u8]) -> bool
    ensures { IsTrue result ↔ (a.now ≡ b.now) }
{
    if a.len() != b.len() {
        return false;
    }
    let mut difference = 0;
    for i in 0..a.len() {
        difference |= a[i] ^ b[i];
    }
    difference == 0
}

/// Marks a message authentication code.
pub trait MacMarker {}

/// Types with keys.
pub trait KeySizeUser {
    /// The maximum number of bytes of a key.
    const KEY_SIZE: usize;
}

/// States that are made from a key of up to `K` bytes.
pub trait KeyInit<const K: usize>: Update {
    // The output size is within the type's limit.
    ghost is_supported: { Type 0 };

    // The digest of a message under a key and a last-node flag.
    ghost keyed: { List ℕ → Bool → List ℕ → List ℕ };

    // The bytes that a key counts for.
    ghost key_count: { ℕ };

    /// Returns a state under a key of `K` bytes that has absorbed no message. The output size
    /// must be within the type's limit.
    fn new(key: &[u8; K]) -> Self
        requires { is_supported }
        ensures { Fresh Self.meaning (keyed key.now) key_count result };

    /// Returns a state under this key that has absorbed no message. The output size must be
    /// within the type's limit. The error is `InvalidLength`, exactly for a key of no bytes and
    /// for one of more than `K`.
    fn new_from_slice(key: &[u8]) -> Result<Self, InvalidLength>
        requires { is_supported }
        ensures refused { IsErr result ↔ ((length key.now ≡ 0) ⊎ (K < length key.now)) }
        ensures made { IfOk result (λ state. Fresh Self.meaning (keyed key.now) key_count state) };
}

/// The output of a MAC: `N` bytes that are to be compared only by `Mac::verify_slice`.
#[derive(Drop)]
pub struct CtOutput<const N: usize> {
    bytes: [u8; N],
}

impl<const N: usize> Model for CtOutput<N> {
    ghost use Rattle.std.specs.Prelude.{ℕ, List};

    ghost Value = { List ℕ };

    ghost view = { λ output. output.bytes };
}

impl<const N: usize> CtOutput<N> {
    /// Returns the bytes of the output.
    pub fn into_bytes(self) -> [u8; N]
        ensures { result ≡ self.entry }
    {
        let CtOutput { bytes } = self;
        bytes
    }
}

/// Message authentication codes with an output of `N` bytes.
pub trait Mac<const N: usize>: FixedOutput<N> {
    /// Absorbs the input after all that was absorbed before. Fewer than 2^64 bytes may be counted
    /// in all; `counted` returns the count so far.
    fn update(&mut self, input: &[u8])
        requires { Self.meaning.count self.old + length input.now < 2 ^ 64 }
        ensures { Updated Self.meaning self.old input.now self.new }
    {
        Update::update(self, input);
    }

    /// Returns this MAC after it has absorbed the input too. Fewer than 2^64 bytes may be counted
    /// in all.
    fn chain_update(mut self, input: &[u8]) -> Self
        requires { Self.meaning.count self + length input.now < 2 ^ 64 }
        ensures { Updated Self.meaning self input.now result }
    {
        Update::update(&mut self, input);
        self
    }

    /// Returns the output for what was absorbed since the last start.
    fn finalize(self) -> CtOutput<N>
        ensures { result ≡ digest_now Self.meaning self }
    {
        CtOutput {
            bytes: self.finalize_fixed(),
        }
    }

    /// Returns `Ok` exactly if the tag is the whole output for what was absorbed since the last
    /// start, and `MacError` otherwise. All bytes of a tag of `N` bytes are compared, wherever it
    /// differs, and the output is then overwritten.
    fn verify_slice(self, tag: &[u8]) -> Result<(), MacError>
        ensures { IsOk result ↔ (tag.now ≡ digest_now Self.meaning self) }
    {
        let mut output = self.finalize_fixed();
        let is_equal = constant_time_eq(output.as_slice(), tag);
        output = [0; N];
        settle(&output);
        if is_equal { Ok(()) } else { Err(MacError) }
    }
}

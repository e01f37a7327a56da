// Made by tools/twins.py from src/macs/blake2b.rt.
//! The MAC of BLAKE2s.

ghost use Rattle.std.specs.Prelude.{◌≡◌, ⊤, ◌<◌, ◌≤◌, ◌↔◌, ◌⊎◌, [], length, false, None, Some};
ghost use Rattle.std.specs.Prelude.{IfOk, IsErr};
ghost use Rattle.std.proofs.Common.{arith};
ghost use Rattle.blake2_simd.specs.Family.{blake2s};
ghost use Rattle.blake2_compress.specs.Hash.{sequential};
ghost use Rattle.blake2_compress.specs.Views.{key_of};
ghost use Rattle.blake2.specs.MacArguments.{key_count, HasRefusedLength};
ghost use Rattle.blake2.specs.States.{node_digest_of};

use crate::contexts::blake2s::Blake2sContext;
use crate::cores::blake2s::Blake2sVarCore;
use blake2_digest::{
    Duplicate, FixedOutput, FixedOutputReset, InvalidLength, KeyInit, KeySizeUser, LazyBuffer, Mac,
    MacMarker, OutputSizeUser, Reset, Update, Wipe, ZeroizeOnDrop, padded, settle,
};
use std::alloc::AllocError;
use std::fmt;
use std::fmt::Write;

/// BLAKE2s with outputs of `N` bytes, at most 32, as a message authentication code.
pub struct Blake2sMac<const N: usize> {
    context: Blake2sContext,
    // What a start leaves pending: the key, padded with zeros to a block, or nothing.
    start_block: LazyBuffer<64>,
    ghost supported: { N ≤ 32 },
    ghost start_within_a_block: { length start_block ≤ 64 },
    // A MAC is not a node of a tree of hashes.
    ghost no_last_node: { context.core.last_node ≡ false },
}

impl<const N: usize> Blake2sMac<N> {
    ghost use Rattle.blake2.specs.Hashers.{blake2s_mac_meaning};
    ghost use Rattle.blake2_digest.specs.States.{Fresh};

    /// Returns a MAC that has absorbed no message, under a key of 1 to 32 bytes or none, with a
    /// salt and a persona of up to 8 bytes each. `None` stands for no key, and the MAC is then
    /// the unkeyed hash. The error is `InvalidLength`, exactly for a key of no bytes or of more
    /// than 32, and for a salt or a persona of more than 8.
    #[tactic(auto, unfolding(crate::specs::MacArguments::HasRefusedLength))]
    pub fn new_with_salt_and_personal(
        key: Option<&[u8]>,
        salt: &[u8],
        persona: &[u8],
    ) -> Result<Self, InvalidLength>
        requires { N ≤ 32 }
        ensures refused { IsErr result
            ↔ HasRefusedLength blake2s (key_of key.entry) salt.now persona.now }
        ensures made { IfOk result (λ mac. Fresh (blake2s_mac_meaning N)
            (node_digest_of blake2s N salt.now persona.now (key_of key.entry) sequential)
            (key_count blake2s (key_of key.entry)) mac) }
    {
        if salt.len() > 8 || persona.len() > 8 {
            return Err(InvalidLength);
        }
        let Some(key) = key else {
            return Ok(Self::unkeyed(salt, persona));
        };
        if key.is_empty() || key.len() > 32 {
            return Err(InvalidLength);
        }
        Ok(Self::under_key(key, salt, persona))
    }

    // A MAC under this key that has absorbed nothing else.
    fn under_key(key: &[u8], salt: &[u8], persona: &[u8]) -> Self
        requires supported { N ≤ 32 }
        requires key { length key.now ≤ 32 }
        requires salt { length salt.now ≤ 8 }
        requires persona { length persona.now ≤ 8 }
        ensures { Fresh (blake2s_mac_meaning N)
            (node_digest_of blake2s N salt.now persona.now (Some key.now) sequential) 64 result }
    {
        let mut block = padded::<64>(key);
        let core = Blake2sVarCore::new_with_params(salt, persona, key.len(), N);
        let mac = Blake2sMac {
            context: Blake2sContext::new(core, LazyBuffer::new(&block)),
            start_block: LazyBuffer::new(&block),
        };
        block = [0; 64];
        settle(&block);
        mac
    }

    // A MAC under no key that has absorbed nothing.
    fn unkeyed(salt: &[u8], persona: &[u8]) -> Self
        requires supported { N ≤ 32 }
        requires salt { length salt.now ≤ 8 }
        requires persona { length persona.now ≤ 8 }
        ensures { Fresh (blake2s_mac_meaning N)
            (node_digest_of blake2s N salt.now persona.now None sequential) 0 result }
    {
        let core = Blake2sVarCore::new_with_params(salt, persona, 0, N);
        Blake2sMac {
            context: Blake2sContext::new(core, LazyBuffer::default()),
            start_block: LazyBuffer::default(),
        }
    }
}

impl<const N: usize> KeySizeUser for Blake2sMac<N> {
    const KEY_SIZE: usize = 32;
}

impl<const N: usize> OutputSizeUser for Blake2sMac<N> {
    const OUTPUT_SIZE: usize = N;
}

impl<const N: usize> MacMarker for Blake2sMac<N> {}

impl<const N: usize> KeyInit<32> for Blake2sMac<N> {
    ghost use Rattle.blake2.specs.Hashers.{blake2s_mac_meaning};
    ghost use Rattle.blake2_digest.specs.States.{Fresh};

    ghost is_supported = { N ≤ 32 };

    ghost keyed = { λ key. node_digest_of blake2s N [] [] (Some key) sequential };

    ghost key_count = { 64 };

    fn new(key: &[u8; 32]) -> Self
        requires { N ≤ 32 }
        ensures { Fresh (blake2s_mac_meaning N)
            (node_digest_of blake2s N [] [] (Some key.now) sequential) 64 result }
    {
        Self::under_key(key, &[], &[])
    }

    #[tactic(auto, unfolding(crate::specs::MacArguments::HasRefusedLength))]
    fn new_from_slice(key: &[u8]) -> Result<Self, InvalidLength>
        requires { N ≤ 32 }
        ensures refused { IsErr result ↔ ((length key.now ≡ 0) ⊎ (32 < length key.now)) }
        ensures made { IfOk result (λ mac.
            Fresh (blake2s_mac_meaning N)
            (node_digest_of blake2s N [] [] (Some key.now) sequential) 64 mac) }
    {
        Self::new_with_salt_and_personal(Some(key), &[], &[])
    }
}

impl<const N: usize> Update for Blake2sMac<N> {
    ghost use Rattle.std.specs.Prelude.{◌-◌, ◌*◌};
    ghost use Rattle.blake2.specs.Hashers.{blake2s_mac_meaning, blake2s_mac_state};
    ghost use Rattle.blake2_digest.specs.Blocks.{chunk_count};

    ghost meaning = { blake2s_mac_meaning N };

    fn update(&mut self, input: &[u8]) {
        self.context.update(input);
    }

    /// Returns the number of bytes counted since the last start, including those that are
    /// pending. All of their blocks but one are compressed.
    fn counted(&self) -> u64
        ensures count { result ≡ (blake2s_mac_meaning N).count self.now }
        ensures one_block_left { (blake2s_mac_state self.now).core.count
            ≡ 64 * (chunk_count 64 result - 1) }
    {
        self.context.counted()
    }
}

impl<const N: usize> FixedOutput<N> for Blake2sMac<N> {
    fn finalize_into(mut self, out: &mut [u8; N]) {
        self.context.finish(out);
    }

    ghost output_fits = { λ s. Prim.omega (arith, s.supported) };
}

impl<const N: usize> Reset for Blake2sMac<N> {
    ghost use Rattle.blake2.specs.States.{IsRestarted};
    ghost use Rattle.blake2.specs.Hashers.{blake2s_mac_state};

    ghost is_reset = { IsRestarted blake2s_mac_state };

    fn reset(&mut self) {
        self.context.restart(self.start_block.duplicate());
    }
}

impl<const N: usize> FixedOutputReset<N> for Blake2sMac<N> {
    ghost use Rattle.blake2.specs.Hashers.{blake2s_mac_state};
    ghost use Rattle.blake2.specs.Restarts.{StartedAgain_by, StartedAgain_unflagged};

    fn finalize_into_reset(&mut self, out: &mut [u8; N]) {
        self.context.finish_reset(self.start_block.duplicate(), out);
    }

    ghost reset_starts_again = { λ old new reset. StartedAgain_unflagged _ old new
        (StartedAgain_by blake2s N blake2s_mac_state old new reset) };
}

impl<const N: usize> Mac<N> for Blake2sMac<N> {}

impl<const N: usize> Duplicate for Blake2sMac<N> {
    fn duplicate(&self) -> Self {
        Blake2sMac {
            context: self.context.duplicate(),
            start_block: self.start_block.duplicate(),
        }
    }
}

impl<const N: usize> Clone for Blake2sMac<N> {
    ghost is_clone = { λ x y. y ≡ x };

    ghost is_infallible = { λ _. ⊤ };

    fn clone(&self) -> Result<Self, AllocError> {
        Ok(self.duplicate())
    }
}

impl<const N: usize> Wipe for Blake2sMac<N> {
    ghost use Rattle.blake2.specs.States.{IsWiped};
    ghost use Rattle.blake2.specs.Hashers.{blake2s_mac_state};

    ghost is_wiped = { λ s. IsWiped (blake2s_mac_state s) };

    /// Overwrites the core, the pending bytes and the block of the start with zeros. The number
    /// of pending bytes and the length of that block stay.
    fn wipe(&mut self)
        ensures wiped { IsWiped (blake2s_mac_state self.new) }
        ensures pending { length (blake2s_mac_state self.new).pending
            ≡ length (blake2s_mac_state self.old).pending }
        ensures start_block { length (blake2s_mac_state self.new).start_block
            ≡ length (blake2s_mac_state self.old).start_block }
    {
        self.context.wipe();
        self.start_block.wipe();
        self.context.settle();
        self.start_block.settle();
    }
}

impl<const N: usize> Drop for Blake2sMac<N> {
    fn drop(mut self) {
        self.wipe();
        let Blake2sMac {
            context: _context,
            start_block: _start_block,
        } = self;
    }
}

impl<const N: usize> ZeroizeOnDrop for Blake2sMac<N> {}

// Writes the name of a MAC with outputs of `N` bytes, for `Debug`. It has no MAC as an argument,
// so that it can write nothing of a key.
fn write_name<const N: usize, W: fmt::Write>(f: &mut fmt::Formatter<W>) -> fmt::Result {
    write!(f, "Blake2sMac{N} {{ ... }}")
}

impl<const N: usize> fmt::Debug for Blake2sMac<N> {
    fn fmt<W: fmt::Write>(&self, f: &mut fmt::Formatter<W>) -> fmt::Result {
        write_name::<N, W>(f)
    }
}

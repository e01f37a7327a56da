// Made by tools/twins.py from src/blake2b.rt.
//! BLAKE2s, with a state of plain numbers.

ghost use Rattle.std.specs.Prelude.{◌≡◌, ◌+◌, ◌^◌, ◌<◌, ◌≤◌, ◌↔◌, [], ◌∷◌, ◌++◌, length, drop};
ghost use Rattle.std.specs.Prelude.{slice_index, None, Some, IfOk, IsErr, IsTrue};
ghost use Rattle.blake2_simd.specs.Family.{blake2s};
ghost use Rattle.blake2_compress.specs.Hash.{AdmitsTree, sequential};
ghost use Rattle.blake2_compress.specs.Views.{given_parameters, tree_of};
ghost use Rattle.blake2_digest.specs.Texts.{padded};
ghost use Rattle.blake2_digest.specs.States.{Fresh, LastNodeFlagSet, Updated, ResetToStart};
ghost use Rattle.blake2_digest.specs.States.{digest_now};
ghost use Rattle.blake2_state.specs.ConstructorArguments.{AdmitsState, counted_key_bytes};
ghost use Rattle.blake2_state.specs.ConstructorArguments.{digest_given};
ghost use Rattle.blake2_state.specs.ConstructorArguments.{digest_under};
ghost use Rattle.blake2_state.specs.ConstructorArguments.{parameters_given};
ghost use Rattle.blake2_state.specs.RawParameterBlocks.{digest_by_parameter_block};
ghost use Rattle.blake2_state.specs.RawParameterBlocks.{AdmitsParameterBlock};
ghost use Rattle.blake2_state.specs.Blake2s.{IsKeyed, IsReady, key_length, meaning, zeros};
ghost use Rattle.blake2_state.specs.States.{is_on};

use crate::StateParameters;
use blake2::{Blake2sVarCore, Tree};
use blake2_compress::compress::Flags;
use blake2_compress::compress::blake2s::{compress, to_bytes, to_rows, to_words};
use blake2_compress::consts::BLAKE2S_IV;
use blake2_compress::params::Parameters;
use blake2_compress::params::blake2s::{fits, start_of};
use blake2_digest::{InvalidLength, LastNode, UpdateCore, constant_time_eq, digest_into, padded};

/// A state of BLAKE2s as plain numbers. All values of the fields are states, and none is unsafe.
/// A state returns digests if it is ready ([`State::is_ready`]), as all are that
/// `init_salt_personal`, `init_tree` and `init_param` have made.
#[repr(C)]
#[derive(Drop)]
pub struct State {
    /// The chaining words.
    pub chain: [u32; 8],
    /// The words that the run started from.
    pub first: [u32; 8],
    /// The number of bytes of the blocks that were compressed.
    pub counter: u64,
    /// The number of pending bytes, 0 to 64.
    pub pending_length: u16,
    /// The number of bytes that a start leaves pending: 64 of a key's block, or none.
    pub start_length: u16,
    /// The number of bytes of the digest, 1 to 32.
    pub output_size: u16,
    /// The last-node flag (the BLAKE2 document, 2.10): 0 is off, and all else on.
    pub last_node: u16,
    /// The pending bytes, at the beginning.
    pub pending: [u8; 64],
    /// The key, padded with zeros. A start leaves bytes of its block pending.
    pub key: [u8; 32],
}

// Writes the key's block in its place, so that no copy of the key is left on the stack.
fn write_padded(block: &mut [u8; 64], key: &[u8; 32])
    ensures { block.new ≡ padded 64 key.now }
{
    *block = [0; 64];
    block[..32].copy_from_slice(key);
}

impl State {
    /// Returns whether the state returns digests.
    pub fn is_ready(&self) -> bool
        ensures { IsTrue result ↔ IsReady self.now }
    {
        self.output_size >= 1
            && self.output_size <= 32
            && self.pending_length <= 64
            && self.start_length <= 64
            && self.counter <= u64::MAX - self.pending_length as u64
    }

    /// Returns whether the state has a key: whether the parameter block that it was initialized
    /// from names one. Nothing but another initialization or a wipe changes that.
    pub fn has_key(&self) -> bool
        ensures { IsTrue result ↔ IsKeyed self.now }
    {
        (BLAKE2S_IV[0] ^ self.first[0]).to_le_bytes()[1] != 0
    }

    /// Returns the zeroed state, which is not ready.
    pub fn zeros() -> Self
        ensures { result ≡ zeros }
    {
        State {
            chain: [0; 8],
            first: [0; 8],
            counter: 0,
            pending_length: 0,
            start_length: 0,
            output_size: 0,
            last_node: 0,
            pending: [0; 64],
            key: [0; 32],
        }
    }

    /// Overwrites everything with zeros. The state is then not ready.
    pub fn wipe(&mut self)
        ensures { self.new ≡ zeros }
    {
        *self = Self::zeros();
    }

    // A state from these words that has absorbed nothing, under no key.
    fn from_start_words(first: [u32; 8], output_size: u16) -> Self
        ensures { result
            ≡ record zeros { chain = first; first = first; output_size = output_size } }
    {
        State {
            chain: first,
            first,
            counter: 0,
            pending_length: 0,
            start_length: 0,
            output_size,
            last_node: 0,
            pending: [0; 64],
            key: [0; 32],
        }
    }

    // Whether Blake2s accepts the parameters of a state.
    #[inline]
    fn admits(parameters: &Parameters<'_>) -> bool
        ensures { IsTrue result ↔ AdmitsState blake2s (given_parameters parameters.now) }
    {
        parameters.output_size >= 1 && fits(parameters)
    }

    // A state of these parameters that has absorbed nothing, under no key.
    fn unkeyed(parameters: &Parameters<'_>) -> Self
        requires admitted { AdmitsState blake2s (given_parameters parameters.now) }
        requires keyless { parameters.now.key_size ≡ 0 }
        ensures ready { IsReady result }
        ensures size { result.output_size ≡ parameters.now.output_size }
        ensures key { key_length result ≡ parameters.now.key_size }
        ensures fresh { Fresh meaning
            (digest_under blake2s (given_parameters parameters.now) None) 0 result }
    {
        let core = Blake2sVarCore::from_parameters(parameters);
        Self::from_start_words(core.first_words(), parameters.output_size as u16)
    }

    // A state under this key that has absorbed nothing else.
    fn under_key(parameters: &Parameters<'_>, key: &[u8]) -> Self
        requires admitted { AdmitsState blake2s (given_parameters parameters.now) }
        requires key_size { parameters.now.key_size ≡ length key.now }
        ensures ready { IsReady result }
        ensures size { result.output_size ≡ parameters.now.output_size }
        ensures key { key_length result ≡ parameters.now.key_size }
        ensures fresh { Fresh meaning
            (digest_under blake2s (given_parameters parameters.now) (Some key.now)) 64 result }
    {
        let core = Blake2sVarCore::from_parameters(parameters);
        let first = core.first_words();
        let padded_key = padded::<32>(key);
        let block = padded::<64>(&padded_key);
        State {
            chain: first,
            first,
            counter: 0,
            pending_length: 64,
            start_length: 64,
            output_size: parameters.output_size as u16,
            last_node: 0,
            pending: block,
            key: padded_key,
        }
    }

    /// Returns whether Blake2s accepts these parameters: a digest of 1 to 32 bytes, a key of up to
    /// 32 (no bytes mean no key), a salt and a persona of up to 8 each.
    pub fn accepts(given: &StateParameters<'_>) -> bool
        ensures { IsTrue result ↔ AdmitsState blake2s (parameters_given given.now sequential) }
    {
        Self::admits(&given.parameters(&Tree::sequential()))
    }

    /// Returns a state of these parameters that has absorbed no message: a digest of 1 to 32
    /// bytes, a key of up to 32 (no bytes mean no key), a salt and a persona of up to 8 each.
    /// The last-node flag is off. The error is `InvalidLength`, exactly for other lengths.
    pub fn init_salt_personal(given: &StateParameters<'_>) -> Result<Self, InvalidLength>
        ensures refused { IsErr result
            ↔ ¬ AdmitsState blake2s (parameters_given given.now sequential) }
        ensures ready { IfOk result (λ s. IsReady s) }
        ensures size { IfOk result (λ s. s.output_size ≡ given.now.output_size) }
        ensures key { IfOk result (λ s. key_length s ≡ length given.now.key.now) }
        ensures fresh { IfOk result (λ s. Fresh meaning
            (digest_given blake2s given.now sequential)
            (counted_key_bytes blake2s given.now.key.now) s) }
    {
        Self::init_tree(given, &Tree::sequential())
    }

    /// Returns whether BLAKE2s accepts these tree parameters: at least one level, a node offset
    /// below 2^48, and an inner node's digest of at most 32 bytes (the BLAKE2 document, 2.8 and
    /// 2.10).
    pub fn admits_tree(tree: &Tree) -> bool
        ensures { IsTrue result ↔ AdmitsTree blake2s (tree_of tree.now) }
    {
        Blake2sVarCore::admits_tree(tree)
    }

    /// Returns a state of a node of a tree of hashes that has absorbed no message, with the
    /// parameters of `init_salt_personal` and these tree parameters, which `admits_tree` must
    /// accept (the BLAKE2 document, 2.10). The last-node flag is off. The error is
    /// `InvalidLength`, exactly for the lengths that `init_salt_personal` refuses.
    // Inlined, so that under a key no frame reaches below the zeros that `blake2_ffi` writes over
    // the stack (docs/WIPING.md).
    #[inline]
    pub fn init_tree(given: &StateParameters<'_>, tree: &Tree) -> Result<Self, InvalidLength>
        requires tree { AdmitsTree blake2s (tree_of tree.now) }
        ensures refused { IsErr result
            ↔ ¬ AdmitsState blake2s (parameters_given given.now (tree_of tree.now)) }
        ensures ready { IfOk result (λ s. IsReady s) }
        ensures size { IfOk result (λ s. s.output_size ≡ given.now.output_size) }
        ensures key { IfOk result (λ s. key_length s ≡ length given.now.key.now) }
        ensures fresh { IfOk result (λ s. Fresh meaning
            (digest_given blake2s given.now (tree_of tree.now))
            (counted_key_bytes blake2s given.now.key.now) s) }
    {
        let parameters = given.parameters(tree);
        if !Self::admits(&parameters) {
            return Err(InvalidLength);
        }
        if given.key.is_empty() {
            return Ok(Self::unkeyed(&parameters));
        }
        Ok(Self::under_key(&parameters, given.key))
    }

    /// Returns the state of a parameter block (the BLAKE2 document, 2.8) that has absorbed
    /// nothing, with a digest of the size that the block names. If the block names a key, the
    /// caller passes the key's block, padded with zeros to 64 bytes, as the first input. The
    /// error is `InvalidLength`, exactly for a block that does not have 32 bytes, and for one
    /// that names a digest of 0 or more than 32 bytes or a key of more than 32.
    pub fn init_param(block: &[u8]) -> Result<Self, InvalidLength>
        ensures refused { IsErr result ↔ ¬ AdmitsParameterBlock blake2s block.now }
        ensures ready { IfOk result (λ s. IsReady s) }
        ensures size { IfOk result (λ s. s.output_size ≡ slice_index block.now 0) }
        ensures key { IfOk result (λ s. key_length s ≡ slice_index block.now 1) }
        ensures fresh { IfOk result (λ s. Fresh meaning
            (digest_by_parameter_block blake2s block.now) 0 s) }
    {
        if block.len() != 32 {
            return Err(InvalidLength);
        }
        if block[0] == 0 || block[0] > 32 || block[1] > 32 {
            return Err(InvalidLength);
        }
        Ok(Self::from_start_words(to_words(&start_of(block)), block[0] as u16))
    }

    // The core that the state holds.
    #[inline]
    fn core(&self) -> Blake2sVarCore
        ensures { result ≡ record {
          h = self.now.chain;
          start = self.now.first;
          count = self.now.counter;
          last_node = is_on self.now.last_node;
        } }
    {
        let mut core = Blake2sVarCore::from_words(&self.chain, &self.first, self.counter);
        core.set_last_node(self.last_node != 0);
        core
    }

    /// Sets the last-node flag, which says that this is the last node of its level in a tree of
    /// hashes (the BLAKE2 document, 2.10). The state must be ready. The flag can be set at any
    /// time before the digest, and a reset keeps it.
    pub fn set_last_node(&mut self, on: bool)
        requires { IsReady self.old }
        ensures ready { IsReady self.new }
        ensures size { self.new.output_size ≡ self.old.output_size }
        ensures key { key_length self.new ≡ key_length self.old }
        ensures set { LastNodeFlagSet meaning self.old on self.new }
    {
        self.last_node = if on { 1 } else { 0 };
    }

    /// Returns how many bytes the state has counted since its last start, including those that
    /// are pending and those of a key's block. The state must be ready.
    pub fn counted(&self) -> u64
        requires { IsReady self.now }
        ensures { result ≡ meaning.count self.now }
    {
        self.counter + self.pending_length as u64
    }

    /// Returns how many bytes a start counts: those of the key's block, or none. The state must be
    /// ready.
    pub fn start_counted(&self) -> u64
        requires { IsReady self.now }
        ensures { result ≡ meaning.start_count self.now }
    {
        self.start_length as u64
    }

    // Absorbs one byte that the pending block has room for.
    #[inline(always)]
    fn keep_byte(&mut self, byte: u8)
        requires ready { IsReady self.old }
        requires room { self.old.pending_length < 64 }
        requires counted { meaning.count self.old + 1 < 2 ^ 64 }
        ensures ready { IsReady self.new }
        ensures size { self.new.output_size ≡ self.old.output_size }
        ensures key { key_length self.new ≡ key_length self.old }
        ensures updated { Updated meaning self.old (byte ∷ []) self.new }
    {
        let pos = self.pending_length;
        self.pending[pos as usize] = byte;
        self.pending_length = pos + 1;
    }

    // Absorbs an input that the pending block has room for.
    fn append_pending(&mut self, input: &[u8])
        requires ready { IsReady self.old }
        requires room { self.old.pending_length + length input.now ≤ 64 }
        requires counted { meaning.count self.old + length input.now < 2 ^ 64 }
        ensures ready { IsReady self.new }
        ensures size { self.new.output_size ≡ self.old.output_size }
        ensures key { key_length self.new ≡ key_length self.old }
        ensures updated { Updated meaning self.old input.now self.new }
    {
        let pos = self.pending_length as usize;
        let end = pos + input.len();
        self.pending[pos..end].copy_from_slice(input);
        self.pending_length = end as u16;
    }

    // Absorbs any input.
    fn absorb(&mut self, input: &[u8])
        requires ready { IsReady self.old }
        requires counted { meaning.count self.old + length input.now < 2 ^ 64 }
        ensures ready { IsReady self.new }
        ensures size { self.new.output_size ≡ self.old.output_size }
        ensures key { key_length self.new ≡ key_length self.old }
        ensures updated { Updated meaning self.old input.now self.new }
    {
        let mut core = self.core();
        let pos = self.pending_length as usize;
        let held = digest_into(&mut self.pending, pos, input, &mut core);
        self.pending_length = held as u16;
        self.chain = core.chain_words();
        self.counter = core.counted();
    }

    // Absorbs any input, by the shorter way if the pending block has room for it: that needs no
    // core, whose words would move to rows and back. It stays a separate call, so that `update`
    // saves no registers if one byte comes.
    #[inline(never)]
    fn absorb_blocks(&mut self, input: &[u8])
        requires ready { IsReady self.old }
        requires counted { meaning.count self.old + length input.now < 2 ^ 64 }
        ensures ready { IsReady self.new }
        ensures size { self.new.output_size ≡ self.old.output_size }
        ensures key { key_length self.new ≡ key_length self.old }
        ensures updated { Updated meaning self.old input.now self.new }
    {
        if input.len() <= 64 - self.pending_length as usize {
            self.append_pending(input);
        } else {
            self.absorb(input);
        }
    }

    /// Absorbs the input after all that was absorbed before. The state must be ready. Fewer than
    /// 2^64 bytes may be counted in all; `counted` returns the count so far.
    pub fn update(&mut self, input: &[u8])
        requires ready { IsReady self.old }
        requires counted { meaning.count self.old + length input.now < 2 ^ 64 }
        ensures ready { IsReady self.new }
        ensures size { self.new.output_size ≡ self.old.output_size }
        ensures key { key_length self.new ≡ key_length self.old }
        ensures updated { Updated meaning self.old input.now self.new }
    {
        // To copy a single byte by a call would cost more than all the rest.
        if input.len() == 1 && self.pending_length < 64 {
            self.keep_byte(input[0]);
        } else {
            self.absorb_blocks(input);
        }
    }

    /// Goes back to the start: parameters, key and last-node flag are kept. The state must be
    /// ready.
    pub fn reset(&mut self)
        requires { IsReady self.old }
        ensures ready { IsReady self.new }
        ensures size { self.new.output_size ≡ self.old.output_size }
        ensures key { key_length self.new ≡ key_length self.old }
        ensures reset { ResetToStart meaning self.old self.new }
    {
        self.chain = self.first;
        self.counter = 0;
        self.pending_length = self.start_length;
        write_padded(&mut self.pending, &self.key);
    }

    /// Writes the digest of what was absorbed since the last start at the beginning of `out`,
    /// which must have at least `output_size` bytes. Those after the digest stay as they are. The
    /// state must be ready. It stays as it is, and can absorb more.
    pub fn write_digest(&self, out: &mut [u8])
        requires ready { IsReady self.now }
        requires room { self.now.output_size ≤ length out.old }
        ensures { out.new ≡ digest_now meaning self.now ++ drop self.now.output_size out.old }
    {
        let mut h = to_rows(&self.chain);
        let count = self.pending_length as usize;
        let block = padded::<64>(&self.pending[..count]);
        let flags = Flags::last_block(self.last_node != 0);
        compress(&mut h, &block, self.counter + count as u64, flags);
        let whole = to_bytes(&h);
        let size = self.output_size as usize;
        out[..size].copy_from_slice(&whole[..size]);
    }

    /// Returns whether the tag is the whole digest of what was absorbed since the last start. All
    /// bytes of a tag of its length are compared, wherever it differs. The state must be ready,
    /// and stays as it is.
    pub fn is_digest(&self, tag: &[u8]) -> bool
        requires { IsReady self.now }
        ensures { IsTrue result ↔ (tag.now ≡ digest_now meaning self.now) }
    {
        let mut whole = [0; 32];
        self.write_digest(&mut whole);
        constant_time_eq(tag, &whole[..self.output_size as usize])
    }
}

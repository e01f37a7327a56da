// Made by tools/twins.py from src/blake2bp.rt.
//! BLAKE2sp: eight leaves of BLAKE2s, with a state of plain numbers.

ghost use Rattle.std.specs.Prelude.{◌≡◌, ◌+◌, ◌^◌, ◌<◌, ◌≤◌, ◌↔◌, ◌++◌, length, take, drop, IfOk};
ghost use Rattle.std.specs.Prelude.{IsErr, IsTrue, true, slice_index_or, ℕ};
ghost use Rattle.std.specs.List.{flat_map};
ghost use Rattle.blake2_simd.specs.Family.{blake2s};
ghost use Rattle.blake2_simd.specs.Lanes.{in_lane};
ghost use Rattle.blake2_simd.specs.Rows.{chaining_words};
ghost use Rattle.blake2_compress.specs.Hash.{start};
ghost use Rattle.blake2_compress.specs.Views.{given_parameters};
ghost use Rattle.blake2_digest.specs.States.{Fresh, Updated, ResetToStart, digest_now};
ghost use Rattle.blake2_parallel.specs.Parallel.{AdmitsParallel, SettingsFit, digests};
ghost use Rattle.blake2_parallel.specs.Parallel.{parallel_key_count};
ghost use Rattle.blake2_parallel.specs.Parallel.{parallel_node_parameters, node_output_from};
ghost use Rattle.blake2_parallel.specs.Parallel.{settings};
ghost use Rattle.blake2_parallel.specs.Blake2sp.{IsReady, IsWithinLimits, meaning, zeros};
ghost use Rattle.blake2_parallel.specs.Blake2sp.{zeros_for};

use crate::lanes::blake2sp::Lanes;
use blake2_compress::compress::Flags;
use blake2_compress::compress::blake2s::{compress, to_bytes, to_rows};
use blake2_compress::params::blake2s::start_words;
use blake2_compress::params::{Parameters, Tree};
use blake2_digest::{Duplicate, InvalidLength, constant_time_eq, padded, settle};
use blake2_simd::rows::u32x4;
use std::hint;

// ---- the nodes

// The parameters of a node.
fn parameters<'a>(
    output_size: usize,
    key: &[u8],
    salt: &'a [u8],
    persona: &'a [u8],
    node_offset: u64,
    node_depth: u8,
) -> Parameters<'a>
    ensures { given_parameters result
        ≡ parallel_node_parameters blake2s (settings output_size key.now salt.now persona.now)
        node_offset
        node_depth }
{
    Parameters {
        output_size,
        key_size: key.len(),
        salt,
        persona,
        tree: Tree {
            fanout: 8,
            depth: 2,
            leaf_length: 0,
            node_offset,
            node_depth,
            inner_length: 32,
        },
    }
}

// The words that the leaves start from, row by row. They differ in the node offset, which is in the
// third word of the parameter block.
fn first_rows(output_size: usize, key: &[u8], salt: &[u8], persona: &[u8]) -> [[u32; 8]; 8]
    requires { SettingsFit blake2s (settings output_size key.now salt.now persona.now) }
    ensures { (j : ℕ) → j < 8 → in_lane j result ≡ start blake2s
        (parallel_node_parameters blake2s (settings output_size key.now salt.now persona.now) j 0) }
{
    let first = parameters(output_size, key, salt, persona, 0, 0);
    let [h0, h1, h2, h3, h4, h5, h6, h7] = start_words(&first);
    [
        [h0; 8],
        [h1; 8],
        [h2, h2 ^ 1, h2 ^ 2, h2 ^ 3, h2 ^ 4, h2 ^ 5, h2 ^ 6, h2 ^ 7],
        [h3; 8],
        [h4; 8],
        [h5; 8],
        [h6; 8],
        [h7; 8],
    ]
}

// The number of bytes that a start leaves pending: a key's block for each leaf, or none.
fn start_length(key: &[u8]) -> usize
    ensures none { length key.now ≡ 0 → result ≡ 0 }
    ensures some { 0 < length key.now → result ≡ 512 }
    ensures short { result ≤ 512 }
{
    if key.is_empty() { 0 } else { 512 }
}

// The output of a node that has the chaining words `h` before its data.
fn output_of(h: [u32x4; 2], bytes: &[u8], last_node: bool) -> [u8; 32]
    requires { length bytes.now < 2 ^ 64 }
    ensures { result ≡ node_output_from blake2s (chaining_words h) 0 bytes.now last_node }
{
    let mut words = h;
    let mut count = 0;
    let mut rest = bytes;
    while rest.len() > 64 {
        let (blocks, _) = rest.as_chunks::<64>();
        count += 64;
        compress(&mut words, &blocks[0], count, Flags::INNER);
        rest = &rest[64..];
    }
    let block = padded::<64>(rest);
    let flags = Flags::last_block(last_node);
    compress(&mut words, &block, count + rest.len() as u64, flags);
    to_bytes(&words)
}

// ---- the state

// Reads the words in a separate call, and pauses the processor once if one is not zero.
#[inline(never)]
fn settle_words(words: &[u32]) {
    let mut bits = 0;
    for word in words {
        bits |= *word;
    }
    if bits != 0 {
        hint::spin_loop();
    }
}

/// A state of BLAKE2sp as plain numbers. All values of the fields are states, and none is unsafe.
/// A state returns digests if it is ready ([`State::is_ready`]), as all are that
/// `init_salt_personal` has made.
#[repr(C)]
#[derive(Drop)]
pub struct State {
    /// The leaves, and the bytes that are not dealt out yet.
    pub lanes: Lanes,
    /// The words that the leaves started from: row k has word k of each leaf.
    pub first: [[u32; 8]; 8],
    /// The words that the root starts from.
    pub root: [u32; 8],
    /// The number of bytes that a start leaves pending: 512 of a key's blocks, or none.
    pub start_length: usize,
    /// The number of bytes of the digest, 1 to 32.
    pub output_size: usize,
    /// The key, padded with zeros to a block.
    pub key_block: [u8; 64],
}

impl State {
    /// Returns whether the state returns digests.
    pub fn is_ready(&self) -> bool
        ensures { IsTrue result ↔ IsReady self.now }
    {
        self.output_size >= 1
            && self.output_size <= 32
            && self.lanes.is_sound()
            && self.start_length <= 512
    }

    /// Returns whether the state has a key, whose blocks a start counts.
    pub fn has_key(&self) -> bool
        ensures { IsTrue result ↔ (1 ≤ meaning.start_count self.now) }
    {
        self.start_length != 0
    }

    // The zeroed state with digests of `output_size` bytes.
    pub(crate) fn zeros_for(output_size: usize) -> Self
        ensures { result ≡ zeros_for output_size }
    {
        State {
            lanes: Lanes {
                rows: [[0; 8]; 8],
                counter: 0,
                length: 0,
                pending: [0; 960],
            },
            first: [[0; 8]; 8],
            root: [0; 8],
            start_length: 0,
            output_size,
            key_block: [0; 64],
        }
    }

    /// Returns the zeroed state, which is not ready.
    pub fn zeros() -> Self
        ensures { result ≡ zeros }
    {
        Self::zeros_for(0)
    }

    // Makes a compiler keep zeros, as `blake2_digest::settle` does.
    pub(crate) fn settle(&self) {
        settle_words(self.lanes.rows.as_flattened());
        settle_words(self.first.as_flattened());
        settle_words(&self.root);
        settle(&self.lanes.pending);
        settle(&self.key_block);
    }

    /// Overwrites everything with zeros. The state is then not ready.
    pub fn wipe(&mut self)
        ensures { self.new ≡ zeros }
    {
        *self = Self::zeros();
    }

    // A state that has absorbed no message.
    pub(crate) fn new(output_size: usize, key: &[u8], salt: &[u8], persona: &[u8]) -> Self
        requires { SettingsFit blake2s (settings output_size key.now salt.now persona.now) }
        ensures within { IsWithinLimits result }
        ensures size { result.output_size ≡ output_size }
        ensures fresh { Fresh meaning
            (digests blake2s (settings output_size key.now salt.now persona.now))
            (parallel_key_count blake2s key.now) result }
    {
        let first = first_rows(output_size, key, salt, persona);
        let root = start_words(&parameters(output_size, key, salt, persona, 0, 1));
        let key_block = padded::<64>(key);
        let start_length = start_length(key);
        State {
            lanes: Lanes::new(&first, &key_block, start_length),
            first,
            root,
            start_length,
            output_size,
            key_block,
        }
    }

    /// Returns whether BLAKE2sp accepts these parameters: a digest of 1 to 32 bytes, a key of up to
    /// 32 (no bytes mean no key), a salt and a persona of up to 8 each.
    pub fn accepts(output_size: usize, key: &[u8], salt: &[u8], persona: &[u8]) -> bool
        ensures { IsTrue result
            ↔ AdmitsParallel blake2s (settings output_size key.now salt.now persona.now) }
    {
        output_size >= 1
            && output_size <= 32
            && key.len() <= 32
            && salt.len() <= 8
            && persona.len() <= 8
    }

    /// Returns a state of these parameters that has absorbed no message: a digest of 1 to 32
    /// bytes, a key of up to 32 (no bytes mean no key), a salt and a persona of up to 8 each.
    /// The error is `InvalidLength`, exactly for other lengths.
    #[inline]
    pub fn init_salt_personal(
        output_size: usize,
        key: &[u8],
        salt: &[u8],
        persona: &[u8],
    ) -> Result<Self, InvalidLength>
        ensures refused { IsErr result
            ↔ ¬ AdmitsParallel blake2s (settings output_size key.now salt.now persona.now) }
        ensures ready { IfOk result (λ s. IsReady s) }
        ensures size { IfOk result (λ s. s.output_size ≡ output_size) }
        ensures fresh { IfOk result (λ s. Fresh meaning
            (digests blake2s (settings output_size key.now salt.now persona.now))
            (parallel_key_count blake2s key.now) s) }
    {
        if !Self::accepts(output_size, key, salt, persona) {
            return Err(InvalidLength);
        }
        Ok(Self::new(output_size, key, salt, persona))
    }

    /// Returns how many bytes the state has counted since its last start, including those that
    /// are pending and those of a key's blocks: 512 for a key. The state must be ready.
    pub fn counted(&self) -> u64
        requires { IsWithinLimits self.now }
        ensures { result ≡ meaning.count self.now }
    {
        8 * self.lanes.counter + self.lanes.length as u64
    }

    /// Absorbs the input after all that was absorbed before. The state must be ready. Fewer than
    /// 2^64 bytes may be counted in all; `counted` returns the count so far.
    pub fn update(&mut self, input: &[u8])
        requires within { IsWithinLimits self.old }
        requires counted { meaning.count self.old + length input.now < 2 ^ 64 }
        ensures within { IsWithinLimits self.new }
        ensures size { self.new.output_size ≡ self.old.output_size }
        ensures updated { Updated meaning self.old input.now self.new }
    {
        self.lanes.update(input);
    }

    /// Goes back to the start: parameters and key are kept. The state must be ready.
    pub fn reset(&mut self)
        requires { IsWithinLimits self.old }
        ensures within { IsWithinLimits self.new }
        ensures size { self.new.output_size ≡ self.old.output_size }
        ensures reset { ResetToStart meaning self.old self.new }
    {
        self.lanes = Lanes::new(&self.first, &self.key_block, self.start_length);
    }

    // The output of the root, which begins with the digest of what was absorbed since the last
    // start.
    fn output(&self) -> [u8; 32]
        requires { IsWithinLimits self.now }
        ensures { take self.now.output_size result ≡ digest_now meaning self.now }
    {
        let outputs = self.lanes.outputs();
        output_of(to_rows(&self.root), outputs.as_flattened(), true)
    }

    /// Writes the digest of what was absorbed since the last start at the beginning of `out`,
    /// which must have at least `output_size` bytes. Those after the digest stay as they are. The
    /// state must be ready. It stays as it is, and can absorb more.
    pub fn write_digest(&self, out: &mut [u8])
        requires within { IsWithinLimits self.now }
        requires room { self.now.output_size ≤ length out.old }
        ensures { out.new ≡ digest_now meaning self.now ++ drop self.now.output_size out.old }
    {
        let whole = self.output();
        let size = self.output_size;
        out[..size].copy_from_slice(&whole[..size]);
    }

    /// Returns whether the tag is the whole digest of what was absorbed since the last start. All
    /// bytes of a tag of its length are compared, wherever it differs. The state must be ready,
    /// and stays as it is.
    pub fn is_digest(&self, tag: &[u8]) -> bool
        requires { IsWithinLimits self.now }
        ensures { IsTrue result ↔ (tag.now ≡ digest_now meaning self.now) }
    {
        let whole = self.output();
        constant_time_eq(tag, &whole[..self.output_size])
    }
}

impl Duplicate for State {
    fn duplicate(&self) -> Self {
        State {
            lanes: Lanes {
                rows: self.lanes.rows,
                counter: self.lanes.counter,
                length: self.lanes.length,
                pending: self.lanes.pending,
            },
            first: self.first,
            root: self.root,
            start_length: self.start_length,
            output_size: self.output_size,
            key_block: self.key_block,
        }
    }
}

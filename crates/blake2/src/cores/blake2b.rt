//! The block core of BLAKE2b.

ghost use Rattle.std.specs.Prelude.{◌≡◌, ⊤, ◌<◌, ◌≤◌, ◌↔◌, false, [], length, IfOk, IsErr, IsTrue};
ghost use Rattle.blake2_simd.specs.Family.{blake2b};
ghost use Rattle.blake2_compress.specs.Hash.{AdmitsTree, Fits, parameters_of};
ghost use Rattle.blake2_compress.specs.Views.{given_parameters, tree_of};
ghost use Rattle.blake2.specs.Cores.{CoreState, absorbed, completed, last_output, core_made};
ghost use Rattle.blake2.specs.Cores.{node_parameters, core_restarted, core_node_set, core_wiped};
ghost use Rattle.blake2.specs.CoreLaws.{absorbed-append, absorbed-nil, count-absorbed};

use blake2_compress::compress::{Flags, blake2b as words};
use blake2_compress::params::{Parameters, Tree, blake2b as params};
use blake2_digest::{
    AlgorithmName, BlockSizeUser, BufferKindUser, Duplicate, HashMarker, InvalidOutputSize,
    LastNode, Lazy, LazyBuffer, OutputSizeUser, Reset, TruncSide, UpdateCore, VariableOutputCore,
    VariableOutputCoreCustomized, Wipe, ZeroizeOnDrop,
};
use blake2_simd::rows::u64x4;
use std::alloc::AllocError;
use std::fmt::Write;
use std::marker::Model;
use std::{fmt, hint};

/// The core of BLAKE2b: it compresses blocks of 128 bytes, and its outputs have up to 64 bytes.
pub struct Blake2bVarCore {
    // The chaining words, and those that the run started from: two rows of four each.
    h: [u64x4; 2],
    start: [u64x4; 2],
    // The bytes of the blocks that were compressed.
    counter: u64,
    // Whether this is the last node of its level in a tree of hashes.
    last_node: bool,
}

impl Model for Blake2bVarCore {
    ghost use Rattle.blake2_simd.specs.Rows.{chaining_words};
    ghost use Rattle.blake2.specs.Cores.{CoreState};

    ghost Value = { CoreState };

    ghost view = { λ core. record {
      h = chaining_words core.h;
      start = chaining_words core.start;
      count = core.counter;
      last_node = core.last_node;
    } };
}

impl Blake2bVarCore {
    /// Returns whether BLAKE2b accepts these tree parameters: at least one level, a node offset
    /// below 2^64, and an inner node's digest of at most 64 bytes (the BLAKE2 document, 2.8 and
    /// 2.10).
    pub fn admits_tree(tree: &Tree) -> bool
        ensures { IsTrue result ↔ AdmitsTree blake2b (tree_of tree.now) }
    {
        params::admits_tree(tree)
    }

    /// Returns a core under these parameters: a salt and a persona of up to 16 bytes each, the
    /// length in bytes of a key of up to 64, and that of outputs of up to 64. It has absorbed
    /// nothing: if there is a key, the caller passes the key's block as the first block. The hash
    /// is the whole tree.
    pub fn new_with_params(salt: &[u8], persona: &[u8], key_size: usize, output_size: usize) -> Self
        requires salt { length salt.now ≤ 16 }
        requires persona { length persona.now ≤ 16 }
        requires key_size { key_size ≤ 64 }
        requires output_size { output_size ≤ 64 }
        ensures { result
            ≡ core_made blake2b (parameters_of output_size key_size salt.now persona.now) }
    {
        let tree = Tree::sequential();
        Self::new_with_tree(salt, persona, key_size, output_size, &tree)
    }

    /// Returns a core of a node of a tree of hashes: under the parameters of `new_with_params`,
    /// and under these tree parameters, which `admits_tree` must accept (the BLAKE2 document,
    /// 2.10). The last-node flag is off.
    pub fn new_with_tree(
        salt: &[u8],
        persona: &[u8],
        key_size: usize,
        output_size: usize,
        tree: &Tree,
    ) -> Self
        requires salt { length salt.now ≤ 16 }
        requires persona { length persona.now ≤ 16 }
        requires key_size { key_size ≤ 64 }
        requires output_size { output_size ≤ 64 }
        requires tree { AdmitsTree blake2b (tree_of tree.now) }
        ensures { result ≡ core_made blake2b
            (node_parameters output_size key_size salt.now persona.now (tree_of tree.now)) }
    {
        Self::from_parameters(&Parameters {
            output_size,
            key_size,
            salt,
            persona,
            tree: *tree,
        })
    }

    /// Returns the same core for parameters that are one record. `fits` of
    /// `blake2_compress::params::blake2b` must be true of them.
    pub fn from_parameters(parameters: &Parameters<'_>) -> Self
        requires { Fits blake2b (given_parameters parameters.now) }
        ensures { result ≡ core_made blake2b (given_parameters parameters.now) }
    {
        let start = params::start_rows(parameters);
        Blake2bVarCore {
            h: start,
            start,
            counter: 0,
            last_node: false,
        }
    }

    /// Returns a core that holds the chaining words `h`, was started from the words `start`, and
    /// has counted `counter` bytes. Its last-node flag is off.
    #[inline]
    pub fn from_words(h: &[u64; 8], start: &[u64; 8], counter: u64) -> Self
        ensures { result
            ≡ record { h = h.now; start = start.now; count = counter; last_node = false } }
    {
        Blake2bVarCore {
            h: words::to_rows(h),
            start: words::to_rows(start),
            counter,
            last_node: false,
        }
    }

    /// Returns the eight chaining words.
    #[inline]
    pub fn chain_words(&self) -> [u64; 8]
        ensures { result ≡ self.now.h }
    {
        words::to_words(&self.h)
    }

    /// Returns the eight words that the run started from.
    #[inline]
    pub fn first_words(&self) -> [u64; 8]
        ensures { result ≡ self.now.start }
    {
        words::to_words(&self.start)
    }

    // Makes a compiler keep the zeros of `wipe`, as `blake2_digest::settle` does.
    #[inline(never)]
    pub(crate) fn settle(&self) {
        let [h, start] = [&self.h, &self.start];
        let is_zero = h[0].is_zero() & h[1].is_zero() & start[0].is_zero() & start[1].is_zero();
        if !(is_zero & (self.counter == 0)) {
            hint::spin_loop();
        }
    }
}

impl BlockSizeUser for Blake2bVarCore {
    const BLOCK_SIZE: usize = 128;
}

impl OutputSizeUser for Blake2bVarCore {
    const OUTPUT_SIZE: usize = 64;
}

impl BufferKindUser for Blake2bVarCore {
    type BufferKind = Lazy;
}

impl HashMarker for Blake2bVarCore {}

impl UpdateCore<128> for Blake2bVarCore {
    ghost absorb = { absorbed blake2b };

    ghost count = { λ core. core.count };

    #[inline]
    fn update_blocks(&mut self, blocks: &[[u8; 128]]) {
        'each: for block in blocks {
            self.counter += 128;
            let counter = self.counter;
            words::compress(&mut self.h, block, counter, Flags::INNER);
        }
    }

    fn counted(&self) -> u64 {
        self.counter
    }

    ghost absorb_join = { absorbed-append blake2b };

    ghost absorb_nothing = { absorbed-nil blake2b };

    ghost count_grows = { count-absorbed blake2b };
}

impl VariableOutputCore<128, 64> for Blake2bVarCore {
    const TRUNC_SIDE: TruncSide = TruncSide::Left;

    ghost made = { λ n core. core ≡ core_made blake2b (parameters_of n 0 [] []) };

    ghost last_output = { λ core p. last_output blake2b core p };

    ghost after_last = { λ old p new. new ≡ completed blake2b old p };

    fn new(output_size: usize) -> Result<Self, InvalidOutputSize>
        ensures refused { IsErr result ↔ (64 < output_size) }
        ensures made { IfOk result (λ core.
            core ≡ core_made blake2b (parameters_of output_size 0 [] [])) }
    {
        if output_size > 64 {
            return Err(InvalidOutputSize);
        }
        Ok(Self::new_with_params(&[], &[], 0, output_size))
    }

    #[inline(always)]
    fn finalize_variable_core(&mut self, buffer: &mut LazyBuffer<128>, out: &mut [u8; 64]) {
        self.counter += buffer.get_pos() as u64;
        let counter = self.counter;
        let block = buffer.pad_with_zeros();
        let flags = Flags::last_block(self.last_node);
        words::compress(&mut self.h, &block, counter, flags);
        *out = words::to_bytes(&self.h);
    }
}

impl VariableOutputCoreCustomized for Blake2bVarCore {
    ghost can_customize = { λ persona n. (length persona ≤ 16) × (n ≤ 64) };

    ghost customized = { λ persona n core.
        core ≡ core_made blake2b (parameters_of n 0 [] persona) };

    fn new_customized(customization: &[u8], output_size: usize) -> Self
        requires customization { length customization.now ≤ 16 }
        requires output_size { output_size ≤ 64 }
        ensures { result ≡ core_made blake2b (parameters_of output_size 0 [] customization.now) }
    {
        Self::new_with_params(&[], customization, 0, output_size)
    }
}

impl LastNode for Blake2bVarCore {
    ghost is_node_set = { λ old on new. new ≡ core_node_set old on };

    fn set_last_node(&mut self, on: bool)
        ensures { self.new ≡ core_node_set self.old on }
    {
        self.last_node = on;
    }
}

impl Reset for Blake2bVarCore {
    ghost is_reset = { λ old new. new ≡ core_restarted old };

    fn reset(&mut self) {
        self.h = self.start;
        self.counter = 0;
    }
}

impl Duplicate for Blake2bVarCore {
    fn duplicate(&self) -> Self {
        Blake2bVarCore {
            h: self.h,
            start: self.start,
            counter: self.counter,
            last_node: self.last_node,
        }
    }
}

impl Clone for Blake2bVarCore {
    ghost is_clone = { λ x y. y ≡ x };

    ghost is_infallible = { λ _. ⊤ };

    fn clone(&self) -> Result<Self, AllocError> {
        Ok(self.duplicate())
    }
}

impl Wipe for Blake2bVarCore {
    ghost is_wiped = { λ core. core ≡ core_wiped };

    fn wipe(&mut self) {
        let zeros = u64x4::new(0, 0, 0, 0);
        let wiped = [zeros, zeros];
        self.h = wiped;
        self.start = wiped;
        self.counter = 0;
        self.last_node = false;
    }
}

impl Drop for Blake2bVarCore {
    fn drop(mut self) {
        self.wipe();
        let Blake2bVarCore {
            h: _,
            start: _,
            counter: _,
            last_node: _,
        } = self;
    }
}

impl ZeroizeOnDrop for Blake2bVarCore {}

impl AlgorithmName for Blake2bVarCore {
    fn write_alg_name<W: fmt::Write>(f: &mut fmt::Formatter<W>) -> fmt::Result {
        f.write_str("Blake2b")
    }
}

// Writes the name of a core, for `Debug`. It has no core as an argument, so that it can write
// nothing of what one holds.
fn write_name<W: fmt::Write>(f: &mut fmt::Formatter<W>) -> fmt::Result {
    f.write_str("Blake2bVarCore { ... }")
}

impl fmt::Debug for Blake2bVarCore {
    fn fmt<W: fmt::Write>(&self, f: &mut fmt::Formatter<W>) -> fmt::Result {
        write_name(f)
    }
}

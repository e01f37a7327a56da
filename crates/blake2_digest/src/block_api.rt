//! Block cores, which absorb whole blocks and leave it to a buffer to cut the input.

ghost use Rattle.std.specs.Prelude.{◌≡◌, ℕ, ◌+◌, ◌*◌, ◌^◌, ◌<◌, ◌≤◌, ◌↔◌, List, [], ◌++◌, length};
ghost use Rattle.std.specs.Prelude.{IfOk, IsErr};

use crate::buffer::LazyBuffer;
use crate::faults::InvalidOutputSize;
use std::fmt;

/// Types that work on blocks.
pub trait BlockSizeUser {
    /// The number of bytes of a block.
    const BLOCK_SIZE: usize;
}

/// Types with an output.
pub trait OutputSizeUser {
    /// The number of bytes of the output. For a core with outputs of several sizes, it is the
    /// maximum.
    const OUTPUT_SIZE: usize;
}

/// Types whose input goes through a block buffer.
pub trait BufferKindUser {
    /// When the buffer passes a full block to the core.
    type BufferKind;
}

/// The kind of a buffer that holds the last block back, full or not, until more input comes.
#[derive(Clone, Copy, Debug, PartialEq, Eq)]
pub struct Lazy;

/// Which end of the longest output a shorter one is cut from.
#[derive(Clone, Copy, Debug, PartialEq, Eq)]
pub enum TruncSide {
    /// The first bytes are kept.
    Left,
    /// The last bytes are kept.
    Right,
}

/// Cores that absorb whole blocks of `B` bytes.
pub trait UpdateCore<const B: usize> {
    // The core after it has absorbed these blocks, in their order.
    ghost absorb: { Self → List (List ℕ) → Self };

    // Returns the number of bytes that the core has counted since its last start.
    ghost count: { Self → ℕ };

    /// Absorbs the blocks, none of which is the last of the input. Fewer than 2^64 bytes may be
    /// counted in all.
    fn update_blocks(&mut self, blocks: &[[u8; B]])
        requires { count self.old + B * length blocks.now < 2 ^ 64 }
        ensures { self.new ≡ absorb self.old blocks.now };

    /// Returns the number of bytes that the core has counted since its last start.
    fn counted(&self) -> u64
        ensures { result ≡ count self.now };

    // Two lists in turn are their join.
    ghost absorb_join: { (core : Self) (xs ys : List (List ℕ))
        → absorb core (xs ++ ys) ≡ absorb (absorb core xs) ys };

    // No blocks change nothing.
    ghost absorb_nothing: { (core : Self) → absorb core [] ≡ core };

    // The count grows by the bytes of each block.
    ghost count_grows: { (core : Self) (xs : List (List ℕ))
        → count (absorb core xs) ≡ count core + B * length xs };
}

/// Cores with outputs of every size up to `M` bytes.
pub trait VariableOutputCore<const B: usize, const M: usize>: UpdateCore<B> {
    /// Which end of the `M` bytes a shorter output is cut from.
    const TRUNC_SIDE: TruncSide;

    // The core is as it is made for outputs of this size.
    ghost made: { ℕ → Self → Type 0 };

    // The M bytes of output if these bytes are the last block.
    ghost last_output: { Self → List ℕ → List ℕ };

    // The second core is what the first becomes by that.
    ghost after_last: { Self → List ℕ → Self → Type 0 };

    /// Returns a core for outputs of `output_size` bytes. The error is `InvalidOutputSize`,
    /// exactly for a size above `M`.
    fn new(output_size: usize) -> Result<Self, InvalidOutputSize>
        ensures refused { IsErr result ↔ (M < output_size) }
        ensures made { IfOk result (λ core. made output_size core) };

    /// Absorbs the pending bytes of the buffer as the last block, writes the whole output of `M`
    /// bytes into `out`, and empties the buffer. Fewer than 2^64 bytes may be counted in all,
    /// including the pending ones.
    fn finalize_variable_core(&mut self, buffer: &mut LazyBuffer<B>, out: &mut [u8; M])
        requires { Self.count self.old + length buffer.old < 2 ^ 64 }
        ensures output { out.new ≡ last_output self.old buffer.old }
        ensures core { after_last self.old buffer.old self.new }
        ensures empty { buffer.new ≡ [] };
}

/// Cores that are made with a customization.
pub trait VariableOutputCoreCustomized {
    // The customization and the output size are within the core's limits.
    ghost can_customize: { List ℕ → ℕ → Type 0 };

    // The core is as it is made with these.
    ghost customized: { List ℕ → ℕ → Self → Type 0 };

    /// Returns a core with this customization, for outputs of `output_size` bytes, which must be
    /// within the core's limit. For BLAKE2 the customization is the persona, of at most 16 bytes
    /// in BLAKE2b and 8 in BLAKE2s.
    fn new_customized(customization: &[u8], output_size: usize) -> Self
        requires { can_customize customization.now output_size }
        ensures { customized customization.now output_size result };
}

/// Types that know the name of their algorithm.
pub trait AlgorithmName {
    /// Writes the name. It fails only if the writer fails.
    fn write_alg_name<W: fmt::Write>(f: &mut fmt::Formatter<W>) -> fmt::Result;
}

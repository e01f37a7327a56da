// Made by tools/twins.py from src/params/blake2b.rt.
//! BLAKE2s: a parameter block of 32 bytes, eight words of 32 bits.

ghost use Rattle.std.specs.Prelude.{◌≡◌, ◌↔◌, IsTrue, length};
ghost use Rattle.blake2_simd.specs.Family.{blake2s, iv};
ghost use Rattle.blake2_simd.specs.Rows.{chaining_words};
ghost use Rattle.blake2_compress.specs.Hash;
ghost use Rattle.blake2_compress.specs.Hash.{AdmitsTree, Fits, start, words_of, xor_words};
ghost use Rattle.blake2_compress.specs.ParameterBlock;
ghost use Rattle.blake2_compress.specs.Views.{given_parameters, tree_of};

use super::{Parameters, Tree, parameter_block, tree_in};
use crate::compress::blake2s::{to_rows, to_words, xor_rows};
use crate::consts::BLAKE2S_IV;
use blake2_simd::rows::u32x4;

// The largest node offset that has room in its 6 bytes.
const LAST_OFFSET: u64 = (1 << 48) - 1;

/// Returns whether BLAKE2s accepts these tree parameters: at least one level, a node offset below
/// 2^48, and an inner node's digest of at most 32 bytes (the BLAKE2 document, 2.8 and 2.10).
pub fn admits_tree(tree: &Tree) -> bool
    ensures { IsTrue result ↔ AdmitsTree blake2s (tree_of tree.now) }
{
    // A copy, whose type bounds the numbers that are not looked at.
    let place = *tree;
    place.depth >= 1 && place.inner_length <= 32 && place.node_offset <= LAST_OFFSET
}

/// Returns whether BLAKE2s accepts these parameters: a digest and a key of at most 32 bytes, a
/// salt and a persona of at most 8, and tree parameters that `admits_tree` accepts (RFC 7693,
/// 2.1; the BLAKE2 document, 2.8).
pub fn fits(parameters: &Parameters<'_>) -> bool
    ensures { IsTrue result ↔ Fits blake2s (given_parameters parameters.now) }
{
    parameters.output_size <= 32
        && parameters.key_size <= 32
        && parameters.salt.len() <= 8
        && parameters.persona.len() <= 8
        && admits_tree(&parameters.tree)
}

/// Returns what a parameter block names, whatever is in its reserved bytes (RFC 7693, 2.5; the
/// BLAKE2 document, 2.8).
pub fn parameters_in(block: &[u8; 32]) -> Parameters<'_>
    ensures { given_parameters result ≡ ParameterBlock.parameters_in_block blake2s block.now }
{
    let (salt, persona) = block[16..].split_at(8);
    Parameters {
        output_size: block[0] as usize,
        key_size: block[1] as usize,
        salt,
        persona,
        tree: tree_in::<6>(&block[..]),
    }
}

// The parameter block (the BLAKE2 document, 2.8).
#[inline(always)]
fn block_of(parameters: &Parameters<'_>) -> [u8; 32]
    requires { Fits blake2s (given_parameters parameters.now) }
    ensures { result ≡ Hash.parameter_block blake2s (given_parameters parameters.now) }
{
    parameter_block::<32, 6, 0, 8>(parameters)
}

/// Returns the eight words of 32 bytes, such as a parameter block (RFC 7693, 2.5), as two rows.
#[inline(always)]
pub fn block_rows(block: &[u8]) -> [u32x4; 2]
    requires { length block.now ≡ 32 }
    ensures { chaining_words result ≡ words_of blake2s 8 block.now }
{
    [
        u32x4::from_le_bytes(&block[..16]),
        u32x4::from_le_bytes(&block[16..32]),
    ]
}

/// Returns the chaining words before the first block (RFC 7693, 3.3), as two rows, for a
/// parameter block of exactly 32 bytes, whatever is in it: IV xored with its words.
#[inline(always)]
pub fn start_of(block: &[u8]) -> [u32x4; 2]
    requires { length block.now ≡ 32 }
    ensures { chaining_words result ≡ xor_words (iv blake2s) (words_of blake2s 8 block.now) }
{
    xor_rows(to_rows(&BLAKE2S_IV), block_rows(block))
}

/// Returns the eight parameter words (RFC 7693, 2.5), those of the parameter block. `fits` must
/// be true of the parameters.
#[tactic(auto, unfolding(crate::specs::Hash::parameter_words))]
pub fn parameter_words(parameters: &Parameters<'_>) -> [u32; 8]
    requires { Fits blake2s (given_parameters parameters.now) }
    ensures { result ≡ Hash.parameter_words blake2s (given_parameters parameters.now) }
{
    to_words(&block_rows(&block_of(parameters)))
}

/// Returns the chaining words before the first block (RFC 7693, 3.3), as two rows: IV xored with
/// the parameter words. `fits` must be true of the parameters.
#[tactic(auto, unfolding(crate::specs::Hash::start, crate::specs::Hash::parameter_words))]
pub fn start_rows(parameters: &Parameters<'_>) -> [u32x4; 2]
    requires { Fits blake2s (given_parameters parameters.now) }
    ensures { chaining_words result ≡ start blake2s (given_parameters parameters.now) }
{
    start_of(&block_of(parameters))
}

/// Returns the same chaining words as an array. `fits` must be true of the parameters.
pub fn start_words(parameters: &Parameters<'_>) -> [u32; 8]
    requires { Fits blake2s (given_parameters parameters.now) }
    ensures { result ≡ start blake2s (given_parameters parameters.now) }
{
    to_words(&start_rows(parameters))
}

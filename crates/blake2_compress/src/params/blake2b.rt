//! BLAKE2b: a parameter block of 64 bytes, eight words of 64 bits.

ghost use Rattle.std.specs.Prelude.{◌≡◌, ◌↔◌, IsTrue, length};
ghost use Rattle.blake2_simd.specs.Family.{blake2b, iv};
ghost use Rattle.blake2_simd.specs.Rows.{chaining_words};
ghost use Rattle.blake2_compress.specs.Hash;
ghost use Rattle.blake2_compress.specs.Hash.{AdmitsTree, Fits, start, words_of, xor_words};
ghost use Rattle.blake2_compress.specs.ParameterBlock;
ghost use Rattle.blake2_compress.specs.Views.{given_parameters, tree_of};

use super::{Parameters, Tree, parameter_block, tree_in};
use crate::compress::blake2b::{to_rows, to_words, xor_rows};
use crate::consts::BLAKE2B_IV;
use blake2_simd::rows::u64x4;

/// Returns whether BLAKE2b accepts these tree parameters: at least one level, a node offset below
/// 2^64, and an inner node's digest of at most 64 bytes (the BLAKE2 document, 2.8 and 2.10).
pub fn admits_tree(tree: &Tree) -> bool
    ensures { IsTrue result ↔ AdmitsTree blake2b (tree_of tree.now) }
{
    // A copy, whose type bounds the numbers that are not looked at.
    let place = *tree;
    place.depth >= 1 && place.inner_length <= 64
}

/// Returns whether BLAKE2b accepts these parameters: a digest and a key of at most 64 bytes, a
/// salt and a persona of at most 16, and tree parameters that `admits_tree` accepts (RFC 7693,
/// 2.1; the BLAKE2 document, 2.8).
pub fn fits(parameters: &Parameters<'_>) -> bool
    ensures { IsTrue result ↔ Fits blake2b (given_parameters parameters.now) }
{
    parameters.output_size <= 64
        && parameters.key_size <= 64
        && parameters.salt.len() <= 16
        && parameters.persona.len() <= 16
        && admits_tree(&parameters.tree)
}

/// Returns what a parameter block names, whatever is in its reserved bytes (RFC 7693, 2.5; the
/// BLAKE2 document, 2.8).
pub fn parameters_in(block: &[u8; 64]) -> Parameters<'_>
    ensures { given_parameters result ≡ ParameterBlock.parameters_in_block blake2b block.now }
{
    let (salt, persona) = block[32..].split_at(16);
    Parameters {
        output_size: block[0] as usize,
        key_size: block[1] as usize,
        salt,
        persona,
        tree: tree_in::<8>(&block[..]),
    }
}

// The parameter block (the BLAKE2 document, 2.8).
#[inline(always)]
fn block_of(parameters: &Parameters<'_>) -> [u8; 64]
    requires { Fits blake2b (given_parameters parameters.now) }
    ensures { result ≡ Hash.parameter_block blake2b (given_parameters parameters.now) }
{
    parameter_block::<64, 8, 14, 16>(parameters)
}

/// Returns the eight words of 64 bytes, such as a parameter block (RFC 7693, 2.5), as two rows.
#[inline(always)]
pub fn block_rows(block: &[u8]) -> [u64x4; 2]
    requires { length block.now ≡ 64 }
    ensures { chaining_words result ≡ words_of blake2b 8 block.now }
{
    [
        u64x4::from_le_bytes(&block[..32]),
        u64x4::from_le_bytes(&block[32..64]),
    ]
}

/// Returns the chaining words before the first block (RFC 7693, 3.3), as two rows, for a
/// parameter block of exactly 64 bytes, whatever is in it: IV xored with its words.
#[inline(always)]
pub fn start_of(block: &[u8]) -> [u64x4; 2]
    requires { length block.now ≡ 64 }
    ensures { chaining_words result ≡ xor_words (iv blake2b) (words_of blake2b 8 block.now) }
{
    xor_rows(to_rows(&BLAKE2B_IV), block_rows(block))
}

/// Returns the eight parameter words (RFC 7693, 2.5), those of the parameter block. `fits` must
/// be true of the parameters.
#[tactic(auto, unfolding(crate::specs::Hash::parameter_words))]
pub fn parameter_words(parameters: &Parameters<'_>) -> [u64; 8]
    requires { Fits blake2b (given_parameters parameters.now) }
    ensures { result ≡ Hash.parameter_words blake2b (given_parameters parameters.now) }
{
    to_words(&block_rows(&block_of(parameters)))
}

/// Returns the chaining words before the first block (RFC 7693, 3.3), as two rows: IV xored with
/// the parameter words. `fits` must be true of the parameters.
#[tactic(auto, unfolding(crate::specs::Hash::start, crate::specs::Hash::parameter_words))]
pub fn start_rows(parameters: &Parameters<'_>) -> [u64x4; 2]
    requires { Fits blake2b (given_parameters parameters.now) }
    ensures { chaining_words result ≡ start blake2b (given_parameters parameters.now) }
{
    start_of(&block_of(parameters))
}

/// Returns the same chaining words as an array. `fits` must be true of the parameters.
pub fn start_words(parameters: &Parameters<'_>) -> [u64; 8]
    requires { Fits blake2b (given_parameters parameters.now) }
    ensures { result ≡ start blake2b (given_parameters parameters.now) }
{
    to_words(&start_rows(parameters))
}

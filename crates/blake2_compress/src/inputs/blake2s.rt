// Made by tools/twins.py from src/inputs/blake2b.rt.
//! Which inputs BLAKE2s accepts.

ghost use Rattle.std.specs.Prelude.{◌↔◌, IsTrue};
ghost use Rattle.blake2_simd.specs.Family.{blake2s};
ghost use Rattle.blake2_compress.specs.Inputs.{Accepts};
ghost use Rattle.blake2_compress.specs.Views.{input_of};

use super::{Input, limits};
use crate::params::blake2s as params;

/// Returns whether BLAKE2s accepts the input: salt and persona have at most 8 bytes each, the
/// key is absent or has 1 to 32 bytes, `admits_tree` is true of the tree parameters, and the
/// bytes of the message, with 64 for a key, are fewer than 2^64 (RFC 7693, 2.1; the BLAKE2
/// document, 2.8).
pub fn accepts(input: &Input<'_>) -> bool
    ensures { IsTrue result ↔ Accepts blake2s (input_of input.now) }
{
    limits::accepts::<64, 32, 8>(input, params::admits_tree(&input.tree))
}

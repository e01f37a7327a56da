//! Which inputs BLAKE2b accepts.

ghost use Rattle.std.specs.Prelude.{◌↔◌, IsTrue};
ghost use Rattle.blake2_simd.specs.Family.{blake2b};
ghost use Rattle.blake2_compress.specs.Inputs.{Accepts};
ghost use Rattle.blake2_compress.specs.Views.{input_of};

use super::{Input, limits};
use crate::params::blake2b as params;

/// Returns whether BLAKE2b accepts the input: salt and persona have at most 16 bytes each, the
/// key is absent or has 1 to 64 bytes, `admits_tree` is true of the tree parameters, and the
/// bytes of the message, with 128 for a key, are fewer than 2^64 (RFC 7693, 2.1; the BLAKE2
/// document, 2.8).
pub fn accepts(input: &Input<'_>) -> bool
    ensures { IsTrue result ↔ Accepts blake2b (input_of input.now) }
{
    limits::accepts::<128, 64, 16>(input, params::admits_tree(&input.tree))
}

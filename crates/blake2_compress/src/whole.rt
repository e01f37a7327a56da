//! A whole message in one call. It needs no state, and without a key nothing is to wipe: only the
//! last block is copied.

pub mod blake2b;
pub mod blake2s;

ghost use Rattle.std.specs.Prelude.{◌≡◌, []};
ghost use Rattle.blake2_compress.specs.Hash;
ghost use Rattle.blake2_compress.specs.Views.{given_parameters, key_of};

use crate::inputs::blocks::key_size;
use crate::params::{Parameters, Tree};

// What the parameter block of a message names, if nothing but a key is given.
#[inline(always)]
fn parameters<'a>(output_size: usize, key: &Option<&[u8]>) -> Parameters<'a>
    ensures { given_parameters result
        ≡ Hash.parameters_of output_size (Hash.key_size (key_of key.now)) [] [] }
{
    Parameters {
        output_size,
        key_size: key_size(key),
        salt: &[],
        persona: &[],
        tree: Tree::sequential(),
    }
}

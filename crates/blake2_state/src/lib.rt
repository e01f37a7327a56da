//! BLAKE2b and BLAKE2s (RFC 7693) with states of plain numbers: any caller can keep one anywhere,
//! copy it and pass it on as bytes, and its sizes are chosen at run time. `blake2_ffi` makes them
//! available to C.

#![tactic(auto)]

ghost use Rattle.std.specs.Prelude.{◌≡◌, []};
ghost use Rattle.blake2_compress.specs.Views.{given_parameters, tree_of};
ghost use Rattle.blake2_state.specs.ConstructorArguments.{parameters_given};

pub mod blake2b;
pub mod blake2s;
pub mod laws;
pub mod many;
pub mod runs;
mod saved;
pub mod tree;

use blake2_compress::params::{Parameters, Tree};

/// What a state is made from (RFC 7693, 2.1; the BLAKE2 document, 2.8).
#[derive(Clone, Copy)]
pub struct StateParameters<'a> {
    /// The number of bytes of the digest: 1 to 64 in BLAKE2b, 1 to 32 in BLAKE2s.
    pub output_size: usize,
    /// The key: up to 64 bytes in BLAKE2b and 32 in BLAKE2s. No bytes mean no key.
    pub key: &'a [u8],
    /// The salt: at most 16 bytes in BLAKE2b and 8 in BLAKE2s. Trailing zeros change nothing.
    pub salt: &'a [u8],
    /// The persona: at most 16 bytes in BLAKE2b and 8 in BLAKE2s. Trailing zeros change nothing.
    pub persona: &'a [u8],
}

impl<'a> StateParameters<'a> {
    /// Returns the parameters of a digest of `output_size` bytes under this key, or under none if
    /// it has no bytes, without salt and persona. The constructors of states check the lengths.
    pub fn keyed(output_size: usize, key: &'a [u8]) -> Self
        ensures size { result.output_size ≡ output_size }
        ensures key { result.key.now ≡ key.now }
        ensures salt { result.salt.now ≡ [] }
        ensures persona { result.persona.now ≡ [] }
    {
        StateParameters {
            output_size,
            key,
            salt: &[],
            persona: &[],
        }
    }

    /// Returns what the parameter block of such a state names, with these tree parameters (RFC
    /// 7693, 2.5; the BLAKE2 document, 2.8).
    #[inline]
    pub fn parameters(&self, tree: &Tree) -> Parameters<'a>
        ensures { given_parameters result ≡ parameters_given self.now (tree_of tree.now) }
    {
        Parameters {
            output_size: self.output_size,
            key_size: self.key.len(),
            salt: self.salt,
            persona: self.persona,
            tree: *tree,
        }
    }
}

//! Laws of BLAKE2b.

ghost use Rattle.std.specs.Prelude.{◌≡◌, IsSomeAnd};
ghost use Rattle.blake2_state.specs.Blake2b.{CanBeSaved, meaning};
ghost use Rattle.blake2_state.specs.SavedStates.{MeansTheSame};

use crate::blake2b::State;
use blake2_compress::compress::blake2b::{to_rows, to_words};
use blake2_digest::tell_bytes;

/// Returns the state that the bytes of this saved state are loaded as. It returns the same digests,
/// of the same size, whatever it absorbs. The state must be ready and have no key.
pub fn loaded_again(state: &State) -> Option<State>
    requires { CanBeSaved state.now }
    ensures { IsSomeAnd result (λ s. MeansTheSame meaning state.now s
        × (s.output_size ≡ state.now.output_size)) }
{
    // Their types say that they are words and bytes.
    let _chain = to_words(&to_rows(&state.chain));
    let _first = to_words(&to_rows(&state.first));
    tell_bytes(&state.pending);
    let saved = state.save()?;
    State::load(&saved)
}

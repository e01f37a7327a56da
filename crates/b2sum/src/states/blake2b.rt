//! BLAKE2b.

use super::{Absorb, HashState, LaneState};
use blake2_state::StateParameters;
use blake2_state::blake2b::State;
use blake2_state::many::Text;
use blake2_state::many::blake2b::update_many;

impl Absorb for State {
    ghost use Rattle.std.specs.Prelude.{◌^◌};
    ghost use Rattle.blake2_digest.specs.States.{digest_after};
    ghost use Rattle.blake2_state.specs.Blake2b.{IsReady, meaning};

    ghost IsReady = { IsReady };

    ghost size = { λ s. s.output_size };

    ghost future = { digest_after meaning };

    ghost count = { meaning.count };

    ghost limit = { 2 ^ 64 };

    fn room(&self) -> u64 {
        u64::MAX - self.counted()
    }

    fn absorb(&mut self, input: &[u8]) {
        self.update(input);
    }
}

impl HashState for State {
    ghost use Rattle.std.specs.Prelude.{false};
    ghost use Rattle.blake2_simd.specs.Family.{blake2b};
    ghost use Rattle.blake2_compress.specs.Hash.{sequential};
    ghost use Rattle.blake2_state.specs.ConstructorArguments.{AdmitsState, digest_given};
    ghost use Rattle.blake2_state.specs.ConstructorArguments.{counted_key_bytes};
    ghost use Rattle.blake2_state.specs.ConstructorArguments.{parameters_given};

    ghost accepts = { λ given. AdmitsState blake2b (parameters_given given sequential) };

    ghost digest = { λ given. digest_given blake2b given sequential false };

    ghost key_count = { λ given. counted_key_bytes blake2b given.key.now };

    fn zeros() -> Self {
        State::zeros()
    }

    fn init_given(&mut self, given: &StateParameters<'_>) -> bool {
        let Ok(started) = State::init_salt_personal(given) else {
            return false;
        };
        *self = started;
        true
    }

    fn write_digest(&self, out: &mut [u8]) {
        self.write_digest(out);
    }
}

impl LaneState for State {
    fn update_several(states: &mut [Self], inputs: &[Text<'_>]) {
        update_many(states, inputs);
    }
}

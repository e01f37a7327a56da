//! BLAKE2bp.

use super::{Absorb, HashState};
use blake2_parallel::blake2bp::State;
use blake2_state::StateParameters;

impl Absorb for State {
    ghost use Rattle.std.specs.Prelude.{◌^◌};
    ghost use Rattle.blake2_digest.specs.States.{digest_after};
    ghost use Rattle.blake2_parallel.specs.Blake2bp.{IsReady, meaning};

    ghost IsReady = { IsReady };

    ghost size = { λ s. s.output_size };

    ghost future = { digest_after meaning };

    ghost count = { meaning.count };

    ghost limit = { 2 ^ 64 };

    fn room(&self) -> u64 {
        u64::MAX - self.counted()
    }

    fn absorb(&mut self, input: &[u8]) {
        self.update(input);
    }
}

impl HashState for State {
    ghost use Rattle.blake2_simd.specs.Family.{blake2b};
    ghost use Rattle.blake2_parallel.specs.Parallel.{AdmitsParallel, parallel_key_count};
    ghost use Rattle.blake2_parallel.specs.Parallel.{parallel_digest};
    ghost use Rattle.b2sum.specs.FileDigests.{settings_of_parameters};

    ghost accepts = { λ given. AdmitsParallel blake2b (settings_of_parameters given) };

    ghost digest = { λ given. parallel_digest blake2b (settings_of_parameters given) };

    ghost key_count = { λ given. parallel_key_count blake2b given.key.now };

    fn zeros() -> Self {
        State::zeros()
    }

    fn init_given(&mut self, given: &StateParameters<'_>) -> bool {
        let StateParameters {
            output_size,
            key,
            salt,
            persona,
        } = *given;
        let Ok(started) = State::init_salt_personal(output_size, key, salt, persona) else {
            return false;
        };
        *self = started;
        true
    }

    fn write_digest(&self, out: &mut [u8]) {
        self.write_digest(out);
    }
}

//! Trees over BLAKE2b.

use super::Absorb;
use blake2_state::tree::TreeState;
use blake2_tree::MESSAGE_LIMIT;

impl Absorb for TreeState {
    ghost use Rattle.std.specs.Prelude.{◌^◌};
    ghost use Rattle.blake2_state.specs.TreeStates.{IsReady, count, future};

    ghost IsReady = { IsReady };

    ghost size = { λ t. t.root.output_size };

    ghost future = { future };

    ghost count = { count };

    ghost limit = { 2 ^ 58 };

    fn room(&self) -> u64 {
        MESSAGE_LIMIT - 1 - self.counted()
    }

    fn absorb(&mut self, input: &[u8]) {
        self.update(input);
    }
}

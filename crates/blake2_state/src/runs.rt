//! States that are ready, as hashers whose family and size are chosen at run time.

ghost use Rattle.std.specs.Prelude.{◌≡◌, ◌↔◌, ◌<◌, IfOk, IsErr};
ghost use Rattle.std.proofs.Common.{arith};
ghost use Rattle.blake2_simd.specs.Family.{blake2b, blake2s};
ghost use Rattle.blake2_compress.specs.Hash.{sequential};
ghost use Rattle.blake2_digest.specs.States.{Fresh, Updated, ResetToStart, digest_now};
ghost use Rattle.blake2_state.specs.ConstructorArguments.{AdmitsState, counted_key_bytes};
ghost use Rattle.blake2_state.specs.ConstructorArguments.{digest_given};
ghost use Rattle.blake2_state.specs.ConstructorArguments.{parameters_given};
ghost use Rattle.blake2_state.specs.Runs.{meaning, padded_digest};

use crate::StateParameters;
use crate::blake2b::State as StateB;
use crate::blake2s::State as StateS;
use blake2_digest::{
    Duplicate, FixedOutput, FixedOutputReset, InvalidLength, Reset, Update, ZeroizeOnDrop, settle,
};
use std::marker::Model;

// A state of either family.
#[derive(Drop)]
enum Held {
    Blake2b(StateB),
    Blake2s(StateS),
}

impl Held {
    // Overwrites the state with zeros, which a compiler keeps.
    fn wipe(&mut self) {
        match self {
            Held::Blake2b(state) => {
                state.wipe();
                settle(&state.pending);
                settle(&state.key);
            }
            Held::Blake2s(state) => {
                state.wipe();
                settle(&state.pending);
                settle(&state.key);
            }
        }
    }
}

/// A state that is ready, as a hasher, or a MAC under a key. Its digest comes with zeros after it,
/// as 64 bytes. Dropping it wipes it.
pub struct Run {
    held: Held,
}

impl Drop for Run {
    fn drop(self) {
        let Run { mut held } = self;
        held.wipe();
    }
}

impl ZeroizeOnDrop for Run {}

impl Model for Run {
    ghost use Rattle.blake2_state.specs.declared.runs.Held.{Held};
    ghost use Rattle.blake2_state.specs.Runs.{IsReady};

    ghost Value = { Held };

    ghost view = { λ run. run.held };

    ghost invariant = { λ run. IsReady run.held };
}

impl Run {
    /// Returns a run of BLAKE2b with these parameters, which has absorbed no message. The error is
    /// `InvalidLength`, exactly for the lengths that `init_salt_personal` of its states refuses.
    pub fn blake2b(given: &StateParameters<'_>) -> Result<Self, InvalidLength>
        ensures refused { IsErr result
            ↔ ¬ AdmitsState blake2b (parameters_given given.now sequential) }
        ensures fresh { IfOk result (λ run. Fresh meaning
            (padded_digest (digest_given blake2b given.now sequential))
            (counted_key_bytes blake2b given.now.key.now) run) }
    {
        match StateB::init_salt_personal(given) {
            Ok(state) => Ok(Run {
                held: Held::Blake2b(state),
            }),
            Err(error) => Err(error),
        }
    }

    /// Returns a run of BLAKE2s with these parameters, which has absorbed no message. The error is
    /// `InvalidLength`, exactly for the lengths that `init_salt_personal` of its states refuses.
    pub fn blake2s(given: &StateParameters<'_>) -> Result<Self, InvalidLength>
        ensures refused { IsErr result
            ↔ ¬ AdmitsState blake2s (parameters_given given.now sequential) }
        ensures fresh { IfOk result (λ run. Fresh meaning
            (padded_digest (digest_given blake2s given.now sequential))
            (counted_key_bytes blake2s given.now.key.now) run) }
    {
        match StateS::init_salt_personal(given) {
            Ok(state) => Ok(Run {
                held: Held::Blake2s(state),
            }),
            Err(error) => Err(error),
        }
    }

    // The digest with zeros after it.
    fn padded(&self) -> [u8; 64]
        ensures { result ≡ digest_now meaning self.now }
    {
        let mut whole = [0; 64];
        match &self.held {
            Held::Blake2b(state) => state.write_digest(&mut whole),
            Held::Blake2s(state) => state.write_digest(&mut whole),
        }
        whole
    }
}

impl Update for Run {
    ghost meaning = { meaning };

    fn update(&mut self, input: &[u8]) {
        match &mut self.held {
            Held::Blake2b(state) => state.update(input),
            Held::Blake2s(state) => state.update(input),
        }
    }

    fn counted(&self) -> u64 {
        match &self.held {
            Held::Blake2b(state) => state.counted(),
            Held::Blake2s(state) => state.counted(),
        }
    }
}

impl FixedOutput<64> for Run {
    fn finalize_into(self, out: &mut [u8; 64]) {
        *out = self.padded();
    }

    ghost output_fits = { λ _. Prim.omega arith };
}

impl Reset for Run {
    ghost is_reset = { ResetToStart meaning };

    fn reset(&mut self) {
        match &mut self.held {
            Held::Blake2b(state) => state.reset(),
            Held::Blake2s(state) => state.reset(),
        }
    }
}

impl FixedOutputReset<64> for Run {
    fn finalize_into_reset(&mut self, out: &mut [u8; 64]) {
        *out = self.padded();
        Reset::reset(self);
    }

    ghost reset_starts_again = { λ old new is. is };
}

impl Duplicate for Run {
    fn duplicate(&self) -> Self {
        match &self.held {
            Held::Blake2b(state) => Run {
                held: Held::Blake2b(StateB { ..*state }),
            },
            Held::Blake2s(state) => Run {
                held: Held::Blake2s(StateS { ..*state }),
            },
        }
    }
}

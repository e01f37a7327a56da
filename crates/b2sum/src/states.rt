//! The states that absorb a file.

mod blake2b;
mod blake2bp;
mod blake2s;
mod blake2sp;
mod tree;

ghost use Rattle.std.specs.Prelude.{◌≡◌, ◌↔◌, ℕ, ◌+◌, ◌<◌, ◌≤◌, List, [], ◌++◌, length, take};
ghost use Rattle.std.specs.Prelude.{true, false};
ghost use Rattle.std.specs.Prelude.{slice_index_or};
ghost use Rattle.blake2_state.specs.declared.StateParameters.{StateParameters};
ghost use Rattle.blake2_state.specs.SeveralStates.{input_bytes_at};
ghost use Rattle.b2sum.specs.LaneStates.{StateAbsorbs};

use blake2_state::StateParameters;
use blake2_state::many::Text;

/// States that absorb bytes.
pub trait Absorb {
    // A state returns digests.
    ghost IsReady: { Self → Type 0 };

    // The number of bytes of a state's digest.
    ghost size: { Self → ℕ };

    // The digest of a state after it absorbs these bytes too.
    ghost future: { Self → List ℕ → List ℕ };

    // The number of bytes that a state has counted.
    ghost count: { Self → ℕ };

    // The least number of bytes that no state counts.
    ghost limit: { ℕ };

    /// Returns how many bytes more the state can absorb. The state must be ready.
    fn room(&self) -> u64
        requires { IsReady self.now }
        ensures { count self.now + result + 1 ≡ limit };

    /// Absorbs the input after all that was absorbed before. The state must be ready, and have
    /// room for it.
    fn absorb(&mut self, input: &[u8])
        requires ready { IsReady self.old }
        requires room { count self.old + length input.now < limit }
        ensures ready { IsReady self.new }
        ensures size { size self.new ≡ size self.old }
        ensures future { (y : List ℕ) → future self.new y ≡ future self.old (input.now ++ y) }
        ensures count { count self.new ≡ count self.old + length input.now };
}

/// States that are initialized with parameters and a key.
pub trait HashState: Absorb {
    // The lengths of the parameters are those of a hash.
    ghost accepts: { StateParameters → Type 0 };

    // The digest of a text with these parameters.
    ghost digest: { StateParameters → List ℕ → List ℕ };

    // The number of bytes that the key counts for.
    ghost key_count: { StateParameters → ℕ };

    /// Returns the zeroed state, which is not ready.
    fn zeros() -> Self
        ensures { ¬ Self.IsReady result };

    /// Initializes the state. Returns whether it accepts the parameters.
    fn init_given(&mut self, given: &StateParameters<'_>) -> bool
        ensures refused { result ≡ false ↔ ¬ accepts given.now }
        ensures ready { result ≡ true → Self.IsReady self.new }
        ensures size { result ≡ true → Self.size self.new ≡ given.now.output_size }
        ensures most { result ≡ true → given.now.output_size ≤ 64 }
        ensures digest { result ≡ true
            → (y : List ℕ) → Self.future self.new y ≡ digest given.now y }
        ensures count { result ≡ true → Self.count self.new ≡ key_count given.now };

    /// Writes the digest at the beginning of `out`, which must have room for it. The state must be
    /// ready.
    fn write_digest(&self, out: &mut [u8])
        requires ready { Self.IsReady self.now }
        requires room { Self.size self.now ≤ length out.old }
        ensures { take (Self.size self.now) out.new ≡ Self.future self.now [] };
}

/// States of which several go on in lanes.
pub trait LaneState: HashState {
    /// Absorbs input j into state j, for each of them. There are as many inputs as states, each
    /// state must be ready, and have room for its input.
    fn update_several(states: &mut [Self], inputs: &[Text<'_>])
        requires number { length inputs.now ≡ length states.old }
        requires can { (j : ℕ) (s : Self) → j < length states.old
            → Self.IsReady (slice_index_or states.old j s)
            × (Self.count (slice_index_or states.old j s) + length (input_bytes_at inputs.now j)
            < Self.limit) }
        ensures number { length states.new ≡ length states.old }
        ensures absorbed { (j : ℕ) (s : Self) → j < length states.old
            → StateAbsorbs Self.IsReady Self.size Self.count Self.future
            (slice_index_or states.old j s) (input_bytes_at inputs.now j)
            (slice_index_or states.new j s) };
}

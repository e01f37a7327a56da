// Made by tools/twins.py from src/several/blake2b.rt.
//! Several states of BLAKE2s.

ghost use Rattle.std.specs.Prelude.{◌≡◌, ◌↔◌, ◌<◌, ℕ, length, pos, negsuc, IsTrue};
ghost use Rattle.blake2_state.specs.Blake2s.{Absorbed, CanAbsorb, CanAbsorbAt, zeros};
ghost use Rattle.blake2_state.specs.SeveralStates.{AreUpdated, input_bytes_at};
ghost use Rattle.blake2_ffi.specs.Status.{IsStatusOf};

use crate::blake2s::has_key_pending;
use blake2_digest::scrub_stack;
use blake2_state::blake2s::State;
use blake2_state::many::Text;
use blake2_state::many::blake2s::update_many;

// Bytes of the stack that `update_in_frame` reaches with all that it calls, rounded up, as built by
// LLVM for x86-64-v4, where eight states go on in lanes. Other builds reach less.
const UPDATE_BYTES: usize = 9216;

// Whether the state can absorb the input: it is ready, and its count stays below 2^64.
fn can_absorb(state: &State, input: &[u8]) -> bool
    ensures { IsTrue result ↔ CanAbsorb state.now input.now }
{
    state.is_ready() && input.len() as u64 <= u64::MAX - state.counted()
}

// Whether each state can absorb its input.
fn can_all_absorb(states: &[State], inputs: &[Text<'_>]) -> bool
    requires { length inputs.now ≡ length states.now }
    ensures { IsTrue result
        ↔ ((j : ℕ) → j < length states.now → CanAbsorbAt states.now inputs.now j) }
{
    for j in 0..states.len() {
        if !can_absorb(&states[j], inputs[j].bytes) {
            return false;
        }
    }
    true
}

// Whether the key's block is pending in one of the states.
fn has_one_key_pending(states: &[State]) -> bool {
    states.iter().any(|state| has_key_pending(state))
}

// Each state absorbs its input, in a separate frame, which the caller scrubs.
#[inline(never)]
fn update_in_frame(states: &mut [State], inputs: &[Text<'_>])
    requires same_number { length inputs.now ≡ length states.old }
    requires can { (j : ℕ) → j < length states.old
        → CanAbsorbAt states.old inputs.now j }
    ensures { AreUpdated Absorbed zeros states.old (input_bytes_at inputs.now) states.new
        0 (length states.old) }
{
    update_many(states, inputs);
}

/// Absorbs input j into state j, for each of them, as `vulfsjor_ffi_blake2s_update` would. Eight
/// states in a row, or four, go on in lanes as `best_lane_count` says, if each gets more than a
/// block. Returns 0, or -1 if there are more inputs or fewer than states, a state is not ready, or
/// the count of one would reach 2^64; all states then stay as they are.
#[unsafe(no_mangle)]
pub extern "C" fn vulfsjor_ffi_blake2s_update_many(states: &mut [State], inputs: &[Text<'_>]) -> i32
    ensures status { IsStatusOf result ((length inputs.now ≡ length states.old)
        × ((j : ℕ) → j < length states.old → CanAbsorbAt states.old inputs.now j)) }
    ensures taken { result ≡ pos 0 → AreUpdated Absorbed zeros states.old
        (input_bytes_at inputs.now)
        states.new 0 (length states.old) }
    ensures same { result ≡ negsuc 0 → states.new ≡ states.old }
{
    if inputs.len() != states.len() || !can_all_absorb(states, inputs) {
        return -1;
    }
    let has_key = has_one_key_pending(states);
    update_in_frame(states, inputs);
    if has_key {
        scrub_stack::<UPDATE_BYTES>();
    }
    0
}

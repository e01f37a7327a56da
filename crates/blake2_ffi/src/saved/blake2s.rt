// Made by tools/twins.py from src/saved/blake2b.rt.
//! Saved states of BLAKE2s.

ghost use Rattle.std.specs.Prelude.{◌≡◌, length, pos, negsuc};
ghost use Rattle.blake2_simd.specs.Family.{blake2s};
ghost use Rattle.blake2_state.specs.Blake2s.{CanBeSaved, HoldsOnlySavedData, saved_bytes, zeros};
ghost use Rattle.blake2_state.specs.SavedStates.{IsSavedState};
ghost use Rattle.blake2_ffi.specs.Status.{IsStatusOf};

use blake2_state::blake2s::State;

/// Writes the 147 bytes of the saved state to `out`, which `vulfsjor_ffi_blake2s_load` loads on any
/// machine. Returns 0, or -1 if the state is not ready or has a key, or if `out` has another
/// length; nothing is then written.
#[unsafe(no_mangle)]
pub extern "C" fn vulfsjor_ffi_blake2s_save(state: &State, out: &mut [u8]) -> i32
    ensures status { IsStatusOf result (CanBeSaved state.now × (length out.old ≡ 147)) }
    ensures bytes { result ≡ pos 0 → out.new ≡ saved_bytes state.now }
    ensures nothing { result ≡ negsuc 0 → out.new ≡ out.old }
{
    if out.len() != 147 {
        return -1;
    }
    let Some(saved) = state.save() else {
        return -1;
    };
    out.copy_from_slice(&saved);
    0
}

/// Initializes this state, whatever it was, to the one that was saved as these bytes. Returns 0, or
/// -1 if they are not those of a saved state of BLAKE2s; the state is then zeroed.
#[unsafe(no_mangle)]
pub extern "C" fn vulfsjor_ffi_blake2s_load(state: &mut State, saved: &[u8]) -> i32
    ensures status { IsStatusOf result (IsSavedState blake2s saved.now) }
    ensures savable { result ≡ pos 0 → CanBeSaved state.new }
    ensures bytes { result ≡ pos 0 → saved_bytes state.new ≡ saved.now }
    ensures no_more { result ≡ pos 0 → HoldsOnlySavedData state.new }
    ensures zeros { result ≡ negsuc 0 → state.new ≡ zeros }
{
    let Some(made) = State::load(saved) else {
        state.wipe();
        return -1;
    };
    *state = made;
    0
}

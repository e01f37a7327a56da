//! Lists of calls on several states of one hasher or MAC.

ghost use Rattle.std.specs.Prelude.{◌≡◌, ℕ, Bool, false, List, [], ◌∷◌, ◌++◌, ◌⊎◌, OnOk, IfOk};
ghost use Rattle.std.specs.Prelude.{IfErr, IsOk, IsErr, IsOkUnless, Ok, Err};
ghost use Rattle.blake2_digest.specs.States.{Fresh, IsAtStart};
ghost use Rattle.blake2_replay.specs.Play.{play, NamesFirstBad, play_fresh, slot_of};
ghost use Rattle.blake2_replay.specs.SlotStates.{PlaysCall};

use blake2_digest::{Duplicate, FixedOutput, FixedOutputReset, Reset, Update};
use std::alloc::Global;

/// A call on the state in a slot. Slots are numbered from 0.
#[derive(Clone, Copy)]
pub enum Call<'a> {
    /// The state absorbs these bytes.
    Update(usize, &'a [u8]),
    /// A copy of the state becomes the next slot.
    Clone(usize),
    /// The state goes back to its start, under the parameters that it was made with. A last-node
    /// flag stays as it is.
    Reset(usize),
    /// The state returns its digest, and the slot ends.
    Finalize(usize),
    /// The state returns its digest, and is reset.
    FinalizeReset(usize),
}

impl Call<'_> {
    // The slot that the call names.
    fn slot(&self) -> usize
        ensures { result ≡ slot_of self.now }
    {
        match *self {
            Call::Update(slot, _)
            | Call::Clone(slot)
            | Call::Reset(slot)
            | Call::Finalize(slot)
            | Call::FinalizeReset(slot) => slot,
        }
    }
}

/// Why a list of calls was refused. Calls are numbered from 0.
#[derive(Clone, Copy, Debug, PartialEq, Eq)]
pub enum ReplayFault {
    /// The call of this number names a slot that is absent or has ended.
    NoSuchSlot(usize),
    /// The update of this number would bring the counted bytes of its slot to 2^64 or more.
    TooLong(usize),
    /// An allocation failed.
    Memory,
}

// Appends an item to the others.
fn push<T: Drop>(items: &mut Vec<T>, item: T) -> Result<(), ReplayFault>
    ensures pushed { OnOk result (items.new.items ≡ items.old.items ++ item ∷ []) }
    ensures refused { IsOkUnless result ReplayFault.Memory }
{
    match items.push(item) {
        Ok(()) => Ok(()),
        Err(_) => Err(ReplayFault::Memory),
    }
}

// Plays the call of this number.
fn replay_call<H, const N: usize>(
    states: &mut Vec<Option<H>>,
    digests: &mut Vec<[u8; N]>,
    call: &Call<'_>,
    place: usize,
) -> Result<(), ReplayFault>
where
    H: FixedOutputReset<N> + Duplicate + Drop,
    ensures { PlaysCall H.meaning place call.now
        states.old.items digests.old.items states.new.items digests.new.items result }
{
    let Some(held) = states.get_mut(call.slot()) else {
        return Err(ReplayFault::NoSuchSlot(place));
    };
    let Some(state) = held else {
        return Err(ReplayFault::NoSuchSlot(place));
    };
    match *call {
        Call::Update(_, input) => {
            if input.len() as u64 > u64::MAX - state.counted() {
                return Err(ReplayFault::TooLong(place));
            }
            state.update(input);
            Ok(())
        }
        Call::Clone(_) => {
            let copy = state.duplicate();
            push(states, Some(copy))
        }
        Call::Reset(_) => {
            state.reset();
            Ok(())
        }
        Call::Finalize(_) => {
            let last = held.take().unwrap();
            push(digests, last.finalize_fixed())
        }
        Call::FinalizeReset(_) => {
            let digest = state.finalize_fixed_reset();
            push(digests, digest)
        }
    }
}

/// Plays the calls in their order on the state `first`, which is in slot 0, and returns the
/// digests in the order of their calls, `N` bytes each.
///
/// The error is a `ReplayFault`. `NoSuchSlot` and `TooLong` name the first bad call, and neither
/// it nor a later one is played. `Memory` means that an allocation failed. At each call the slot
/// is checked first, then the length, and then memory is allocated. Room for slot 0 is allocated
/// before the first call. All states are dropped.
pub fn replay<H, const N: usize>(
    alloc: Global,
    first: H,
    calls: &[Call<'_>],
) -> Result<Vec<[u8; N]>, ReplayFault>
where
    H: Update + FixedOutputReset<N> + FixedOutput<N> + Reset + Duplicate + Drop,
    // The digests are those of the definition, which has some only if no call is bad.
    ensures digests { IfOk result (λ digests. play H.meaning first calls.now ≡ Ok digests.items) }
    // An error other than `Memory` is that of the definition, and names the first bad call.
    ensures fault { IfErr result (λ fault.
        (fault ≡ ReplayFault.Memory) ⊎ (play H.meaning first calls.now ≡ Err fault)) }
    ensures place { IfErr result (NamesFirstBad H.meaning first calls.now) }

    // So a list without a bad call is refused only if an allocation fails, and one with a bad
    // call is always refused.
    ensures no_bad_call { IsOk (play H.meaning first calls.now)
        → IsOkUnless result ReplayFault.Memory }
    ensures bad_call { IsErr (play H.meaning first calls.now) → IsErr result }

    // For a state that was just made, each digest is the constructor's, of the bytes since the
    // last start of the slot, with the last-node flag off; and the error is that of such a state.
    ensures fresh { (digest : Bool → List ℕ → List ℕ) (n : ℕ) → Fresh H.meaning digest n first
        → IfOk result (λ digests. play_fresh (digest false) n calls.now ≡ Ok digests.items) }
    ensures fresh_fault { (digest : Bool → List ℕ → List ℕ) (n : ℕ)
        → Fresh H.meaning digest n first
        → IfErr result (λ fault.
        (fault ≡ ReplayFault.Memory) ⊎ (play_fresh (digest false) n calls.now ≡ Err fault)) }

    // The same holds for a state at its start with a last-node flag, such as that of the last
    // node of a level: each digest is the constructor's under the flag that the state has.
    ensures at_start { (digest : Bool → List ℕ → List ℕ) (n : ℕ)
        → IsAtStart H.meaning digest n first
        → IfOk result (λ digests.
        play_fresh (digest (H.meaning.last_node first)) n calls.now ≡ Ok digests.items) }
    ensures at_start_fault { (digest : Bool → List ℕ → List ℕ) (n : ℕ)
        → IsAtStart H.meaning digest n first
        → IfErr result (λ fault. (fault ≡ ReplayFault.Memory)
        ⊎ (play_fresh (digest (H.meaning.last_node first)) n calls.now ≡ Err fault)) }
{
    let mut states: Vec<Option<H>> = Vec::new(alloc);
    push(&mut states, Some(first))?;
    let mut digests: Vec<[u8; N]> = Vec::new(alloc);
    'calls: for (place, call) in calls.iter().enumerate() {
        replay_call(&mut states, &mut digests, call, place)?;
    }
    Ok(digests)
}

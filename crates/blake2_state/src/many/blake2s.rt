//! Several states of BLAKE2s that absorb at once: eight of them in lanes, from whatever place each
//! is at.
// tools/twins.py makes what blake2b.rt has too, except what tools/twins.txt names.

ghost use Rattle.std.specs.Prelude.{◌≡◌, ◌⊎◌, ◌+◌, ◌*◌, ◌<◌, ◌≤◌, ℕ, [], length, take, drop};
ghost use Rattle.std.specs.Prelude.{slice_index, slice_index_or};
ghost use Rattle.std.specs.Simd.{first_chunks};
ghost use Rattle.blake2_simd.specs.Family.{blake2s};
ghost use Rattle.blake2_compress.specs.Hash;
ghost use Rattle.blake2_compress.specs.Lanes.{block_lists};
ghost use Rattle.blake2_state.specs.Blake2s.{Absorbed, CanAbsorb, CanAbsorbAt};
ghost use Rattle.blake2_state.specs.Blake2s.{pending_and_input_at};
ghost use Rattle.blake2_state.specs.Blake2s.{pending_and_input, zeros};
ghost use Rattle.blake2_state.specs.SeveralStates.{AreUpdated, input_bytes_at};

use super::Text;
use crate::blake2s::State;
use blake2_compress::many::blake2s::{best_lane_count, continue_eight};
use blake2_digest::padded;

// The chaining words of a state.
#[inline(always)]
fn chain_of(state: &State) -> [u32; 8]
    ensures { result ≡ state.now.chain }
{
    state.chain
}

// Those of the N states from number `from` on.
#[inline(always)]
fn chains<const N: usize>(states: &[State], from: usize) -> [[u32; 8]; N]
    requires { from + N ≤ length states.now }
    ensures long { (j : ℕ) → j < N → length (slice_index_or result j []) ≡ 8 }
    ensures words { (j : ℕ) → j < N
        → slice_index_or result j [] ≡ (slice_index_or states.now (from + j) zeros).chain }
{
    let mut words = [[0; 8]; N];
    for j in 0..N {
        words[j] = chain_of(&states[from + j]);
    }
    words
}

// The number of bytes that each has compressed.
#[inline(always)]
fn counters<const N: usize>(states: &[State], from: usize) -> [u64; N]
    requires { from + N ≤ length states.now }
    ensures { (j : ℕ) → j < N
        → slice_index result j ≡ (slice_index_or states.now (from + j) zeros).counter }
{
    let mut counted = [0; N];
    for j in 0..N {
        counted[j] = states[from + j].counter;
    }
    counted
}

// The first block of what a state has not compressed, with its input.
#[inline(always)]
fn first_block(state: &State, input: &[u8]) -> [u8; 64]
    requires can { CanAbsorb state.now input.now }
    requires enough { 64 ≤ length (pending_and_input state.now input.now) }
    ensures { result ≡ take 64 (pending_and_input state.now input.now) }
{
    let held = state.pending_length as usize;
    let mut block = state.pending;
    block[held..].copy_from_slice(&input[..64 - held]);
    block
}

// The `count` blocks after that, which are all of the input.
#[inline(always)]
fn blocks_after<'a>(state: &State, input: &'a [u8], count: usize) -> &'a [[u8; 64]]
    requires can { CanAbsorb state.now input.now }
    requires enough { 64 * count + 64 ≤ length (pending_and_input state.now input.now) }
    ensures { result.now ≡ first_chunks 64 count
        (drop 64 (pending_and_input state.now input.now)) }
{
    let rest = &input[64 - state.pending_length as usize..];
    let (blocks, _) = rest[..64 * count].as_chunks::<64>();
    blocks
}

// The first block of each.
#[inline(always)]
fn leading_blocks<const N: usize>(
    states: &[State],
    inputs: &[Text<'_>],
    from: usize,
) -> [[u8; 64]; N]
    requires states { from + N ≤ length states.now }
    requires inputs { from + N ≤ length inputs.now }
    requires can { (j : ℕ) → j < N → CanAbsorbAt states.now inputs.now (from + j) }
    requires enough { (j : ℕ) → j < N → 64 ≤ length
        (pending_and_input_at states.now inputs.now (from + j)) }
    ensures { (j : ℕ) → j < N → slice_index_or result j [] ≡ take 64
        (pending_and_input_at states.now inputs.now (from + j)) }
{
    let mut blocks = [[0; 64]; N];
    for j in 0..N {
        blocks[j] = first_block(&states[from + j], inputs[from + j].bytes);
    }
    blocks
}

// The `count` blocks of each of eight after that.
fn later_eight<'a>(
    states: &[State],
    inputs: &[Text<'a>],
    from: usize,
    count: usize,
) -> [&'a [[u8; 64]]; 8]
    requires states { from + 8 ≤ length states.now }
    requires inputs { from + 8 ≤ length inputs.now }
    requires can { (j : ℕ) → j < 8 → CanAbsorbAt states.now inputs.now (from + j) }
    requires enough { (j : ℕ) → j < 8
        → 64 * count + 64 ≤ length (pending_and_input_at states.now inputs.now (from + j)) }
    ensures { (j : ℕ) → j < 8 → slice_index_or (block_lists result) j []
        ≡ first_chunks 64 count (drop 64 (pending_and_input_at states.now inputs.now
        (from + j))) }
{
    let mut blocks: [&[[u8; 64]]; 8] = [&[]; 8];
    for j in 0..8 {
        blocks[j] = blocks_after(&states[from + j], inputs[from + j].bytes, count);
    }
    blocks
}

// Absorbs an input that ends at most a block after the first `count + 1` blocks of what is not
// compressed: `chain` has the chaining words after these.
fn absorb_run(state: &mut State, chain: &[u32; 8], input: &[u8], count: usize)
    requires can { CanAbsorb state.old input.now }
    requires least { 64 * count + 64 < length (pending_and_input state.old input.now) }
    requires most { length (pending_and_input state.old input.now) ≤ 64 * count + 128 }
    requires words { chain.now ≡ Hash.chain blake2s state.old.chain state.old.counter
        (first_chunks 64 (count + 1) (pending_and_input state.old input.now)) (count + 1) }
    ensures { Absorbed state.old input.now state.new }
{
    let rest = &input[64 - state.pending_length as usize + 64 * count..];
    state.chain = *chain;
    state.counter += 64 + 64 * count as u64;
    state.pending_length = rest.len() as u16;
    state.pending = padded::<64>(rest);
}

// Absorbs an input, if the first `count + 1` blocks of what is not compressed are compressed
// already: `chain` has the chaining words after these.
fn go_on(state: &mut State, chain: &[u32; 8], input: &[u8], count: usize)
    requires can { CanAbsorb state.old input.now }
    requires least { 64 * count + 64 < length (pending_and_input state.old input.now) }
    requires words { chain.now ≡ Hash.chain blake2s state.old.chain state.old.counter
        (first_chunks 64 (count + 1) (pending_and_input state.old input.now)) (count + 1) }
    ensures { Absorbed state.old input.now state.new }
{
    let end = 64 - state.pending_length as usize + 64 * count + 64;
    let (front, back) = input.split_at(end.min(input.len()));
    absorb_run(state, chain, front, count);
    state.update(back);
}

// The number of bytes of what a state has not compressed, with its input.
fn bytes_left(state: &State, input: &[u8]) -> usize
    requires { CanAbsorb state.now input.now }
    ensures { result ≡ length (pending_and_input state.now input.now) }
{
    state.pending_length as usize + input.len()
}

// The number of bytes that are not compressed in the one of `n` states from number `from` on, with
// its input, which has the fewest.
fn fewest_bytes(states: &[State], inputs: &[Text<'_>], from: usize, n: usize) -> usize
    requires some { 0 < n }
    requires states { from + n ≤ length states.now }
    requires inputs { from + n ≤ length inputs.now }
    requires can { (j : ℕ) → j < n → CanAbsorbAt states.now inputs.now (from + j) }
    ensures { (j : ℕ) → j < n → result ≤ length
        (pending_and_input_at states.now inputs.now (from + j)) }
{
    let mut fewest = usize::MAX;
    for j in 0..n {
        fewest = fewest.min(bytes_left(&states[from + j], inputs[from + j].bytes));
    }
    fewest
}

// The eight states from number `from` on absorb their inputs, the first `count + 1` blocks of what
// each has not compressed in lanes.
fn update_eight(states: &mut [State], inputs: &[Text<'_>], from: usize, count: usize)
    requires states { from + 8 ≤ length states.old }
    requires inputs { from + 8 ≤ length inputs.now }
    requires can { (j : ℕ) → j < 8 → CanAbsorbAt states.old inputs.now (from + j) }
    requires enough { (j : ℕ) → j < 8
        → 64 * count + 64 < length (pending_and_input_at states.old inputs.now (from + j)) }
    ensures { AreUpdated Absorbed zeros states.old (input_bytes_at inputs.now) states.new
        from (from + 8) }
{
    let words = continue_eight(
        &chains(states, from),
        &leading_blocks(states, inputs, from),
        &later_eight(states, inputs, from, count),
        &counters(states, from),
    );
    for j in 0..8 {
        go_on(
            &mut states[from + j],
            &words[j],
            inputs[from + j].bytes,
            count,
        );
    }
}

// The first states from number `from` on absorb their inputs: eight, if these go on in lanes,
// otherwise one. Returns how many.
fn update_next(states: &mut [State], inputs: &[Text<'_>], from: usize) -> usize
    requires some { from < length inputs.now }
    requires same_number { length inputs.now ≡ length states.old }
    requires can { (j : ℕ) → from ≤ j → j < length states.old
        → CanAbsorbAt states.old inputs.now j }
    ensures some { 0 < result }
    ensures most { from + result ≤ length states.old }
    ensures updated { AreUpdated Absorbed zeros states.old (input_bytes_at inputs.now) states.new
        from (from + result) }
{
    let left = inputs.len() - from;
    if best_lane_count() >= 8 && left >= 8 {
        let bytes = fewest_bytes(states, inputs, from, 8);
        if bytes > 64 {
            update_eight(states, inputs, from, (bytes - 1) / 64 - 1);
            return 8;
        }
    }
    states[from].update(inputs[from].bytes);
    1
}

/// Absorbs input j into state j, for each of them, as [`State::update`] of that state does. There
/// are as many inputs as states, of any lengths. Each state must be ready, and fewer than 2^64
/// bytes may be counted for each in all. Eight states in a row go on in lanes, or four, as far as
/// the shortest of their inputs reaches, if that is more than a block.
pub fn update_many(states: &mut [State], inputs: &[Text<'_>])
    requires same_number { length inputs.now ≡ length states.old }
    requires can { (j : ℕ) → j < length states.old
        → CanAbsorbAt states.old inputs.now j }
    ensures { AreUpdated Absorbed zeros states.old (input_bytes_at inputs.now) states.new
        0 (length states.old) }
{
    let mut done = 0;
    while done < inputs.len() {
        done += update_next(states, inputs, done);
    }
}

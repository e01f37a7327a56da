//! The witness of BLAKE2b: steps of eight words of 64 bits and blocks of 128 bytes.

ghost use Rattle.std.specs.Prelude.{◌≡◌, ◌≤◌, ◌↔◌, IsTrue, IsOk, IsSome, IfOk, IfSome, MatchOption};
ghost use Rattle.blake2_simd.specs.Family.{blake2b, output_bytes};
ghost use Rattle.blake2_simd.specs.Rows.{chaining_words};
ghost use Rattle.blake2_compress.specs.Hash;
ghost use Rattle.blake2_compress.specs.Hash.{bytes_of, digest, input_start, output};
ghost use Rattle.blake2_compress.specs.Inputs.{Accepts};
ghost use Rattle.blake2_transcript.specs.Transcript;
ghost use Rattle.blake2_transcript.specs.Witness.{Collide, IsWitness};
ghost use Rattle.blake2_compress.specs.Views.{input_of};
ghost use Rattle.blake2_transcript.specs.StepViews.{entry_of, step_of};
ghost use Rattle.blake2_compress.specs.Run;

use super::same_inputs::are_same_inputs;
use crate::steps::entries::entry_at;
use crate::steps::{Entry, Step};
use blake2_compress::compress::{Flags, blake2b as words};
use blake2_compress::inputs::Input;
use blake2_compress::inputs::blocks::{input_parameters, step_count};
use blake2_compress::params::blake2b as params;
use blake2_simd::rows::u64x4;
use std::alloc::{AllocError, Global};

// The chaining words before the first block of an input's run.
fn input_start_rows(input: &Input<'_>, output_size: usize) -> [u64x4; 2]
    requires accepted { Accepts blake2b (input_of input.now) }
    requires size { output_size ≤ output_bytes blake2b }
    ensures { chaining_words result ≡ input_start blake2b output_size (input_of input.now) }
{
    params::start_rows(&input_parameters(input, output_size))
}

// The step of an entry, at the chaining words before it.
fn step_at(chain: &[u64x4; 2], entry: &Entry<128>) -> Step<u64, 128>
    ensures { step_of result
        ≡ Transcript.step_of_entry (chaining_words chain.now) (entry_of entry.now) }
{
    Step {
        chain: words::to_words(chain),
        block: entry.block,
        counter: entry.counter,
        last: entry.last,
        last_node: entry.last_node,
    }
}

// What F returns for that step.
fn output_of(chain: &[u64x4; 2], entry: &Entry<128>) -> [u64x4; 2]
    ensures { chaining_words result
        ≡ output blake2b
        (Transcript.step_of_entry (chaining_words chain.now) (entry_of entry.now)) }
{
    let mut after = *chain;
    let flags = Flags {
        last: entry.last,
        last_node: entry.last_node,
    };
    words::compress(&mut after, &entry.block, entry.counter, flags);
    after
}

// The chaining words and the entry of the last step of an input's run.
fn last_step(input: &Input<'_>, output_size: usize) -> ([u64x4; 2], Entry<128>)
    requires accepted { Accepts blake2b (input_of input.now) }
    requires size { output_size ≤ output_bytes blake2b }
    ensures { Transcript.step_of_entry (chaining_words result.0) (entry_of result.1)
        ≡ Run.last_step blake2b output_size (input_of input.now) }
{
    let last = step_count::<128>(input) - 1;
    let mut chain = input_start_rows(input, output_size);
    for i in 0..last {
        chain = output_of(&chain, &entry_at(input, i));
    }
    (chain, entry_at(input, last))
}

// The bytes of what F returns for the step of an entry. Those of a run's last step begin with the
// digest.
fn bytes_after(chain: &[u64x4; 2], entry: &Entry<128>) -> [u8; 64]
    ensures { result ≡ bytes_of blake2b
        (output blake2b
        (Transcript.step_of_entry (chaining_words chain.now) (entry_of entry.now))) }
{
    words::to_bytes(&output_of(chain, entry))
}

// Whether the digests of `output_size` bytes are equal, if these are the last steps of two runs.
fn same_digest(
    chain_a: &[u64x4; 2],
    x: &Entry<128>,
    chain_b: &[u64x4; 2],
    y: &Entry<128>,
    output_size: usize,
) -> bool
    requires size { output_size ≤ output_bytes blake2b }
    ensures { (a b : Hash.Input)
        → Transcript.step_of_entry (chaining_words chain_a.now) (entry_of x.now)
        ≡ Run.last_step blake2b output_size a
        → Transcript.step_of_entry (chaining_words chain_b.now) (entry_of y.now)
        ≡ Run.last_step blake2b output_size b
        → IsTrue result ↔ (digest blake2b output_size a ≡ digest blake2b output_size b) }
{
    let of_a = bytes_after(chain_a, x);
    let of_b = bytes_after(chain_b, y);
    of_a[..output_size] == of_b[..output_size]
}

// Whether the steps of two entries, each at the chaining words before it, are equal.
fn same_step(chain_a: &[u64x4; 2], x: &Entry<128>, chain_b: &[u64x4; 2], y: &Entry<128>) -> bool
    ensures { IsTrue result
        ↔ (Transcript.step_of_entry (chaining_words chain_a.now) (entry_of x.now)
        ≡ Transcript.step_of_entry (chaining_words chain_b.now) (entry_of y.now)) }
{
    words::to_words(chain_a) == words::to_words(chain_b) && x == y
}

// The last pair of steps that differ, one of each of two runs with the same number of steps.
fn last_pair(
    a: &Input<'_>,
    b: &Input<'_>,
    output_size: usize,
) -> Option<(Step<u64, 128>, Step<u64, 128>)>
    requires a { Accepts blake2b (input_of a.now) }
    requires b { Accepts blake2b (input_of b.now) }
    requires size { output_size ≤ output_bytes blake2b }
    requires collide { Collide blake2b output_size (input_of a.now) (input_of b.now) }
    requires numbers { Run.step_count blake2b (input_of a.now)
        ≡ Run.step_count blake2b (input_of b.now) }
    ensures { MatchOption result ⊥
        (λ p. IsWitness blake2b (input_of a.now) (input_of b.now) output_size
        (step_of p.0) (step_of p.1)) }
{
    let mut chain_a = input_start_rows(a, output_size);
    let mut chain_b = input_start_rows(b, output_size);
    let mut kept = None;
    for i in 0..step_count::<128>(a) {
        let x = entry_at(a, i);
        let y = entry_at(b, i);
        if !same_step(&chain_a, &x, &chain_b, &y) {
            kept = Some((step_at(&chain_a, &x), step_at(&chain_b, &y)));
        }
        chain_a = output_of(&chain_a, &x);
        chain_b = output_of(&chain_b, &y);
    }
    kept
}

/// Returns the witness of a collision. For two inputs that are not the same and have equal
/// digests of `output_size` bytes, it is a step of the first input's run and a step of the
/// second's. These steps differ, and their outputs agree: in the first `output_size` bytes if
/// they are the last of their runs, and in all bytes if they are not. They are at the same
/// distance from the ends of their runs, and all steps nearer to the ends are equal in pairs. The
/// result is `None` for all other inputs, such as two that differ only in zeros after a salt or a
/// persona.
///
/// `accepts` must be true of both inputs, and `output_size` is at most 64.
///
/// The signature is that of `transcript` and `read_transcript`, which allocate memory. This call
/// allocates none and never fails: it does not look at `_alloc`, and its result is always `Ok`.
#[tactic(auto, using(crate::proofs::LastDifference::equal_last_steps_same_count))]
pub fn witness(
    _alloc: Global,
    a: &Input<'_>,
    b: &Input<'_>,
    output_size: usize,
) -> Result<Option<(Step<u64, 128>, Step<u64, 128>)>, AllocError>
    requires a { Accepts blake2b (input_of a.now) }
    requires b { Accepts blake2b (input_of b.now) }
    requires size { output_size ≤ output_bytes blake2b }
    ensures ok { IsOk result }
    ensures some { IfOk result
        (λ w. IsSome w ↔ Collide blake2b output_size (input_of a.now) (input_of b.now)) }
    ensures pair { IfOk result (λ w. IfSome w (λ p.
        IsWitness blake2b (input_of a.now) (input_of b.now) output_size
        (step_of p.0) (step_of p.1))) }
{
    if are_same_inputs::<16>(a, b) {
        return Ok(None);
    }
    let (last_a, x) = last_step(a, output_size);
    let (last_b, y) = last_step(b, output_size);
    if !same_digest(&last_a, &x, &last_b, &y, output_size) {
        return Ok(None);
    }
    if !same_step(&last_a, &x, &last_b, &y) {
        return Ok(Some((step_at(&last_a, &x), step_at(&last_b, &y))));
    }
    Ok(last_pair(a, b, output_size))
}

//! The entries of an input's transcript.

ghost use Rattle.std.specs.Prelude.{◌≡◌, ◌<◌, ℕ, map, IfOk};
ghost use Rattle.blake2_simd.specs.Family.{Family, block_bytes};
ghost use Rattle.blake2_compress.specs.Hash.{steps};
ghost use Rattle.blake2_compress.specs.Inputs.{Accepts};
ghost use Rattle.blake2_compress.specs.Run;
ghost use Rattle.blake2_compress.specs.Run.{run_step};
ghost use Rattle.blake2_compress.specs.Views.{input_of};
ghost use Rattle.blake2_transcript.specs.StepViews.{entry_of};
ghost use Rattle.blake2_transcript.specs.Transcript.{entry};

use super::Entry;
use blake2_compress::inputs::Input;
use blake2_compress::inputs::blocks::{block_at, counted, step_count};
use std::alloc::{AllocError, Global};

// Entry i of an input's transcript.
pub(crate) fn entry_at<const B: usize>(input: &Input<'_>, i: u64) -> Entry<B>
    ghost f: { Family }
    requires family { block_bytes f ≡ B }
    requires accepted { Accepts f (input_of input.now) }
    requires within { i < Run.step_count f (input_of input.now) }
    ensures { (size : ℕ) → entry_of result ≡ entry (run_step f size (input_of input.now) i) }
{
    let last = i + 1 == step_count::<B>(input);
    Entry {
        block: block_at(input, i as usize),
        counter: if last {
            counted::<B>(input)
        } else {
            (i + 1) * B as u64
        },
        last,
        last_node: last && input.last_node,
    }
}

// The entries of an input's transcript.
pub(crate) fn entries<const B: usize>(
    alloc: Global,
    input: &Input<'_>,
) -> Result<Vec<Entry<B>>, AllocError>
    ghost f: { Family }
    requires family { block_bytes f ≡ B }
    requires accepted { Accepts f (input_of input.now) }
    ensures { IfOk result (λ v. (size : ℕ)
        → map entry_of v.items ≡ map entry (steps f size (input_of input.now))) }
{
    let count = step_count::<B>(input);
    let mut entries = Vec::with_capacity(alloc, count as usize)?;
    for i in 0..count {
        entries.push(entry_at(input, i))?;
    }
    Ok(entries)
}

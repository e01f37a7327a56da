//! Several messages of one length in parallel, one in each lane of the vectors. The steps of a
//! single compression wait for each other; those of several messages don't.

pub mod blake2b;
pub mod blake2s;

ghost use Rattle.std.specs.Prelude.{◌≡◌, ◌+◌, ◌^◌, ◌<◌, ◌≤◌, ℕ, [], length, slice_index};
ghost use Rattle.std.specs.Prelude.{slice_index_or};
ghost use Rattle.blake2_simd.specs.Family.{Family, block_bytes};
ghost use Rattle.blake2_compress.specs.Hash.{blocks, input_data};
ghost use Rattle.blake2_compress.specs.Inputs.{Accepts};
ghost use Rattle.blake2_compress.specs.Run;
ghost use Rattle.blake2_compress.specs.Views.{input_of};

use crate::inputs::Input;

// The first `count` blocks of an input's data from the second on, as slices of the message. The
// last block of the data is not among them.
#[inline(always)]
fn later_blocks<'a, const B: usize>(input: &Input<'a>, count: usize) -> &'a [[u8; B]]
    ghost f: { Family }
    requires family { block_bytes f ≡ B }
    requires accepted { Accepts f (input_of input.now) }
    requires within { count + 2 ≤ Run.step_count f (input_of input.now) }
    ensures long { length result.now ≡ count }
    ensures blocks { (i : ℕ) → i < count → slice_index_or result.now i [] ≡ slice_index_or
        (blocks f (input_data f (input_of input.now))) (i + 1) [] }
{
    let message = input.message;
    let rest = match input.key {
        None => &message[message.len().min(B)..],
        Some(_) => message,
    };
    let (blocks, _) = rest.as_chunks::<B>();
    &blocks[..count]
}

// The counters that are `count` bytes after these.
#[inline(always)]
fn counters_after<const N: usize>(counters: &[u64; N], count: u64) -> [u64; N]
    requires { (j : ℕ) → j < N → slice_index counters.now j + count < 2 ^ 64 }
    ensures { (j : ℕ) → j < N → slice_index result j ≡ slice_index counters.now j + count }
{
    let mut after = [0; N];
    for j in 0..N {
        after[j] = counters[j] + count;
    }
    after
}

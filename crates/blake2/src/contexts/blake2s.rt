// Made by tools/twins.py from src/contexts/blake2b.rt.
//! The context of a BLAKE2s run.

ghost use Rattle.std.specs.Prelude.{◌≡◌, ℕ, ◌+◌, ◌-◌, ◌*◌, ◌^◌, ◌<◌, ◌≤◌, List, [], length, take};
ghost use Rattle.std.specs.Prelude.{replicate};
ghost use Rattle.blake2_simd.specs.Family.{blake2s};
ghost use Rattle.blake2_digest.specs.Blocks.{chunk_count};
ghost use Rattle.blake2.specs.Cores.{completed, last_output, core_restarted, core_node_set};
ghost use Rattle.blake2.specs.Cores.{core_wiped};

use crate::cores::blake2s::Blake2sVarCore;
use blake2_digest::{Duplicate, LastNode, LazyBuffer, Reset, UpdateCore, VariableOutputCore, Wipe};

// Takes the pending bytes as the last block, and writes the first `N` bytes of the output.
fn write_output<const N: usize>(
    core: &mut Blake2sVarCore,
    buffer: &mut LazyBuffer<64>,
    out: &mut [u8; N],
)
    requires supported { N ≤ 32 }
    requires counted { core.old.count + length buffer.old < 2 ^ 64 }
    ensures output { out.new ≡ take N (last_output blake2s core.old buffer.old) }
    ensures core { core.new ≡ completed blake2s core.old buffer.old }
    ensures empty { buffer.new ≡ [] }
{
    let mut whole = [0; 32];
    core.finalize_variable_core(buffer, &mut whole);
    let out = &mut out[..];
    out.copy_from_slice(&whole[..N]);
}

/// What a run of BLAKE2s holds: the core, and the bytes that it has not compressed yet. The
/// holder keeps the start block, the bytes before a message.
#[derive(Drop)]
pub(crate) struct Blake2sContext {
    core: Blake2sVarCore,
    buffer: LazyBuffer<64>,
    ghost within_a_block: { length buffer ≤ 64 },
    ghost counted: { core.count + length buffer < 2 ^ 64 },
    // All blocks of the counted bytes except one are compressed.
    ghost one_block_left: { core.count ≡ 64 * (chunk_count 64 (core.count + length buffer) - 1) },
}

impl Blake2sContext {
    ghost use Rattle.blake2.specs.ContextStates.{blake2s_context_meaning};
    ghost use Rattle.blake2_digest.specs.States.{Updated, digest_now};

    /// Returns a run from this core, which must have counted nothing, with the start block
    /// pending.
    pub(crate) fn new(core: Blake2sVarCore, start_block: LazyBuffer<64>) -> Self
        requires nothing_counted { core.count ≡ 0 }
        requires within_a_block { length start_block ≤ 64 }
        ensures core { result.core ≡ core }
        ensures pending { result.buffer ≡ start_block }
    {
        Blake2sContext {
            core,
            buffer: start_block,
        }
    }

    /// Absorbs the input after all that was absorbed before. Fewer than 2^64 bytes may be counted
    /// in all.
    pub(crate) fn update(&mut self, input: &[u8])
        requires { self.old.core.count + length self.old.buffer + length input.now < 2 ^ 64 }
        ensures { (n : ℕ) (block : List ℕ)
            → Updated (blake2s_context_meaning n block) self.old input.now self.new }
    {
        self.buffer.digest_blocks(input, &mut self.core);
    }

    /// Returns the number of bytes counted since the last start, including those that are
    /// pending.
    pub(crate) fn counted(&self) -> u64
        ensures count { result ≡ self.now.core.count + length self.now.buffer }
        ensures one_block_left { self.now.core.count ≡ 64 * (chunk_count 64 result - 1) }
    {
        self.core.counted() + self.buffer.get_pos() as u64
    }

    /// Writes the output of `N` bytes, at most 32, and leaves nothing of the run.
    #[tactic(auto, using(crate::proofs::StateLaws::output_of_pending))]
    pub(crate) fn finish<const N: usize>(&mut self, out: &mut [u8; N])
        requires { N ≤ 32 }
        ensures output { (block : List ℕ)
            → out.new ≡ digest_now (blake2s_context_meaning N block) self.old }
        ensures core { self.new.core ≡ core_wiped }
        ensures pending { self.new.buffer ≡ [] }
    {
        write_output(&mut self.core, &mut self.buffer, out);
        self.core.wipe();
    }

    /// Writes the output of `N` bytes, at most 32, and goes back to the start, with this block
    /// pending.
    #[tactic(auto, using(crate::proofs::StateLaws::output_of_pending))]
    pub(crate) fn finish_reset<const N: usize>(
        &mut self,
        start_block: LazyBuffer<64>,
        out: &mut [u8; N],
    )
        requires supported { N ≤ 32 }
        requires within_a_block { length start_block ≤ 64 }
        ensures output { (block : List ℕ)
            → out.new ≡ digest_now (blake2s_context_meaning N block) self.old }
        ensures core { self.new.core ≡ core_restarted self.old.core }
        ensures pending { self.new.buffer ≡ start_block }
    {
        write_output(&mut self.core, &mut self.buffer, out);
        self.core.reset();
        self.buffer = start_block;
    }

    /// Sets the last-node flag, and changes nothing else.
    pub(crate) fn set_last_node(&mut self, on: bool)
        ensures core { self.new.core ≡ core_node_set self.old.core on }
        ensures pending { self.new.buffer ≡ self.old.buffer }
    {
        self.core.set_last_node(on);
    }

    /// Makes a compiler keep the zeros of `wipe`, as [`blake2_digest::settle`] does.
    pub(crate) fn settle(&self) {
        self.core.settle();
        self.buffer.settle();
    }

    /// Goes back to the start, with this block pending.
    pub(crate) fn restart(&mut self, start_block: LazyBuffer<64>)
        requires { length start_block ≤ 64 }
        ensures core { self.new.core ≡ core_restarted self.old.core }
        ensures pending { self.new.buffer ≡ start_block }
    {
        self.core.reset();
        self.buffer = start_block;
    }
}

impl Duplicate for Blake2sContext {
    fn duplicate(&self) -> Self {
        Blake2sContext {
            core: self.core.duplicate(),
            buffer: self.buffer.duplicate(),
        }
    }
}

impl Wipe for Blake2sContext {
    ghost is_wiped = { λ s. (s.core ≡ core_wiped) × (s.buffer ≡ replicate (length s.buffer) 0) };

    fn wipe(&mut self)
        ensures wiped { (self.new.core ≡ core_wiped)
            × (self.new.buffer ≡ replicate (length self.new.buffer) 0) }
        ensures len { length self.new.buffer ≡ length self.old.buffer }
    {
        self.core.wipe();
        self.buffer.wipe();
    }
}

#[cfg(test)]
impl Blake2sContext {
    // A run for outputs of `output_size` bytes, from the start words, that has compressed
    // `counter` bytes and keeps `pending`. No digests of it are promised, only its count.
    pub(crate) fn counting_from(output_size: usize, counter: u64, pending: &[u8]) -> Self
        requires output_size { output_size ≤ 32 }
        requires within_a_block { length pending.now ≤ 64 }
        requires counted { counter + length pending.now < 2 ^ 64 }
        requires one_block_left { counter
            ≡ 64 * (chunk_count 64 (counter + length pending.now) - 1) }
        ensures { result.core.count + length result.buffer ≡ counter + length pending.now }
    {
        let start = Blake2sVarCore::new_with_params(&[], &[], 0, output_size).first_words();
        Blake2sContext {
            core: Blake2sVarCore::from_words(&start, &start, counter),
            buffer: LazyBuffer::new(pending),
        }
    }

    // The words that the run started from.
    pub(crate) fn first_words(&self) -> [u32; 8] {
        self.core.first_words()
    }
}

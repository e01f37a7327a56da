//! `b2 sum`, `b2 script` and `b2 steps` with the hash function that the arguments name.

ghost use Rattle.std.specs.Prelude.{◌≡◌, ◌≢◌, ◌≤◌, ◌↔◌, ℕ, Bool, List, length, false, IfOk, IsErr};
ghost use Rattle.std.specs.Prelude.{IsTrue, IsOkUnless};
ghost use Rattle.std.specs.Result.{IsErrOf};
ghost use Rattle.blake2.specs.MacArguments.{key_count};
ghost use Rattle.blake2.specs.States.{Fresh};
ghost use Rattle.blake2.specs.Streams.{line_of};
ghost use Rattle.blake2_compress.specs.Hash.{sequential};
ghost use Rattle.blake2_state.specs.ConstructorArguments.{AdmitsState, counted_key_bytes};
ghost use Rattle.blake2_state.specs.ConstructorArguments.{digest_given};
ghost use Rattle.blake2_state.specs.ConstructorArguments.{parameters_given};
ghost use Rattle.blake2_state.specs.Runs.{meaning, padded_digest};
ghost use Rattle.b2_commands.specs.ReadOptions.{given_options};
ghost use Rattle.b2_commands.specs.Tasks.{node_digest_with, IsRefusedByFamily};
ghost use Rattle.b2_commands.specs.TaskEnds.{EndsByPrinting, EndsTask};
ghost use Rattle.b2_commands.specs.Kinds.{kind_value};
ghost use Rattle.b2_commands.specs.ReadTasks.{output_task};
ghost use Rattle.b2_commands.specs.ArgumentTasks.Task.{to_steps};

use crate::arguments::{Kind, Options};
use crate::fault::Fault;
use crate::print::print_bytes;
use crate::script::script;
use crate::steps::{steps_blake2b, steps_blake2s};
use crate::task::Output;
use blake2::digest::{FixedOutput, InvalidLength};
use blake2::streams::{Sink, Source, absorb_stream};
use blake2_state::StateParameters;
use blake2_state::runs::Run;
use std::alloc::Global;

/// Prints the output for all that the source returns, with the hash function of this kind under
/// the options. Neither device may have failed before. The error is a `Fault`: `WrongLength` if
/// the hash function does not accept a length of the options; for a digest `ReadFailed` if a read
/// returns an error, `TooLong` if the input, with the key's block if there is a key, has 2^64
/// bytes or more, and `WriteFailed` if a write fails; otherwise those of `script` or
/// `steps_blake2b`. If it is not `WriteFailed`, nothing was printed.
pub(crate) fn hash<S: Source, K: Sink>(
    alloc: Global,
    output: Output,
    kind: Kind,
    options: &Options,
    source: &mut S,
    sink: &mut K,
) -> Result<(), Fault>
    requires source { S.failed source.old ≡ false }
    requires sink { K.failed sink.old ≡ false }
    ensures { EndsTask (output_task output (kind_value kind) (given_options options.now)) result
        (S.left source.old) (S.failed source.new) (K.failed sink.new)
        (K.held sink.old) (K.held sink.new) }
{
    match output {
        Output::Digest => sum(start(kind, options)?, kind.size(), source, sink),
        Output::Digests => script(alloc, start(kind, options)?, kind.size(), source, sink),
        Output::Transcript => steps(alloc, kind, options, source, sink),
    }
}

// Returns a run of the hash function of this kind under the options, which has absorbed nothing
// else. The error is `Fault::WrongLength`, exactly if the hash function does not accept a length of
// the options.
fn start(kind: Kind, options: &Options) -> Result<Run, Fault>
    ensures length { IsErr result
        ↔ IsRefusedByFamily (kind_value kind).family (given_options options.now) }
    ensures fault { IsOkUnless result Fault.WrongLength }
    ensures fresh { IfOk result (λ run. Fresh meaning (padded_digest (node_digest_with
        (kind_value kind).family (kind_value kind).bytes (given_options options.now)))
        (key_count (kind_value kind).family (given_options options.now).key) run) }
{
    if options.has_empty_key() {
        return Err(Fault::WrongLength);
    }
    let given = StateParameters {
        output_size: kind.size(),
        key: options.key_bytes(),
        salt: options.salt(),
        persona: options.persona(),
    };
    match start_with(kind, &given) {
        Ok(run) => Ok(run),
        Err(_) => Err(Fault::WrongLength),
    }
}

// Returns a run of the hash function of this kind with these parameters, which has absorbed no
// message. The error is `InvalidLength`, exactly if the hash function does not accept a length.
fn start_with(kind: Kind, given: &StateParameters<'_>) -> Result<Run, InvalidLength>
    ensures refused { IsErr result
        ↔ ¬ AdmitsState (kind_value kind).family (parameters_given given.now sequential) }
    ensures fresh { IfOk result (λ run. Fresh meaning
        (padded_digest (digest_given (kind_value kind).family given.now sequential))
        (counted_key_bytes (kind_value kind).family given.now.key.now) run) }
{
    match kind {
        Kind::Blake2b(_) => Run::blake2b(given),
        Kind::Blake2s(_) => Run::blake2s(given),
    }
}

// Prints the digest of all that the source returns as a line: the first `size` bytes, at most 64,
// of what the run returns. Neither device may have failed before. The errors are those of `hash`
// for a digest, except `WrongLength`.
fn sum<S: Source, K: Sink>(
    mut run: Run,
    size: usize,
    source: &mut S,
    sink: &mut K,
) -> Result<(), Fault>
    requires size { size ≤ 64 }
    requires source { S.failed source.old ≡ false }
    requires sink { K.failed sink.old ≡ false }
    ensures length { result ≢ Err Fault.WrongLength }
    ensures memory { result ≢ Err Fault.NoMemory }
    ensures read { IsErrOf result Fault.ReadFailed ↔ IsTrue (S.failed source.new) }
    ensures write { IsErrOf result Fault.WriteFailed ↔ IsTrue (K.failed sink.new) }
    ensures ends { (digest : Bool → List ℕ → List ℕ) (n : ℕ)
        → Fresh meaning (padded_digest digest) n run
        → ((y : List ℕ) → length (digest false y) ≡ size)
        → EndsByPrinting (λ message. line_of (digest false message)) n result (S.left source.old)
        (K.held sink.old) (K.held sink.new) }
{
    absorb_stream(source, &mut run)?;
    let whole = run.finalize_fixed();
    print_bytes(&whole[..size], sink)
}

// Prints the transcript of all that the source returns, as `steps_blake2b` does.
fn steps<S: Source, K: Sink>(
    alloc: Global,
    kind: Kind,
    options: &Options,
    source: &mut S,
    sink: &mut K,
) -> Result<(), Fault>
    requires source { S.failed source.old ≡ false }
    requires sink { K.failed sink.old ≡ false }
    ensures { EndsTask (to_steps (kind_value kind) (given_options options.now)) result
        (S.left source.old) (S.failed source.new) (K.failed sink.new)
        (K.held sink.old) (K.held sink.new) }
{
    match kind {
        Kind::Blake2b(kind) => steps_blake2b(alloc, options, kind.size(), source, sink),
        Kind::Blake2s(kind) => steps_blake2s(alloc, options, kind.size(), source, sink),
    }
}

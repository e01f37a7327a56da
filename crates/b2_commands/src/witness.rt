//! `b2 witness`: the pair of steps to which two messages with equal digests lead.

ghost use Rattle.std.specs.Prelude.{◌≡◌, ◌≤◌, ◌↔◌, [], ◌∷◌, ◌++◌, ℕ, List, Option, codes, false};
ghost use Rattle.std.specs.Prelude.{IsTrue, IsOkUnless, OnOk};
ghost use Rattle.std.specs.Result.{IsErrOf};
ghost use Rattle.std.specs.Io.KnownBytes.{Appends};
ghost use Rattle.blake2.specs.Family.{Family as AnyFamily, blake2b, blake2s};
ghost use Rattle.blake2.specs.Inputs.{Accepts};
ghost use Rattle.blake2.specs.Views.{input_of};
ghost use Rattle.blake2.specs.StepViews.{step_of};
ghost use Rattle.b2_commands.specs.ArgumentTasks.{nothing_given};
ghost use Rattle.b2_commands.specs.Tasks.{input_with};
ghost use Rattle.b2_commands.specs.TaskEnds.{EndsTask};
ghost use Rattle.b2_commands.specs.PrintedLines.{step_line};
ghost use Rattle.b2_commands.specs.ReadTasks.{comparison_task};
ghost use Rattle.b2_commands.specs.PrintedWitnesses.{PrintsWitnessOrNone};

use crate::fault::Fault;
use crate::print::Line;
use crate::witness_arguments::{Comparison, Family};
use blake2::streams::{Sink, write_whole};
use blake2::transcripts::{Input, Step, Tree};
use blake2::{Blake2bVarCore, Blake2sVarCore};
use std::alloc::Global;

/// Prints a step of each message, a line each, if the messages differ and their digests are
/// equal. The steps differ, and are at the same distance from the ends of the two runs. Their
/// outputs agree: in the digest's bytes if they are the last of their runs, and in all bytes if
/// they are not. For other messages it prints `none`. It allocates nothing. The sink must not
/// have failed before. The error is `Fault::WriteFailed`, if a write fails.
pub(crate) fn witness<K: Sink>(
    alloc: Global,
    comparison: &Comparison,
    sink: &mut K,
) -> Result<(), Fault>
    requires { K.failed sink.old ≡ false }
    ensures { (left : Option (List ℕ)) → EndsTask (comparison_task comparison.now) result left
        false (K.failed sink.new) (K.held sink.old) (K.held sink.new) }
{
    let a = comparison.a.as_slice();
    let b = comparison.b.as_slice();
    let size = comparison.by.bytes;
    match comparison.by.family {
        Family::Blake2b => witness_blake2b(alloc, a, b, size, sink),
        Family::Blake2s => witness_blake2s(alloc, a, b, size, sink),
    }
}

fn witness_blake2b<K: Sink>(
    alloc: Global,
    a: &[u8],
    b: &[u8],
    output_size: usize,
    sink: &mut K,
) -> Result<(), Fault>
    requires size { output_size ≤ 64 }
    requires sink { K.failed sink.old ≡ false }
    ensures write { IsErrOf result Fault.WriteFailed ↔ IsTrue (K.failed sink.new) }
    ensures fault { IsOkUnless result Fault.WriteFailed }
    ensures lines { OnOk result (PrintsWitnessOrNone blake2b output_size
        (input_with nothing_given a.now) (input_with nothing_given b.now)
        (K.held sink.old) (K.held sink.new)) }
{
    match Blake2bVarCore::witness(alloc, &unkeyed(a), &unkeyed(b), output_size).unwrap() {
        Some((x, y)) => {
            print_blake2b(&x, sink)?;
            print_blake2b(&y, sink)
        }
        None => print_none(sink),
    }
}

fn witness_blake2s<K: Sink>(
    alloc: Global,
    a: &[u8],
    b: &[u8],
    output_size: usize,
    sink: &mut K,
) -> Result<(), Fault>
    requires size { output_size ≤ 32 }
    requires sink { K.failed sink.old ≡ false }
    ensures write { IsErrOf result Fault.WriteFailed ↔ IsTrue (K.failed sink.new) }
    ensures fault { IsOkUnless result Fault.WriteFailed }
    ensures lines { OnOk result (PrintsWitnessOrNone blake2s output_size
        (input_with nothing_given a.now) (input_with nothing_given b.now)
        (K.held sink.old) (K.held sink.new)) }
{
    match Blake2sVarCore::witness(alloc, &unkeyed(a), &unkeyed(b), output_size).unwrap() {
        Some((x, y)) => {
            print_blake2s(&x, sink)?;
            print_blake2s(&y, sink)
        }
        None => print_none(sink),
    }
}

// Returns the input of this message, without key, salt and persona.
fn unkeyed(message: &[u8]) -> Input<'_>
    ensures input { input_of result ≡ input_with nothing_given message.now }
    ensures accepted { (f : AnyFamily) → Accepts f (input_of result) }
{
    Input {
        salt: &[],
        persona: &[],
        key: None,
        tree: Tree::sequential(),
        last_node: false,
        message,
    }
}

// Prints the line of a step of BLAKE2b: its chaining words, counter, final flag and block. The
// sink must not have failed before. The error is `Fault::WriteFailed`, if a write fails.
fn print_blake2b<K: Sink>(step: &Step<u64, 128>, sink: &mut K) -> Result<(), Fault>
    requires { K.failed sink.old ≡ false }
    ensures write { IsErrOf result Fault.WriteFailed ↔ IsTrue (K.failed sink.new) }
    ensures fault { IsOkUnless result Fault.WriteFailed }
    ensures line { OnOk result
        (Appends (K.held sink.old) (K.held sink.new) (step_line blake2b (step_of step.now))) }
{
    let mut line = Line::starting(b"s");
    line.add_words_of_64(&step.chain);
    line.add_number(step.counter);
    line.add_flag(step.last);
    line.add_block(&step.block);
    line.print(sink)
}

// Prints the line of a step of BLAKE2s: its chaining words, counter, final flag and block. The
// sink must not have failed before. The error is `Fault::WriteFailed`, if a write fails.
fn print_blake2s<K: Sink>(step: &Step<u32, 64>, sink: &mut K) -> Result<(), Fault>
    requires { K.failed sink.old ≡ false }
    ensures write { IsErrOf result Fault.WriteFailed ↔ IsTrue (K.failed sink.new) }
    ensures fault { IsOkUnless result Fault.WriteFailed }
    ensures line { OnOk result
        (Appends (K.held sink.old) (K.held sink.new) (step_line blake2s (step_of step.now))) }
{
    let mut line = Line::starting(b"s");
    line.add_words_of_32(&step.chain);
    line.add_number(step.counter);
    line.add_flag(step.last);
    line.add_block(&step.block);
    line.print(sink)
}

// Prints `none`, the line if there is no such pair. The sink must not have failed before. The
// error is `Fault::WriteFailed`, if a write fails.
fn print_none<K: Sink>(sink: &mut K) -> Result<(), Fault>
    requires { K.failed sink.old ≡ false }
    ensures write { IsErrOf result Fault.WriteFailed ↔ IsTrue (K.failed sink.new) }
    ensures fault { IsOkUnless result Fault.WriteFailed }
    ensures line { OnOk result
        (Appends (K.held sink.old) (K.held sink.new) (codes "none" ++ 10 ∷ [])) }
{
    write_whole(sink, b"none\n").map_err(|_| Fault::WriteFailed)
}

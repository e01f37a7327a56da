//! The run of a command.

ghost use Rattle.std.specs.Prelude.{◌≡◌, ◌≢◌, ◌≤◌, ◌↔◌, ◌⊎◌, false, map, IsTrue, IsOk, IsErr};
ghost use Rattle.std.specs.Prelude.{IsOkAnd, IfErr, OnOk};
ghost use Rattle.std.specs.Io.KnownBytes.{Appends};
ghost use Rattle.std.specs.Result.{IsErrOf};
ghost use Rattle.std.specs.String.{string_bytes};
ghost use Rattle.b2_commands.specs.Advice.{advice_for_words};
ghost use Rattle.b2_commands.specs.ArgumentTasks.{task_of};
ghost use Rattle.b2_commands.specs.Tasks.{IsDone};
ghost use Rattle.b2_commands.specs.Faults.{ReportsFault, exit_status_of, fault_line};

use crate::digests::hash;
use crate::fault::Fault;
use crate::help::{HELP, VERSION, print_advice, print_text};
use crate::leaves::leaves;
use crate::outputs::{derive, xof};
use crate::task::Task;
use crate::tree::tree;
use crate::witness::witness;
use blake2::streams::{Sink, SliceSink, Source};
use std::alloc::Global;

/// Runs the command that the arguments name, over the source and the sink. The arguments come
/// without the program's name, and no device may have failed before. Returns the status: 0
/// for success, 1 if a device or an allocation fails, and 2 for wrong arguments or wrong input.
/// With a status other than 0 it prints only the line of the error, unless a write fails.
pub fn run<S: Source, K: Sink>(alloc: Global, words: &[String], source: &mut S, sink: &mut K) -> u8
    requires source { S.failed source.old ≡ false }
    requires sink { K.failed sink.old ≡ false }
    ensures status { result ≤ 2 }
    ensures read { IsTrue (S.failed source.new) → result ≡ 1 }
    ensures write { IsTrue (K.failed sink.new) → result ≡ 1 }
    // Status 0: the arguments name a task, and the sink accepted its whole output over the input.
    ensures done { result ≡ 0 → IsOkAnd (task_of (map string_bytes words.now)) (λ task.
        IsDone task (S.left source.old) (K.held sink.old) (K.held sink.new)) }
    // Another status: the sink accepted the line of an error that has its cause, and nothing else,
    // unless a write failed.
    ensures told { result ≢ 0 → K.failed sink.new ≡ false
        → ReportsFault (map string_bytes words.now)
        (S.left source.old) (S.left source.new) (S.failed source.new) result
        (K.held sink.old) (K.held sink.new) }
{
    // There is no room for notes.
    let mut notes = SliceSink::new(&mut [], 1, None);
    run_with_notes(alloc, words, source, sink, &mut notes)
}

/// Runs the command as [`run`] does. If the arguments name no task, it also writes the usage to
/// `notes`, which must not have failed before. Whether that fails changes nothing.
pub fn run_with_notes<S: Source, K: Sink, N: Sink>(
    alloc: Global,
    words: &[String],
    source: &mut S,
    sink: &mut K,
    notes: &mut N,
) -> u8
    requires source { S.failed source.old ≡ false }
    requires sink { K.failed sink.old ≡ false }
    requires notes { N.failed notes.old ≡ false }
    ensures status { result ≤ 2 }
    ensures read { IsTrue (S.failed source.new) → result ≡ 1 }
    ensures write { IsTrue (K.failed sink.new) → result ≡ 1 }
    // Status 0: the arguments name a task, and the sink accepted its whole output over the input.
    ensures done { result ≡ 0 → IsOkAnd (task_of (map string_bytes words.now)) (λ task.
        IsDone task (S.left source.old) (K.held sink.old) (K.held sink.new)) }
    // Another status: the sink accepted the line of an error that has its cause, and nothing else,
    // unless a write failed.
    ensures told { result ≢ 0 → K.failed sink.new ≡ false
        → ReportsFault (map string_bytes words.now)
        (S.left source.old) (S.left source.new) (S.failed source.new) result
        (K.held sink.old) (K.held sink.new) }
    // The notes accepted the advice for arguments that name no task, unless a write failed.
    ensures advised { result ≡ 2 → IsErr (task_of (map string_bytes words.now))
        → N.failed notes.new ≡ false → Appends (N.held notes.old) (N.held notes.new)
        (advice_for_words (map string_bytes words.now)) }
    ensures quiet { (result ≢ 2) ⊎ IsOk (task_of (map string_bytes words.now))
        → notes.new ≡ notes.old }
{
    match Task::from_words(alloc, words) {
        Ok(Task::Hash(output, kind, options)) => {
            let end = hash(alloc, output, kind, &options, source, sink);
            status_after(end, sink)
        }
        Ok(Task::Compare(comparison)) => {
            let end = witness(alloc, &comparison, sink);
            status_after(end, sink)
        }
        Ok(Task::Tree(root)) => {
            let end = tree(alloc, &root, source, sink);
            status_after(end, sink)
        }
        Ok(Task::Leaves(part)) => {
            let end = leaves(alloc, &part, source, sink);
            status_after(end, sink)
        }
        Ok(Task::Xof(output)) => {
            let end = xof(&output, source, sink);
            status_after(end, sink)
        }
        Ok(Task::Derive(derivation)) => {
            let end = derive(&derivation, source, sink);
            status_after(end, sink)
        }
        Ok(Task::Help) => status_after(print_text(HELP, sink), sink),
        Ok(Task::Version) => status_after(print_text(VERSION, sink), sink),
        Err(fault) => {
            let status = fault.report(sink);
            if status == 2 {
                print_advice(words, notes);
            }
            status
        }
    }
}

// Returns the status of a task that ended in this way: 0, or the status of the error, whose line
// it prints. The sink has failed if the error is `WriteFailed`, and only then.
fn status_after<K: Sink>(end: Result<(), Fault>, sink: &mut K) -> u8
    requires { IsErrOf end Fault.WriteFailed ↔ IsTrue (K.failed sink.old) }
    ensures done { OnOk end ((result ≡ 0) × (sink.new ≡ sink.old)) }
    ensures printed { IfErr end (λ fault. K.failed sink.new ≡ false →
        (result ≡ exit_status_of fault)
        × Appends (K.held sink.old) (K.held sink.new) (fault_line fault)) }
    ensures failed { IsTrue (K.failed sink.old) → IsTrue (K.failed sink.new) }
    ensures unprinted { IsTrue (K.failed sink.new) → result ≡ 1 }
{
    match end {
        Ok(()) => 0,
        Err(fault) => fault.report(sink),
    }
}

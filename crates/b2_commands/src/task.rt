//! The task that the arguments of a command line name.

ghost use Rattle.std.specs.Prelude.{◌≡◌, ◌≢◌, ◌<◌, length, map, IfOk, IfErr};
ghost use Rattle.std.specs.String.{string_bytes};
ghost use Rattle.b2_commands.specs.ArgumentTasks.{task_of, IsReadingFault};

use crate::arguments::{Kind, Options};
use crate::fault::Fault;
use crate::output_arguments::{Derivation, Extended};
use crate::tree_arguments::{Over, Part, Root};
use crate::witness_arguments::Comparison;
use std::alloc::Global;

/// What a command prints for the input.
#[derive(Clone, Copy)]
pub(crate) enum Output {
    /// `sum`: its digest.
    Digest,
    /// `script`: the digests that the calls in its lines return.
    Digests,
    /// `steps`: its transcript.
    Transcript,
}

/// The task that a command line names.
#[derive(Drop)]
pub(crate) enum Task {
    /// `sum`, `script` or `steps`, with the hash function of the kind under the options.
    Hash(Output, Kind, Options),
    /// `witness`.
    Compare(Comparison),
    /// `tree` or `root`.
    Tree(Root),
    /// `leaves`.
    Leaves(Part),
    /// `xof`.
    Xof(Extended),
    /// `derive`.
    Derive(Derivation),
    /// `--help`, `-h` or `help`.
    Help,
    /// `--version`.
    Version,
}

impl Task {
    ghost use Rattle.b2_commands.specs.ReadTasks.{output_task, task_value};
    ghost use Rattle.b2_commands.specs.ArgumentTasks.{kind_and_options_task, task_if_no_more_words};

    /// Reads the arguments from left to right, the command, its KIND and then the rest, and
    /// returns the task. The error is a `Fault`, that of the first bad argument: `WrongWords` if
    /// it is missing or is not expected; `WrongHex` if its HEX is wrong; `NoMemory` if an
    /// allocation for the bytes of HEX fails, which only the arguments after KIND need.
    pub(crate) fn from_words(alloc: Global, words: &[String]) -> Result<Task, Fault>
        ensures task { IfOk result (λ task.
            task_of (map string_bytes words.now) ≡ Ok (task_value task)) }
        ensures fault { IfErr result (λ fault.
            IsReadingFault fault (task_of (map string_bytes words.now))) }
        ensures memory { result ≡ Err Fault.NoMemory → 2 < length words.now }
    {
        let Some((command, words)) = words.split_first() else {
            return Err(Fault::WrongWords);
        };
        let output = match command.as_str() {
            "sum" => Output::Digest,
            "script" => Output::Digests,
            "steps" => Output::Transcript,
            "witness" => return Ok(Task::Compare(Comparison::from_words(alloc, words)?)),
            "tree" => return Ok(Task::Tree(Root::from_words(alloc, Over::Message, words)?)),
            "leaves" => return Ok(Task::Leaves(Part::from_words(alloc, words)?)),
            "root" => return Ok(Task::Tree(Root::from_words(alloc, Over::Leaves, words)?)),
            "xof" => return Ok(Task::Xof(Extended::from_words(alloc, words)?)),
            "derive" => return Ok(Task::Derive(Derivation::from_words(alloc, words)?)),
            "--help" | "-h" | "help" => return Self::require_no_more_words(Task::Help, words),
            "--version" => return Self::require_no_more_words(Task::Version, words),
            _ => return Err(Fault::WrongWords),
        };
        let Some((kind, words)) = words.split_first() else {
            return Err(Fault::WrongWords);
        };
        let kind = Kind::from_word(kind.as_str())?;
        let options = Options::from_words(alloc, true, words)?;
        Ok(Task::Hash(output, kind, options))
    }

    // Returns the task, which no argument may follow. The error is `Fault::WrongWords`, if one
    // does.
    fn require_no_more_words(task: Task, words: &[String]) -> Result<Task, Fault>
        ensures task { IfOk result (λ same.
            task_if_no_more_words (task_value task) (map string_bytes words.now)
            ≡ Ok (task_value same)) }
        ensures fault { IfErr result (λ fault.
            IsReadingFault fault
            (task_if_no_more_words (task_value task) (map string_bytes words.now))) }
        ensures memory { result ≢ Err Fault.NoMemory }
    {
        match words.split_first() {
            None => Ok(task),
            Some(_) => Err(Fault::WrongWords),
        }
    }
}

//! The arguments of `b2 tree`, `b2 root` and `b2 leaves`.

ghost use Rattle.std.specs.Prelude.{◌≡◌, ◌<◌, ◌≤◌, length, map, IfOk, IfErr};
ghost use Rattle.std.specs.String.{string_bytes};
ghost use Rattle.b2_commands.specs.ArgumentTasks.{leaf_length_value, IsReadingFault};

use crate::arguments::{Blake2bKind, Kind, Options};
use crate::fault::Fault;
use crate::numbers::number_of;
use std::alloc::Global;

/// What the input of a root is.
#[derive(Clone, Copy)]
pub(crate) enum Over {
    /// `tree`: the message.
    Message,
    /// `root`: the digests of its leaves.
    Leaves,
}

/// The root of a tree, whose leaves have `leaf_length` bytes, at least 1.
#[derive(Drop)]
pub(crate) struct Root {
    pub(crate) over: Over,
    pub(crate) kind: Blake2bKind,
    pub(crate) leaf_length: u32,
    pub(crate) options: Options,
    ghost leaf: { 1 ≤ leaf_length },
}

impl Root {
    ghost use Rattle.b2_commands.specs.ReadTasks.{root_task, root_task_over};
    ghost use Rattle.b2_commands.specs.ArgumentTasks.{tree_task};

    /// Reads the arguments KIND LEAF [salt=HEX] [persona=HEX] from left to right, and returns the
    /// root. KIND must be one of BLAKE2b. The errors are those of `Task::from_words`.
    pub(crate) fn from_words(alloc: Global, over: Over, words: &[String]) -> Result<Root, Fault>
        ensures task { IfOk result (λ root.
            tree_task (root_task_over over) (map string_bytes words.now) ≡ Ok (root_task root)) }
        ensures over { IfOk result (λ root. root.over ≡ over) }
        ensures fault { IfErr result (λ fault.
            IsReadingFault fault (tree_task (root_task_over over) (map string_bytes words.now))) }
        ensures memory { result ≡ Err Fault.NoMemory → 1 < length words.now }
    {
        let Some((kind, words)) = words.split_first() else {
            return Err(Fault::WrongWords);
        };
        let Kind::Blake2b(kind) = Kind::from_word(kind.as_str())? else {
            return Err(Fault::WrongWords);
        };
        let Some((leaf, words)) = words.split_first() else {
            return Err(Fault::WrongWords);
        };
        let leaf_length = leaf_of(leaf.as_bytes())?;
        let options = Options::from_words(alloc, false, words)?;
        Ok(Root {
            over,
            kind,
            leaf_length,
            options,
        })
    }
}

/// A part of a message: its leaves, of `leaf_length` bytes, at least 1, from that with index
/// `first` on. `ends` says whether the message ends with it.
#[derive(Drop)]
pub(crate) struct Part {
    pub(crate) leaf_length: u32,
    pub(crate) first: u64,
    pub(crate) ends: bool,
    pub(crate) options: Options,
    ghost leaf: { 1 ≤ leaf_length },
}

impl Part {
    ghost use Rattle.b2_commands.specs.ReadTasks.{part_task};
    ghost use Rattle.b2_commands.specs.ArgumentTasks.{ends_message_value, leaf_index_value};
    ghost use Rattle.b2_commands.specs.ArgumentTasks.{leaves_task};

    /// Reads the arguments LEAF FIRST more|last [salt=HEX] [persona=HEX] from left to right, and
    /// returns the part. The errors are those of `Task::from_words`.
    pub(crate) fn from_words(alloc: Global, words: &[String]) -> Result<Part, Fault>
        ensures task { IfOk result (λ part.
            leaves_task (map string_bytes words.now) ≡ Ok (part_task part)) }
        ensures fault { IfErr result (λ fault.
            IsReadingFault fault (leaves_task (map string_bytes words.now))) }
        ensures memory { result ≡ Err Fault.NoMemory → 1 < length words.now }
    {
        let Some((leaf, words)) = words.split_first() else {
            return Err(Fault::WrongWords);
        };
        let leaf_length = leaf_of(leaf.as_bytes())?;
        let Some((first, words)) = words.split_first() else {
            return Err(Fault::WrongWords);
        };
        let first = Self::index_of(first.as_bytes())?;
        let Some((end, words)) = words.split_first() else {
            return Err(Fault::WrongWords);
        };
        let ends = Self::ends_of(end.as_str())?;
        let options = Options::from_words(alloc, false, words)?;
        Ok(Part {
            leaf_length,
            first,
            ends,
            options,
        })
    }

    // Returns the index that FIRST names, in 1 to 18 decimal digits without a leading zero. The
    // error is `Fault::WrongWords`, if FIRST is anything else.
    fn index_of(digits: &[u8]) -> Result<u64, Fault>
        ensures { result ≡ leaf_index_value digits.now }
    {
        match number_of(digits, 18) {
            Some(number) => Ok(number as u64),
            None => Err(Fault::WrongWords),
        }
    }

    // Returns whether the part ends its message: `last` says so, and `more` that it does not. The
    // error is `Fault::WrongWords`, if the argument is anything else.
    fn ends_of(word: &str) -> Result<bool, Fault>
        ensures { result ≡ ends_message_value word.now }
    {
        match word {
            "last" => Ok(true),
            "more" => Ok(false),
            _ => Err(Fault::WrongWords),
        }
    }
}

// Returns the number of bytes of a leaf that LEAF names: 1 to 2^32 - 1 in decimal digits
// without a leading zero. The error is `Fault::WrongWords`, if LEAF is anything else.
fn leaf_of(digits: &[u8]) -> Result<u32, Fault>
    ensures value { result ≡ leaf_length_value digits.now }
    ensures some { IfOk result (λ n. 1 ≤ n) }
{
    match number_of(digits, 10) {
        Some(number) if number > 0 => u32::try_from(number).map_err(|_| Fault::WrongWords),
        _ => Err(Fault::WrongWords),
    }
}

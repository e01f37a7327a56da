//! The arguments of `b2 xof` and `b2 derive`.

ghost use Rattle.std.specs.Prelude.{◌≡◌, ◌≢◌, ◌<◌, ◌≤◌, length, map, IfOk, IfErr};
ghost use Rattle.std.specs.String.{string_bytes};
ghost use Rattle.blake2.specs.Family.{blake2b};
ghost use Rattle.blake2_xof.specs.Xof.{unknown_length};
ghost use Rattle.b2_commands.specs.Kinds.{family_value};
ghost use Rattle.b2_commands.specs.ArgumentTasks.{output_length_value, output_family_of};
ghost use Rattle.b2_commands.specs.ArgumentTasks.{IsReadingFault};
ghost use Rattle.b2_commands.specs.ArgumentTasks.{words_after_raw, begins_raw};

use crate::arguments::{Options, copy_of};
use crate::fault::Fault;
use crate::numbers::number_of;
use crate::witness_arguments::Family;
use std::alloc::Global;

/// An output of BLAKE2X of `length` bytes, which is at least 1 and is known in advance. If `raw` is
/// true, its bytes are printed, and otherwise a line of digits.
#[derive(Drop)]
pub(crate) struct Extended {
    pub(crate) family: Family,
    pub(crate) length: u64,
    pub(crate) raw: bool,
    pub(crate) options: Options,
    ghost some: { 1 ≤ length },
    ghost known: { length < unknown_length (family_value family) },
}

impl Extended {
    ghost use Rattle.b2_commands.specs.ReadTasks.{xof_task_value};
    ghost use Rattle.b2_commands.specs.ArgumentTasks.{xof_task};

    /// Reads the arguments KIND LENGTH [raw] [key=HEX] [salt=HEX] [persona=HEX] from left to right,
    /// and returns the output. The error is a `Fault`, that of the first bad argument: `WrongWords`
    /// if it is missing, is not expected, is not a KIND or is not a length; `WrongHex` if its HEX
    /// is wrong; `NoMemory` if an allocation for the bytes of an option fails.
    pub(crate) fn from_words(alloc: Global, words: &[String]) -> Result<Extended, Fault>
        ensures task { IfOk result (λ output.
            xof_task (map string_bytes words.now) ≡ Ok (xof_task_value output)) }
        ensures fault { IfErr result (λ fault.
            IsReadingFault fault (xof_task (map string_bytes words.now))) }
        ensures memory { result ≡ Err Fault.NoMemory → 1 < length words.now }
    {
        let Some((kind, words)) = words.split_first() else {
            return Err(Fault::WrongWords);
        };
        let family = family_of(kind.as_str())?;
        let Some((length, words)) = words.split_first() else {
            return Err(Fault::WrongWords);
        };
        let length = length_of(family, length.as_bytes())?;
        let (raw, words) = split_raw(words);
        let options = Options::from_words(alloc, true, words)?;
        Ok(Extended {
            family,
            length,
            raw,
            options,
        })
    }
}

/// A key of `length` bytes, at least 1, that is derived for a context. If `raw` is true, its bytes
/// are printed, and otherwise a line of digits.
#[derive(Drop)]
pub(crate) struct Derivation {
    pub(crate) length: u64,
    pub(crate) context: Vec<u8>,
    pub(crate) raw: bool,
    ghost some: { 1 ≤ length },
    ghost known: { length < unknown_length blake2b },
}

impl Derivation {
    ghost use Rattle.b2_commands.specs.ReadTasks.{derivation_task};
    ghost use Rattle.b2_commands.specs.ArgumentTasks.{derive_task};

    /// Reads the arguments LENGTH CONTEXT [raw] from left to right, and returns the derivation. The
    /// error is a `Fault`: `WrongWords` if an argument is missing or is not expected, or the first
    /// is not a length; `NoMemory` if an allocation for the bytes of the context fails.
    pub(crate) fn from_words(alloc: Global, words: &[String]) -> Result<Derivation, Fault>
        ensures task { IfOk result (λ derivation.
            derive_task (map string_bytes words.now) ≡ Ok (derivation_task derivation)) }
        ensures fault { IfErr result (λ fault.
            IsReadingFault fault (derive_task (map string_bytes words.now))) }
        ensures memory { result ≡ Err Fault.NoMemory → 1 < length words.now }
    {
        let Some((length, words)) = words.split_first() else {
            return Err(Fault::WrongWords);
        };
        let length = length_of(Family::Blake2b, length.as_bytes())?;
        let Some((text, words)) = words.split_first() else {
            return Err(Fault::WrongWords);
        };
        let (raw, words) = split_raw(words);
        if !words.is_empty() {
            return Err(Fault::WrongWords);
        }
        let context = copy_of(alloc, text.as_bytes())?;
        Ok(Derivation {
            length,
            context,
            raw,
        })
    }
}

// Returns whether the first of the arguments is `raw`, and those after it, or all if it is not.
fn split_raw(words: &[String]) -> (bool, &[String])
    ensures raw { result.0 ≡ begins_raw (map string_bytes words.now) }
    ensures rest { map string_bytes result.1.now ≡ words_after_raw (map string_bytes words.now) }
    ensures fewer { length result.1.now ≤ length words.now }
{
    let Some((word, rest)) = words.split_first() else {
        return (false, words);
    };
    match word.as_str() {
        "raw" => (true, rest),
        _ => (false, words),
    }
}

// Returns the family that the KIND of `xof` names. The error is `Fault::WrongWords`, if it names
// none.
fn family_of(kind: &str) -> Result<Family, Fault>
    ensures family { IfOk result (λ family.
        output_family_of kind.now ≡ Ok (family_value family)) }
    ensures fault { IfErr result (λ fault. output_family_of kind.now ≡ Err fault) }
    ensures memory { result ≢ Err Fault.NoMemory }
{
    match kind {
        "xb" => Ok(Family::Blake2b),
        "xs" => Ok(Family::Blake2s),
        _ => Err(Fault::WrongWords),
    }
}

// Returns the length of an output that LENGTH names: 1 to 2^32 - 2, or 2^16 - 2 for BLAKE2Xs, in
// decimal digits without a leading zero. The error is `Fault::WrongWords`, if LENGTH is anything
// else.
fn length_of(family: Family, digits: &[u8]) -> Result<u64, Fault>
    ensures value { result ≡ output_length_value (family_value family) digits.now }
    ensures some { IfOk result (λ n. 1 ≤ n) }
    ensures known { IfOk result (λ n. n < unknown_length (family_value family)) }
{
    let most = match family {
        Family::Blake2b => 0xffff_fffe,
        Family::Blake2s => 0xfffe,
    };
    match number_of(digits, 10) {
        Some(number) if number > 0 && number <= most => Ok(number as u64),
        _ => Err(Fault::WrongWords),
    }
}

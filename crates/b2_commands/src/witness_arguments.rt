//! The arguments of `b2 witness`.

ghost use Rattle.std.specs.Prelude.{◌≡◌, ◌≢◌, ◌<◌, ◌≤◌, length, map, IfOk, IfErr};
ghost use Rattle.std.specs.String.{string_bytes};
ghost use Rattle.blake2.specs.Family.{output_bytes};
ghost use Rattle.b2_commands.specs.Kinds.{family_value};

use crate::arguments::{Kind, message_of};
use crate::fault::Fault;
use std::alloc::Global;

/// A family of BLAKE2.
#[derive(Clone, Copy)]
pub(crate) enum Family {
    /// BLAKE2b, with digests of up to 64 bytes.
    Blake2b,
    /// BLAKE2s, with digests of up to 32 bytes.
    Blake2s,
}

/// The digests by which messages are compared: those of `family` with `bytes` bytes, from 0 to
/// the family's maximum.
#[derive(Clone, Copy)]
pub(crate) struct Compared {
    pub(crate) family: Family,
    pub(crate) bytes: usize,
    ghost fits: { bytes ≤ output_bytes (family_value family) },
}

impl Compared {
    ghost use Rattle.b2_commands.specs.ReadTasks.{compared_kind};
    ghost use Rattle.b2_commands.specs.ArgumentTasks.{witness_kind_of};

    // Returns the digests that KIND names: `b0` and `s0` of no bytes, `b8` and `s8` of one byte,
    // and those of the other commands. The error is `Fault::WrongWords`, if KIND is not one of
    // these.
    fn from_word(word: &str) -> Result<Compared, Fault>
        ensures kind { IfOk result (λ compared.
            witness_kind_of word.now ≡ Ok (compared_kind compared)) }
        ensures fault { IfErr result (λ fault. witness_kind_of word.now ≡ Err fault) }
        ensures memory { result ≢ Err Fault.NoMemory }
    {
        let (family, bytes) = match word {
            "b0" => (Family::Blake2b, 0),
            "b8" => (Family::Blake2b, 1),
            "s0" => (Family::Blake2s, 0),
            "s8" => (Family::Blake2s, 1),
            _ => match Kind::from_word(word)? {
                Kind::Blake2b(kind) => (Family::Blake2b, kind.size()),
                Kind::Blake2s(kind) => (Family::Blake2s, kind.size()),
            },
        };
        Ok(Compared { family, bytes })
    }
}

/// Two messages, without key, salt and persona, and the digests by which they are compared.
#[derive(Drop)]
pub(crate) struct Comparison {
    pub(crate) by: Compared,
    pub(crate) a: Vec<u8>,
    pub(crate) b: Vec<u8>,
}

impl Comparison {
    ghost use Rattle.b2_commands.specs.ReadTasks.{comparison_task};
    ghost use Rattle.b2_commands.specs.ArgumentTasks.{witness_task, IsReadingFault};

    /// Reads the arguments KIND HEX HEX from left to right, and returns the comparison. The error
    /// is a `Fault`, that of the first bad argument: `WrongWords` if it is missing, is not
    /// expected or is not a KIND; `WrongHex` if it is not a message; `NoMemory` if an allocation
    /// for the message's bytes fails.
    pub(crate) fn from_words(alloc: Global, words: &[String]) -> Result<Comparison, Fault>
        ensures task { IfOk result (λ comparison.
            witness_task (map string_bytes words.now) ≡ Ok (comparison_task comparison)) }
        ensures fault { IfErr result (λ fault.
            IsReadingFault fault (witness_task (map string_bytes words.now))) }
        ensures memory { result ≡ Err Fault.NoMemory → 1 < length words.now }
    {
        let Some((kind, words)) = words.split_first() else {
            return Err(Fault::WrongWords);
        };
        let by = Compared::from_word(kind.as_str())?;
        let Some((a, words)) = words.split_first() else {
            return Err(Fault::WrongWords);
        };
        let a = message_of(alloc, a.as_bytes())?;
        let Some((b, words)) = words.split_first() else {
            return Err(Fault::WrongWords);
        };
        let b = message_of(alloc, b.as_bytes())?;
        match words.split_first() {
            None => Ok(Comparison { by, a, b }),
            Some(_) => Err(Fault::WrongWords),
        }
    }
}

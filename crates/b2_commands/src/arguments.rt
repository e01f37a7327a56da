//! The arguments of a command, read from left to right.

ghost use Rattle.std.specs.Prelude.{◌≡◌, ◌≢◌, ◌<◌, ◌≤◌, ◌↔◌, [], length, map, unwrap_or};
ghost use Rattle.std.specs.Prelude.{IsTrue, IfOk, IfErr, OnOk, IsOkUnless};
ghost use Rattle.std.specs.String.{string_bytes};
ghost use Rattle.blake2.specs.Views.{key_of};
ghost use Rattle.b2_commands.specs.ArgumentTasks.{hex_value, message_value, nonempty_text_value};
ghost use Rattle.b2_commands.specs.ArgumentTasks.{IsReadingFault};

use crate::fault::Fault;
use hex::FromHexError;
use std::alloc::Global;

/// The hash functions of BLAKE2b that have a name.
#[derive(Clone, Copy)]
pub(crate) enum Blake2bKind {
    /// `b128`, whose digests have 16 bytes.
    B128,
    /// `b256`, whose digests have 32 bytes.
    B256,
    /// `b512`, whose digests have 64 bytes.
    B512,
}

impl Blake2bKind {
    ghost use Rattle.b2_commands.specs.Kinds.{blake2b_digest_bytes};

    /// Returns the number of bytes of the digests.
    pub(crate) fn size(self) -> usize
        ensures bytes { result ≡ blake2b_digest_bytes self }
        ensures some { 1 ≤ result }
        ensures most { result ≤ 64 }
    {
        match self {
            Blake2bKind::B128 => 16,
            Blake2bKind::B256 => 32,
            Blake2bKind::B512 => 64,
        }
    }
}

/// The hash functions of BLAKE2s that have a name.
#[derive(Clone, Copy)]
pub(crate) enum Blake2sKind {
    /// `s128`, whose digests have 16 bytes.
    S128,
    /// `s256`, whose digests have 32 bytes.
    S256,
}

impl Blake2sKind {
    ghost use Rattle.b2_commands.specs.Kinds.{blake2s_digest_bytes};

    /// Returns the number of bytes of the digests.
    pub(crate) fn size(self) -> usize
        ensures bytes { result ≡ blake2s_digest_bytes self }
        ensures some { 1 ≤ result }
        ensures most { result ≤ 32 }
    {
        match self {
            Blake2sKind::S128 => 16,
            Blake2sKind::S256 => 32,
        }
    }
}

/// The hash function of a command, which its KIND names.
#[derive(Clone, Copy)]
pub(crate) enum Kind {
    Blake2b(Blake2bKind),
    Blake2s(Blake2sKind),
}

impl Kind {
    ghost use Rattle.blake2.specs.Family.{output_bytes};
    ghost use Rattle.b2_commands.specs.ArgumentTasks.{kind_of};
    ghost use Rattle.b2_commands.specs.Kinds.{kind_value};

    /// Returns the number of bytes of the digests.
    pub(crate) fn size(self) -> usize
        ensures bytes { result ≡ (kind_value self).bytes }
        ensures some { 1 ≤ result }
        ensures most { result ≤ output_bytes (kind_value self).family }
    {
        match self {
            Kind::Blake2b(kind) => kind.size(),
            Kind::Blake2s(kind) => kind.size(),
        }
    }

    /// Returns the kind of this name. The error is `Fault::WrongWords`, if there is no such kind.
    pub(crate) fn from_word(word: &str) -> Result<Kind, Fault>
        ensures kind { IfOk result (λ kind. kind_of word.now ≡ Ok (kind_value kind)) }
        ensures fault { IfErr result (λ fault. kind_of word.now ≡ Err fault) }
        ensures memory { result ≢ Err Fault.NoMemory }
    {
        match word {
            "b128" => Ok(Kind::Blake2b(Blake2bKind::B128)),
            "b256" => Ok(Kind::Blake2b(Blake2bKind::B256)),
            "b512" => Ok(Kind::Blake2b(Blake2bKind::B512)),
            "s128" => Ok(Kind::Blake2s(Blake2sKind::S128)),
            "s256" => Ok(Kind::Blake2s(Blake2sKind::S256)),
            _ => Err(Fault::WrongWords),
        }
    }
}

/// The bytes of the arguments `key=HEX`, `salt=HEX` and `persona=HEX`, or `None` for each that is
/// absent.
#[derive(Drop)]
pub(crate) struct Options {
    pub(crate) key: Option<Vec<u8>>,
    pub(crate) salt: Option<Vec<u8>>,
    pub(crate) persona: Option<Vec<u8>>,
}

impl Options {
    ghost use Rattle.b2_commands.specs.ReadOptions.{given_options};
    ghost use Rattle.b2_commands.specs.ArgumentTasks.{nothing_given, with_option, with_options};
    ghost use Rattle.b2_commands.specs.ArgumentTasks.{IsReadingFault};

    /// Reads the arguments NAME=HEX from left to right, and returns their bytes. The names are
    /// `salt`, `persona` and, if `takes_key` is true, `key`. `persona-text=TEXT` is a persona of
    /// these bytes. They come in any order, each at most once. The error is a `Fault`, that of the
    /// first bad argument, whose name is checked before its HEX: `WrongWords` if it has no `=`, its
    /// name is unknown or comes again, or its TEXT is empty; `WrongHex` if its HEX is not an even
    /// number of hexadecimal digits; `NoMemory` if an allocation for its bytes fails.
    pub(crate) fn from_words(
        alloc: Global,
        takes_key: bool,
        words: &[String],
    ) -> Result<Options, Fault>
        ensures read { IfOk result (λ options.
            with_options takes_key nothing_given (map string_bytes words.now)
            ≡ Ok (given_options options)) }
        ensures fault { IfErr result (λ fault.
            IsReadingFault fault
            (with_options takes_key nothing_given (map string_bytes words.now))) }
        ensures memory { result ≡ Err Fault.NoMemory → 0 < length words.now }
    {
        let mut options = Options {
            key: None,
            salt: None,
            persona: None,
        };
        for word in words {
            options.take_word(alloc, takes_key, word.as_str())?;
        }
        Ok(options)
    }

    // Adds the bytes of the argument NAME=HEX or NAME=TEXT, whose name must be new. The errors are
    // those of `from_words`.
    fn take_word(&mut self, alloc: Global, takes_key: bool, word: &str) -> Result<(), Fault>
        ensures taken { OnOk result
            (with_option takes_key (given_options self.old) word.now
            ≡ Ok (given_options self.new)) }
        ensures fault { IfErr result (λ fault.
            IsReadingFault fault (with_option takes_key (given_options self.old) word.now)) }
    {
        let Some((name, digits)) = word.split_once('=') else {
            return Err(Fault::WrongWords);
        };
        match name {
            "key" if takes_key && self.key.is_none() => {
                self.key = Some(bytes_of(alloc, digits.as_bytes())?)
            }
            "salt" if self.salt.is_none() => self.salt = Some(bytes_of(alloc, digits.as_bytes())?),
            "persona" if self.persona.is_none() => self.persona = Some(bytes_of(
                alloc,
                digits.as_bytes(),
            )?),
            "persona-text" if self.persona.is_none() => {
                self.persona = Some(copy_nonempty_text(alloc, digits.as_bytes())?)
            }
            _ => return Err(Fault::WrongWords),
        }
        Ok(())
    }

    /// Returns the key, or `None` if it is absent.
    pub(crate) fn key(&self) -> Option<&[u8]>
        ensures { key_of result ≡ (given_options self.now).key }
    {
        self.key.as_ref().map(|key| key.as_slice())
    }

    /// Returns the bytes of the key, or no bytes if it is absent.
    pub(crate) fn key_bytes(&self) -> &[u8]
        ensures { result.now ≡ unwrap_or (given_options self.now).key [] }
    {
        match &self.key {
            Some(key) => key.as_slice(),
            None => &[],
        }
    }

    /// Returns whether there is a key, and it has no bytes.
    pub(crate) fn has_empty_key(&self) -> bool
        ensures { IsTrue result ↔ ((given_options self.now).key ≡ Some []) }
    {
        match &self.key {
            Some(key) => key.is_empty(),
            None => false,
        }
    }

    /// Returns the salt, or no bytes if it is absent.
    pub(crate) fn salt(&self) -> &[u8]
        ensures { result.now ≡ unwrap_or (given_options self.now).salt [] }
    {
        match &self.salt {
            Some(salt) => salt.as_slice(),
            None => &[],
        }
    }

    /// Returns the persona, or no bytes if it is absent.
    pub(crate) fn persona(&self) -> &[u8]
        ensures { result.now ≡ unwrap_or (given_options self.now).persona [] }
    {
        match &self.persona {
            Some(persona) => persona.as_slice(),
            None => &[],
        }
    }

    /// Returns whether key, salt and persona are all absent.
    pub(crate) fn are_empty(&self) -> bool
        ensures { IsTrue result ↔ (given_options self.now ≡ nothing_given) }
    {
        matches!((&self.key, &self.salt, &self.persona), (None, None, None))
    }
}

// Returns the bytes of TEXT. The error is a `Fault`: `WrongWords` if it is empty, `NoMemory` if an
// allocation fails.
fn copy_nonempty_text(alloc: Global, text: &[u8]) -> Result<Vec<u8>, Fault>
    ensures bytes { IfOk result (λ bytes. nonempty_text_value text.now ≡ Ok bytes.items) }
    ensures fault { IfErr result (λ fault. IsReadingFault fault (nonempty_text_value text.now)) }
{
    match text {
        b"" => Err(Fault::WrongWords),
        _ => copy_of(alloc, text),
    }
}

// Returns a copy of these bytes. The error is `Fault::NoMemory`, if an allocation fails.
pub(crate) fn copy_of(alloc: Global, text: &[u8]) -> Result<Vec<u8>, Fault>
    ensures bytes { IfOk result (λ bytes. bytes.items ≡ text.now) }
    ensures fault { IsOkUnless result Fault.NoMemory }
{
    let mut bytes = Vec::new(alloc);
    bytes.extend_from_slice(text)?;
    Ok(bytes)
}

/// Returns the bytes of HEX as a message: an even number of hexadecimal digits, at least two, or
/// `-` for no bytes. The error is a `Fault`: `WrongHex` if HEX is anything else, `NoMemory` if an
/// allocation fails.
pub(crate) fn message_of(alloc: Global, digits: &[u8]) -> Result<Vec<u8>, Fault>
    ensures bytes { IfOk result (λ bytes. message_value digits.now ≡ Ok bytes.items) }
    ensures fault { IfErr result (λ fault. IsReadingFault fault (message_value digits.now)) }
{
    match digits {
        b"-" => Ok(Vec::new(alloc)),
        b"" => Err(Fault::WrongHex),
        _ => bytes_of(alloc, digits),
    }
}

/// Returns the bytes of an even number of hexadecimal digits of either case, or no bytes for no
/// digits. The error is a `Fault`: `WrongHex` if `digits` is anything else, `NoMemory` if an
/// allocation fails.
pub(crate) fn bytes_of(alloc: Global, digits: &[u8]) -> Result<Vec<u8>, Fault>
    ensures bytes { IfOk result (λ bytes. hex_value digits.now ≡ Ok bytes.items) }
    ensures fault { IfErr result (λ fault. IsReadingFault fault (hex_value digits.now)) }
{
    hex::decode(alloc, digits).map_err(|error| match error {
        FromHexError::OutOfMemory => Fault::NoMemory,
        _ => Fault::WrongHex,
    })
}

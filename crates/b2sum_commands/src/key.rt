//! The key of digests, from a file.

ghost use Rattle.std.specs.Prelude.{◌≡◌, ◌⊎◌, ℕ, List, Option, ◌≤◌, length, true, None};
ghost use Rattle.std.specs.Prelude.{IfOk, IfSome, IsOkUnless};
ghost use Rattle.std.specs.List.{list_all};
ghost use Rattle.std.specs.Option.{option_map};
ghost use Rattle.hex.specs.Hex.{is_hex_digit};
ghost use Rattle.b2sum_commands.specs.KeyTexts.{
  are_digits,
  key_if_fitting,
  key_of_file_bytes,
  max_key_file_bytes,
};
ghost use Rattle.b2sum_commands.specs.KeyTexts.{without_final_newline};
ghost use Rattle.std.specs.Io.KnownBytes.{Consumes, IsAtEnd};
ghost use Rattle.std.specs.declared.io.Error.{Error};
ghost use Rattle.b2sum_commands.specs.Messages.{Cannot, is_standard_input, message};
ghost use Rattle.b2sum_commands.specs.World.{
  OpenFileHasError,
  FileHasKey,
  FileHasNoKey,
  SinkAcceptsOrFails,
  world_of,
};
ghost use Rattle.b2sum_commands.specs.ProgramRuns.{InputIsPastKey, TellsNoKey, key_file_bytes};
ghost use Rattle.b2sum_commands.specs.ProgramRuns.{no_key_reason};

use crate::devices::{Disk, Fault, OpenFile, Output};
use crate::hashes::Hashes;
use crate::messages::{warn_of_file, warn_of_name};
use crate::session::{Host, Session};
use crate::sums::is_standard_input;
use blake2_streams::Sink;
use hex::FromHexError;
use std::alloc::Global;

/// Returns the key of the key's file: all its bytes, or those that it has as hexadecimal digits if
/// the options say so, at least 1 and at most `most`. For another file the result is `None`, after
/// a message. The memory has to be hidden, as far as the disk can. The error is `Fault::NoMemory`.
pub(crate) fn read_key<H: Hashes, D: Disk, K: Output, E: Sink>(
    host: &Host<H, D>,
    session: &mut Session<D::File, K, E>,
    name: &[u8],
    form: Form,
    is_hidden: bool,
) -> Result<Option<Vec<u8>>, Fault>
    requires hidden { is_hidden ≡ D.hides host.now.disk }
    requires most { form.most ≤ 64 }
    ensures key { IfOk result (λ found. IfSome found (λ key. FileHasKey
        (key_file_bytes (D.files host.now.disk) session.old.left name.now) form.is_hex form.most
        key.items)) }
    ensures some { IfOk result (λ found. IfSome found (λ key. 1 ≤ length key.items)) }
    ensures fits { IfOk result (λ found. IfSome found (λ key. length key.items ≤ form.most)) }
    ensures kept { IfOk result (λ found. IfSome found (λ _. (left : Option (List ℕ))
        × (session.new ≡ record session.old { left = left })
        × InputIsPastKey (is_standard_input name.now) session.old.left left)) }
    ensures told { IfOk result (λ found. found ≡ None → TellsNoKey
        (world_of host.now.program.name.items D.File.named D.File.failed D.File.failure
        (D.files host.now.disk) H.hashing) name.now form.is_hex form.most session.old
        session.new) }
    ensures held { session.new.held ≡ session.old.held }
    ensures memory { IsOkUnless result Fault.NoMemory }
{
    let messages = &mut session.messages;
    if is_standard_input(name) {
        return read_key_from(host, &mut session.input, name, form, messages);
    }
    match host.disk.open(host.program.alloc, name) {
        Ok(mut file) => read_key_from(host, &mut file, name, form, messages),
        Err(error) => {
            warn_of_file(host, error, messages, name)?;
            Ok(None)
        }
    }
}

/// What a key file has.
#[derive(Clone, Copy, Debug, PartialEq, Eq)]
pub(crate) struct Form {
    /// It has hexadecimal digits, which write the key.
    pub(crate) is_hex: bool,
    /// The most bytes of the key, at most 64.
    pub(crate) most: usize,
}

// Returns the key in all bytes of an open file of this name, as `read_key` does.
fn read_key_from<H, D: Disk, E: Sink>(
    host: &Host<H, D>,
    file: &mut D::File,
    name: &[u8],
    form: Form,
    messages: &mut E,
) -> Result<Option<Vec<u8>>, Fault>
    requires named { D.File.named file.old ≡ name.now }
    requires most { form.most ≤ 64 }
    ensures key { IfOk result (λ key. IfSome key
        (λ bytes. FileHasKey (D.File.left file.old) form.is_hex form.most bytes.items)) }
    ensures some { IfOk result (λ key. IfSome key (λ bytes. 1 ≤ length bytes.items)) }
    ensures fits { IfOk result (λ key. IfSome key (λ bytes. length bytes.items ≤ form.most)) }
    ensures end { IfOk result (λ key. IfSome key
        (λ _. InputIsPastKey true (D.File.left file.old) (D.File.left file.new))) }
    ensures name { D.File.named file.new ≡ name.now }
    ensures kept { IfOk result (λ key. IfSome key (λ _. messages.new ≡ messages.old)) }
    ensures told { IfOk result (λ key. key ≡ None → (reason : List ℕ)
        × (((e : Error) × OpenFileHasError D.File.named D.File.failed D.File.failure name.now e
        × (D.files host.now.disk).describes e reason)
        ⊎ (FileHasNoKey (D.File.left file.old) form.is_hex form.most
        × (reason ≡ no_key_reason form.is_hex form.most)))
        × SinkAcceptsOrFails (E.failed messages.old) (E.failed messages.new) (E.held messages.old)
        (E.held messages.new) (message host.now.program.name.items (Cannot name.now reason))) }
    ensures memory { IsOkUnless result Fault.NoMemory }
{
    let alloc = host.program.alloc;
    let Some(bytes) = read_bytes(alloc, file, max_key_file_bytes(form))? else {
        warn_of_file(host, file.last_error(), messages, name)?;
        return Ok(None);
    };
    if bytes.len() > max_key_file_bytes(form) {
        warn_of_name(&host.program, messages, name, no_key_reason(form))?;
        return Ok(None);
    }
    let Some(key) = key_of_file_bytes(alloc, form, bytes)? else {
        warn_of_name(&host.program, messages, name, no_key_reason(form))?;
        return Ok(None);
    };
    Ok(Some(key))
}

// Returns the most bytes that a file with a key has.
fn max_key_file_bytes(form: Form) -> usize
    requires { form.most ≤ 64 }
    ensures { result ≡ max_key_file_bytes form.is_hex form.most }
{
    if form.is_hex {
        2 * form.most + 1
    } else {
        form.most
    }
}

// Returns the key that the bytes of a key file have, or `None` if they are no key. It has a
// separate frame, as `read_bytes` has.
#[inline(never)]
fn key_of_file_bytes(alloc: Global, form: Form, bytes: Vec<u8>) -> Result<Option<Vec<u8>>, Fault>
    ensures key { IfOk result (λ found. option_map (λ key. key.items) found
        ≡ key_of_file_bytes form.is_hex form.most bytes.items) }
    ensures some { IfOk result (λ found. IfSome found (λ key. 1 ≤ length key.items)) }
    ensures fits { IfOk result (λ found. IfSome found (λ key. length key.items ≤ form.most)) }
    ensures memory { IsOkUnless result Fault.NoMemory }
{
    if !form.is_hex {
        return Ok(key_if_fitting(form.most, bytes));
    }
    match hex::decode(alloc, without_final_newline(bytes.as_slice())) {
        Ok(key) => Ok(key_if_fitting(form.most, key)),
        Err(FromHexError::OutOfMemory) => Err(Fault::NoMemory),
        Err(_) => Ok(None),
    }
}

// Returns the key, if it has at least one byte and at most so many.
fn key_if_fitting(most: usize, key: Vec<u8>) -> Option<Vec<u8>>
    ensures key { option_map (λ k. k.items) result ≡ key_if_fitting most key.items }
    ensures some { IfSome result (λ k. 1 ≤ length k.items) }
    ensures fits { IfSome result (λ k. length k.items ≤ most) }
{
    if !key.is_empty() && key.len() <= most {
        Some(key)
    } else {
        None
    }
}

// Returns the text without one newline at its end.
fn without_final_newline(text: &[u8]) -> &[u8]
    ensures { result.now ≡ without_final_newline text.now }
{
    if text.is_empty() {
        return text;
    }
    let last = text.len() - 1;
    if text[last] == b'\n' {
        &text[..last]
    } else {
        text
    }
}

/// Returns whether there are only hexadecimal digits, at least one, with a newline after them or
/// none.
pub(crate) fn are_digits(bytes: &[u8]) -> bool
    ensures { result ≡ are_digits bytes.now }
{
    let digits = without_final_newline(bytes);
    !digits.is_empty() && all_digits(digits)
}

// Returns whether all bytes are hexadecimal digits.
fn all_digits(text: &[u8]) -> bool
    ensures { result ≡ list_all is_hex_digit text.now }
{
    for byte in text {
        if !is_digit(*byte) {
            return false;
        }
    }
    true
}

// Returns whether the byte is a hexadecimal digit of either case.
fn is_digit(byte: u8) -> bool
    ensures { result ≡ is_hex_digit byte }
{
    matches!(byte, b'A'..=b'F' | b'a'..=b'f' | b'0'..=b'9')
}

// Returns why a file has no key.
fn no_key_reason(form: Form) -> &'static [u8]
    ensures { result.now ≡ no_key_reason form.is_hex form.most }
{
    match (form.is_hex, form.most == 64) {
        (false, true) => b"a key has 1 to 64 bytes",
        (false, false) => b"a key of BLAKE2s or BLAKE2sp has 1 to 32 bytes",
        (true, true) => b"a key has 2 to 128 hexadecimal digits, two for each byte",
        (true, false) => {
            b"a key of BLAKE2s or BLAKE2sp has 2 to 64 hexadecimal digits, two for each byte"
        }
    }
}

// Returns all bytes that the source returns, or more than `most` if it has more. The result is
// `None` if a read failed. It has a separate frame, so that what it leaves of the key on the stack
// is below the next read, where C wipes it.
#[inline(never)]
fn read_bytes<S: OpenFile>(
    alloc: Global,
    source: &mut S,
    most: usize,
) -> Result<Option<Vec<u8>>, Fault>
    ensures given { IfOk result (λ found. IfSome found
        (λ bytes. Consumes (S.left source.old) (S.left source.new) bytes.items)) }
    ensures whole { IfOk result (λ found. IfSome found
        (λ bytes. length bytes.items ≤ most → IsAtEnd (S.left source.new))) }
    ensures failed { IfOk result (λ found. found ≡ None → S.failed source.new ≡ true) }
    ensures name { S.named source.new ≡ S.named source.old }
    ensures memory { IsOkUnless result Fault.NoMemory }
{
    let mut bytes = Vec::with_capacity(alloc, most)?;
    let mut buffer = [0u8; 65];
    for _ in 0..u64::MAX {
        let Ok(count) = source.read(&mut buffer) else {
            return Ok(None);
        };
        if count == 0 {
            return Ok(Some(bytes));
        }
        let piece = &buffer[..];
        bytes.extend_from_slice(&piece[..count])?;
        if bytes.len() > most {
            return Ok(Some(bytes));
        }
    }
    Err(Fault::NoMemory)
}

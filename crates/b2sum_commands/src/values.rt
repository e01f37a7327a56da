//! The values of options.

ghost use Rattle.std.specs.Prelude.{◌≡◌, IfErr, IfOk, Some};
ghost use Rattle.std.specs.List.{list_all};
ghost use Rattle.std.specs.Result.{result_ok};
ghost use Rattle.b2sum_commands.specs.CommandLine.{
  parsed_number,
  without_leading_blanks,
  without_leading_plus,
};
ghost use Rattle.b2sum_commands.specs.CommandLine.{
  parsed_leaf_length,
  parsed_bit_length,
  nonzero_bytes_of_hex,
  algorithm_of_name,
};
ghost use Rattle.b2sum_commands.specs.CommandLine.{
  digest_of_hex_value,
  is_zero,
  nonempty_text,
  parsed_thread_count,
};
ghost use Rattle.b2sum_commands.specs.CommandLineViews.{IsRefusalOrNoMemory, StopsSinceNoValue};

use crate::digest::ExpectedDigest;
use crate::options::{Stop, joined};
use crate::quoting::quoted_value;
use b2sum_lines::Algorithm;
use hex::FromHexError;
use std::alloc::Global;

// Returns the stop of a wrong value: this line and the value, and a line that says why.
fn wrong_value(alloc: Global, line: &[u8], value: &[u8], reason: &[u8]) -> Stop
    ensures { IsRefusalOrNoMemory result }
{
    let Ok(quoted) = quoted_value(alloc, value) else {
        return Stop::NoMemory;
    };
    let Ok(first) = joined(alloc, line, quoted.as_slice(), b"") else {
        return Stop::NoMemory;
    };
    match joined(alloc, reason, b"", b"") {
        Ok(second) => Stop::Value(first, second),
        Err(_) => Stop::NoMemory,
    }
}

// Returns the algorithm of this name.
pub(crate) fn algorithm_of(alloc: Global, value: &[u8]) -> Result<Algorithm, Stop>
    ensures algorithm { IfOk result (λ a. algorithm_of_name value.now ≡ Some a) }
    ensures stop { IfErr result (StopsSinceNoValue (algorithm_of_name value.now)) }
{
    if value == b"blake2b".as_slice() {
        return Ok(Algorithm::Blake2b);
    }
    if value == b"blake2s".as_slice() {
        return Ok(Algorithm::Blake2s);
    }
    if value == b"blake2bp".as_slice() {
        return Ok(Algorithm::Blake2bp);
    }
    if value == b"blake2sp".as_slice() {
        return Ok(Algorithm::Blake2sp);
    }
    let value = quoted_value(alloc, value)?;
    let text = joined(alloc, b"invalid algorithm: ", value.as_slice(), b"")?;
    Err(Stop::Usage(text))
}

// Why hexadecimal digits are refused.
const NO_DIGITS: &[u8] = b"the value has no digits";

const NOT_DIGITS: &[u8] = b"the value is not hexadecimal digits, two for each byte";

// Why a salt and a personalization of zeros are refused: BLAKE2 pads those that are not there with
// zeros.
const ZEROS: &[u8] = b"a value of zeros only is the same as none";

// Returns the bytes that hexadecimal digits write: not only zeros.
pub(crate) fn bytes_of(alloc: Global, line: &[u8], value: &[u8]) -> Result<Vec<u8>, Stop>
    ensures bytes { IfOk result (λ bytes. nonzero_bytes_of_hex value.now ≡ Some bytes.items) }
    ensures stop { IfErr result (StopsSinceNoValue (nonzero_bytes_of_hex value.now)) }
{
    if value.is_empty() {
        return Err(wrong_value(alloc, line, value, NO_DIGITS));
    }
    match hex::decode(alloc, value) {
        Ok(bytes) => {
            if are_zeros(bytes.as_slice()) {
                return Err(wrong_value(alloc, line, value, ZEROS));
            }
            Ok(bytes)
        }
        Err(FromHexError::OutOfMemory) => Err(Stop::NoMemory),
        Err(_) => Err(wrong_value(alloc, line, value, NOT_DIGITS)),
    }
}

// Returns the digest that hexadecimal digits write: 1 to 64 bytes.
pub(crate) fn digest_of(alloc: Global, value: &[u8]) -> Result<ExpectedDigest, Stop>
    ensures digest { IfOk result
        (λ digest. digest_of_hex_value value.now ≡ Some digest.bytes.items) }
    ensures stop { IfErr result (StopsSinceNoValue (digest_of_hex_value value.now)) }
{
    let line = b"invalid digest: ";
    if value.is_empty() {
        return Err(wrong_value(alloc, line, value, NO_DIGITS));
    }
    match hex::decode(alloc, value) {
        Ok(bytes) => {
            if bytes.len() > 64 {
                return Err(wrong_value(alloc, line, value, b"a digest has at most 512 bits"));
            }
            Ok(ExpectedDigest { bytes })
        }
        Err(FromHexError::OutOfMemory) => Err(Stop::NoMemory),
        Err(_) => Err(wrong_value(alloc, line, value, NOT_DIGITS)),
    }
}

// Returns whether all bytes are zero.
fn are_zeros(bytes: &[u8]) -> bool
    ensures { result ≡ list_all is_zero bytes.now }
{
    for byte in bytes {
        if *byte != 0 {
            return false;
        }
    }
    true
}

// Returns the bytes of a text: at least one.
pub(crate) fn text_of(alloc: Global, line: &[u8], value: &[u8]) -> Result<Vec<u8>, Stop>
    ensures bytes { IfOk result (λ bytes. nonempty_text value.now ≡ Some bytes.items) }
    ensures stop { IfErr result (StopsSinceNoValue (nonempty_text value.now)) }
{
    if value.is_empty() {
        return Err(wrong_value(alloc, line, value, b"the value has no bytes"));
    }
    Ok(Vec::from_slice(alloc, value)?)
}

// Returns the number of bytes of a leaf.
pub(crate) fn leaf_of(alloc: Global, value: &[u8]) -> Result<u32, Stop>
    ensures leaf { IfOk result (λ leaf. parsed_leaf_length value.now ≡ Some leaf) }
    ensures stop { IfErr result (StopsSinceNoValue (parsed_leaf_length value.now)) }
{
    match number_of(value) {
        Ok(leaf) if leaf > 0 && leaf <= u64::from(u32::MAX) => Ok(leaf as u32),
        _ => {
            let reason = b"a leaf has 1 to 4294967295 bytes";
            Err(wrong_value(alloc, b"invalid leaf length: ", value, reason))
        }
    }
}

// Returns the number of threads.
pub(crate) fn threads_of(alloc: Global, value: &[u8]) -> Result<u32, Stop>
    ensures threads { IfOk result (λ threads. parsed_thread_count value.now ≡ Some threads) }
    ensures stop { IfErr result (StopsSinceNoValue (parsed_thread_count value.now)) }
{
    match number_of(value) {
        Ok(threads) if threads <= u64::from(u32::MAX) => Ok(threads as u32),
        _ => {
            let reason = b"the value is not a number of threads, or 0 for all processors";
            Err(wrong_value(alloc, b"invalid number of threads: ", value, reason))
        }
    }
}

// Returns the number of bits of the digests.
pub(crate) fn bits_of(alloc: Global, value: &[u8]) -> Result<u64, Stop>
    ensures bits { IfOk result (λ bits. parsed_bit_length value.now ≡ Some bits) }
    ensures stop { IfErr result (StopsSinceNoValue (parsed_bit_length value.now)) }
{
    let line = b"invalid length: ";
    match number_of(value) {
        Ok(bits) if bits % 8 == 0 => Ok(bits),
        Ok(_) => Err(wrong_value(alloc, line, value, b"length is not a multiple of 8")),
        Err(reason) => {
            let quoted = quoted_value(alloc, value)?;
            let first = joined(alloc, line, quoted.as_slice(), reason)?;
            Err(Stop::Value(first, Vec::new(alloc)))
        }
    }
}

// Returns the number that decimal digits write, with blanks and a plus before them or none. The
// error is what the message has after the value.
fn number_of(text: &[u8]) -> Result<u64, &'static [u8]>
    ensures { result_ok result ≡ parsed_number text.now }
{
    let digits = after_plus(after_blanks(text));
    if digits.is_empty() {
        return Err(b"");
    }
    let mut number = 0u64;
    let mut is_large = false;
    for digit in digits {
        if *digit < b'0' || *digit > b'9' {
            return Err(b"");
        }
        let unit = u64::from(*digit - b'0');
        if number > (u64::MAX - unit) / 10 {
            is_large = true;
        } else {
            number = number * 10 + unit;
        }
    }
    if is_large {
        return Err(b": Value too large for defined data type");
    }
    Ok(number)
}

// Returns the text without the blanks at its front.
fn after_blanks(text: &[u8]) -> &[u8]
    ensures { result.now ≡ without_leading_blanks text.now }
{
    let mut at = 0;
    'blanks: while at < text.len() && (text[at] == b' ' || (text[at] >= 9 && text[at] < 14)) {
        at += 1;
    }
    &text[at..]
}

// Returns the text without one plus at its front.
fn after_plus(text: &[u8]) -> &[u8]
    ensures { result.now ≡ without_leading_plus text.now }
{
    match text {
        [b'+', rest @ ..] => rest,
        _ => text,
    }
}

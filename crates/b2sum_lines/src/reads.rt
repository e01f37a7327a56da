//! Reading lines.

ghost use Rattle.std.specs.Prelude.{◌≡◌, ◌≤◌, length, IfOk, IfSome};
ghost use Rattle.std.specs.Option.{option_map};
ghost use Rattle.b2sum_lines.specs.ManifestLines.{line_entry, entry_after_mark, untagged_entry};
ghost use Rattle.b2sum_lines.specs.ManifestLines.{tagged_entry};
ghost use Rattle.b2sum_lines.specs.ManifestLines.{
  name_after_digits,
  name_after_blank,
  digits_after_equals,
};
ghost use Rattle.b2sum_lines.specs.ManifestLines.{name_after_tag};
ghost use Rattle.b2sum_lines.specs.ManifestLines.{text_after_opening, after_parenthesis};
ghost use Rattle.b2sum_lines.specs.ManifestLines.{digest_of_digits, entry_with};
ghost use Rattle.b2sum_lines.specs.ManifestLines.{after_prefix};
ghost use Rattle.b2sum_lines.specs.ManifestLines.{algorithm_at_front, needs_at_front};
ghost use Rattle.b2sum_lines.specs.EntryViews.{entry_value};

use crate::cuts::{after_prefix, skip_blanks, skip_digits, split_at_last};
use crate::entry::{Algorithm, Entry, Spacing, Style};
use crate::names::name_of_text;
use crate::tags::{algorithm_of, needs_of};
use hex::FromHexError;
use std::alloc::{AllocError, Global};
use text_lines::push_decimal;

/// Returns the entry that a line without its newline is read as, or `None` if it is not the line
/// of an entry. A tag says the algorithm; a line without a tag is of `algorithm`. `spacing` is what
/// the untagged lines before have. The digest of an entry has at most 64 bytes. The error is
/// `AllocError`, if an allocation fails.
pub fn read_line(
    alloc: Global,
    algorithm: Algorithm,
    spacing: Spacing,
    line: &[u8],
) -> Result<Option<Entry>, AllocError>
    ensures entry { IfOk result
        (λ entry. option_map entry_value entry ≡ line_entry algorithm spacing line.now) }
    ensures fits { IfOk result (λ entry. IfSome entry (λ e. length e.digest.items ≤ 64)) }
{
    match skip_blanks(line) {
        [] => Ok(None),
        [b'\\', rest @ ..] => read_body(alloc, algorithm, spacing, true, rest),
        body => read_body(alloc, algorithm, spacing, false, body),
    }
}

// Returns the entry of a line without its mark.
fn read_body(
    alloc: Global,
    algorithm: Algorithm,
    spacing: Spacing,
    is_escaped: bool,
    line: &[u8],
) -> Result<Option<Entry>, AllocError>
    ensures entry { IfOk result (λ entry. option_map entry_value entry
        ≡ entry_after_mark algorithm spacing is_escaped line.now (algorithm_at_front line.now)) }
    ensures fits { IfOk result (λ entry. IfSome entry (λ e. length e.digest.items ≤ 64)) }
{
    match algorithm_of(line) {
        Some((named, rest)) => read_tagged(alloc, named, is_escaped, rest),
        None if algorithm.is_tree() => Ok(None),
        None => read_untagged(alloc, algorithm, spacing, is_escaped, line),
    }
}

// Returns the entry of a line with the digits first.
fn read_untagged(
    alloc: Global,
    algorithm: Algorithm,
    spacing: Spacing,
    is_escaped: bool,
    line: &[u8],
) -> Result<Option<Entry>, AllocError>
    ensures entry { IfOk result (λ entry. option_map entry_value entry
        ≡ untagged_entry algorithm spacing is_escaped line.now) }
    ensures fits { IfOk result (λ entry. IfSome entry (λ e. length e.digest.items ≤ 64)) }
{
    let rest = skip_digits(line);
    let digits = &line[..line.len() - rest.len()];
    let Some(digest) = digest_of_digits(alloc, algorithm, digits)? else {
        return Ok(None);
    };
    let Some((style, text)) = name_after_digits(spacing, rest) else {
        return Ok(None);
    };
    entry_with(alloc, algorithm, is_escaped, digest, style, text)
}

// Returns the entry of what follows the name of its algorithm.
fn read_tagged(
    alloc: Global,
    algorithm: Algorithm,
    is_escaped: bool,
    text: &[u8],
) -> Result<Option<Entry>, AllocError>
    ensures entry { IfOk result (λ entry. option_map entry_value entry
        ≡ tagged_entry algorithm is_escaped (needs_at_front text.now)) }
    ensures fits { IfOk result (λ entry. IfSome entry (λ e. length e.digest.items ≤ 64)) }
{
    let (needs, text) = needs_of(text);
    let Some((front, tail)) = split_at_last(text, b')') else {
        return Ok(None);
    };
    let Some(digits) = digits_after_equals(skip_blanks(tail)) else {
        return Ok(None);
    };
    let Some(digest) = digest_of_digits(alloc, algorithm, digits)? else {
        return Ok(None);
    };
    let Some(name) = name_after_tag(alloc, algorithm, digest.len(), front)? else {
        return Ok(None);
    };
    entry_with(
        alloc,
        algorithm,
        is_escaped,
        digest,
        Style::Tagged(needs),
        name,
    )
}

// Returns the entry of these parts, or `None` if the text stands for no name.
fn entry_with(
    alloc: Global,
    algorithm: Algorithm,
    is_escaped: bool,
    digest: Vec<u8>,
    style: Style,
    text: &[u8],
) -> Result<Option<Entry>, AllocError>
    requires { length digest.items ≤ 64 }
    ensures entry { IfOk result (λ entry. option_map entry_value entry
        ≡ entry_with algorithm is_escaped digest.items
        (record { style = style; text = text.now })) }
    ensures fits { IfOk result (λ entry. IfSome entry (λ e. length e.digest.items ≤ 64)) }
{
    let Some(name) = name_of_text(alloc, is_escaped, text)? else {
        return Ok(None);
    };
    Ok(Some(Entry {
        algorithm,
        digest,
        name,
        style,
    }))
}

// Returns the digest of hexadecimal digits, or `None` if they are none of the algorithm. More
// digits than the longest digest has are not decoded, so that a long line costs no memory.
fn digest_of_digits(
    alloc: Global,
    algorithm: Algorithm,
    digits: &[u8],
) -> Result<Option<Vec<u8>>, AllocError>
    ensures digest { IfOk result
        (λ digest. option_map (λ d. d.items) digest ≡ digest_of_digits algorithm digits.now) }
    ensures fits { IfOk result (λ digest. IfSome digest (λ d. length d.items ≤ 64)) }
{
    if digits.len() > 2 * algorithm.max_bytes() {
        return Ok(None);
    }
    match hex::decode(alloc, digits) {
        Ok(digest) => {
            if digest.is_empty() || digest.len() > algorithm.max_bytes() {
                return Ok(None);
            }
            Ok(Some(digest))
        }
        Err(FromHexError::OutOfMemory) => Err(AllocError),
        Err(_) => Ok(None),
    }
}

// Returns the style and the text of the name after the digits.
fn name_after_digits(spacing: Spacing, rest: &[u8]) -> Option<(Style, &[u8])>
    ensures { option_map (λ p. record { style = p.0; text = p.1.now }) result
        ≡ name_after_digits spacing rest.now }
{
    match rest {
        [b' ' | b'\t', rest @ ..] => name_after_blank(spacing, rest),
        _ => None,
    }
}

// Returns the style and the text of the name after the blank.
fn name_after_blank(spacing: Spacing, rest: &[u8]) -> Option<(Style, &[u8])>
    ensures { option_map (λ p. record { style = p.0; text = p.1.now }) result
        ≡ name_after_blank spacing rest.now }
{
    match (spacing, rest) {
        (Spacing::One, _) => Some((Style::Bare, rest)),
        (_, [b' ', text @ ..]) if !text.is_empty() => Some((Style::Text, text)),
        (_, [b'*', text @ ..]) if !text.is_empty() => Some((Style::Binary, text)),
        (Spacing::Open, _) => Some((Style::Bare, rest)),
        (Spacing::Two, _) => None,
    }
}

// Returns the digits after an `=` and blanks.
fn digits_after_equals(text: &[u8]) -> Option<&[u8]>
    ensures { option_map (λ rest. rest.now) result ≡ digits_after_equals text.now }
{
    match text {
        [b'=', rest @ ..] => Some(skip_blanks(rest)),
        _ => None,
    }
}

// Returns the text of the name in what follows the tag, up to the last parenthesis, for a digest
// of this many bytes.
fn name_after_tag(
    alloc: Global,
    algorithm: Algorithm,
    bytes: usize,
    text: &[u8],
) -> Result<Option<&[u8]>, AllocError>
    requires { bytes ≤ 64 }
    ensures { IfOk result
        (λ name. option_map (λ n. n.now) name ≡ name_after_tag algorithm bytes text.now) }
{
    let mut length = Vec::new(alloc);
    length.push(b'-')?;
    push_decimal(&mut length, 8 * bytes as u64)?;
    match after_prefix(length.as_slice(), text) {
        Some(rest) => Ok(text_after_opening(rest)),
        None if bytes == algorithm.max_bytes() => Ok(text_after_opening(text)),
        None => Ok(None),
    }
}

// Returns what follows an opening parenthesis, with one space before it or none.
fn text_after_opening(text: &[u8]) -> Option<&[u8]>
    ensures { option_map (λ rest. rest.now) result ≡ text_after_opening text.now }
{
    match text {
        [b' ', rest @ ..] => after_parenthesis(rest),
        _ => after_parenthesis(text),
    }
}

// Returns what follows an opening parenthesis.
fn after_parenthesis(text: &[u8]) -> Option<&[u8]>
    ensures { option_map (λ rest. rest.now) result ≡ after_parenthesis text.now }
{
    match text {
        [b'(', rest @ ..] => Some(rest),
        _ => None,
    }
}

//! Writing lines.

ghost use Rattle.std.specs.Prelude.{◌≡◌, ◌++◌, ◌*◌, ◌≤◌, length, IfOk, OnOk};
ghost use Rattle.hex.specs.Hex.{encode_lower};
ghost use Rattle.b2sum_lines.specs.ManifestLines.{
  entry_line,
  unescaped_line,
  line_after_mark,
  needs_text,
};
ghost use Rattle.b2sum_lines.specs.ManifestLines.{tag, tag_length_text, IsReadBack, IsReadByTag};
ghost use Rattle.b2sum_lines.specs.EntryViews.{entry_value};

use crate::entry::{Algorithm, Entry, Needs, Style};
use crate::names::{escape_name, push_escaped};
use std::alloc::{AllocError, Global};
use text_lines::push_decimal;

/// Returns the entry's line, without a newline. A name with a backslash, a newline or a carriage
/// return is escaped, with a backslash at the front of the line. The error is `AllocError`, if an
/// allocation fails. The digest has at most 64 bytes.
///
/// A line of a digest that the algorithm has and of a name with no zero byte is read as its entry,
/// a tagged line whatever the algorithm of lines without a tag is.
pub fn write_line(alloc: Global, entry: &Entry) -> Result<Vec<u8>, AllocError>
    requires { length entry.now.digest.items ≤ 64 }
    ensures line { IfOk result (λ line. line.items ≡ entry_line (entry_value entry.now)) }
    ensures read_back { IfOk result (λ line. IsReadBack (entry_value entry.now) line.items) }
    ensures read_by_tag { IfOk result (λ line. IsReadByTag (entry_value entry.now) line.items) }
{
    let line = line_of(alloc, entry)?;
    Ok(line)
}

// Returns the entry's line, without a newline.
fn line_of(alloc: Global, entry: &Entry) -> Result<Vec<u8>, AllocError>
    requires { length entry.now.digest.items ≤ 64 }
    ensures { IfOk result (λ line. line.items ≡ entry_line (entry_value entry.now)) }
{
    let mut line = Vec::new(alloc);
    if !escape_name(entry.name.as_slice()) {
        push_body(alloc, &mut line, entry, entry.name.as_slice())?;
        return Ok(line);
    }
    let mut text = Vec::new(alloc);
    push_escaped(&mut text, entry.name.as_slice())?;
    line.push(b'\\')?;
    push_body(alloc, &mut line, entry, text.as_slice())?;
    Ok(line)
}

/// Returns the entry's line with the name as it is, for lines that end with a zero byte. The error
/// is `AllocError`, if an allocation fails. The digest has at most 64 bytes.
pub fn write_plain_line(alloc: Global, entry: &Entry) -> Result<Vec<u8>, AllocError>
    requires { length entry.now.digest.items ≤ 64 }
    ensures { IfOk result (λ line. line.items ≡ unescaped_line (entry_value entry.now)) }
{
    let mut line = Vec::new(alloc);
    push_body(alloc, &mut line, entry, entry.name.as_slice())?;
    Ok(line)
}

// Appends the line of the entry with this text of its name.
fn push_body(
    alloc: Global,
    line: &mut Vec<u8>,
    entry: &Entry,
    text: &[u8],
) -> Result<(), AllocError>
    requires { length entry.now.digest.items ≤ 64 }
    ensures { OnOk result (line.new.items ≡ line.old.items
        ++ line_after_mark entry.now.style entry.now.algorithm entry.now.digest.items text.now) }
{
    match entry.style {
        Style::Tagged(needs) => {
            push_tag(alloc, line, entry, needs)?;
            line.extend_from_slice(b" (")?;
            line.extend_from_slice(text)?;
            line.extend_from_slice(b") = ")?;
            push_hex(alloc, line, entry.digest.as_slice())
        }
        Style::Text => {
            push_hex(alloc, line, entry.digest.as_slice())?;
            line.extend_from_slice(b"  ")?;
            line.extend_from_slice(text)
        }
        Style::Binary => {
            push_hex(alloc, line, entry.digest.as_slice())?;
            line.extend_from_slice(b" *")?;
            line.extend_from_slice(text)
        }
        Style::Bare => {
            push_hex(alloc, line, entry.digest.as_slice())?;
            line.extend_from_slice(b" ")?;
            line.extend_from_slice(text)
        }
    }
}

// Appends two lower-case hexadecimal digits for each byte.
fn push_hex(alloc: Global, line: &mut Vec<u8>, bytes: &[u8]) -> Result<(), AllocError>
    ensures { OnOk result (line.new.items ≡ line.old.items ++ encode_lower bytes.now) }
{
    let text = hex::encode(alloc, bytes)?;
    line.extend_from_slice(text.as_bytes())
}

// Appends the tag of the entry.
fn push_tag(
    alloc: Global,
    line: &mut Vec<u8>,
    entry: &Entry,
    needs: Needs,
) -> Result<(), AllocError>
    requires { length entry.now.digest.items ≤ 64 }
    ensures { OnOk result (line.new.items ≡ line.old.items
        ++ (tag entry.now.algorithm ++ (needs_text needs
        ++ tag_length_text entry.now.algorithm (length entry.now.digest.items)))) }
{
    line.extend_from_slice(entry.algorithm.tag(alloc)?.as_slice())?;
    push_needs(line, needs)?;
    push_tag_length(line, entry.algorithm, entry.digest.len())
}

// Appends what a tag says of a key, a salt and a personalization.
fn push_needs(line: &mut Vec<u8>, needs: Needs) -> Result<(), AllocError>
    ensures { OnOk result (line.new.items ≡ line.old.items ++ needs_text needs) }
{
    if needs.key {
        line.extend_from_slice(b"-key")?;
    }
    if needs.salt {
        line.extend_from_slice(b"-salt")?;
    }
    if needs.personal {
        line.extend_from_slice(b"-personal")?;
    }
    Ok(())
}

// Appends the length of the digest in a tag, in bits, unless it is the longest.
fn push_tag_length(line: &mut Vec<u8>, algorithm: Algorithm, bytes: usize) -> Result<(), AllocError>
    requires { bytes ≤ 64 }
    ensures { OnOk result (line.new.items ≡ line.old.items ++ tag_length_text algorithm bytes) }
{
    if bytes == algorithm.max_bytes() {
        return Ok(());
    }
    line.push(b'-')?;
    push_decimal(line, 8 * bytes as u64)
}

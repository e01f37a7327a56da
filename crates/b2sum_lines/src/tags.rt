//! Reading the tags of lines.

ghost use Rattle.std.specs.Prelude.{◌≡◌, ◌≤◌, length, if◌then◌else◌, codes, Some, None};
ghost use Rattle.std.specs.Char.{is_ascii_digit};
ghost use Rattle.std.specs.List.{list_all};
ghost use Rattle.std.specs.Option.{option_map};
ghost use Rattle.std.specs.Str.Parse.{digits_value};
ghost use Rattle.b2sum_lines.specs.ManifestLines.{
  algorithm_at_front,
  algorithm_after_blake2b,
  leaf_length_of_digits,
  tag_part_at_front,
};
ghost use Rattle.b2sum_lines.specs.ManifestLines.{needs_at_front};
ghost use Rattle.b2sum_lines.specs.ManifestLines.{after_prefix};

use crate::cuts::{after_prefix, skip_decimals};
use crate::entry::{Algorithm, Needs};

/// Returns the algorithm that the tag at the front of a line names, and what follows its name.
pub(crate) fn algorithm_of(line: &[u8]) -> Option<(Algorithm, &[u8])>
    ensures { option_map (λ t. (t.0, t.1.now)) result ≡ algorithm_at_front line.now }
{
    if let Some(rest) = after_prefix(b"BLAKE2b", line) {
        return blake2b_of(rest);
    }
    let rest = after_prefix(b"BLAKE2s", line)?;
    match after_prefix(b"p", rest) {
        Some(rest) => Some((Algorithm::Blake2sp, rest)),
        None => Some((Algorithm::Blake2s, rest)),
    }
}

// Returns the algorithm whose name goes on so after `BLAKE2b`, and what follows its name.
fn blake2b_of(text: &[u8]) -> Option<(Algorithm, &[u8])>
    ensures { option_map (λ t. (t.0, t.1.now)) result
        ≡ algorithm_after_blake2b text.now (after_prefix (codes "p") text.now) }
{
    if let Some(rest) = after_prefix(b"p", text) {
        return Some((Algorithm::Blake2bp, rest));
    }
    let Some(text) = after_prefix(b"-tree-", text) else {
        return Some((Algorithm::Blake2b, text));
    };
    let rest = skip_decimals(text);
    let leaf = leaf_of(&text[..text.len() - rest.len()])?;
    Some((Algorithm::Tree(leaf), rest))
}

// Returns the number of bytes of a leaf that these digits write, or `None` if it is not 1 to
// 2^32 - 1 or has a leading zero.
fn leaf_of(digits: &[u8]) -> Option<u32>
    ensures { result ≡ leaf_length_of_digits digits.now }
{
    if digits.is_empty() || digits.len() > 10 || digits[0] == b'0' {
        return None;
    }
    let number = value_of(digits)?;
    u32::try_from(number).ok()
}

// Returns the value of at most 10 decimal digits, or `None` if a byte is not a digit.
fn value_of(digits: &[u8]) -> Option<u64>
    requires { length digits.now ≤ 10 }
    ensures { result ≡
        (if list_all is_ascii_digit digits.now then Some (digits_value 10 digits.now) else None) }
{
    let mut number = 0;
    for digit in digits {
        if !digit.is_ascii_digit() {
            return None;
        }
        number = 10 * number + u64::from(*digit - b'0');
    }
    Some(number)
}

/// Returns what a tag needs, which follows the name of the algorithm, and what follows that.
pub(crate) fn needs_of(text: &[u8]) -> (Needs, &[u8])
    ensures { (result.0, result.1.now) ≡ needs_at_front text.now }
{
    let (key, text) = part_of(b"-key", text);
    let (salt, text) = part_of(b"-salt", text);
    let (personal, text) = part_of(b"-personal", text);
    let needs = Needs {
        key,
        salt,
        personal,
    };
    (needs, text)
}

// Returns whether the text begins with this part, and what follows it.
fn part_of<'a>(part: &[u8], text: &'a [u8]) -> (bool, &'a [u8])
    ensures { (result.0, result.1.now) ≡ tag_part_at_front part.now text.now }
{
    match after_prefix(part, text) {
        Some(rest) => (true, rest),
        None => (false, text),
    }
}

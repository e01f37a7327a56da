//! What a line needs, next to what the options have.

ghost use Rattle.std.specs.Prelude.{◌≡◌, ◌++◌, [], OnOk, if◌then◌else◌};
ghost use Rattle.b2sum_lines.specs.EntryViews.{entry_value};
ghost use Rattle.b2sum_commands.specs.LineNeeds.{
  algorithm_number,
  algorithm_is_allowed,
  matches_tagged_needs,
  meets,
};
ghost use Rattle.b2sum_commands.specs.LineNeeds.{needs_anything, has_demanded_length};
ghost use Rattle.b2sum_commands.specs.LineNeeds.{is_small_leaf_tree};
ghost use Rattle.b2sum_commands.specs.LineNeeds.{same_needs, lacks_union, needs_union, lacks_of};
ghost use Rattle.b2sum_commands.specs.LineNeeds.{needs_of, no_lacks};
ghost use Rattle.b2sum_commands.specs.LineNeeds.{algorithm_option_text, lacks_text};
ghost use Rattle.b2sum_commands.specs.LineNeeds.{length_option_text};
ghost use Rattle.b2sum_commands.specs.LineNeeds.{
  demanded_length_for,
  needs_other_algorithm,
  needs_other_length,
};
ghost use Rattle.b2sum_commands.specs.LineNeeds.{needs_options_text, needs_difference};

use crate::options::Options;
use b2sum_lines::{Algorithm, Entry, Needs, Style};
use std::alloc::AllocError;
use text_lines::push_decimal;

/// Returns whether the options are those that an entry needs.
pub(crate) fn meets(options: &Options, entry: &Entry) -> bool
    ensures { result ≡ meets options.now (entry_value entry.now) }
{
    has_length(options, entry.digest.as_slice())
        && matches_tagged_needs(options, entry.style)
        && algorithm_is_allowed(options, entry.algorithm)
}

// Returns whether a digest has the length that the options demand, if they demand one.
fn has_length(options: &Options, digest: &[u8]) -> bool
    ensures { result ≡ has_demanded_length options.now digest.now }
{
    !options.demands_length || digest.len() == options.bytes
}

// Returns whether a line of this style needs what the options have, and nothing else. A line
// without a tag does not say what it needs.
fn matches_tagged_needs(options: &Options, style: Style) -> bool
    ensures { result ≡ matches_tagged_needs options.now style }
{
    match style {
        Style::Tagged(needs) => same_needs(needs, options.needs),
        Style::Text | Style::Binary | Style::Bare => true,
    }
}

fn same_needs(a: Needs, b: Needs) -> bool
    ensures { result ≡ same_needs a b }
{
    a.key == b.key && a.salt == b.salt && a.personal == b.personal
}

// Returns whether the options can check digests of this algorithm: one that they demand, or that a
// key, a salt or a personalization is for, or that is slow, is theirs.
fn algorithm_is_allowed(options: &Options, algorithm: Algorithm) -> bool
    ensures { result ≡ algorithm_is_allowed options.now algorithm }
{
    let is_any = !(options.demands_algorithm
        || needs_anything(options.needs)
        || is_small_leaf_tree(algorithm));
    is_any || number_of(algorithm) == number_of(options.algorithm)
}

// Fewer bytes of a leaf than these cost a tree more time than a digest by far.
const LEAF_BYTES: u32 = 1024;

// Returns whether the algorithm is a tree of small leaves.
fn is_small_leaf_tree(algorithm: Algorithm) -> bool
    ensures { result ≡ is_small_leaf_tree algorithm }
{
    match algorithm {
        Algorithm::Tree(leaf) => leaf < LEAF_BYTES,
        _ => false,
    }
}

fn needs_anything(needs: Needs) -> bool
    ensures { result ≡ needs_anything needs }
{
    needs.key || needs.salt || needs.personal
}

// Returns a number for each algorithm.
fn number_of(algorithm: Algorithm) -> u64
    ensures { result ≡ algorithm_number algorithm }
{
    match algorithm {
        Algorithm::Blake2b => 0,
        Algorithm::Blake2s => 1,
        Algorithm::Blake2bp => 2,
        Algorithm::Blake2sp => 3,
        Algorithm::Tree(leaf) => 4 + u64::from(leaf),
    }
}

/// What the options have to be for lines of a manifest.
#[derive(Clone, Copy, Debug, PartialEq, Eq)]
pub struct Lacks {
    /// A key, a salt, a personalization that lines need, and the options do not have.
    pub missing: Needs,
    /// Those that the options have, and lines do not need.
    pub unwanted: Needs,
    /// The algorithm of the first line that is of another.
    pub algorithm: Option<Algorithm>,
    /// The number of bytes of the first digest that has another length.
    pub bytes: Option<usize>,
}

impl Lacks {
    /// Returns that nothing is lacking.
    pub(crate) fn none() -> Lacks
        ensures { result ≡ no_lacks }
    {
        let none = Needs {
            key: false,
            salt: false,
            personal: false,
        };
        Lacks {
            missing: none,
            unwanted: none,
            algorithm: None,
            bytes: None,
        }
    }

    /// Returns what the options have to be for this entry.
    pub(crate) fn of(options: &Options, entry: &Entry) -> Lacks
        ensures { result ≡ lacks_of options.now (entry_value entry.now) }
    {
        let needs = needs_of(options, entry.style);
        Lacks {
            missing: needs_difference(needs, options.needs),
            unwanted: needs_difference(options.needs, needs),
            algorithm: if needs_other_algorithm(options, entry) {
                Some(entry.algorithm)
            } else {
                None
            },
            bytes: if needs_other_length(options, entry) {
                Some(entry.digest.len())
            } else {
                None
            },
        }
    }

    /// Adds what another line lacks.
    pub(crate) fn add(&mut self, other: Lacks)
        ensures { self.new ≡ lacks_union self.old other }
    {
        self.missing = needs_union(self.missing, other.missing);
        self.unwanted = needs_union(self.unwanted, other.unwanted);
        self.algorithm = self.algorithm.or(other.algorithm);
        self.bytes = self.bytes.or(other.bytes);
    }

    /// Appends the options that are lacking, with a space before each.
    pub(crate) fn push_options(self, text: &mut Vec<u8>) -> Result<(), AllocError>
        ensures { OnOk result (text.new.items ≡ text.old.items ++ lacks_text self) }
    {
        push_needs_options(text, b" ", self.missing)?;
        push_needs_options(text, b" no ", self.unwanted)?;
        push_algorithm_option(text, self.algorithm)?;
        push_length_option(text, self.bytes)
    }
}

// Returns what a line of this style needs. One without a tag does not say it.
fn needs_of(options: &Options, style: Style) -> Needs
    ensures { result ≡ needs_of options.now style }
{
    match style {
        Style::Tagged(needs) => needs,
        Style::Text | Style::Binary | Style::Bare => options.needs,
    }
}

// Returns whether an entry is of another algorithm, and cannot be checked without that.
fn needs_other_algorithm(options: &Options, entry: &Entry) -> bool
    ensures { result ≡ needs_other_algorithm options.now (entry_value entry.now) }
{
    number_of(entry.algorithm) != number_of(options.algorithm)
        && (options.demands_algorithm
            || needs_anything(needs_of(options, entry.style))
            || is_small_leaf_tree(entry.algorithm))
}

// Returns whether an entry's digest has another length than the one that is demanded, or would be
// under a key that the line needs.
fn needs_other_length(options: &Options, entry: &Entry) -> bool
    ensures { result ≡ needs_other_length options.now (entry_value entry.now) }
{
    let needs = needs_of(options, entry.style);
    !(options.needs.key && !needs.key)
        && (options.demands_length || needs.key)
        && entry.digest.len() != demanded_length_for(options, entry)
}

// Returns what the first has, and the second has not.
fn needs_difference(first: Needs, second: Needs) -> Needs
    ensures { result ≡ needs_difference first second }
{
    Needs {
        key: first.key && !second.key,
        salt: first.salt && !second.salt,
        personal: first.personal && !second.personal,
    }
}

// Returns what one of both has.
fn needs_union(first: Needs, second: Needs) -> Needs
    ensures { result ≡ needs_union first second }
{
    Needs {
        key: first.key || second.key,
        salt: first.salt || second.salt,
        personal: first.personal || second.personal,
    }
}

// Returns the length in bytes that the options demand: with the algorithm of the entry, if they are
// to have that, the longest if they have the longest of their own.
fn demanded_length_for(options: &Options, entry: &Entry) -> usize
    ensures { result ≡ demanded_length_for options.now (entry_value entry.now) }
{
    let is_longest = options.bytes == options.algorithm.max_bytes();
    if !options.demands_length || (needs_other_algorithm(options, entry) && is_longest) {
        entry.algorithm.max_bytes()
    } else {
        options.bytes
    }
}

// Appends the options of a key, a salt and a personalization, with these bytes before each.
fn push_needs_options(text: &mut Vec<u8>, before: &[u8], needs: Needs) -> Result<(), AllocError>
    ensures { OnOk result (text.new.items ≡ text.old.items ++ needs_options_text before.now needs) }
{
    push_if(text, needs.key, before, b"--key-file")?;
    push_if(text, needs.salt, before, b"--salt")?;
    push_if(text, needs.personal, before, b"--personal")
}

// Appends an option with these bytes before it, if it is to be there.
fn push_if(
    text: &mut Vec<u8>,
    is_there: bool,
    before: &[u8],
    option: &[u8],
) -> Result<(), AllocError>
    ensures { OnOk result (text.new.items
        ≡ text.old.items ++ (if is_there then before.now ++ option.now else [])) }
{
    if !is_there {
        return Ok(());
    }
    text.extend_from_slice(before)?;
    text.extend_from_slice(option)
}

// Appends the option of an algorithm, if there is one, with a space before it.
fn push_algorithm_option(text: &mut Vec<u8>, algorithm: Option<Algorithm>) -> Result<(), AllocError>
    ensures { OnOk result (text.new.items ≡ text.old.items ++ algorithm_option_text algorithm) }
{
    match algorithm {
        None => Ok(()),
        Some(Algorithm::Blake2b) => text.extend_from_slice(b" --algorithm blake2b"),
        Some(Algorithm::Blake2s) => text.extend_from_slice(b" --algorithm blake2s"),
        Some(Algorithm::Blake2bp) => text.extend_from_slice(b" --algorithm blake2bp"),
        Some(Algorithm::Blake2sp) => text.extend_from_slice(b" --algorithm blake2sp"),
        Some(Algorithm::Tree(leaf)) => {
            text.extend_from_slice(b" --tree ")?;
            push_decimal(text, u64::from(leaf))
        }
    }
}

// Appends the option of digests of so many bytes, if there is one, with a space before it.
fn push_length_option(text: &mut Vec<u8>, bytes: Option<usize>) -> Result<(), AllocError>
    ensures { OnOk result (text.new.items ≡ text.old.items ++ length_option_text bytes) }
{
    let Some(bytes) = bytes else {
        return Ok(());
    };
    text.extend_from_slice(b" --length ")?;
    push_decimal(text, (bytes as u64).saturating_mul(8))
}

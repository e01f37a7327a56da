//! Which options go together, and what they choose.

ghost use Rattle.std.specs.Prelude.{◌≡◌, ◌≢◌, ℕ, ◌*◌, ◌≤◌, ◌/◌, List, length, map, true, false};
ghost use Rattle.std.specs.Prelude.{not, []};
ghost use Rattle.std.specs.Prelude.{None, Some, IfSome, IfOk, IfErr, OnOk, is_none};
ghost use Rattle.std.specs.Prelude.{if◌then◌else◌};
ghost use Rattle.std.specs.List.{list_any};
ghost use Rattle.b2sum_lines.specs.ManifestLines.{max_bytes, is_tree};
ghost use Rattle.b2sum_lines.specs.declared.entry.Algorithm.TheVariants.{Tree};
ghost use Rattle.b2sum_lines.specs.declared.entry.Style.TheVariants.{Tagged, Text, Binary};
ghost use Rattle.b2sum_commands.specs.declared.options.Report.TheVariants.{Each};
ghost use Rattle.b2sum_commands.specs.AcceptedOptions.{accepted, has_length, salt_and_persona_fit};
ghost use Rattle.b2sum_commands.specs.AcceptedOptions.{goes_together, goes_with_seals};
ghost use Rattle.b2sum_commands.specs.AcceptedOptions.{goes_with_folders, goes_with_digest};
ghost use Rattle.b2sum_commands.specs.AcceptedOptions.{goes_with_task, has_digest_length};
ghost use Rattle.b2sum_commands.specs.AcceptedOptions.{goes_with_check, goes_with_sums};
ghost use Rattle.b2sum_commands.specs.AcceptedOptions.{goes_with_files};
ghost use Rattle.b2sum_commands.specs.AcceptedOptions.{chosen_needs, chosen_style, chosen_shape};
ghost use Rattle.b2sum_commands.specs.AcceptedOptions.{
  is_not_empty,
  supports_trees,
  with_leaf,
  OptionsMatchChoice,
};
ghost use Rattle.b2sum_commands.specs.AcceptedOptions.{has_at_most_one_persona, is_input};
ghost use Rattle.b2sum_commands.specs.Messages.{is_standard_input};
ghost use Rattle.b2sum_commands.specs.CommandLineViews.{choice_of_reader, StopsSinceTestFails};

use crate::options::{Arguments, Options, Reader, Report, Shape, Stop, joined};
use crate::sums::is_standard_input;
use b2sum_lines::{Algorithm, Needs, Style};
use std::alloc::Global;

/// Checks the options against one another.
pub(crate) fn finish(alloc: Global, reader: Reader, files: Vec<Vec<u8>>) -> Result<Arguments, Stop>
    ensures size { IfOk result (λ a. a.options.bytes ≤ 64) }
    ensures accepted { OnOk result
        (accepted (choice_of_reader reader) (map (λ file. file.items) files.items) ≡ true) }
    ensures options { IfOk result (λ a. OptionsMatchChoice (choice_of_reader reader) a.options) }
    ensures no_key { IfOk result (λ a. a.options.key.items ≡ []) }
    ensures files { IfOk result (λ a. a.files ≡ files) }
    ensures key_file { IfOk result (λ a. a.key_file ≡ reader.key_file) }
    ensures stop { IfErr result
        (StopsSinceTestFails
        (accepted (choice_of_reader reader) (map (λ file. file.items) files.items))) }
{
    check_choice(alloc, &reader, files.as_slice())?;
    let options = Options {
        algorithm: chosen_algorithm(&reader),
        bytes: output_bytes(&reader),
        demands_length: reader.bits != 0 || reader.key_file.is_some(),
        demands_algorithm: reader.names_algorithm || reader.leaf.is_some(),
        key_is_hex: reader.key_is_hex,
        input_is_key: has_input_key(&reader),
        key: Vec::new(alloc),
        needs: needs_of(&reader),
        shape: shape_of(&reader),
        style: style_of(&reader),
        checks: reader.checks,
        ends_zero: reader.ends_zero,
        ignores_missing: reader.ignores_missing,
        report: reader.report,
        shows_digests: reader.shows_digests,
        is_strict: reader.is_strict || reader.key_file.is_some(),
        is_sealed: reader.seals || reader.is_sealed,
        threads: reader.threads.unwrap_or(0),
        shows_progress: reader.shows_progress,
        context: reader.context,
        folders: reader.folders,
        expected: reader.expected,
        salt: reader.salt,
        persona: chosen_persona(reader.persona, reader.persona_text),
    };
    Ok(Arguments {
        options,
        files,
        key_file: reader.key_file,
    })
}

// Refuses options that do not go together, or not with these files.
fn check_choice(alloc: Global, reader: &Reader, files: &[Vec<u8>]) -> Result<(), Stop>
    ensures accepted { OnOk result
        (accepted (choice_of_reader reader.now) (map (λ file. file.items) files.now) ≡ true) }
    ensures bits { OnOk result (reader.now.bits ≤ 8 * max_bytes reader.now.algorithm) }
    ensures stop { IfErr result
        (StopsSinceTestFails
        (accepted (choice_of_reader reader.now) (map (λ file. file.items) files.now))) }
{
    check_length(alloc, reader)?;
    if let Some(text) = conflict(reader) {
        return Err(Stop::Usage(joined(alloc, text, b"", b"")?));
    }
    check_labels(alloc, reader)?;
    if let Some(text) = conflict_of_files(reader, files) {
        return Err(Stop::Usage(joined(alloc, text, b"", b"")?));
    }
    Ok(())
}

// Returns the persona of digits and that of a text, of which one has no bytes.
fn chosen_persona(digits: Vec<u8>, text: Vec<u8>) -> Vec<u8>
    ensures { result.items ≡ (if is_not_empty text.items then text.items else digits.items) }
{
    if text.is_empty() { digits } else { text }
}

// Returns the algorithm, with the leaves of a tree.
fn chosen_algorithm(reader: &Reader) -> Algorithm
    ensures is { result ≡ with_leaf reader.now.algorithm reader.now.leaf }
{
    match reader.leaf {
        Some(leaf) => Algorithm::Tree(leaf),
        None => reader.algorithm,
    }
}

// Returns the number of bytes of the digests that are printed, at most 64.
fn output_bytes(reader: &Reader) -> usize
    ensures size { result ≤ 64 }
    ensures whole { reader.now.bits ≡ 0 → result ≡ max_bytes reader.now.algorithm }
    ensures given { reader.now.bits ≢ 0 → reader.now.bits ≤ 8 * max_bytes reader.now.algorithm
        → result ≡ reader.now.bits / 8 }
{
    let most = reader.algorithm.max_bytes();
    if reader.bits == 0 {
        most
    } else {
        ((reader.bits / 8) as usize).min(most)
    }
}

fn shape_of(reader: &Reader) -> Shape
    ensures { result ≡ chosen_shape (choice_of_reader reader.now) }
{
    if reader.is_raw {
        Shape::Bytes
    } else if reader.has_no_names {
        Shape::Digits
    } else {
        Shape::Named
    }
}

// Returns whether the key is read from standard input.
fn has_input_key(reader: &Reader) -> bool
    ensures { result ≡ is_input (choice_of_reader reader.now).key_file }
{
    match &reader.key_file {
        Some(name) => is_standard_input(name.as_slice()),
        None => false,
    }
}

// Returns what the digests need besides a file.
fn needs_of(reader: &Reader) -> Needs
    ensures { result ≡ chosen_needs (choice_of_reader reader.now) }
{
    Needs {
        key: reader.key_file.is_some(),
        salt: !reader.salt.is_empty(),
        personal: !reader.persona.is_empty() || !reader.persona_text.is_empty(),
    }
}

fn style_of(reader: &Reader) -> Style
    ensures is { result ≡ chosen_style (choice_of_reader reader.now) }
{
    if reader.is_tagged || reader.leaf.is_some() {
        Style::Tagged(needs_of(reader))
    } else if reader.is_binary == Some(true) {
        Style::Binary
    } else {
        Style::Text
    }
}

// Refuses a length that the algorithm does not have.
fn check_length(alloc: Global, reader: &Reader) -> Result<(), Stop>
    ensures length { OnOk result (has_length (choice_of_reader reader.now) ≡ true) }
    ensures bits { OnOk result (reader.now.bits ≤ 8 * max_bytes reader.now.algorithm) }
    ensures stop { IfErr result (StopsSinceTestFails (has_length (choice_of_reader reader.now))) }
{
    if reader.bits <= 8 * reader.algorithm.max_bytes() as u64 {
        return Ok(());
    }
    let first = joined(alloc, b"invalid length: ", reader.bits_text.as_slice(), b"")?;
    let name = reader.algorithm.tag(alloc)?;
    let reason: &[u8] = if reader.algorithm.max_bytes() == 32 {
        b"' is 256 bits"
    } else {
        b"' is 512 bits"
    };
    let second = joined(
        alloc,
        b"maximum digest length for '",
        name.as_slice(),
        reason,
    )?;
    Err(Stop::Value(first, second))
}

// Refuses a salt and a persona that are longer than the algorithm's.
fn check_labels(alloc: Global, reader: &Reader) -> Result<(), Stop>
    ensures labels { OnOk result (salt_and_persona_fit (choice_of_reader reader.now) ≡ true) }
    ensures stop { IfErr result
        (StopsSinceTestFails (salt_and_persona_fit (choice_of_reader reader.now))) }
{
    let most = reader.algorithm.max_bytes() / 4;
    let reason: &[u8] = if reader.salt.len() > most {
        b"the salt is too long: at most 16 bytes, 8 for BLAKE2s and BLAKE2sp"
    } else if reader.persona.len() > most || reader.persona_text.len() > most {
        b"the personalization is too long: at most 16 bytes, 8 for BLAKE2s and BLAKE2sp"
    } else {
        return Ok(());
    };
    Err(Stop::Usage(joined(alloc, reason, b"", b"")?))
}

// Returns whether the algorithm has trees.
fn supports_trees(algorithm: Algorithm) -> bool
    ensures { result ≡ supports_trees algorithm }
{
    matches!(algorithm, Algorithm::Blake2b | Algorithm::Tree(_))
}

// Returns the message of options that do not go together.
fn conflict(reader: &Reader) -> Option<&'static [u8]>
    ensures is { is_none result ≡ goes_together (choice_of_reader reader.now) }
{
    if let Some(text) = conflict_of_seals(reader) {
        return Some(text);
    }
    if let Some(text) = conflict_of_folders(reader) {
        return Some(text);
    }
    if reader.context.is_some() && reader.key_file.is_none() {
        return Some(b"the --derive-key option needs --key-file");
    }
    if let Some(text) = conflict_of_digest(reader) {
        return Some(text);
    }
    conflict_of_task(reader)
}

// Returns the message of options for the form of lines, for parameters, trees, checks and sums that
// do not go together.
fn conflict_of_task(reader: &Reader) -> Option<&'static [u8]>
    ensures is { is_none result ≡ goes_with_task (choice_of_reader reader.now) }
{
    if reader.is_tagged && reader.is_binary == Some(false) {
        return Some(b"--tag does not support --text mode");
    }
    if reader.is_tagged && (reader.has_no_names || reader.is_raw) {
        return Some(b"--tag does not support --no-names and --raw");
    }
    if has_two_personas(reader) {
        return Some(b"the --personal and --personal-text options are mutually exclusive");
    }
    if reader.key_is_raw && reader.key_is_hex {
        return Some(b"the --key-file and --key-hex-file options are mutually exclusive");
    }
    if reader.leaf.is_some() {
        if !supports_trees(reader.algorithm) {
            return Some(b"the --tree option supports blake2b only");
        }
        if reader.key_file.is_some() {
            return Some(b"the --tree option does not support --key-file");
        }
        if reader.is_binary == Some(false) && !reader.checks {
            return Some(b"--tree does not support --text mode");
        }
    } else if reader.threads.is_some() && !reader.checks {
        return Some(b"the --threads option is meaningful only with --tree");
    }
    if reader.checks {
        conflict_of_check(reader)
    } else {
        conflict_of_sums(reader)
    }
}

// Returns the message of options that do not go with a sealed list.
fn conflict_of_seals(reader: &Reader) -> Option<&'static [u8]>
    ensures { is_none result ≡ goes_with_seals (choice_of_reader reader.now) }
{
    if reader.seals {
        if reader.checks {
            return Some(b"the --seal option is meaningless when verifying checksums");
        }
        if reader.leaf.is_some() {
            return Some(b"the --seal option does not support --tree");
        }
        if reader.ends_zero {
            return Some(b"the --seal option does not support --zero");
        }
        if reader.has_no_names || reader.is_raw {
            return Some(b"the --seal option does not support --no-names and --raw");
        }
        if reader.is_binary == Some(false) {
            return Some(b"--seal does not support --text mode");
        }
    }
    if reader.seals && reader.key_file.is_none() {
        return Some(b"the --seal option needs --key-file");
    }
    if reader.is_sealed && !reader.checks {
        return Some(b"the --sealed option is meaningful only when verifying checksums");
    }
    if reader.is_sealed && reader.key_file.is_none() {
        return Some(b"the --sealed option needs --key-file");
    }
    None
}

// Returns the message of options that do not go with folders.
fn conflict_of_folders(reader: &Reader) -> Option<&'static [u8]>
    ensures { is_none result ≡ goes_with_folders (choice_of_reader reader.now) }
{
    if reader.folders.is_empty() {
        return None;
    }
    if reader.expected.is_some() {
        return Some(b"the --recursive option does not support --expect");
    }
    if !reader.checks && reader.is_raw {
        return Some(b"the --recursive option does not support --raw");
    }
    if reader.checks && !reader.is_sealed {
        return Some(b"the --recursive option needs --sealed when verifying checksums");
    }
    None
}

// Returns the message of options that do not go with an expected digest.
fn conflict_of_digest(reader: &Reader) -> Option<&'static [u8]>
    ensures { is_none result
        ≡ goes_with_digest (choice_of_reader reader.now) (choice_of_reader reader.now).expected }
{
    let Some(digest) = &reader.expected else {
        return None;
    };
    if reader.is_sealed {
        return Some(b"the --expect option does not support --sealed");
    }
    if reader.is_strict || reader.ignores_missing {
        return Some(b"the --expect option does not support --strict and --ignore-missing");
    }
    if !has_digest_length(reader, digest.bytes.len()) {
        return Some(b"the expected digest does not have the length of the digests");
    }
    None
}

// Returns whether an expected digest of so many bytes has a length that a check accepts.
fn has_digest_length(reader: &Reader, bytes: usize) -> bool
    ensures { (digest : List ℕ) → length digest ≡ bytes
        → result ≡ has_digest_length (choice_of_reader reader.now) digest }
{
    let most = reader.algorithm.max_bytes();
    if bytes > most {
        return false;
    }
    if reader.bits == 0 {
        reader.key_file.is_none() || bytes == most
    } else {
        8 * bytes as u64 == reader.bits
    }
}

// Returns whether there is a persona of digits and one of a text.
fn has_two_personas(reader: &Reader) -> bool
    ensures { result ≡ not (has_at_most_one_persona (choice_of_reader reader.now)) }
{
    !reader.persona.is_empty() && !reader.persona_text.is_empty()
}

// Why the digests of a check with a key are not shown.
const SHOWN_MAC: &[u8] =
    b"--show-digests does not support --key-file: it would print a valid MAC of a changed file";

fn conflict_of_check(reader: &Reader) -> Option<&'static [u8]>
    ensures is { is_none result ≡ goes_with_check (choice_of_reader reader.now) }
{
    if reader.ends_zero {
        return Some(b"the --zero option is not supported when verifying checksums");
    }
    if reader.is_tagged {
        return Some(b"the --tag option is meaningless when verifying checksums");
    }
    if reader.is_binary.is_some() {
        return Some(b"the --binary and --text options are meaningless when verifying checksums");
    }
    if reader.has_no_names || reader.is_raw {
        return Some(b"the --no-names and --raw options are meaningless when verifying checksums");
    }
    if reader.shows_digests && reader.key_file.is_some() {
        return Some(SHOWN_MAC);
    }
    None
}

// Returns the message of options that do not go with these files.
fn conflict_of_files(reader: &Reader, files: &[Vec<u8>]) -> Option<&'static [u8]>
    ensures { is_none result ≡ goes_with_files (choice_of_reader reader.now)
        (map (λ file. file.items) files.now) }
{
    if reader.is_raw && files.len() != 1 {
        return Some(b"the --raw option needs one file");
    }
    if has_input_key(reader) && has_dash(files) {
        return Some(b"standard input is the key, and cannot be a file too");
    }
    None
}

// Returns whether standard input is one of the files.
fn has_dash(files: &[Vec<u8>]) -> bool
    ensures { result ≡ list_any is_standard_input (map (λ file. file.items) files.now) }
{
    for file in files {
        if is_standard_input(file.as_slice()) {
            return true;
        }
    }
    false
}

fn conflict_of_sums(reader: &Reader) -> Option<&'static [u8]>
    ensures is { is_none result ≡ goes_with_sums (choice_of_reader reader.now) }
{
    if reader.ignores_missing {
        return Some(b"the --ignore-missing option is meaningful only when verifying checksums");
    }
    match reader.report {
        Report::Nothing => {
            return Some(b"the --status option is meaningful only when verifying checksums");
        }
        Report::Warnings => {
            return Some(b"the --warn option is meaningful only when verifying checksums");
        }
        Report::Failures => {
            return Some(b"the --quiet option is meaningful only when verifying checksums");
        }
        Report::Each => {}
    }
    if reader.is_strict {
        return Some(b"the --strict option is meaningful only when verifying checksums");
    }
    if reader.shows_digests {
        return Some(b"the --show-digests option is meaningful only when verifying checksums");
    }
    None
}

//! The options of the command line.

ghost use Rattle.std.specs.Prelude.{◌≡◌, ◌≤◌, IfOk, OnOk, Some, Ok, IfErr, ◌++◌, ◌∷◌, [], map};
ghost use Rattle.b2sum_commands.specs.CommandLine.{set_flag, set_value, default_choice};
ghost use Rattle.b2sum_commands.specs.CommandLine.{flag_named, value_here_or_next_word};
ghost use Rattle.b2sum_commands.specs.CommandLine.{read_letters};
ghost use Rattle.b2sum_commands.specs.CommandLine.{
  read_unjoined_option,
  read_joined_option,
  read_long_option,
};
ghost use Rattle.b2sum_commands.specs.CommandLine.{read_option_or_file};
ghost use Rattle.b2sum_commands.specs.CommandLine.{has_folders_to_print, read_expected_word};
ghost use Rattle.b2sum_commands.specs.CommandLine.{reading};
ghost use Rattle.b2sum_commands.specs.AcceptedOptions.{ArgumentsMatchWords, parsed_command_line};
ghost use Rattle.b2sum_commands.specs.CommandLineViews.{
  choice_of_reader,
  next_of,
  state_of_reader,
  StopMatchesResult,
};
ghost use Rattle.b2sum_commands.specs.CommandLineViews.{StopsSinceNoValue};
ghost use Rattle.b2sum_commands.specs.declared.options.Stop.TheVariants.{NoMemory};
ghost use Rattle.b2sum_commands.specs.declared.options.Next.TheVariants.{Any};

use crate::choices::finish;
use crate::digest::ExpectedDigest;
use crate::option_names::{FLAGS, Flag, beginning_flags, exact_flag, first_beginning};
use crate::quoting::quoted_value;
use crate::values::{algorithm_of, bits_of, bytes_of, digest_of, leaf_of, text_of, threads_of};
use b2sum_lines::{Algorithm, Needs, Style};
use std::alloc::{AllocError, Global};
use text_lines::split_once;

/// What a check prints.
#[derive(Clone, Copy, Debug, PartialEq, Eq)]
pub enum Report {
    /// A line for each file.
    Each,
    /// A line for each file, and for each line that is not properly formatted (`--warn`).
    Warnings,
    /// A line for each file that failed (`--quiet`).
    Failures,
    /// No lines (`--status`).
    Nothing,
}

/// What is printed of a digest.
#[derive(Clone, Copy, Debug, PartialEq, Eq)]
pub enum Shape {
    /// A line with the name.
    Named,
    /// A line of its digits (`--no-names`).
    Digits,
    /// Its bytes (`--raw`).
    Bytes,
}

/// What is to be done, and how.
#[derive(Drop)]
pub struct Options {
    /// The hash function of all digests.
    pub algorithm: Algorithm,
    /// The number of bytes of the digests that are printed.
    pub bytes: usize,
    /// A check accepts only digests of `bytes` bytes.
    pub demands_length: bool,
    /// A check accepts only digests of `algorithm`.
    pub demands_algorithm: bool,
    /// The key, which has no bytes if there is none.
    pub key: Vec<u8>,
    /// The key's file has hexadecimal digits, which write the key.
    pub key_is_hex: bool,
    /// The context for which the key is derived from that of its file, if it is.
    pub context: Option<Vec<u8>>,
    /// Standard input is the key, and so is no file.
    pub input_is_key: bool,
    /// What the digests need besides a file: whether there is a key, a salt and a persona.
    pub needs: Needs,
    /// The salt: at most 16 bytes, or 8 for BLAKE2s and BLAKE2sp.
    pub salt: Vec<u8>,
    /// The persona: at most 16 bytes, or 8 for BLAKE2s and BLAKE2sp.
    pub persona: Vec<u8>,
    /// The folders whose files are printed, or have to be in a sealed list.
    pub folders: Vec<Vec<u8>>,
    /// The digest that the file is to have, if one is given.
    pub expected: Option<ExpectedDigest>,
    /// The files are manifests, which are checked, unless there is an expected digest.
    pub checks: bool,
    /// What is printed of a digest.
    pub shape: Shape,
    /// The style of the lines that are printed.
    pub style: Style,
    /// The lines that are printed end with a zero byte, and names are as they are.
    pub ends_zero: bool,
    /// A check ignores files that do not exist.
    pub ignores_missing: bool,
    /// What a check prints.
    pub report: Report,
    /// A check prints both digests of a file that has another one than its entry.
    pub shows_digests: bool,
    /// A check fails for lines that are not properly formatted. It always does under a key.
    pub is_strict: bool,
    /// The list that is printed is sealed, or those that are checked are.
    pub is_sealed: bool,
    /// The number of threads that read a large file for a tree, 0 for one on each processor.
    pub threads: u32,
    /// The progress of long reads is shown on a terminal.
    pub shows_progress: bool,
}

/// The arguments of a command line.
#[derive(Drop)]
pub(crate) struct Arguments {
    pub(crate) options: Options,
    /// The files, `-` alone if there are none.
    pub(crate) files: Vec<Vec<u8>>,
    /// The file with the key.
    pub(crate) key_file: Option<Vec<u8>>,
}

/// Why the options name no task.
#[derive(Drop)]
pub(crate) enum Stop {
    /// `--help`
    Help,
    /// `--version`
    Version,
    /// Wrong options: this line after the program's name, and the pointer to `--help`.
    Usage(Vec<u8>),
    /// A wrong value: these lines, each after the program's name. The second may be empty.
    Value(Vec<u8>, Vec<u8>),
    /// An allocation failed.
    NoMemory,
}

impl From<AllocError> for Stop {
    ghost from_gives = { λ _ stop. stop ≡ NoMemory };

    fn from(_: AllocError) -> Stop {
        Stop::NoMemory
    }
}

// Joins the parts.
pub(crate) fn joined(alloc: Global, a: &[u8], b: &[u8], c: &[u8]) -> Result<Vec<u8>, AllocError>
    ensures { IfOk result (λ text. text.items ≡ a.now ++ (b.now ++ c.now)) }
{
    let mut text = Vec::new(alloc);
    text.extend_from_slice(a)?;
    text.extend_from_slice(b)?;
    text.extend_from_slice(c)?;
    Ok(text)
}

/// The options while they are read. Lengths have to fit the algorithm only at the end.
#[derive(Drop)]
pub(crate) struct Reader {
    pub(crate) algorithm: Algorithm,
    pub(crate) names_algorithm: bool,
    pub(crate) leaf: Option<u32>,
    pub(crate) bits: u64,
    pub(crate) bits_text: Vec<u8>,
    pub(crate) key_file: Option<Vec<u8>>,
    pub(crate) key_is_raw: bool,
    pub(crate) key_is_hex: bool,
    pub(crate) context: Option<Vec<u8>>,
    pub(crate) salt: Vec<u8>,
    pub(crate) persona: Vec<u8>,
    pub(crate) persona_text: Vec<u8>,
    pub(crate) folders: Vec<Vec<u8>>,
    pub(crate) expected: Option<ExpectedDigest>,
    pub(crate) checks: bool,
    pub(crate) is_binary: Option<bool>,
    pub(crate) is_tagged: bool,
    pub(crate) ends_zero: bool,
    pub(crate) ignores_missing: bool,
    pub(crate) report: Report,
    pub(crate) is_strict: bool,
    pub(crate) threads: Option<u32>,
    pub(crate) shows_progress: bool,
    pub(crate) has_no_names: bool,
    pub(crate) is_raw: bool,
    pub(crate) shows_digests: bool,
    pub(crate) seals: bool,
    pub(crate) is_sealed: bool,
}

impl Reader {
    fn new(alloc: Global) -> Reader
        ensures { choice_of_reader result ≡ default_choice }
    {
        Reader {
            algorithm: Algorithm::Blake2b,
            names_algorithm: false,
            leaf: None,
            bits: 0,
            bits_text: Vec::new(alloc),
            key_file: None,
            key_is_raw: false,
            key_is_hex: false,
            context: None,
            salt: Vec::new(alloc),
            persona: Vec::new(alloc),
            persona_text: Vec::new(alloc),
            folders: Vec::new(alloc),
            expected: None,
            checks: false,
            is_binary: None,
            is_tagged: false,
            ends_zero: false,
            ignores_missing: false,
            report: Report::Each,
            is_strict: false,
            threads: None,
            shows_progress: false,
            has_no_names: false,
            is_raw: false,
            shows_digests: false,
            seals: false,
            is_sealed: false,
        }
    }
}

// What the next word is.
#[derive(Clone, Copy, Debug, PartialEq, Eq)]
enum Next {
    /// An option or a file.
    Any,
    /// The value of this option, and the letter that named it if that was one.
    Awaited(Flag, Option<u8>),
    /// A file, whatever it begins with.
    File,
}

/// Reads the arguments, which come without the program's name. The result is what the command line
/// means as `parsed_command_line` of `specs/AcceptedOptions.antt` defines it: options and files, or
/// why there are none. The error is `Stop::NoMemory` if an allocation failed.
pub(crate) fn read_arguments(alloc: Global, words: &[Vec<u8>]) -> Result<Arguments, Stop>
    ensures size { IfOk result (λ a. a.options.bytes ≤ 64) }
    ensures arguments { IfOk result (ArgumentsMatchWords (map (λ word. word.items) words.now)) }
    ensures stop { IfErr result
        (StopMatchesResult (parsed_command_line (map (λ word. word.items) words.now))) }
{
    let (reader, files) = read_words(alloc, words)?;
    finish(alloc, reader, files)
}

// Reads the words. Returns the options and the files.
fn read_words(alloc: Global, words: &[Vec<u8>]) -> Result<(Reader, Vec<Vec<u8>>), Stop>
    ensures read { IfOk result (λ read. reading (map (λ word. word.items) words.now)
        ≡ Ok (choice_of_reader read.0, map (λ name. name.items) read.1.items)) }
    ensures stop { IfErr result (StopMatchesResult (reading (map (λ word. word.items) words.now))) }
{
    let mut reader = Reader::new(alloc);
    let mut files = Vec::new(alloc);
    let mut next = Next::Any;
    for word in words {
        next = read_word(alloc, &mut reader, &mut files, next, word.as_slice())?;
    }
    if let Next::Awaited(flag, letter) = next {
        return Err(Stop::Usage(missing_value(alloc, flag, letter)?));
    }
    if files.is_empty() && !has_folders_to_print(&reader) {
        push_copy(alloc, &mut files, b"-")?;
    }
    Ok((reader, files))
}

// Returns whether the options name files: those of folders, whose lines are printed.
fn has_folders_to_print(reader: &Reader) -> bool
    ensures { result ≡ has_folders_to_print (choice_of_reader reader.now) }
{
    !reader.folders.is_empty() && !reader.checks
}

// Returns the message of an option without its value.
fn missing_value(alloc: Global, flag: Flag, letter: Option<u8>) -> Result<Vec<u8>, AllocError> {
    match letter {
        Some(letter) => joined(alloc, b"option requires an argument -- '", &[letter], b"'"),
        None => joined(alloc, b"option '--", flag.name(), b"' requires an argument"),
    }
}

// Reads a word. Returns what the one after it is.
fn read_word(
    alloc: Global,
    reader: &mut Reader,
    files: &mut Vec<Vec<u8>>,
    next: Next,
    word: &[u8],
) -> Result<Next, Stop>
    ensures read { IfOk result (λ after.
        read_expected_word (next_of next)
        (state_of_reader reader.old (map (λ f. f.items) files.old.items) next)
        word.now ≡ Ok (state_of_reader reader.new (map (λ f. f.items) files.new.items) after)) }
    ensures stop { IfErr result (StopMatchesResult (read_expected_word (next_of next)
        (state_of_reader reader.old (map (λ f. f.items) files.old.items) next) word.now)) }
{
    match next {
        Next::Any => read_option_or_file(alloc, reader, files, word),
        Next::Awaited(flag, _) => {
            take_value(alloc, reader, flag, word)?;
            Ok(Next::Any)
        }
        Next::File => {
            push_copy(alloc, files, word)?;
            Ok(Next::File)
        }
    }
}

// Reads an option or a file. Returns what the word after it is.
fn read_option_or_file(
    alloc: Global,
    reader: &mut Reader,
    files: &mut Vec<Vec<u8>>,
    word: &[u8],
) -> Result<Next, Stop>
    ensures read { IfOk result (λ after.
        read_option_or_file (state_of_reader reader.old (map (λ f. f.items) files.old.items) Any)
        word.now
        ≡ Ok (state_of_reader reader.new (map (λ f. f.items) files.new.items) after)) }
    ensures stop { IfErr result (StopMatchesResult
        (read_option_or_file (state_of_reader reader.old (map (λ f. f.items) files.old.items) Any)
        word.now)) }
{
    if word == b"--".as_slice() {
        return Ok(Next::File);
    }
    if word.starts_with(b"--".as_slice()) {
        return read_long_option(alloc, reader, &word[2..]);
    }
    if word.starts_with(b"-".as_slice()) && word != b"-".as_slice() {
        return read_short_options(alloc, reader, &word[1..]);
    }
    push_copy(alloc, files, word)?;
    Ok(Next::Any)
}

// Reads the letters of a word of short options. Returns what the next word is.
fn read_short_options(alloc: Global, reader: &mut Reader, letters: &[u8]) -> Result<Next, Stop>
    ensures read { IfOk result (λ next. read_letters (choice_of_reader reader.old) letters.now
        ≡ Ok (choice_of_reader reader.new, next_of next)) }
    ensures stop { IfErr result
        (StopMatchesResult (read_letters (choice_of_reader reader.old) letters.now)) }
{
    for (i, letter) in letters.iter().enumerate() {
        let Some(flag) = Flag::from_letter(*letter) else {
            return Err(Stop::Usage(joined(alloc, b"invalid option -- '", &[*letter], b"'")?));
        };
        if flag.has_value() {
            return take_rest(alloc, reader, flag, *letter, &letters[i + 1..]);
        }
        take_flag(reader, flag)?;
    }
    Ok(Next::Any)
}

// Takes an option that has a value, which the rest of the word is, or the next word if that is
// empty.
fn take_rest(
    alloc: Global,
    reader: &mut Reader,
    flag: Flag,
    letter: u8,
    rest: &[u8],
) -> Result<Next, Stop>
    ensures read { IfOk result
        (λ next. value_here_or_next_word (choice_of_reader reader.old) flag rest.now
        ≡ Ok (choice_of_reader reader.new, next_of next)) }
    ensures stop { IfErr result
        (StopMatchesResult
        (value_here_or_next_word (choice_of_reader reader.old) flag rest.now)) }
{
    if rest.is_empty() {
        return Ok(Next::Awaited(flag, Some(letter)));
    }
    take_value(alloc, reader, flag, rest)?;
    Ok(Next::Any)
}

// Returns the long option that the name means: the one of this name, or the only one that begins
// with it.
fn long_flag(alloc: Global, name: &[u8], word: &[u8]) -> Result<Flag, Stop>
    ensures flag { IfOk result (λ flag. flag_named name.now ≡ Some flag) }
    ensures stop { IfErr result (StopsSinceNoValue (flag_named name.now)) }
{
    if let Some(flag) = exact_flag(name) {
        return Ok(flag);
    }
    let count = beginning_flags(name);
    let Some(flag) = first_beginning(name) else {
        return Err(Stop::Usage(joined(alloc, b"unrecognized option '--", word, b"'")?));
    };
    if count == 1 {
        return Ok(flag);
    }
    Err(Stop::Usage(ambiguous(alloc, name, word)?))
}

// Returns the message of a name with which several long options begin.
fn ambiguous(alloc: Global, name: &[u8], word: &[u8]) -> Result<Vec<u8>, AllocError> {
    let mut text = joined(
        alloc,
        b"option '--",
        word,
        b"' is ambiguous; possibilities:",
    )?;
    for flag in &FLAGS {
        if flag.name().starts_with(name) {
            text.extend_from_slice(b" '--")?;
            text.extend_from_slice(flag.name())?;
            text.extend_from_slice(b"'")?;
        }
    }
    Ok(text)
}

// Reads the rest of a word that two hyphens begin. Returns what the next word is.
fn read_long_option(alloc: Global, reader: &mut Reader, word: &[u8]) -> Result<Next, Stop>
    ensures read { IfOk result (λ next. read_long_option (choice_of_reader reader.old) word.now
        ≡ Ok (choice_of_reader reader.new, next_of next)) }
    ensures stop { IfErr result
        (StopMatchesResult (read_long_option (choice_of_reader reader.old) word.now)) }
{
    match split_once(word, b'=') {
        None => {
            let flag = long_flag(alloc, word, word)?;
            read_unjoined_option(reader, flag)
        }
        Some((name, value)) => {
            let flag = long_flag(alloc, name, word)?;
            read_joined_option(alloc, reader, flag, value)
        }
    }
}

// Takes a long option without a value in its word. Returns what the next word is.
fn read_unjoined_option(reader: &mut Reader, flag: Flag) -> Result<Next, Stop>
    ensures read { IfOk result
        (λ next. read_unjoined_option (choice_of_reader reader.old) (Some flag)
        ≡ Ok (choice_of_reader reader.new, next_of next)) }
    ensures stop { IfErr result
        (StopMatchesResult (read_unjoined_option (choice_of_reader reader.old) (Some flag))) }
{
    if flag.has_value() {
        return Ok(Next::Awaited(flag, None));
    }
    take_flag(reader, flag)?;
    Ok(Next::Any)
}

// Takes a long option with a value in its word. Returns what the next word is.
fn read_joined_option(
    alloc: Global,
    reader: &mut Reader,
    flag: Flag,
    value: &[u8],
) -> Result<Next, Stop>
    ensures read { IfOk result (λ next.
        read_joined_option (choice_of_reader reader.old) (Some flag) value.now
        ≡ Ok (choice_of_reader reader.new, next_of next)) }
    ensures stop { IfErr result
        (StopMatchesResult
        (read_joined_option (choice_of_reader reader.old) (Some flag) value.now)) }
{
    if !flag.has_value() {
        let text = b"' doesn't allow an argument";
        return Err(Stop::Usage(joined(alloc, b"option '--", flag.name(), text)?));
    }
    take_value(alloc, reader, flag, value)?;
    Ok(Next::Any)
}

// Takes an option that has no value.
fn take_flag(reader: &mut Reader, flag: Flag) -> Result<(), Stop>
    ensures taken { OnOk result
        (set_flag flag (choice_of_reader reader.old) ≡ Ok (choice_of_reader reader.new)) }
    ensures stop { IfErr result (StopMatchesResult (set_flag flag (choice_of_reader reader.old))) }
{
    match flag {
        Flag::Check => reader.checks = true,
        Flag::IgnoreMissing => reader.ignores_missing = true,
        Flag::Quiet => reader.report = Report::Failures,
        Flag::Status => reader.report = Report::Nothing,
        Flag::Warn => reader.report = Report::Warnings,
        Flag::Strict => reader.is_strict = true,
        Flag::Progress => reader.shows_progress = true,
        Flag::NoNames => reader.has_no_names = true,
        Flag::Raw => reader.is_raw = true,
        Flag::ShowDigests => reader.shows_digests = true,
        Flag::Tag => {
            reader.is_tagged = true;
            reader.is_binary = Some(true);
        }
        Flag::Seal => {
            reader.seals = true;
            reader.is_tagged = true;
            reader.is_binary = Some(true);
        }
        Flag::Sealed => reader.is_sealed = true,
        Flag::Zero => reader.ends_zero = true,
        Flag::Binary => reader.is_binary = Some(true),
        Flag::Text => reader.is_binary = Some(false),
        Flag::Help => return Err(Stop::Help),
        Flag::Version => return Err(Stop::Version),
        _ => {}
    }
    Ok(())
}

// What the message of a wrong personalization begins with.
const PERSONAL: &[u8] = b"invalid personalization: ";

// Takes an option and its value.
fn take_value(alloc: Global, reader: &mut Reader, flag: Flag, value: &[u8]) -> Result<(), Stop>
    ensures taken { OnOk result
        (set_value flag value.now (choice_of_reader reader.old)
        ≡ Ok (choice_of_reader reader.new)) }
    ensures stop { IfErr result
        (StopMatchesResult (set_value flag value.now (choice_of_reader reader.old))) }
{
    match flag {
        Flag::Algorithm => {
            reader.algorithm = algorithm_of(alloc, value)?;
            reader.names_algorithm = true;
        }
        Flag::KeyFile => {
            reader.key_file = Some(copied(alloc, value)?);
            reader.key_is_raw = true;
        }
        Flag::KeyHexFile => {
            reader.key_file = Some(copied(alloc, value)?);
            reader.key_is_hex = true;
        }
        Flag::DeriveKey => {
            reader.context = Some(text_of(alloc, b"invalid context: ", value)?);
        }
        Flag::Recursive => push_copy(alloc, &mut reader.folders, value)?,
        Flag::Expect => {
            reader.expected = Some(digest_of(alloc, value)?);
            reader.checks = true;
        }
        Flag::Personal => reader.persona = bytes_of(alloc, PERSONAL, value)?,
        Flag::PersonalText => reader.persona_text = text_of(alloc, PERSONAL, value)?,
        Flag::Salt => reader.salt = bytes_of(alloc, b"invalid salt: ", value)?,
        Flag::Tree => reader.leaf = Some(leaf_of(alloc, value)?),
        Flag::Threads => reader.threads = Some(threads_of(alloc, value)?),
        Flag::Length => {
            reader.bits = bits_of(alloc, value)?;
            reader.bits_text = quoted_value(alloc, value)?;
        }
        _ => {}
    }
    Ok(())
}

// Returns a copy of the bytes.
fn copied(alloc: Global, bytes: &[u8]) -> Result<Vec<u8>, AllocError>
    ensures { IfOk result (λ copy. copy.items ≡ bytes.now) }
{
    Vec::from_slice(alloc, bytes)
}

// Puts a copy of the name after the files.
fn push_copy(alloc: Global, files: &mut Vec<Vec<u8>>, name: &[u8]) -> Result<(), AllocError>
    ensures { OnOk result (map (λ file. file.items) files.new.items
        ≡ map (λ file. file.items) files.old.items ++ name.now ∷ []) }
{
    let name = copied(alloc, name)?;
    files.push(name).map_err(|_| AllocError)
}

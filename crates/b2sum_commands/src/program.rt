//! The run of the program.

ghost use Rattle.std.specs.Prelude.{◌≡◌, ◌⊎◌, ◌≤◌, length, map, None, Some, Err, IfOk, IfSome};
ghost use Rattle.std.specs.Prelude.{IsErrOf, IsOkUnless, OnOk, Bool, Option, true};
ghost use Rattle.std.specs.Option.{option_map};
ghost use Rattle.std.specs.Result.{result_ok};
ghost use Rattle.b2sum_commands.specs.CommandLine.{Choice, Refused};
ghost use Rattle.b2sum_commands.specs.AcceptedOptions.{OptionsMatchChoice, parsed_command_line};
ghost use Rattle.b2sum_commands.specs.World.{world_of, RunEndsWithError, OnlyTells};
ghost use Rattle.b2sum_commands.specs.ProgramRuns.{
  FilesAreCheckedOrPrinted,
  FolderFilesArePrinted,
  DoesTaskOrNotBegun,
  DoesCommandLine,
};
ghost use Rattle.b2sum_commands.specs.ProgramRuns.{ChosenKeyIsRead, derived_or_same_key};
ghost use Rattle.b2sum_commands.specs.ProgramRuns.{max_key_bytes};
ghost use Rattle.b2sum_commands.specs.ProgramRuns.{WarnsIfKeyIsDigits};
ghost use Rattle.b2sum_commands.specs.ProgramRuns.{KeyFileIsRefused, TellsUsageError};
ghost use Rattle.b2sum_commands.specs.ProgramRuns.{RunsCommandLine, help_text, exit_status};
ghost use Rattle.b2sum_commands.specs.ProgramRuns.{WarnsIfShortMacs, are_short_macs};
ghost use Rattle.b2sum_lines.specs.ManifestLines.{max_bytes};
ghost use Rattle.b2sum_commands.specs.CommandLineViews.{StopIsPrinted};

use crate::check::check_manifests;
use crate::devices::{Disk, Fault, OpenFile, Output, put};
use crate::folders::{walk, warn_of_others};
use crate::hashes::Hashes;
use crate::key::{Form, are_digits, read_key};
use crate::messages::{
    warn_of_key_digits, warn_of_memory, warn_of_short_macs, warn_of_usage, warn_of_value,
    warn_of_write,
};
use crate::options::{Arguments, Options, Stop, joined, read_arguments};
use crate::seals::print_list;
use crate::session::{Host, Program, Session};
use crate::sums::print_sums;
use blake2_digest::scrub_stack;
use blake2_streams::Sink;
use std::alloc::{AllocError, Global};

// What comes after `Usage: ` and the program's name.
const HELP: &[u8] = b" [OPTION].. [FILE]..
Print or check BLAKE2 digests. Without FILE and --recursive, or for -, read standard input.

  -a, --algorithm NAME  blake2b (the default), blake2s, blake2bp or blake2sp
  -l, --length BITS     length of the digests: a multiple of 8, at most 512, or 256 for blake2s
                        and blake2sp
  -b, --binary          print * before each name
  -t, --text            print a space before each name (the default)
      --tag             print lines that name the algorithm
      --seal            print lines as --tag does, and one that seals them; needs --key-file
  -z, --zero            end each line with a zero byte, and do not escape names
      --no-names        print only the digits of each digest
      --raw             print only the bytes of the digest of one FILE
      --key-file FILE   use the bytes of the file, or of standard input if it is -, as the key:
                        at most 64, or 32 for blake2s and blake2sp
      --key-hex-file FILE
                        use the key that the hexadecimal digits of the file write
      --derive-key CONTEXT
                        for the purpose CONTEXT, use a key that is derived from that of the file
      --salt HEX        use this salt: at most 16 bytes, or 8 for blake2s and blake2sp
      --personal HEX    use this personalization: at most 16 bytes, or 8 for blake2s and blake2sp
      --personal-text TEXT
                        use the bytes of TEXT as the personalization
      --tree LEAF       print roots of trees of blake2b with leaves of LEAF bytes, such as 65536,
                        which is fastest for large files
      --recursive DIR   print the lines of all files in DIR and below; with --check --sealed, name
                        what is there and not in the list
  -c, --check           read digests from the FILEs and check them
      --expect DIGEST   check that each FILE has this digest, whose digits tell its length
      --ignore-missing  do not fail for missing files
      --quiet           do not print OK
      --status          print nothing, the status shows success
      --sealed          with --check, believe only lists whose seal holds; needs --key-file
      --strict          fail for improperly formatted lines
      --show-digests    print the expected and the found digest of each file that differs
  -w, --warn            warn about each line that is improperly formatted or needs other options
      --threads N       hash trees by at most N threads; 0, the default: all processors
      --progress        show the progress of long reads on a terminal
      --help            print this help
      --version         print the version

The status is 0 for success, and 1 for a file that cannot be read, a check that fails, wrong
options, or output that cannot be written.
";

const VERSION: &[u8] = b"b2sum (Vulfsjor) 0.1.0\n";

// The bytes of the stack that are overwritten after a key file is read: more than that needs.
const KEY_STACK_BYTES: usize = 4096;

// The bytes of the shortest MACs that nobody guesses.
const MAC_BYTES: usize = 16;

/// Runs the command line, without the program's name. Returns the status: 0 for success, 1 if the
/// options are wrong, a file cannot be read, a digest differs, a write fails or an allocation
/// fails. Messages begin with the name of the host's program.
pub fn run<H: Hashes, D: Disk, K: Output, E: Sink>(
    host: &Host<H, D>,
    session: &mut Session<D::File, K, E>,
    words: &[Vec<u8>],
) -> u8
    ensures status { result ≤ 1 }
    ensures line { (end : Option Bool) × (result ≡ exit_status end) × RunsCommandLine
        (world_of host.now.program.name.items D.File.named D.File.failed D.File.failure
        (D.files host.now.disk) H.hashing)
        (help_text host.now.program.name.items HELP.now) VERSION.now
        (parsed_command_line (map (λ word. word.items) words.now)) session.old session.new end }
    ensures refused { parsed_command_line (map (λ word. word.items) words.now) ≡ Err Refused
        → (result ≡ 1) × (session.new.held ≡ session.old.held) × (TellsUsageError
        (world_of host.now.program.name.items D.File.named D.File.failed D.File.failure
        (D.files host.now.disk) H.hashing) session.old session.new ⊎ RunEndsWithError
        (world_of host.now.program.name.items D.File.named D.File.failed D.File.failure
        (D.files host.now.disk) H.hashing) session.old session.new) }
{
    match run_words(host, session, words) {
        Ok(true) => 0,
        Ok(false) => 1,
        Err(Fault::WriteFailed) => {
            let error = session.output.last_error();
            warn_of_write(host, error, &mut session.messages);
            1
        }
        Err(Fault::NoMemory) => {
            warn_of_memory(&host.program, &mut session.messages);
            1
        }
    }
}

fn run_words<H: Hashes, D: Disk, K: Output, E: Sink>(
    host: &Host<H, D>,
    session: &mut Session<D::File, K, E>,
    words: &[Vec<u8>],
) -> Result<bool, Fault>
    ensures line { DoesCommandLine
        (world_of host.now.program.name.items D.File.named D.File.failed D.File.failure
        (D.files host.now.disk) H.hashing)
        (help_text host.now.program.name.items HELP.now) VERSION.now
        (parsed_command_line (map (λ word. word.items) words.now)) session.old session.new
        (result_ok result) }
    ensures write { IsErrOf result Fault.WriteFailed → session.new.output_failed ≡ true }
{
    match read_arguments(host.program.alloc, words) {
        Ok(arguments) => run_task(host, session, arguments),
        Err(stop) => print_stop(host, session, stop),
    }
}

// Prints what a command line without a task asks for: the help, the version or a message. Returns
// whether it is right.
fn print_stop<H: Hashes, D: Disk, K: Output, E: Sink>(
    host: &Host<H, D>,
    session: &mut Session<D::File, K, E>,
    stop: Stop,
) -> Result<bool, Fault>
    ensures printed { StopIsPrinted
        (world_of host.now.program.name.items D.File.named D.File.failed D.File.failure
        (D.files host.now.disk) H.hashing)
        (help_text host.now.program.name.items HELP.now) VERSION.now session.old session.new stop
        (result_ok result) }
    ensures write { IsErrOf result Fault.WriteFailed → session.new.output_failed ≡ true }
{
    let program = &host.program;
    match stop {
        Stop::Help => {
            let help = joined(program.alloc, b"Usage: ", program.name.as_slice(), HELP)?;
            put(&mut session.output, help.as_slice())?;
            Ok(true)
        }
        Stop::Version => {
            put(&mut session.output, VERSION)?;
            Ok(true)
        }
        Stop::Usage(text) => {
            warn_of_usage(program, &mut session.messages, text.as_slice())?;
            Ok(false)
        }
        Stop::Value(first, second) => {
            let (first, second) = (first.as_slice(), second.as_slice());
            warn_of_value(program, &mut session.messages, first, second)?;
            Ok(false)
        }
        Stop::NoMemory => Err(Fault::NoMemory),
    }
}

// Does what the arguments say. Returns whether all went well.
fn run_task<H: Hashes, D: Disk, K: Output, E: Sink>(
    host: &Host<H, D>,
    session: &mut Session<D::File, K, E>,
    arguments: Arguments,
) -> Result<bool, Fault>
    requires { arguments.options.bytes ≤ 64 }
    ensures choice { (c : Choice) → OptionsMatchChoice c arguments.options
        → option_map (λ name. name.items) arguments.key_file ≡ c.key_file
        → DoesTaskOrNotBegun
        (world_of host.now.program.name.items D.File.named D.File.failed D.File.failure
        (D.files host.now.disk) H.hashing) c
        (map (λ name. name.items) arguments.files.items) session.old session.new
        (result_ok result) }
    ensures write { IsErrOf result Fault.WriteFailed → session.new.output_failed ≡ true }
{
    let Arguments {
        options,
        files,
        key_file,
    } = arguments;
    if options.shows_progress {
        host.disk.show_progress();
    }
    let Some(options) = with_key(host, session, options, key_file)? else {
        return Ok(false);
    };
    warn_if_short(&host.program, &options, session);
    session.make_room(host.program.alloc, host.hashes.piece_bytes(&options))?;
    do_task(host, &options, session, files)
}

// Does what the options say for these files. Returns whether all went well.
fn do_task<H: Hashes, D: Disk, K: Output, E: Sink>(
    host: &Host<H, D>,
    options: &Options,
    session: &mut Session<D::File, K, E>,
    files: Vec<Vec<u8>>,
) -> Result<bool, Fault>
    requires { options.now.bytes ≤ 64 }
    ensures done { FilesAreCheckedOrPrinted options.now.checks
        (world_of host.now.program.name.items D.File.named D.File.failed D.File.failure
        (D.files host.now.disk) H.hashing) options.now
        (map (λ name. name.items) files.items) session.old session.new (result_ok result) }
    ensures write { IsErrOf result Fault.WriteFailed → session.new.output_failed ≡ true }
{
    if options.checks {
        return check_manifests(host, options, session, files.as_slice());
    }
    if options.folders.is_empty() {
        return print_list(host, options, session, files.as_slice());
    }
    print_with_folders(host, options, session, files)
}

// Prints the lines of these files, and those of all files in the folders of the options and below.
// Returns whether all were read, and each folder could be listed.
fn print_with_folders<H: Hashes, D: Disk, K: Output, E: Sink>(
    host: &Host<H, D>,
    options: &Options,
    session: &mut Session<D::File, K, E>,
    files: Vec<Vec<u8>>,
) -> Result<bool, Fault>
    requires { options.now.bytes ≤ 64 }
    ensures printed { FolderFilesArePrinted
        (world_of host.now.program.name.items D.File.named D.File.failed D.File.failure
        (D.files host.now.disk) H.hashing) options.now
        (map (λ folder. folder.items) options.now.folders.items)
        (map (λ name. name.items) files.items) session.old session.new (result_ok result)
        ⊎ ((result_ok result ≡ None) × (session.new.held ≡ session.old.held)) }
    ensures write { IsErrOf result Fault.WriteFailed → session.new.output_failed ≡ true }
{
    let mut files = files;
    let (mut found, are_listed) = walk(host, session, options.folders.as_slice())?;
    warn_of_others(&host.program, session, found.others.as_slice())?;
    files.append(&mut found.files)?;
    if are_listed {
        return print_list(host, options, session, files.as_slice());
    }
    print_sums(host, options, session, files.as_slice())?;
    Ok(false)
}

// Warns of MACs that are short enough to be guessed.
fn warn_if_short<F: OpenFile, K: Output, E: Sink>(
    program: &Program,
    options: &Options,
    session: &mut Session<F, K, E>,
)
    ensures { WarnsIfShortMacs (are_short_macs options.now) program.now.name.items session.old
        session.new }
{
    if options.needs.key && options.bytes < MAC_BYTES {
        warn_of_short_macs(program, &mut session.messages);
    }
}

// Returns the options with the key of the key file, if there is one. For a file that has no key the
// result is `None`, after a message.
fn with_key<H: Hashes, D: Disk, K: Output, E: Sink>(
    host: &Host<H, D>,
    session: &mut Session<D::File, K, E>,
    mut options: Options,
    key_file: Option<Vec<u8>>,
) -> Result<Option<Options>, Fault>
    ensures options { (c : Choice) → OptionsMatchChoice c options
        → option_map (λ name. name.items) key_file ≡ c.key_file
        → IfOk result (λ found. IfSome found (OptionsMatchChoice c)) }
    ensures keyed { (c : Choice) → OptionsMatchChoice c options
        → option_map (λ name. name.items) key_file ≡ c.key_file
        → IfOk result (λ found. IfSome found (λ o. ChosenKeyIsRead
        (world_of host.now.program.name.items D.File.named D.File.failed D.File.failure
        (D.files host.now.disk) H.hashing) c o session.old session.new)) }
    ensures bytes { IfOk result (λ found. IfSome found (λ o. o.bytes ≡ options.bytes)) }
    ensures held { session.new.held ≡ session.old.held }
    ensures keyless { IfOk result (λ found. found ≡ None → KeyFileIsRefused
        (world_of host.now.program.name.items D.File.named D.File.failed D.File.failure
        (D.files host.now.disk) H.hashing)
        (option_map (λ name. name.items) key_file) options.key_is_hex
        (max_key_bytes options) session.old session.new) }
    ensures memory { IsOkUnless result Fault.NoMemory }
{
    let Some(name) = key_file else {
        return Ok(Some(options));
    };
    let form = Form {
        is_hex: options.key_is_hex,
        most: max_key_bytes(&options),
    };
    let is_hidden = host.disk.hide_memory();
    let key = read_key(host, session, name.as_slice(), form, is_hidden)?;
    scrub_stack::<KEY_STACK_BYTES>();
    let Some(key) = key else {
        return Ok(None);
    };
    warn_if_digits(
        &host.program,
        form,
        session,
        name.as_slice(),
        key.as_slice(),
    )?;
    options.key = derived_or_same_key(host.program.alloc, &host.hashes, &options, key)?;
    Ok(Some(options))
}

// Returns the most bytes of the key of a key file.
fn max_key_bytes(options: &Options) -> usize
    ensures is { result ≡ max_key_bytes options.now }
    ensures most { result ≤ 64 }
{
    if options.context.is_some() {
        64
    } else {
        options.algorithm.max_bytes()
    }
}

// Warns of a key that is read from the file of this name as it is, and is only hexadecimal digits.
fn warn_if_digits<F: OpenFile, K: Output, E: Sink>(
    program: &Program,
    form: Form,
    session: &mut Session<F, K, E>,
    name: &[u8],
    key: &[u8],
) -> Result<(), AllocError>
    ensures told { OnOk result
        (WarnsIfKeyIsDigits program.now.name.items (Some name.now) form.is_hex
        key.now session.old session.new) }
    ensures only { OnlyTells session.old session.new }
{
    if !form.is_hex && are_digits(key) {
        warn_of_key_digits(program, &mut session.messages, name)?;
    }
    Ok(())
}

// Returns the key of the digests, from that of a key file.
fn derived_or_same_key<H: Hashes>(
    alloc: Global,
    hashes: &H,
    options: &Options,
    key: Vec<u8>,
) -> Result<Vec<u8>, AllocError>
    requires some { 1 ≤ length key.items }
    requires fits { length key.items ≤ 64 }
    ensures { IfOk result (λ found. found.items ≡ derived_or_same_key H.hashing
        (option_map (λ text. text.items) options.now.context) (max_bytes options.now.algorithm)
        key.items) }
{
    let Some(context) = &options.context else {
        return Ok(key);
    };
    let mut derived = vec![in alloc; 0u8; options.algorithm.max_bytes()]?;
    hashes.derive_key(key.as_slice(), context.as_slice(), derived.as_mut_slice());
    Ok(derived)
}

//! `b2 --help` and `b2 --version`, and what is said of arguments that name no task.

ghost use Rattle.std.specs.Prelude.{◌≡◌, ◌↔◌, false, map, IsTrue, OnOk, IsOkUnless};
ghost use Rattle.std.specs.Io.KnownBytes.{Appends};
ghost use Rattle.std.specs.Result.{IsErrOf};
ghost use Rattle.std.specs.String.{string_bytes};
ghost use Rattle.b2_commands.specs.Advice.{advice_for_words, usage_advice, usage_of_command};

use crate::fault::Fault;
use blake2::streams::{Sink, write_whole};

/// What `--help` prints.
pub(crate) const HELP: &[u8] = b"Usage: b2 COMMAND ARGUMENT..
Print BLAKE2 digests of standard input in hexadecimal, and what they are made of.

  sum KIND [OPTION]..               the digest
  script KIND [OPTION]..            the digests of the calls in its lines
  steps KIND [OPTION]..             the transcript: the words and blocks that are compressed
  witness KIND MESSAGE MESSAGE      a pair of steps of two messages with equal digests
  tree KIND LEAF [SALT]..           the root of a tree with leaves of LEAF bytes
  leaves LEAF FIRST END [SALT]..    the digests of the leaves of a part of a file
  root KIND LEAF [SALT]..           the root over the digests of all leaves, which it reads
  xof KIND LENGTH [raw] [OPTION]..  LENGTH bytes of output of BLAKE2X
  derive LENGTH CONTEXT [raw]       a key of LENGTH bytes for a context, from the key that is read
  --help (or -h, help)              this help
  --version                         the version

KIND is b128, b256, b512, s128 or s256: the family, and the bits of the digest. witness accepts
b0, b8, s0 and s8 too, tree and root only those of BLAKE2b, and xof has xb and xs.
OPTION is key=HEX, or a SALT: salt=HEX, persona=HEX or persona-text=TEXT.
MESSAGE is HEX, or - for no bytes.
raw prints the bytes instead of digits, such as a key for b2sum --key-file.
FIRST is the index of the part's first leaf, from 0. END is last if the file ends with the part,
and more if it does not.

Other users of the machine can see a key on the command line.
The status is 0 for success, 1 if a read, a write or an allocation fails, and 2 for wrong
arguments or input. Errors are printed on standard output.
";

/// What `--version` prints.
pub(crate) const VERSION: &[u8] = b"b2 (Vulfsjor) 0.1.0\n";

/// Prints a text. The sink must not have failed before. The error is `Fault::WriteFailed`, if a
/// write fails.
pub(crate) fn print_text<K: Sink>(text: &[u8], sink: &mut K) -> Result<(), Fault>
    requires { K.failed sink.old ≡ false }
    ensures write { IsErrOf result Fault.WriteFailed ↔ IsTrue (K.failed sink.new) }
    ensures fault { IsOkUnless result Fault.WriteFailed }
    ensures text { OnOk result (Appends (K.held sink.old) (K.held sink.new) text.now) }
{
    write_whole(sink, text).map_err(|_| Fault::WriteFailed)
}

/// Prints the usage of the command that the arguments name, or that they name none, and where to
/// find help. The sink must not have failed before. If a write fails, nothing more is written.
pub(crate) fn print_advice<N: Sink>(words: &[String], notes: &mut N)
    requires { N.failed notes.old ≡ false }
    ensures { N.failed notes.new ≡ false → Appends (N.held notes.old) (N.held notes.new)
        (advice_for_words (map string_bytes words.now)) }
{
    let Ok(()) = write_whole(notes, usage_for(words)) else {
        return;
    };
    let _ = write_whole(notes, HINT);
}

// Returns the line of the usage of the command, or that there is none.
fn usage_for(words: &[String]) -> &'static [u8]
    ensures { result.now ≡ usage_advice (map string_bytes words.now) }
{
    match words.split_first() {
        None => NO_COMMAND,
        Some((command, _)) => usage(command.as_str()),
    }
}

// What is said if there is no argument.
const NO_COMMAND: &[u8] = b"b2: a command is missing\n";

// Where to find help.
const HINT: &[u8] = b"Try 'b2 --help' for more information.\n";

// Returns the usage of a command, as a line, or a line that says that there is none of this name.
fn usage(command: &str) -> &'static [u8]
    ensures { result.now ≡ usage_of_command command.now }
{
    match command {
        "sum" => b"usage: b2 sum KIND [key=HEX] [salt=HEX] [persona=HEX | persona-text=TEXT]\n",
        "script" =>
            b"usage: b2 script KIND [key=HEX] [salt=HEX] [persona=HEX | persona-text=TEXT]\n",
        "steps" => b"usage: b2 steps KIND [key=HEX] [salt=HEX] [persona=HEX | persona-text=TEXT]\n",
        "witness" => b"usage: b2 witness KIND MESSAGE MESSAGE\n",
        "tree" => b"usage: b2 tree KIND LEAF [salt=HEX] [persona=HEX | persona-text=TEXT]\n",
        "leaves" =>
            b"usage: b2 leaves LEAF FIRST more|last [salt=HEX] [persona=HEX | persona-text=TEXT]\n",
        "root" => b"usage: b2 root KIND LEAF [salt=HEX] [persona=HEX | persona-text=TEXT]\n",
        "xof" => b"usage: b2 xof KIND LENGTH [raw] \
            [key=HEX] [salt=HEX] [persona=HEX | persona-text=TEXT]\n",
        "derive" => b"usage: b2 derive LENGTH CONTEXT [raw]\n",
        "--help" | "-h" | "help" => b"usage: b2 --help\n",
        "--version" => b"usage: b2 --version\n",
        _ => b"b2: the first argument is not a command\n",
    }
}

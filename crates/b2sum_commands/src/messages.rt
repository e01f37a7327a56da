//! Messages.

ghost use Rattle.std.specs.Prelude.{◌≡◌, ◌++◌, ◌∷◌, [], codes, IfOk, IsErr, OnOk, not, true};
ghost use Rattle.std.specs.Prelude.{◌==◌, List, ℕ, ◌⊎◌, None, Some};
ghost use Rattle.b2sum_commands.specs.LineNeeds.{lacks_text};
ghost use Rattle.b2sum_commands.specs.Messages.{line, message, manifest_title};
ghost use Rattle.b2sum_commands.specs.Messages.{BreaksOff, Cannot, HasNoEntry, HaveCount};
ghost use Rattle.b2sum_commands.specs.Messages.{DigitsAsKey, Foreign, LineNeeds};
ghost use Rattle.b2sum_commands.specs.Messages.{Improper, LinesNeed, Message, NoMemory, ShortMacs};
ghost use Rattle.b2sum_commands.specs.Messages.{Usage, Value, VerifiesNone, WriteFailed};
ghost use Rattle.b2sum_commands.specs.Messages.{message_if};
ghost use Rattle.b2sum_commands.specs.World.{IsWriteError, SinkAcceptsOrFails};

use crate::devices::{Disk, print_message};
use crate::line_needs::Lacks;
use crate::options::joined;
use crate::quoting::quoted_name;
use crate::session::{Host, Program};
use crate::sums::is_standard_input;
use b2sum_lines::Algorithm;
use blake2_streams::Sink;
use std::alloc::AllocError;
use std::io;
use text_lines::push_decimal;

// Returns the line of the program's name, `: ` and these parts.
fn line_of(
    program: &Program,
    first: &[u8],
    second: &[u8],
    third: &[u8],
) -> Result<Vec<u8>, AllocError>
    ensures { IfOk result (λ text.
        text.items ≡ line program.now.name.items first.now second.now third.now) }
{
    let mut text = Vec::new(program.alloc);
    text.extend_from_slice(program.name.as_slice())?;
    text.extend_from_slice(b": ")?;
    text.extend_from_slice(first)?;
    text.extend_from_slice(second)?;
    text.extend_from_slice(third)?;
    text.push(b'\n')?;
    Ok(text)
}

// Prints such a line to the sink of messages.
fn warn<E: Sink>(
    program: &Program,
    sink: &mut E,
    first: &[u8],
    second: &[u8],
    third: &[u8],
) -> Result<(), AllocError>
    ensures unsaid { IsErr result → sink.new ≡ sink.old }
    ensures line { OnOk result (SinkAcceptsOrFails (E.failed sink.old) (E.failed sink.new)
        (E.held sink.old) (E.held sink.new)
        (line program.now.name.items first.now second.now third.now)) }
{
    let text = line_of(program, first, second, third)?;
    print_message(sink, text.as_slice());
    Ok(())
}

/// Says that the file of this name cannot be read, or is no key, for this reason.
pub(crate) fn warn_of_name<E: Sink>(
    program: &Program,
    sink: &mut E,
    name: &[u8],
    reason: &[u8],
) -> Result<(), AllocError>
    ensures { OnOk result
        (SinkAcceptsOrFails (E.failed sink.old) (E.failed sink.new) (E.held sink.old)
        (E.held sink.new) (message program.now.name.items (Cannot name.now reason.now))) }
{
    let name = quoted_name(program.alloc, name)?;
    warn(program, sink, name.as_slice(), b": ", reason)
}

/// Says that the file of this name cannot be opened or read, since that returned this error.
pub(crate) fn warn_of_file<H, D: Disk, E: Sink>(
    host: &Host<H, D>,
    error: io::Error,
    sink: &mut E,
    name: &[u8],
) -> Result<(), AllocError>
    ensures { OnOk result ((reason : List ℕ)
        × (D.files host.now.disk).describes error reason
        × SinkAcceptsOrFails (E.failed sink.old) (E.failed sink.new) (E.held sink.old)
        (E.held sink.new)
        (message host.now.program.name.items (Cannot name.now reason))) }
{
    let text = host.disk.reason_of(host.program.alloc, error)?;
    warn_of_name(&host.program, sink, name, text.as_bytes())
}

// Says this of the manifest of this name, in two parts.
fn warn_of_manifest<E: Sink>(
    program: &Program,
    sink: &mut E,
    name: &[u8],
    first: &[u8],
    second: &[u8],
) -> Result<(), AllocError>
    ensures { OnOk result
        (SinkAcceptsOrFails (E.failed sink.old) (E.failed sink.new) (E.held sink.old)
        (E.held sink.new)
        (line program.now.name.items (manifest_title name.now) first.now second.now)) }
{
    let shown: &[u8] = if is_standard_input(name) {
        b"standard input"
    } else {
        name
    };
    let title = quoted_name(program.alloc, shown)?;
    warn(program, sink, title.as_slice(), first, second)
}

/// Says that a read of the manifest of this name failed.
pub(crate) fn warn_of_read<E: Sink>(
    program: &Program,
    sink: &mut E,
    name: &[u8],
) -> Result<(), AllocError>
    ensures { OnOk result
        (SinkAcceptsOrFails (E.failed sink.old) (E.failed sink.new) (E.held sink.old)
        (E.held sink.new) (message program.now.name.items (BreaksOff name.now))) }
{
    warn_of_manifest(program, sink, name, b": ", b"read error")
}

/// Says that the line of this number is not that of an entry, which would be of this algorithm.
pub(crate) fn warn_of_line<E: Sink>(
    program: &Program,
    sink: &mut E,
    name: &[u8],
    number: u64,
    algorithm: Algorithm,
) -> Result<(), AllocError>
    ensures { OnOk result
        (SinkAcceptsOrFails (E.failed sink.old) (E.failed sink.new) (E.held sink.old)
        (E.held sink.new)
        (message program.now.name.items (Improper name.now number algorithm))) }
{
    let mut place = Vec::new(program.alloc);
    place.extend_from_slice(b": ")?;
    push_decimal(&mut place, number)?;
    place.extend_from_slice(b": improperly formatted ")?;
    place.extend_from_slice(algorithm.tag(program.alloc)?.as_slice())?;
    warn_of_manifest(program, sink, name, place.as_slice(), b" checksum line")
}

/// Says that the line of this number is one of another hash function.
pub(crate) fn warn_of_foreign<E: Sink>(
    program: &Program,
    sink: &mut E,
    name: &[u8],
    number: u64,
) -> Result<(), AllocError>
    ensures { OnOk result
        (SinkAcceptsOrFails (E.failed sink.old) (E.failed sink.new) (E.held sink.old)
        (E.held sink.new) (message program.now.name.items (Foreign name.now number))) }
{
    let mut place = Vec::new(program.alloc);
    place.extend_from_slice(b": ")?;
    push_decimal(&mut place, number)?;
    let text = b": checksum line of another algorithm";
    warn_of_manifest(program, sink, name, place.as_slice(), text)
}

/// Says which options the line of this number needs.
pub(crate) fn warn_of_line_needs<E: Sink>(
    program: &Program,
    sink: &mut E,
    name: &[u8],
    number: u64,
    lacks: Lacks,
) -> Result<(), AllocError>
    ensures { OnOk result
        (SinkAcceptsOrFails (E.failed sink.old) (E.failed sink.new) (E.held sink.old)
        (E.held sink.new) (message program.now.name.items (LineNeeds name.now number lacks))) }
{
    let mut place = Vec::new(program.alloc);
    place.extend_from_slice(b": ")?;
    push_decimal(&mut place, number)?;
    place.extend_from_slice(b": needs")?;
    let mut text = Vec::new(program.alloc);
    lacks.push_options(&mut text)?;
    warn_of_manifest(program, sink, name, place.as_slice(), text.as_slice())
}

/// Says that no line of the manifest of this name is that of an entry.
pub(crate) fn warn_of_no_entry<E: Sink>(
    program: &Program,
    sink: &mut E,
    name: &[u8],
) -> Result<(), AllocError>
    ensures { OnOk result
        (SinkAcceptsOrFails (E.failed sink.old) (E.failed sink.new) (E.held sink.old)
        (E.held sink.new) (message program.now.name.items (HasNoEntry name.now))) }
{
    let text = b": no properly formatted checksum lines found";
    warn_of_manifest(program, sink, name, text, b"")
}

/// Says which options lines of the manifest of this name need, if so many that do are some.
pub(crate) fn warn_of_needs<E: Sink>(
    program: &Program,
    sink: &mut E,
    name: &[u8],
    count: u64,
    lacks: Lacks,
) -> Result<(), AllocError>
    ensures { OnOk result
        (SinkAcceptsOrFails (E.failed sink.old) (E.failed sink.new) (E.held sink.old)
        (E.held sink.new) (message_if (not (count == 0)) program.now.name.items
        (LinesNeed name.now lacks))) }
{
    if count == 0 {
        return Ok(());
    }
    let mut text = Vec::new(program.alloc);
    lacks.push_options(&mut text)?;
    warn_of_manifest(program, sink, name, b": lines need", text.as_slice())
}

/// Says that no file of the manifest of this name was verified.
pub(crate) fn warn_of_none<E: Sink>(
    program: &Program,
    sink: &mut E,
    name: &[u8],
) -> Result<(), AllocError>
    ensures { OnOk result
        (SinkAcceptsOrFails (E.failed sink.old) (E.failed sink.new) (E.held sink.old)
        (E.held sink.new) (message program.now.name.items (VerifiesNone name.now))) }
{
    warn_of_manifest(program, sink, name, b": no file was verified", b"")
}

/// Says `WARNING: N` and one of two texts, for one or for several, if there are any.
pub(crate) fn warn_of_count<E: Sink>(
    program: &Program,
    sink: &mut E,
    count: u64,
    one: &[u8],
    several: &[u8],
) -> Result<(), AllocError>
    ensures { OnOk result
        (SinkAcceptsOrFails (E.failed sink.old) (E.failed sink.new) (E.held sink.old)
        (E.held sink.new) (message_if (not (count == 0)) program.now.name.items
        (HaveCount count one.now several.now))) }
{
    if count == 0 {
        return Ok(());
    }
    let mut number = Vec::new(program.alloc);
    push_decimal(&mut number, count)?;
    let text = if count == 1 { one } else { several };
    warn(program, sink, b"WARNING: ", number.as_slice(), text)
}

/// Says what is wrong with the command line, and points to `--help`.
pub(crate) fn warn_of_usage<E: Sink>(
    program: &Program,
    sink: &mut E,
    text: &[u8],
) -> Result<(), AllocError>
    ensures unsaid { IsErr result → sink.new ≡ sink.old }
    ensures said { OnOk result (SinkAcceptsOrFails (E.failed sink.old) (E.failed sink.new)
        (E.held sink.old) (E.held sink.new)
        (message program.now.name.items (Usage text.now))) }
{
    let (name, rest) = (program.name.as_slice(), b" --help' for more information.\n");
    let mut lines = line_of(program, text, b"", b"")?;
    lines.extend_from_slice(joined(program.alloc, b"Try '", name, rest)?.as_slice())?;
    print_message(sink, lines.as_slice());
    Ok(())
}

/// Says what is wrong with a value, in one line or two.
pub(crate) fn warn_of_value<E: Sink>(
    program: &Program,
    sink: &mut E,
    first: &[u8],
    second: &[u8],
) -> Result<(), AllocError>
    ensures unsaid { IsErr result → sink.new ≡ sink.old }
    ensures said { OnOk result (SinkAcceptsOrFails (E.failed sink.old) (E.failed sink.new)
        (E.held sink.old) (E.held sink.new)
        (message program.now.name.items (Value first.now second.now))) }
{
    let mut lines = line_of(program, first, b"", b"")?;
    if second.is_empty() {
        print_message(sink, lines.as_slice());
        return Ok(());
    }
    lines.extend_from_slice(line_of(program, second, b"", b"")?.as_slice())?;
    print_message(sink, lines.as_slice());
    Ok(())
}

/// Says that a write to the output failed, with the text of its error if there is memory for it.
pub(crate) fn warn_of_write<H, D: Disk, E: Sink>(host: &Host<H, D>, error: io::Error, sink: &mut E)
    ensures { (said : Message) × IsWriteError (D.files host.now.disk) error said
        × SinkAcceptsOrFails (E.failed sink.old) (E.failed sink.new) (E.held sink.old)
        (E.held sink.new)
        (message host.now.program.name.items said) }
{
    match line_of_write(host, error) {
        Ok(text) => print_message(sink, text.as_slice()),
        Err(_) => tell_named(&host.program, sink, b": write error\n"),
    }
}

// Returns the line of a write that failed, with the text of its error.
fn line_of_write<H, D: Disk>(host: &Host<H, D>, error: io::Error) -> Result<Vec<u8>, AllocError>
    ensures { IfOk result (λ text. (reason : List ℕ)
        × (D.files host.now.disk).describes error reason
        × (text.items ≡ message host.now.program.name.items (WriteFailed (Some reason)))) }
{
    let reason = host.disk.reason_of(host.program.alloc, error)?;
    line_of(&host.program, b"write error: ", reason.as_bytes(), b"")
}

/// Warns that the key in the file of this name is hexadecimal digits, as they are.
pub(crate) fn warn_of_key_digits<E: Sink>(
    program: &Program,
    sink: &mut E,
    name: &[u8],
) -> Result<(), AllocError>
    ensures unsaid { IsErr result → sink.new ≡ sink.old }
    ensures said { OnOk result (SinkAcceptsOrFails (E.failed sink.old) (E.failed sink.new)
        (E.held sink.old) (E.held sink.new)
        (message program.now.name.items (DigitsAsKey name.now))) }
{
    let name = quoted_name(program.alloc, name)?;
    let text = b": has only hexadecimal digits, which --key-hex-file would decode";
    warn(program, sink, b"WARNING: ", name.as_slice(), text)
}

/// Warns that the digests are MACs that are short enough to be guessed. It allocates nothing.
pub(crate) fn warn_of_short_macs<E: Sink>(program: &Program, sink: &mut E)
    ensures { SinkAcceptsOrFails (E.failed sink.old) (E.failed sink.new) (E.held sink.old)
        (E.held sink.new)
        (message program.now.name.items ShortMacs) }
{
    tell_named(
        program,
        sink,
        b": WARNING: MACs below 128 bits can be guessed\n",
    );
}

/// Says that an allocation failed. It allocates nothing.
pub(crate) fn warn_of_memory<E: Sink>(program: &Program, sink: &mut E)
    ensures { SinkAcceptsOrFails (E.failed sink.old) (E.failed sink.new) (E.held sink.old)
        (E.held sink.new)
        (message program.now.name.items NoMemory) }
{
    tell_named(program, sink, b": memory exhausted\n");
}

// Prints the program's name and this text to the sink of messages. It allocates nothing.
fn tell_named<E: Sink>(program: &Program, sink: &mut E, text: &[u8])
    ensures { SinkAcceptsOrFails (E.failed sink.old) (E.failed sink.new) (E.held sink.old)
        (E.held sink.new)
        (program.now.name.items ++ text.now) }
{
    print_message(sink, program.name.as_slice());
    print_message(sink, text);
}

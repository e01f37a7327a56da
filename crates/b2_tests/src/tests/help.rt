//! `--help`, `--version`, and what is said of arguments that name no task.

use super::{check_rows_of_commands, split_words};
use b2_commands::run_with_notes;
use blake2::streams::{IoSink, SliceSink, SliceSource};
use blake2_test_support::devices::FailsOnce;
use std::alloc::{AllocError, Global};

// Returns the status of a command that reads nothing, and its output or, if `of_notes` is true, its
// notes.
fn status_and_output_or_notes(
    alloc: Global,
    text: &str,
    of_notes: bool,
) -> Result<(u8, Vec<u8>), AllocError> {
    let words = split_words(alloc, text)?;
    let mut source = SliceSource::new(b"", 1, Some(0));
    let mut sink = IoSink::new(Vec::new(alloc));
    let mut notes = IoSink::new(Vec::new(alloc));
    let status = run_with_notes(alloc, words.as_slice(), &mut source, &mut sink, &mut notes);
    let (output, notes) = (sink.into_inner(), notes.into_inner());
    Ok((status, if of_notes { notes } else { output }))
}

// Whether a command succeeds, and prints a text that begins and ends like this and no notes.
fn prints_text_between(alloc: Global, text: &str, start: &[u8], end: &[u8]) -> bool {
    let (Ok((0, output)), Ok((0, notes))) = (
        status_and_output_or_notes(alloc, text, false),
        status_and_output_or_notes(alloc, text, true),
    ) else {
        return false;
    };
    output.as_slice().starts_with(start) && output.as_slice().ends_with(end) && notes.is_empty()
}

#[test]
fn help_is_printed(rt: HostRuntime) {
    let alloc = rt.alloc();
    for text in ["--help", "-h", "help"] {
        assert!(rt;
            prints_text_between(alloc, text, b"Usage: b2 COMMAND", b"standard output.\n"),
            "b2 {text}"
        );
    }
    assert!(rt; prints_text_between(alloc, "--version", b"b2 (Vulfsjor) ", b"\n"));
}

// Returns whether a command has status 2, and its notes are this line and where to find help.
fn notes_line_and_where_help_is(alloc: Global, text: &str, line: &[u8]) -> bool {
    let Ok((2, notes)) = status_and_output_or_notes(alloc, text, true) else {
        return false;
    };
    let Some(hint) = notes.as_slice().strip_prefix(line) else {
        return false;
    };
    hint == b"Try 'b2 --help' for more information.\n".as_slice()
}

#[test]
fn wrong_arguments_are_noted(rt: HostRuntime) {
    let alloc = rt.alloc();
    assert!(rt; notes_line_and_where_help_is(alloc, "", b"b2: a command is missing\n"));
    assert!(rt;
        notes_line_and_where_help_is(
            alloc,
            "blake2b",
            b"b2: the first argument is not a command\n"
        )
    );
    assert!(rt;
        notes_line_and_where_help_is(
            alloc,
            "witness b512 61",
            b"usage: b2 witness KIND MESSAGE MESSAGE\n"
        )
    );
    assert!(rt;
        notes_line_and_where_help_is(
            alloc,
            "derive 0 a",
            b"usage: b2 derive LENGTH CONTEXT [raw]\n"
        )
    );
    assert!(rt;
        notes_line_and_where_help_is(
            alloc,
            "xof xb 0",
            b"usage: b2 xof KIND LENGTH [raw] \
            [key=HEX] [salt=HEX] [persona=HEX | persona-text=TEXT]\n"
        )
    );
    assert!(rt;
        notes_line_and_where_help_is(
            alloc,
            "leaves 4 0",
            b"usage: b2 leaves LEAF FIRST more|last [salt=HEX] [persona=HEX | persona-text=TEXT]\n"
        )
    );
    assert!(rt;
        notes_line_and_where_help_is(
            alloc,
            "root s256 4",
            b"usage: b2 root KIND LEAF [salt=HEX] [persona=HEX | persona-text=TEXT]\n"
        )
    );
    for text in ["--help sum", "-h sum", "help sum"] {
        assert!(rt;
            notes_line_and_where_help_is(alloc, text, b"usage: b2 --help\n"),
            "b2 {text}"
        );
    }
}

// Returns whether a command fails, and has no notes.
fn fails_without_notes(alloc: Global, text: &str) -> bool {
    let Ok((status, notes)) = status_and_output_or_notes(alloc, text, true) else {
        return false;
    };
    (status == 1 || status == 2) && notes.is_empty()
}

#[test]
fn failing_tasks_have_no_notes(rt: HostRuntime) {
    for text in ["sum b512 key=", "sum b512", "derive 1 a"] {
        assert!(rt; fails_without_notes(rt.alloc(), text), "b2 {text}");
    }
}

// Notes that fail change neither the output nor the status.
#[test]
fn failed_notes_change_no_output(rt: HostRuntime) {
    let alloc = rt.alloc();
    let mut room = [0u8; 32];
    let mut source = SliceSource::new(b"", 1, Some(0));
    let mut sink = SliceSink::new(&mut room, 32, None);
    let mut notes = IoSink::new(FailsOnce::new(3, true));
    let status = run_with_notes(alloc, &[], &mut source, &mut sink, &mut notes);
    let written = sink.written();
    assert!(rt; status == 2 && room.get(..written) == Some(b"b2: wrong words\n".as_slice()));
    assert!(rt; notes.into_inner().later == 0);
}

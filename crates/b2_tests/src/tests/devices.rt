//! Devices that move few bytes a call, and that fail at each call.

use super::input_lengths::script_of_length;
use super::leaves::FIRST;
use super::{check_status_and_only_line, run_with_failing_source, split_words};
use b2_commands::run;
use blake2::streams::{SliceSink, SliceSource};
use std::alloc::{AllocError, Global};
use std::process::Abort;

// A command, its arguments one by one, and its input.
#[derive(Drop)]
struct Command<'a> {
    text: &'a str,
    words: &'a [String],
    input: &'a [u8],
}

// Runs a command between a source and a sink that move at most `most` bytes a call. Returns its
// status, and how many bytes the sink accepted into the room before it failed.
fn run_between_small_devices(
    alloc: Global,
    command: &Command<'_>,
    room: &mut [u8],
    most: usize,
    fail_at: Option<usize>,
) -> (u8, usize) {
    room.fill(0);
    let mut source = SliceSource::new(command.input, most.max(1), None);
    let mut sink = SliceSink::new(room, most.max(1), fail_at);
    let status = run(alloc, command.words, &mut source, &mut sink);
    (status, sink.written())
}

// Checks that a command between devices that move few bytes a call prints the whole output.
fn check_output_by_small_devices(
    rt: &(impl Abort + AllocGlobal),
    command: &Command<'_>,
    room: &mut [u8],
    status: u8,
    whole: &[u8],
) {
    for most in [1, 2, 3, 64] {
        let (found, written) = run_between_small_devices(rt.alloc(), command, room, most, None);
        assert!(rt;
            found == status && room.get(..written) == Some(whole),
            "b2 {}: {most} bytes a call",
            command.text
        );
    }
}

// Returns whether a run ended with status 1, and the sink accepted exactly the first `length`
// bytes of the whole output into the room.
fn is_output_cut_at(run: (u8, usize), room: &[u8], whole: &[u8], length: usize) -> bool {
    let (status, written) = run;
    status == 1 && room.get(..written) == whole.get(..length)
}

// Returns whether a command at a sink that has room for `length` bytes, fewer than the whole
// output, prints exactly those, with status 1.
fn prints_what_sink_has_room_for(
    alloc: Global,
    command: &Command<'_>,
    room: &mut [u8],
    whole: &[u8],
    length: usize,
) -> bool {
    match room.get_mut(..length) {
        Some(few) => {
            let run = run_between_small_devices(alloc, command, few, 4096, None);
            is_output_cut_at(run, few, whole, length)
        }
        None => false,
    }
}

// Checks a command at a sink that fails after each number of bytes below the whole output's, and
// at one that has no room for more. It prints exactly those bytes, with status 1.
fn check_failing_and_full_sinks(
    rt: &(impl Abort + AllocGlobal),
    command: &Command<'_>,
    room: &mut [u8],
    whole: &[u8],
) {
    let text = command.text;
    for length in 0..whole.len() {
        let run = run_between_small_devices(rt.alloc(), command, room, 4096, Some(length));
        assert!(rt;
            is_output_cut_at(run, room, whole, length),
            "b2 {text}: fails after {length}"
        );
        let is_full = prints_what_sink_has_room_for(rt.alloc(), command, room, whole, length);
        assert!(rt; is_full, "b2 {text}: room for {length}");
    }
}

// Checks that a command over a source that fails after `fail_at` bytes prints that a read failed.
fn check_failing_source_is_reported(
    rt: &(impl Abort + AllocGlobal),
    words: &str,
    input: &[u8],
    fail_at: usize,
) {
    check_status_and_only_line(rt, words, input, Some(fail_at), 1, "b2: read failed");
}

// Returns a command's arguments, its status, the whole output, and room for that.
fn run_to_whole_output(
    alloc: Global,
    text: &str,
    input: &[u8],
) -> Result<(Vec<String>, u8, Vec<u8>, Vec<u8>), AllocError> {
    let words = split_words(alloc, text)?;
    let (status, whole) = run_with_failing_source(alloc, text, input, None)?;
    let room = Vec::from_slice(alloc, whole.as_slice())?;
    Ok((words, status, whole, room))
}

// Checks a command between devices that move few bytes a call, and at outputs that fail.
fn check_command_at_failing_outputs(rt: &(impl Abort + AllocGlobal), text: &str, input: &[u8]) {
    let (words, status, whole, mut room) = run_to_whole_output(rt.alloc(), text, input).expect(
        rt, text,
    );
    let command = Command {
        text,
        words: words.as_slice(),
        input,
    };
    check_output_by_small_devices(rt, &command, room.as_mut_slice(), status, whole.as_slice());
    check_failing_and_full_sinks(rt, &command, room.as_mut_slice(), whole.as_slice());
}

// Checks the same for a command that reads its input. Checks also that it prints that a read
// failed if the source fails after each number of bytes, from 0 to the whole input's.
fn check_command_between_failing_devices(
    rt: &(impl Abort + AllocGlobal),
    text: &str,
    input: &[u8],
) {
    check_command_at_failing_outputs(rt, text, input);
    for fail_at in 0..=input.len() {
        check_failing_source_is_reported(rt, text, input, fail_at);
    }
}

#[test]
fn commands_at_small_or_failing_devices(rt: HostRuntime) {
    check_command_between_failing_devices(&rt, "sum b512", &[b'a'; 129]);
    check_command_between_failing_devices(&rt, "sum s128 key=01", b"abc");
    check_command_between_failing_devices(&rt, "steps b512", &[b'a'; 129]);
    check_command_between_failing_devices(&rt, "steps s128 key=01", b"abc");
    check_command_between_failing_devices(&rt, "tree b512 1", &[b'a'; 129]);
    check_command_between_failing_devices(&rt, "tree b128 4", b"abcde");
    check_command_between_failing_devices(&rt, "tree b256 4294967295", b"abc");
    check_command_between_failing_devices(&rt, "leaves 64 1 last", &[b'a'; 129]);
    check_command_between_failing_devices(&rt, "leaves 4 0 more", b"abcdefgh");
    check_command_between_failing_devices(&rt, "leaves 4 0 more", b"abcde");
    let lines = b"u 0 6162\nc 0\nu 0 63\nd 0\nu 1 63\nf 1\nf 0\n";
    check_command_between_failing_devices(&rt, "script b512", lines);
    check_command_between_failing_devices(&rt, "root b512 4", FIRST.as_bytes());
    check_command_between_failing_devices(&rt, "script s128 key=01", b"d 0\nu 0 61\nf 0");
    check_command_between_failing_devices(&rt, "script s128", b"f 0\nf 0\n");
    check_command_between_failing_devices(&rt, "script s128", b"f 0\nx 0\n");
}

#[test]
fn commands_at_small_or_failing_outputs(rt: HostRuntime) {
    check_command_at_failing_outputs(&rt, "sum b999", b"");
    check_command_at_failing_outputs(&rt, "tree b256 4 key=", b"abc");
    check_command_at_failing_outputs(&rt, "root b256 4", b"abc");
    check_command_at_failing_outputs(&rt, "witness b0 61 62", b"");
    check_command_at_failing_outputs(&rt, "witness s0 - 00", b"");
    check_command_at_failing_outputs(&rt, "witness b512 61 62", b"");
}

// Checks that a command prints that a read failed, if its source fails at one of these ends of
// pieces, or a byte before or after it.
fn check_read_errors_around_pieces(
    rt: &(impl Abort + AllocGlobal),
    words: &str,
    input: &[u8],
    ends: &[usize],
) {
    for end in ends {
        check_failing_source_is_reported(rt, words, input, end.saturating_sub(1));
        check_failing_source_is_reported(rt, words, input, *end);
        check_failing_source_is_reported(rt, words, input, end.saturating_add(1));
    }
}

// The source returns at most 4,096 bytes a read.
#[test]
fn read_errors_around_pieces_are_reported(rt: HostRuntime) {
    let input = [b'a'; 70_000];
    for words in [
        "sum b512",
        "sum s128 key=01",
        "steps b512",
        "steps s256 key=01",
        "tree b128 4294967295",
        "leaves 1 0 more",
        "root b128 1",
    ] {
        check_read_errors_around_pieces(&rt, words, &input, &[4096, 8192, 65_536]);
    }
    // A piece of a tree's input has 65,537 bytes if a leaf has one byte, and 69,632 if it has
    // 4,096.
    check_read_errors_around_pieces(&rt, "tree b512 1", &input, &[4096, 65_537]);
    check_read_errors_around_pieces(&rt, "tree b256 4096", &input, &[4096, 69_632]);
}

#[test]
fn read_errors_in_scripts_are_reported(rt: HostRuntime) {
    let script = script_of_length(rt.alloc(), 12_289).expect(&rt, "memory for the test");
    for words in ["script b512", "script s256 key=01"] {
        check_read_errors_around_pieces(&rt, words, script.as_slice(), &[4096, 8192, 12_288]);
    }
}

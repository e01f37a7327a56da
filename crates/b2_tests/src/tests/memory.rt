//! Runs of the commands in which allocations fail.

ghost use Rattle.std.specs.Prelude.{◌≤◌};

use super::leaves::FIRST;
use super::script::{ABC, NOTHING};
use super::witness::B0;
use super::{split_words, text_of_parts};
use b2_commands::run;
use blake2::streams::{SliceSink, SliceSource};
use blake2_test_support::no_memory::{allocate_all_memory_but, are_small_allocations_refused};
use std::alloc::{AllocError, Global};
use std::process::Abort;

// The number of bytes that a hoard leaves free in one block. The shortest piece of a tree's input
// has fewer.
const SPARE_BYTES: usize = 131_072;

// The number of times that a command is tried.
const TRIES: usize = 1024;

// Runs a command under a hoard, with `left` bytes of memory left, at most 131,072. Returns its
// status, and how many bytes it prints into the room.
fn run_with_bytes_left(
    alloc: Global,
    words: &[String],
    input: &[u8],
    room: &mut [u8],
    left: usize,
) -> Result<(u8, usize), AllocError>
    requires { left ≤ 131072 }
{
    let plug: Vec<u8> = Vec::with_capacity(alloc, SPARE_BYTES - left)?;
    let mut source = SliceSource::new(input, 4096, None);
    let mut sink = SliceSink::new(room, 4096, None);
    let status = run(alloc, words, &mut source, &mut sink);
    drop(plug);
    Ok((status, sink.written()))
}

// What a command does if little memory is left, or none.
#[derive(Clone, Copy, PartialEq)]
enum Answer {
    // It reports that an allocation failed, with status 1.
    Refused,
    // It prints the expected output, with status 0.
    Printed,
    // It does anything else.
    Other,
}

fn answer_with_bytes_left(
    alloc: Global,
    words: &[String],
    input: &[u8],
    wanted: &str,
    left: usize,
) -> Answer
    requires { left ≤ 131072 }
{
    let mut room = [0u8; 1024];
    let Ok((status, written)) = run_with_bytes_left(alloc, words, input, &mut room, left) else {
        return Answer::Other;
    };
    let printed = room.get(..written).unwrap_or(b"");
    if status == 0 && printed == wanted.as_bytes() {
        Answer::Printed
    } else if status == 1 && printed == b"b2: no memory\n".as_slice() {
        Answer::Refused
    } else {
        Answer::Other
    }
}

// Returns how many of the tries are refused, if all of these come before those that print the
// expected output, and no try does anything else. Otherwise it returns `None`. Each try has
// `step` bytes of memory more than the one before it, and the first has none.
fn count_refused_tries(
    alloc: Global,
    words: &[String],
    input: &[u8],
    wanted: &str,
    step: usize,
) -> Option<usize>
    requires { step ≤ 128 }
{
    let mut refused = 0usize;
    for tries in 0..TRIES {
        match answer_with_bytes_left(alloc, words, input, wanted, step * tries) {
            Answer::Refused if refused == tries => refused = tries + 1,
            Answer::Printed => {}
            _ => return None,
        }
    }
    Some(refused)
}

// Does the same for a command, once its arguments are separated and the expected output is made:
// the hoard comes after that.
fn count_refused_tries_of_command(
    alloc: Global,
    text: &str,
    input: &[u8],
    wanted: &[&str],
    step: usize,
) -> Result<Option<usize>, AllocError>
    requires { step ≤ 128 }
{
    let words = split_words(alloc, text)?;
    let wanted = text_of_parts(alloc, wanted)?;
    let hoard = allocate_all_memory_but(alloc, SPARE_BYTES)?;
    let refused = count_refused_tries(alloc, words.as_slice(), input, wanted.as_str(), step);
    drop(hoard);
    Ok(refused)
}

// Checks a command with no memory left, and with `step` bytes more at each further try. At the
// first tries, at least one and not all, it reports that an allocation failed, with status 1. At
// all others it prints the expected output, with status 0.
fn check_reports_refused_allocations(
    rt: &(impl Abort + AllocGlobal),
    text: &str,
    input: &[u8],
    wanted: &[&str],
    step: usize,
)
    requires { step ≤ 128 }
{
    let refused = count_refused_tries_of_command(rt.alloc(), text, input, wanted, step);
    assert!(rt;
        matches!(refused, Ok(Some(refused)) if 0 < refused && refused < TRIES),
        "b2 {text}"
    );
}

// Runs a command with no memory left. Returns its status, and how many bytes it prints into the
// room. The result is `None` if an allocation of one byte or of 16 bytes succeeds before it or
// after it.
fn run_with_no_memory_left(
    alloc: Global,
    text: &str,
    input: &[u8],
    room: &mut [u8],
) -> Result<Option<(u8, usize)>, AllocError> {
    let words = split_words(alloc, text)?;
    let hoard = allocate_all_memory_but(alloc, SPARE_BYTES)?;
    let plug: Vec<u8> = Vec::with_capacity(alloc, SPARE_BYTES)?;
    let refused_before = are_small_allocations_refused(alloc);
    let mut source = SliceSource::new(input, 4096, None);
    let mut sink = SliceSink::new(room, 4096, None);
    let status = run(alloc, words.as_slice(), &mut source, &mut sink);
    let refused_after = are_small_allocations_refused(alloc);
    drop(plug);
    drop(hoard);
    if refused_before && refused_after {
        Ok(Some((status, sink.written())))
    } else {
        Ok(None)
    }
}

// Checks a command that allocates nothing: with no memory left it prints this text, with this
// status.
fn check_prints_with_no_memory_left(
    rt: &(impl Abort + AllocGlobal),
    words: &str,
    input: &[u8],
    status: u8,
    text: &str,
) {
    let mut room = [0u8; 256];
    let found = run_with_no_memory_left(rt.alloc(), words, input, &mut room);
    let is_right = match found {
        Ok(Some((found, written))) => {
            found == status && room.get(..written) == Some(text.as_bytes())
        }
        _ => false,
    };
    assert!(rt; is_right, "b2 {words}");
}

#[test]
fn refused_allocations_are_reported(rt: HostRuntime) {
    check_reports_refused_allocations(
        &rt,
        "sum b128 key=0102 salt=73616c74 persona=706572736f6e61",
        b"abc",
        &["64e477c9f5c0ba5bd0d2d41455c1fb48\n"],
        16,
    );
    let lines = b"u 0 6162\nc 0\nu 0 63\nd 0\nu 1 63\nf 1\nf 0\n";
    check_reports_refused_allocations(&rt, "script b512", lines, &[ABC, ABC, NOTHING], 16);
    let transcript = "w 0000000001010040|7* 0000000000000000|\ne 128 1 |128*2a|\n";
    check_reports_refused_allocations(&rt, "steps b512", &[0x2a; 128], &[transcript], 16);
    let root = "14b0752e3ca5c2b4f5df98dcb4fab97caeda23424260d531f9b0b52310bb58ee\
        cb6e13211a8298c3e52d543a21efa545053f3006100629ff6bd181611b38f8c8\n";
    check_reports_refused_allocations(&rt, "tree b512 4 salt= persona=", b"abcde", &[root], 128);
    check_reports_refused_allocations(&rt, "leaves 4 0 more salt=", b"abcd", &[FIRST, "\n"], 16);
    check_reports_refused_allocations(
        &rt,
        "root b128 4 salt=",
        FIRST.as_bytes(),
        &["39544fb70173708ee0632ecf773a3c6a\n"],
        16,
    );
}

#[test]
fn refused_allocations_of_witness_reported(rt: HostRuntime) {
    let pair = [B0, "1 1 61|127*00|\n", B0, "1 1 62|127*00|\n"];
    check_reports_refused_allocations(&rt, "witness b0 61 62", b"", &pair, 16);
    for words in [
        "witness b0 61 61",
        "witness b512 61 61",
        "witness b512 61 62",
        "witness b512 616263 -",
        "witness s256 61 -",
        "witness s8 - 62",
    ] {
        check_reports_refused_allocations(&rt, words, b"", &["none\n"], 16);
    }
}

#[test]
fn some_commands_need_no_memory(rt: HostRuntime) {
    let digest = "508c5e8c327c14e2e1a72ba34eeb452f37458b209ed63a294d999b4c86675982\n";
    check_prints_with_no_memory_left(&rt, "sum s256", b"abc", 0, digest);
    check_prints_with_no_memory_left(&rt, "witness b512 - -", b"", 0, "none\n");
    check_prints_with_no_memory_left(&rt, "witness s0 - -", b"", 0, "none\n");
    check_prints_with_no_memory_left(&rt, "", b"", 2, "b2: wrong words\n");
    check_prints_with_no_memory_left(&rt, "sum b999", b"", 2, "b2: wrong words\n");
    check_prints_with_no_memory_left(&rt, "tree s256 4", b"", 2, "b2: wrong words\n");
    check_prints_with_no_memory_left(&rt, "steps b512 key=", b"", 2, "b2: wrong length\n");
    check_prints_with_no_memory_left(&rt, "sum b512 salt=1", b"", 2, "b2: wrong hex\n");
}

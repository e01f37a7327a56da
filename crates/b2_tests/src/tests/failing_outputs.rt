//! Outputs that fail once, and would then accept everything: nothing more is written to them.

use super::split_words;
use b2_commands::{Fault, run};
use blake2::streams::{IoSink, SliceSource};
use blake2_test_support::devices::FailsOnce;
use std::alloc::Global;

// Returns whether the command, over an output that fails once after `before` bytes, returns
// status 1 and writes no more.
fn ends_at_first_failed_write(alloc: Global, text: &str, input: &[u8], before: usize) -> bool {
    let Ok(words) = split_words(alloc, text) else {
        return false;
    };
    for by_error in [true, false] {
        let mut source = SliceSource::new(input, 4096, None);
        let mut sink = IoSink::new(FailsOnce::new(before, by_error));
        let status = run(alloc, words.as_slice(), &mut source, &mut sink);
        let output = sink.into_inner();
        if status != 1 || !output.has_failed || output.later != 0 {
            return false;
        }
    }
    true
}

// The number of bytes that the output accepts before it fails, the arguments and the input. The
// output fails at a command's first byte, within a line and between lines, and it does so at the
// line of an error.
const STOPS: &str = "\
0|sum b512|abc;128|sum b512|abc;32|sum s128 key=01|abc;\
0|script s128|d 0\nd 0\nf 0\n;33|script s128|d 0\nd 0\nf 0\n;\
65|script s128 key=01|d 0\nd 0\nf 0\n;\
0|steps b512|;138|steps b512|;200|steps s256|;\
0|tree b512 4|abcde;32|tree b128 4|abcde;\
0|leaves 4 0 last|abcde;129|leaves 4 0 last|abcde;200|leaves 4 0 last|abcde;0|root b512 4|abcde;\
0|witness b0 61 62|;208|witness s0 61 62|;0|witness b512 61 62|;4|witness b512 61 62|;\
0|add|;13|sum b512 key=1|;0|script b512|f 0\nf 0\n;15|steps b512 key=|";

// Returns whether a row's command stops for good.
fn row_ends_at_first_failed_write(alloc: Global, row: &str) -> bool {
    let (before, rest) = row.split_once('|').unwrap_or((row, ""));
    let (words, input) = rest.split_once('|').unwrap_or((rest, ""));
    match before.parse() {
        Ok(before) => ends_at_first_failed_write(alloc, words, input.as_bytes(), before),
        Err(_) => false,
    }
}

#[test]
fn commands_end_at_first_failed_write(rt: HostRuntime) {
    for row in STOPS.split(';') {
        assert!(rt; row_ends_at_first_failed_write(rt.alloc(), row), "{row}");
    }
}

#[test]
fn scripts_report_only_their_first_fault(rt: HostRuntime) {
    for before in [0usize, 4, 15] {
        for by_error in [true, false] {
            let mut sink = IoSink::new(FailsOnce::new(before, by_error));
            let status = Fault::WrongWords.report(&mut sink);
            let output = sink.into_inner();
            assert!(rt;
                status == 1 && output.has_failed && output.later == 0,
                "after {before} bytes, by an error: {by_error}"
            );
        }
    }
}

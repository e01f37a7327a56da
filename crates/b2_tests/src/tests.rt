//! Tests that run the commands over memory. Expected digests are from `hashlib`, and those that
//! stand for many lines come from `tests/expected_values.py`.
//!
//! The checks assert by themselves, with the arguments of the command as message, so that the
//! tests have no errors to return: each of those would be one more way out of a test to prove.

mod devices;
mod failing_outputs;
mod help;
mod input_lengths;
mod large;
mod leaves;
mod memory;
mod outputs;
mod refusals;
mod script;
mod sum;
mod transcript;
mod tree;
mod witness;

use b2_commands::run;
use blake2::streams::{IoSink, SliceSource};
use blake2::{Blake2b256, Digest};
use std::alloc::{AllocError, Global};
use std::process::Abort;

// Returns the arguments of a command, which spaces separate.
fn split_words(alloc: Global, text: &str) -> Result<Vec<String>, AllocError> {
    let mut words = Vec::new(alloc);
    for word in text.split_whitespace() {
        words.push(word.to_string(alloc)?)?;
    }
    Ok(words)
}

// Runs a command over a source of the input, which fails once `fail_at` bytes have passed.
// Returns its status, and what it prints.
fn run_with_failing_source(
    alloc: Global,
    text: &str,
    input: &[u8],
    fail_at: Option<usize>,
) -> Result<(u8, Vec<u8>), AllocError> {
    let words = split_words(alloc, text)?;
    let mut source = SliceSource::new(input, 4096, fail_at);
    let mut sink = IoSink::new(Vec::new(alloc));
    let status = run(alloc, words.as_slice(), &mut source, &mut sink);
    Ok((status, sink.into_inner()))
}

// Appends pieces, which bars separate. A number and a star before a piece say how often it comes:
// `3*ab` is `ababab`, and so is `2*ab|ab`.
fn push_pieces(text: &mut String, pieces: &str) -> Result<(), AllocError> {
    for piece in pieces.split('|') {
        let (times, piece) = match piece.split_once('*') {
            Some((times, piece)) => (times.parse().unwrap_or(0), piece),
            None => (1usize, piece),
        };
        for _ in 0..times {
            text.push_str(piece)?;
        }
    }
    Ok(())
}

// Returns the text of these parts, one after the other. Each part has pieces.
fn text_of_parts(alloc: Global, parts: &[&str]) -> Result<String, AllocError> {
    let mut text = String::new(alloc);
    for part in parts {
        push_pieces(&mut text, part)?;
    }
    Ok(text)
}

// Returns whether this is the digest of the outputs, BLAKE2b-256 in hexadecimal.
fn is_digest_of_outputs(outputs: &[u8], digits: &str) -> bool {
    let mut wanted = [0u8; 32];
    hex::decode_to_slice(digits, &mut wanted).is_ok() && wanted == Blake2b256::digest(outputs)
}

// Returns what a command of these parts prints over an input, or no bytes if it does not succeed.
fn output_if_successful(alloc: Global, parts: &[&str], input: &[u8]) -> Vec<u8> {
    if let Ok(words) = text_of_parts(alloc, parts) {
        if let Ok((0, output)) = run_with_failing_source(alloc, words.as_str(), input, None) {
            return output;
        }
    }
    Vec::new(alloc)
}

// Runs a command of these parts over an input, and appends what it prints. It must print
// something.
fn append_output(
    rt: &(impl Abort + AllocGlobal),
    outputs: &mut Vec<u8>,
    parts: &[&str],
    input: &[u8],
) {
    let output = output_if_successful(rt.alloc(), parts, input);
    assert!(rt; !output.is_empty(), "b2 {parts:?}: {} bytes", input.len());
    let added = outputs.extend_from_slice(output.as_slice());
    added.expect(rt, "memory for the test");
}

// Checks the status of a command over a source of the input, which fails once `fail_at` bytes
// have passed, and what it prints.
fn check_status_and_output(
    rt: &(impl Abort + AllocGlobal),
    words: &str,
    input: &[u8],
    fail_at: Option<usize>,
    status: u8,
    text: &str,
) {
    let run = run_with_failing_source(rt.alloc(), words, input, fail_at);
    let (found_status, output) = run.expect(rt, words);
    let found = str::from_utf8(output.as_slice()).unwrap_or("bytes that are no text");
    assert_eq!(rt; (found_status, found), (status, text), "b2 {words}");
}

// Checks the status of a command, and that it prints only this line.
fn check_status_and_only_line(
    rt: &(impl Abort + AllocGlobal),
    words: &str,
    input: &[u8],
    fail_at: Option<usize>,
    status: u8,
    line: &str,
) {
    let text = text_of_parts(rt.alloc(), &[line, "\n"]).expect(rt, words);
    check_status_and_output(rt, words, input, fail_at, status, text.as_str());
}

// Checks that a command whose second half are these arguments prints only this line, with status
// 0.
fn check_prints_only_line(
    rt: &(impl Abort + AllocGlobal),
    command: &str,
    rest: &str,
    input: &[u8],
    line: &str,
) {
    let words = text_of_parts(rt.alloc(), &[command, " ", rest]).expect(rt, rest);
    check_status_and_only_line(rt, words.as_str(), input, None, 0, line);
}

// Checks commands, a row each, with bars between the arguments, the input and the line that is
// printed.
fn check_rows_of_commands(
    rt: &(impl Abort + AllocGlobal),
    rows: &str,
    fail_at: Option<usize>,
    status: u8,
) {
    for row in rows.lines() {
        let (words, rest) = row.split_once('|').unwrap_or((row, ""));
        let (input, line) = rest
            .split_once('|')
            .unwrap_or((rest, "a row without a line"));
        check_status_and_only_line(rt, words, input.as_bytes(), fail_at, status, line);
    }
}

// Checks that a command over an input prints exactly the text of these parts, with status 0.
fn check_prints_only_text(
    rt: &(impl Abort + AllocGlobal),
    words: &str,
    input: &[u8],
    parts: &[&str],
) {
    let text = text_of_parts(rt.alloc(), parts).expect(rt, words);
    check_status_and_output(rt, words, input, None, 0, text.as_str());
}

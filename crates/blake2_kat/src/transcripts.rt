//! Transcripts of inputs, and what transcripts are read as. Words are those of the parameter block
//! (RFC 7693, 2.5), byte by byte; entries follow section 3.3.

use crate::checks::transcript;
use crate::families::Word;
use blake2::laws::transcripts;
use blake2::transcripts::{Entry, Input, Transcript};
use blake2_test_support::inputs::{WORDS, entry, fill_with_counting_bytes, input, unkeyed};
use std::process::Abort;

// BLAKE2b writes the transcript of these words and entries for the input, and reads it as that.
fn check_blake2b_writes_and_reads(
    rt: &(impl Abort + AllocGlobal),
    input: &Input<'_>,
    output_size: usize,
    words: [u64; 8],
    entries: &[Entry<128>],
) {
    let wanted = transcript(rt, words, entries);
    let written = u64::transcript_of_accepted(rt, input, output_size);
    assert!(rt; written == wanted, "{written:?}");
    assert!(rt; transcripts::blake2b::equal(&written, &wanted));
    assert!(rt; u64::is_read_as(rt, &wanted, input, output_size));
}

// BLAKE2s writes the transcript of these words and entries for the input, and reads it as that.
fn check_blake2s_writes_and_reads(
    rt: &(impl Abort + AllocGlobal),
    input: &Input<'_>,
    output_size: usize,
    words: [u32; 8],
    entries: &[Entry<64>],
) {
    let wanted = transcript(rt, words, entries);
    let written = u32::transcript_of_accepted(rt, input, output_size);
    assert!(rt; written == wanted, "{written:?}");
    assert!(rt; transcripts::blake2s::equal(&written, &wanted));
    assert!(rt; u32::is_read_as(rt, &wanted, input, output_size));
}

#[test]
fn blake2b_messages_are_written_and_read(rt: HostRuntime) {
    let message = [0x2a; 129];
    let block = &message[..128];
    let words = [0x01010040, 0, 0, 0, 0, 0, 0, 0];
    let entries = [entry(block, 128, true)];
    check_blake2b_writes_and_reads(&rt, &unkeyed(block), 64, words, &entries);
    let entries = [entry(block, 128, false), entry(&[0x2a], 129, true)];
    check_blake2b_writes_and_reads(&rt, &unkeyed(&message), 64, words, &entries);
    let words = [0x01010010, 0, 0, 0, 0, 0, 0, 0];
    let entries = [entry(b"", 128, false), entry(b"", 256, true)];
    check_blake2b_writes_and_reads(&rt, &unkeyed(&[0; 256]), 16, words, &entries);
}

#[test]
fn blake2s_messages_are_written_and_read(rt: HostRuntime) {
    let message = [0x2a; 129];
    let block = &message[..64];
    let words = [0x01010020, 0, 0, 0, 0, 0, 0, 0];
    let entries = [entry(block, 64, true)];
    check_blake2s_writes_and_reads(&rt, &unkeyed(block), 32, words, &entries);
    let (input, entries) = (
        unkeyed(&message[..128]),
        [entry(block, 64, false), entry(block, 128, true)],
    );
    check_blake2s_writes_and_reads(&rt, &input, 32, words, &entries);
    let entries = [
        entry(block, 64, false),
        entry(block, 128, false),
        entry(&[0x2a], 129, true),
    ];
    check_blake2s_writes_and_reads(&rt, &unkeyed(&message), 32, words, &entries);
}

#[test]
fn key_and_persona_are_written_and_read(rt: HostRuntime) {
    let mut key = [0; 32];
    fill_with_counting_bytes(&mut key);
    let input = input(Some(&key), b"", b"personal", b"");
    let words = [0x01012040, 0, 0, 0, 0, 0, 0x6c616e6f73726570, 0];
    let entries = [entry(&key, 128, true)];
    check_blake2b_writes_and_reads(&rt, &input, 64, words, &entries);
    let words = [0x01012020, 0, 0, 0, 0, 0, 0x73726570, 0x6c616e6f];
    let entries = [entry(&key, 64, true)];
    check_blake2s_writes_and_reads(&rt, &input, 32, words, &entries);
}

#[test]
fn all_blake2b_parts_are_written_and_read(rt: HostRuntime) {
    let message = [0x2a; 200];
    let input = input(Some(&[1]), b"abc", b"0123456789abcdef", &message);
    let entries = [
        entry(&[1], 128, false),
        entry(&message[..128], 256, false),
        entry(&message[..72], 328, true),
    ];
    check_blake2b_writes_and_reads(&rt, &input, 64, WORDS, &entries);
}

#[test]
fn all_blake2s_parts_are_written_and_read(rt: HostRuntime) {
    let message = [0x2a; 100];
    let input = input(Some(&[1]), b"abc", b"01234567", &message);
    let words = [0x01010120, 0, 0, 0, 0x636261, 0, 0x33323130, 0x37363534];
    let entries = [
        entry(&[1], 64, false),
        entry(&message[..64], 128, false),
        entry(&message[..36], 164, true),
    ];
    check_blake2s_writes_and_reads(&rt, &input, 32, words, &entries);
}

// Whether some input of BLAKE2b has a transcript of these words and entries.
fn blake2b_reads_some_input(
    rt: &(impl Abort + AllocGlobal),
    words: [u64; 8],
    entries: &[Entry<128>],
) -> bool {
    u64::is_read(rt, &transcript(rt, words, entries))
}

#[test]
fn other_words_are_read_as_no_input(rt: HostRuntime) {
    let entries = [entry(&[0x2a; 128], 128, true)];
    for (first, second, is_read) in [
        (0x01010040, 0, true),
        // the node offset 1 of a tree
        (0x01010040, 1, true),
        (0x01014140, 0, false),
    ] {
        let words = [first, second, 0, 0, 0, 0, 0, 0];
        let read = blake2b_reads_some_input(&rt, words, &entries);
        assert!(rt; read == is_read, "{first:x} {second}");
    }
}

#[test]
fn sizes_past_the_limits_are_not_read(rt: HostRuntime) {
    let entries = [entry(b"", 128, true)];
    for (first, is_read) in [
        (0x01014040, true),
        (0x01014140, false),
        (0x01014041, false),
        (0x01010040, true),
        (0x01010041, false),
    ] {
        let read = blake2b_reads_some_input(&rt, [first, 0, 0, 0, 0, 0, 0, 0], &entries);
        assert!(rt; read == is_read, "BLAKE2b {first:x}");
    }
    let entries = [entry(b"", 64, true)];
    for (first, is_read) in [
        (0x01012020, true),
        (0x01012120, false),
        (0x01012021, false),
        (0x01010020, true),
        (0x01010021, false),
    ] {
        let read = blake2s_reads_some_input(&rt, first, &entries);
        assert!(rt; read == is_read, "BLAKE2s {first:x}");
    }
}

#[test]
fn other_entries_are_read_as_no_input(rt: HostRuntime) {
    let words = [0x01010040, 0, 0, 0, 0, 0, 0, 0];
    assert!(rt; !blake2b_reads_some_input(&rt, words, &[]));
    let first = [0x2a; 128];
    for (first_is_last, counter, is_read) in [
        (false, 129, true),
        (true, 129, false),
        (false, 128, false),
    ] {
        let entries = [
            entry(&first, 128, first_is_last),
            entry(&[0x2a], counter, true),
        ];
        let read = blake2b_reads_some_input(&rt, words, &entries);
        assert!(rt; read == is_read, "{first_is_last} {counter}");
    }
    for place in 1..128usize {
        let mut second = entry(&[0x2a], 129, true);
        second.block[place] = 1;
        let read = blake2b_reads_some_input(&rt, words, &[entry(&first, 128, false), second]);
        assert!(rt; !read, "{place}");
    }
    for (counter, is_read) in [(128, true), (127, false)] {
        let read = blake2b_reads_some_input(&rt, WORDS, &[entry(&[1], counter, true)]);
        assert!(rt; read == is_read, "{counter}");
    }
}

// The transcript of BLAKE2s that has these entries and, after the first word, words of zeros.
fn blake2s_transcript_of(
    rt: &(impl Abort + AllocGlobal),
    first_word: u32,
    entries: &[Entry<64>],
) -> Transcript<u32, 64> {
    transcript(rt, [first_word, 0, 0, 0, 0, 0, 0, 0], entries)
}

// Whether some input of BLAKE2s has it.
fn blake2s_reads_some_input(
    rt: &(impl Abort + AllocGlobal),
    first_word: u32,
    entries: &[Entry<64>],
) -> bool {
    u32::is_read(rt, &blake2s_transcript_of(rt, first_word, entries))
}

#[test]
fn key_of_a_zero_byte_is_read(rt: HostRuntime) {
    let read = blake2s_reads_some_input(&rt, 0x01010120, &[entry(&[0, 1], 64, true)]);
    assert!(rt; !read);
    let input = input(Some(&[0]), b"", b"", b"");
    let told = blake2s_transcript_of(&rt, 0x01010120, &[entry(b"", 64, true)]);
    assert!(rt; u32::is_read_as(&rt, &told, &input, 32));
}

#[test]
fn zero_blocks_are_read_as_messages(rt: HostRuntime) {
    let none = [entry(b"", 0, true)];
    assert!(rt; !blake2s_reads_some_input(&rt, 0x01010021, &none));
    let entries = [entry(b"", 64, false), entry(b"", 64, true)];
    assert!(rt; !blake2s_reads_some_input(&rt, 0x01010020, &entries));
    let told = blake2s_transcript_of(&rt, 0x01010000, &none);
    assert!(rt; u32::is_read_as(&rt, &told, &unkeyed(b""), 0));
}

//! Calls when memory is refused. Each returns an error, or what it returns if there is enough;
//! what needs no memory returns the same as ever.

ghost use Rattle.std.specs.Prelude.{◌≤◌};

use crate::checks::{reading, transcript};
use blake2::calls::{Call, ReplayFault, replay};
use blake2::transcripts::{Input, Reading, Transcript};
use blake2::{Blake2b512, Blake2bVarCore, Blake2sVarCore, Digest};
use blake2_test_support::inputs::{
    CALLS, WORDS, blake2b_last_step, blake2s_last_step, entry, input, unkeyed,
};
use blake2_test_support::no_memory::{
    SPARE_BYTES, TRIES, allocate_all_memory_but, allocate_spare_bytes_but,
    are_small_allocations_refused,
};
use std::alloc::{AllocError, Global};
use std::process::Abort;

// What a try finds: the result, a refused allocation, or anything else.
#[derive(Copy, Clone, PartialEq, Eq)]
enum Found {
    Answer,
    Refusal,
    Other,
}

// Checks that memory was refused at the first tries, and that all later ones found the result.
fn check_refusals_come_before_results(rt: &impl Abort, found: &[Found]) {
    let mut refused = 0usize;
    for (tries, found) in found.iter().enumerate() {
        if *found == Found::Refusal {
            assert!(rt; refused == tries, "{tries}");
            refused = refused.saturating_add(1);
        } else {
            assert!(rt; *found == Found::Answer, "{tries}");
        }
    }
    assert!(rt; 0 < refused && refused < found.len(), "{refused}");
}

// BLAKE2b-512 of `abc` and of no bytes, from `hashlib`.
const ABC: [u8; 64] = [
    0xba, 0x80, 0xa5, 0x3f, 0x98, 0x1c, 0x4d, 0x0d, 0x6a, 0x27, 0x97, 0xb6, 0x9f, 0x12, 0xf6, 0xe9,
    0x4c, 0x21, 0x2f, 0x14, 0x68, 0x5a, 0xc4, 0xb7, 0x4b, 0x12, 0xbb, 0x6f, 0xdb, 0xff, 0xa2, 0xd1,
    0x7d, 0x87, 0xc5, 0x39, 0x2a, 0xab, 0x79, 0x2d, 0xc2, 0x52, 0xd5, 0xde, 0x45, 0x33, 0xcc, 0x95,
    0x18, 0xd3, 0x8a, 0xa8, 0xdb, 0xf1, 0x92, 0x5a, 0xb9, 0x23, 0x86, 0xed, 0xd4, 0x00, 0x99, 0x23,
];

const NOTHING: [u8; 64] = [
    0x78, 0x6a, 0x02, 0xf7, 0x42, 0x01, 0x59, 0x03, 0xc6, 0xc6, 0xfd, 0x85, 0x25, 0x52, 0xd2, 0x72,
    0x91, 0x2f, 0x47, 0x40, 0xe1, 0x58, 0x47, 0x61, 0x8a, 0x86, 0xe2, 0x17, 0xf7, 0x1f, 0x54, 0x19,
    0xd2, 0x5e, 0x10, 0x31, 0xaf, 0xee, 0x58, 0x53, 0x13, 0x89, 0x64, 0x44, 0x93, 0x4e, 0xb0, 0x4b,
    0x90, 0x3a, 0x68, 0x5b, 0x14, 0x48, 0xb7, 0x55, 0xd5, 0x6f, 0x70, 0x1a, 0xfe, 0x9b, 0xe2, 0xce,
];

// What a list of calls finds if a number of bytes are left.
fn replay_with_bytes_left(alloc: Global, left: usize) -> Found
    requires { left ≤ 65536 }
{
    let plug = allocate_spare_bytes_but(alloc, left);
    let found = replay::<_, 64>(alloc, Blake2b512::new(), &CALLS);
    if plug.is_err() {
        return Found::Other;
    }
    match found {
        Ok(digests) if digests.as_slice() == [ABC, ABC, NOTHING].as_slice() => Found::Answer,
        Err(ReplayFault::Memory) => Found::Refusal,
        _ => Found::Other,
    }
}

#[test]
fn replay_returns_error_without_memory(rt: HostRuntime) {
    let mut found = [Found::Other; TRIES];
    let hoard = allocate_all_memory_but(rt.alloc(), SPARE_BYTES).expect(&rt, "room for the hoard");
    for tries in 0..TRIES {
        found[tries] = replay_with_bytes_left(rt.alloc(), 16 * tries);
    }
    drop(hoard);
    check_refusals_come_before_results(&rt, &found);
}

// Whether a list of calls is refused for `owed` if there is memory for slot 0, and otherwise for
// that or because an allocation fails.
fn replay_returns_owed_fault(
    alloc: Global,
    is_enough: bool,
    calls: &[Call<'_>],
    owed: Option<ReplayFault>,
) -> bool {
    let found = replay::<_, 64>(alloc, Blake2b512::new(), calls).err();
    found == owed || !is_enough && found == Some(ReplayFault::Memory)
}

// Whether lists whose first call is bad are refused for that call, long ones too: nothing is
// allocated for the calls after it.
fn bad_first_call_needs_no_allocation(alloc: Global, is_enough: bool) -> bool {
    let owed = Some(ReplayFault::NoSuchSlot(0));
    let mut copies = [Call::Clone(0); 300];
    copies[0] = Call::Reset(1);
    let mut digests = [Call::FinalizeReset(0); 300];
    digests[0] = Call::Finalize(1);
    replay_returns_owed_fault(alloc, is_enough, &[Call::Clone(1)], owed)
        & replay_returns_owed_fault(alloc, is_enough, &[Call::FinalizeReset(7)], owed)
        & replay_returns_owed_fault(alloc, is_enough, &[Call::Update(1, b"abc")], owed)
        & replay_returns_owed_fault(alloc, is_enough, &[Call::Reset(usize::MAX)], owed)
        & replay_returns_owed_fault(alloc, is_enough, &copies, owed)
        & replay_returns_owed_fault(alloc, is_enough, &digests, owed)
}

// Whether updates and resets need no memory, before a bad call and without one.
fn bad_later_calls_are_reported(alloc: Global, is_enough: bool) -> bool {
    let owed = Some(ReplayFault::NoSuchSlot(2));
    let mut calls = [Call::Update(0, b"abc"); 5];
    calls[1] = Call::Reset(0);
    let is_good_owed = replay_returns_owed_fault(alloc, is_enough, &calls, None);
    calls[2] = Call::Clone(1);
    calls[3] = Call::Clone(0);
    is_good_owed & replay_returns_owed_fault(alloc, is_enough, &calls, owed)
}

// What lists with a bad call find if a number of bytes are left: the result if there is memory
// for slot 0, and all are refused for their bad call.
fn replay_bad_calls_with_bytes_left(alloc: Global, left: usize) -> Found
    requires { left ≤ 65536 }
{
    let plug = allocate_spare_bytes_but(alloc, left);
    let is_enough = replay::<_, 64>(alloc, Blake2b512::new(), &[]).is_ok();
    let are_owed = bad_first_call_needs_no_allocation(alloc, is_enough)
        & bad_later_calls_are_reported(alloc, is_enough);
    if plug.is_err() || !are_owed {
        return Found::Other;
    }
    if is_enough {
        Found::Answer
    } else {
        Found::Refusal
    }
}

#[test]
fn bad_calls_are_reported_without_memory(rt: HostRuntime) {
    let mut found = [Found::Other; TRIES];
    let hoard = allocate_all_memory_but(rt.alloc(), SPARE_BYTES).expect(&rt, "room for the hoard");
    for tries in 0..TRIES {
        found[tries] = replay_bad_calls_with_bytes_left(rt.alloc(), 16 * tries);
    }
    drop(hoard);
    check_refusals_come_before_results(&rt, &found);
}

// What a transcript finds if a number of bytes are left.
fn transcript_with_bytes_left(
    alloc: Global,
    left: usize,
    input: &Input<'_>,
    wanted: &Transcript<u64, 128>,
) -> Found
    requires { left ≤ 65536 }
{
    let plug = allocate_spare_bytes_but(alloc, left);
    if plug.is_err() || !Blake2bVarCore::accepts(input) {
        return Found::Other;
    }
    match Blake2bVarCore::transcript(alloc, input, 64) {
        Ok(found) if found == *wanted => Found::Answer,
        Err(AllocError) => Found::Refusal,
        _ => Found::Other,
    }
}

// What its reader finds if a number of bytes are left.
fn reading_with_bytes_left(
    alloc: Global,
    left: usize,
    told: &Transcript<u64, 128>,
    wanted: &Reading<16>,
) -> Found
    requires { left ≤ 65536 }
{
    let plug = allocate_spare_bytes_but(alloc, left);
    if plug.is_err() {
        return Found::Other;
    }
    match Blake2bVarCore::read_transcript(alloc, told) {
        Ok(Some(found)) if found == *wanted => Found::Answer,
        Err(AllocError) => Found::Refusal,
        _ => Found::Other,
    }
}

#[test]
fn transcripts_return_error_without_memory(rt: HostRuntime) {
    let alloc = rt.alloc();
    let message = [0x2a; 200];
    let input = input(Some(&[1]), b"abc", b"0123456789abcdef", &message);
    let entries = [
        entry(&[1], 128, false),
        entry(&message[..128], 256, false),
        entry(&message[..72], 328, true),
    ];
    let wanted = transcript(&rt, WORDS, &entries);
    let wanted_reading = reading(&rt, &input, 64);
    let (mut written, mut read) = ([Found::Other; TRIES], [Found::Other; TRIES]);
    let hoard = allocate_all_memory_but(alloc, SPARE_BYTES).expect(&rt, "room for the hoard");
    for tries in 0..TRIES {
        written[tries] = transcript_with_bytes_left(alloc, 16 * tries, &input, &wanted);
        read[tries] = reading_with_bytes_left(alloc, 16 * tries, &wanted, &wanted_reading);
    }
    drop(hoard);
    check_refusals_come_before_results(&rt, &written);
    check_refusals_come_before_results(&rt, &read);
}

// Transcripts of BLAKE2b that belong to no input.
fn transcripts_of_no_input(rt: &(impl Abort + AllocGlobal)) -> Vec<Transcript<u64, 128>> {
    let words = [0x01010040, 0, 0, 0, 0, 0, 0, 0];
    let block = [0x2a; 128];
    let mut told = Vec::new(rt.alloc());
    for (place, byte, first_is_last, counter) in [
        (1, 1, false, 129),
        (127, 255, false, 129),
        (1, 0, true, 129),
        (1, 0, false, 128),
    ] {
        let mut last = entry(&[0x2a], counter, true);
        last.block[place] = byte;
        let entries = [entry(&block, 128, first_is_last), last];
        let forged = transcript(rt, words, &entries);
        told.push(forged).expect(rt, "room for a transcript");
    }
    let whole = entry(&block, 128, true);
    for (words, entries) in [
        ([0x01010040, 0, 0x10000, 0, 0, 0, 0, 0], &[whole][..]),
        ([0x01014140, 0, 0, 0, 0, 0, 0, 0], &[whole]),
        (words, &[]),
        (WORDS, &[entry(&[1], 127, true)]),
    ] {
        let forged = transcript(rt, words, entries);
        told.push(forged).expect(rt, "room for a transcript");
    }
    told
}

#[test]
fn no_input_is_read_without_memory(rt: HostRuntime) {
    let alloc = rt.alloc();
    let told = transcripts_of_no_input(&rt);
    let mut are_read = true;
    let hoard = allocate_all_memory_but(alloc, SPARE_BYTES).expect(&rt, "room for the hoard");
    let plug = allocate_spare_bytes_but(alloc, 0).expect(&rt, "a plug");
    let refused_before = are_small_allocations_refused(alloc);
    for transcript in &told {
        are_read &= matches!(Blake2bVarCore::read_transcript(alloc, transcript), Ok(None));
    }
    let refused_after = are_small_allocations_refused(alloc);
    drop(plug);
    drop(hoard);
    assert!(rt; refused_before && refused_after);
    assert!(rt; told.len() == 8 && are_read);
}

// Whether BLAKE2b has the witness of `a` and `b` at the size 0, and none at the size 64, nor one of
// `a` and itself.
fn blake2b_finds_the_witness(alloc: Global) -> bool {
    let (a, b) = (unkeyed(b"a"), unkeyed(b"b"));
    if !Blake2bVarCore::accepts(&a) || !Blake2bVarCore::accepts(&b) {
        return false;
    }
    let word = 0x6a09e667f2bdc908;
    let wanted = (
        blake2b_last_step(word, b"a", 1),
        blake2b_last_step(word, b"b", 1),
    );
    Blake2bVarCore::witness(alloc, &a, &b, 0) == Ok(Some(wanted))
        && Blake2bVarCore::witness(alloc, &a, &b, 64) == Ok(None)
        && Blake2bVarCore::witness(alloc, &a, &a, 0) == Ok(None)
}

// The same for BLAKE2s, whose maximum size is 32, and for `b` and itself.
fn blake2s_finds_the_witness(alloc: Global) -> bool {
    let (a, b) = (unkeyed(b"a"), unkeyed(b"b"));
    if !Blake2sVarCore::accepts(&a) || !Blake2sVarCore::accepts(&b) {
        return false;
    }
    let word = 0x6b08e667;
    let wanted = (
        blake2s_last_step(word, b"a", 1),
        blake2s_last_step(word, b"b", 1),
    );
    Blake2sVarCore::witness(alloc, &a, &b, 0) == Ok(Some(wanted))
        && Blake2sVarCore::witness(alloc, &a, &b, 32) == Ok(None)
        && Blake2sVarCore::witness(alloc, &b, &b, 0) == Ok(None)
}

#[test]
fn witness_needs_no_memory(rt: HostRuntime) {
    let alloc = rt.alloc();
    let hoard = allocate_all_memory_but(alloc, SPARE_BYTES).expect(&rt, "room for the hoard");
    let plug = allocate_spare_bytes_but(alloc, 0).expect(&rt, "a plug");
    let refused_before = are_small_allocations_refused(alloc);
    let by_blake2b = blake2b_finds_the_witness(alloc);
    let by_blake2s = blake2s_finds_the_witness(alloc);
    let refused_after = are_small_allocations_refused(alloc);
    drop(plug);
    drop(hoard);
    assert!(rt; refused_before && refused_after);
    assert!(rt; by_blake2b);
    assert!(rt; by_blake2s);
}

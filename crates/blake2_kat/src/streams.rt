//! Streams between devices in memory that move few bytes at a time, or fail.

ghost use Rattle.std.specs.Prelude.{◌≤◌};

use blake2::digest::{KeyInit, Mac};
use blake2::streams::{Sink, SliceSink, SliceSource, Source, StreamFault, hash_stream};
use blake2::{Blake2b, Blake2b512, Blake2bMac, Blake2s, Digest};
use std::process::Abort;

// What is written for `abc`.
const LINE: &[u8] = b"ba80a53f981c4d0d6a2797b69f12f6e94c212f14685ac4b74b12bb6fdbffa2d1\
    7d87c5392aab792dc252d5de4533cc9518d38aa8dbf1925ab92386edd4009923\n";

// Hashes `abc` between devices that move a limited number of bytes a call, the sink over this
// room. Returns the result, whether the source and the sink have failed, and how many bytes the
// sink accepted.
fn hash_abc_between_devices(
    most: usize,
    source_fails: Option<usize>,
    room: &mut [u8],
    sink_fails: Option<usize>,
) -> (Result<u64, StreamFault>, bool, bool, usize)
    requires { 1 ≤ most }
{
    let mut source = SliceSource::new(b"abc", most, source_fails);
    let mut sink = SliceSink::new(room, most, sink_fails);
    let answer = hash_stream(&mut source, &mut sink, Blake2b512::new());
    (answer, source.failed(), sink.failed(), sink.written())
}

#[test]
fn hashing_between_slow_or_full_devices(rt: HostRuntime) {
    for (most, source_fails, size, sink_fails, answer, taken) in [
        (1, None, 129, None, Ok(3), 129),
        (129, Some(0), 129, None, Err(StreamFault::Read), 0),
        (129, Some(3), 129, None, Err(StreamFault::Read), 0),
        (129, Some(4), 129, None, Ok(3), 129),
        (129, None, 128, None, Err(StreamFault::Write), 128),
        (129, None, 129, Some(128), Err(StreamFault::Write), 128),
        (129, None, 129, Some(129), Ok(3), 129),
        (129, None, 0, None, Err(StreamFault::Write), 0),
        (129, None, 129, Some(5), Err(StreamFault::Write), 5),
    ] {
        assert!(rt; most >= 1 && size <= 129 && taken <= LINE.len().min(129));
        let mut room = [0u8; 129];
        let (found, source_failed, sink_failed, written) = hash_abc_between_devices(
            most,
            source_fails,
            &mut room[..size],
            sink_fails,
        );
        let are_told = source_failed == (answer == Err(StreamFault::Read))
            && sink_failed == (answer == Err(StreamFault::Write));
        let is_written = written == taken && room[..taken] == LINE[..taken];
        assert!(rt;
            found == answer && are_told && is_written,
            "{answer:?} {taken}"
        );
    }
}

#[test]
fn read_error_in_mid_stream_is_returned(rt: HostRuntime) {
    let message = [0x2a; 300];
    let mut source = SliceSource::new(&message, 64, Some(100));
    let mut room = [0u8; 129];
    let mut sink = SliceSink::new(&mut room, 129, None);
    let found = hash_stream(&mut source, &mut sink, Blake2b512::new());
    let (failed, written) = ((source.failed(), sink.failed()), sink.written());
    assert!(rt; found == Err(StreamFault::Read));
    assert!(rt; failed == (true, false));
    assert!(rt; written == 0);
}

// Checks that a digest of no bytes is only a newline, over messages of each length.
fn check_digest_of_no_bytes_is_a_newline<H: Digest<0> + Drop>(rt: &impl Abort)
    requires { H.is_supported }
{
    let message = [0x2a; 257];
    for length in [0, 1, 63, 64, 65, 127, 128, 129, 255, 256, 257usize] {
        let mut source = SliceSource::new(&message[..length], 100, None);
        let mut room = [0u8; 2];
        let mut sink = SliceSink::new(&mut room, 2, None);
        let found = hash_stream(&mut source, &mut sink, H::new());
        let written = sink.written();
        assert!(rt;
            found == Ok(length as u64) && written == 1 && room == [b'\n', 0],
            "{length}"
        );
    }
}

#[test]
fn digest_of_no_bytes_is_a_newline(rt: HostRuntime) {
    check_digest_of_no_bytes_is_a_newline::<Blake2b<0>>(&rt);
    check_digest_of_no_bytes_is_a_newline::<Blake2s<0>>(&rt);
    assert!(rt; Blake2bMac::<0>::new(&[1; 64]).verify_slice(b"").is_ok());
    assert!(rt; Blake2bMac::<0>::new(&[1; 64]).verify_slice(b"\0").is_err());
}

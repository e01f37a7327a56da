//! `hash_stream` over devices that move few bytes or fail, with a hash function that only these
//! tests have: the value of the bytes as the digits of a number in base 31, modulo 2^32.

ghost use Rattle.std.specs.Prelude.{◌≡◌, ◌+◌, ◌*◌, ◌%◌, ◌^◌, false, fold, IfOk};
ghost use Rattle.std.proofs.Common.{arith};
ghost use Rattle.std.specs.Int.{to_be_bytes, w32};
ghost use Rattle.blake2_streams.specs.Streams.{line_of};

use blake2::digest::{FixedOutput, Update};
use blake2::streams::{
    DeviceError, IoSink, IoSource, Sink, SliceSink, SliceSource, Source, StreamFault, hash_stream,
    write_whole,
};
use blake2_test_support::devices::FailsOnce;
use std::alloc::Global;
use std::io;
use std::io::{ErrorKind, Read, Write};

#[derive(Drop)]
struct PolynomialHash {
    value: u32,
    count: u64,
}

impl Update for PolynomialHash {
    ghost meaning = { record {
      future = λ s _ y. to_be_bytes w32 (fold (λ a b. (a * 31 % 2 ^ 32 + b) % 2 ^ 32) s.value y);
      started = λ s _ y. to_be_bytes w32 (fold (λ a b. (a * 31 % 2 ^ 32 + b) % 2 ^ 32) 0 y);
      last_node = λ _. false;
      count = λ s. s.count;
      start_count = λ s. 0;
    } };

    fn update(&mut self, input: &[u8]) {
        self.value = input.iter().fold(self.value, |value, byte| {
            value.wrapping_mul(31).wrapping_add(u32::from(*byte))
        });
        self.count += input.len() as u64;
    }

    fn counted(&self) -> u64 {
        self.count
    }
}

impl FixedOutput<4> for PolynomialHash {
    ghost output_fits = { λ s. Prim.omega arith };

    fn finalize_into(self, out: &mut [u8; 4]) {
        *out = self.value.to_be_bytes();
    }
}

fn new_polynomial_hash() -> PolynomialHash
    ensures { result ≡ record { value = 0; count = 0 } }
{
    PolynomialHash { value: 0, count: 0 }
}

// The line of some bytes, through a reader and a writer that say which bytes they have.
fn digest_line_in_memory(alloc: Global, bytes: &[u8]) -> Result<Vec<u8>, StreamFault>
    ensures { IfOk result (λ line. line.items ≡ line_of (to_be_bytes w32
        (fold (λ a b. (a * 31 % 2 ^ 32 + b) % 2 ^ 32) 0 bytes.now))) }
{
    let mut source = IoSource::new(bytes);
    let mut sink = IoSink::new(Vec::new(alloc));
    hash_stream(&mut source, &mut sink, new_polynomial_hash())?;
    Ok(sink.into_inner())
}

#[test]
fn stream_writes_the_digest_line(rt: HostRuntime) {
    let many = [b'a'; 10000];
    for (bytes, line) in [
        ("".as_bytes(), "00000000\n"),
        ("abc".as_bytes(), "00017862\n"),
        (&many, "fd23f100\n"),
    ] {
        let written = digest_line_in_memory(rt.alloc(), bytes);
        assert!(rt;
            matches!(&written, Ok(text) if text.as_slice() == line.as_bytes()),
            "{line}"
        );
    }
}

// Returns one byte a read, and an error in mid-stream; after it the reads go on.
#[derive(Drop)]
struct Interrupted {
    reads: u32,
}

impl Read for Interrupted {
    fn read(&mut self, buf: &mut [u8]) -> io::Result<usize> {
        self.reads = self.reads.saturating_add(1);
        if self.reads == 3 {
            return Err(io::Error::from(ErrorKind::Interrupted));
        }
        if self.reads > 5 || buf.is_empty() {
            return Ok(0);
        }
        buf[0] = b'a';
        Ok(1)
    }
}

#[test]
fn read_error_in_mid_stream_is_returned(rt: HostRuntime) {
    let mut source = IoSource::new(Interrupted { reads: 0 });
    let mut room = [0u8; 9];
    let mut sink = SliceSink::new(&mut room, 9, None);
    let answer = hash_stream(&mut source, &mut sink, new_polynomial_hash());
    let (failed, written) = (source.failed(), sink.written());
    let reads = source.into_inner().reads;
    assert!(rt; answer == Err(StreamFault::Read));
    assert!(rt; written == 0);
    assert!(rt; failed);
    assert!(rt; reads == 3);
}

// Accepts two bytes, then none, and then returns errors.
#[derive(Drop)]
struct Filling {
    writes: u32,
}

impl Write for Filling {
    fn write(&mut self, buf: &[u8]) -> io::Result<usize> {
        self.writes = self.writes.saturating_add(1);
        match self.writes {
            1 => Ok(buf.len().min(2)),
            2 => Ok(0),
            _ => Err(io::Error::from(ErrorKind::BrokenPipe)),
        }
    }

    fn flush(&mut self) -> io::Result<()> {
        Ok(())
    }
}

#[test]
fn full_sink_is_a_write_error(rt: HostRuntime) {
    let mut sink = IoSink::new(Filling { writes: 0 });
    let whole = write_whole(&mut sink, b"ab");
    let nothing = sink.write(b"");
    let failed_before = sink.failed();
    let more = sink.write(b"c");
    let failed_after = sink.failed();
    drop(sink);
    assert!(rt; whole == Ok(()));
    assert!(rt; nothing == Ok(0));
    assert!(rt; !failed_before);
    assert!(rt; more == Err(DeviceError));
    assert!(rt; failed_after);
}

#[test]
fn full_sink_in_mid_stream_is_an_error(rt: HostRuntime) {
    let mut sink = IoSink::new(Filling { writes: 0 });
    let mut source = SliceSource::new(b"abc", 4, None);
    let answer = hash_stream(&mut source, &mut sink, new_polynomial_hash());
    let failed = sink.failed();
    let writes = sink.into_inner().writes;
    assert!(rt; answer == Err(StreamFault::Write));
    assert!(rt; failed);
    assert!(rt; writes == 2);
}

// What one write of `abc` to a sink that fails once returns, whether the sink has then failed,
// and how many writes come later.
fn one_write_to_failing_sink(by_error: bool) -> (Result<usize, DeviceError>, bool, usize) {
    let mut sink = IoSink::new(FailsOnce::new(0, by_error));
    let answer = sink.write(b"abc");
    let failed = sink.failed();
    (answer, failed, sink.into_inner().later)
}

// What it returns for whole writes, and how many writes come later.
fn whole_write_to_failing_sink(by_error: bool) -> (Result<(), DeviceError>, usize) {
    let mut sink = IoSink::new(FailsOnce::new(0, by_error));
    let answer = write_whole(&mut sink, b"abc");
    (answer, sink.into_inner().later)
}

// What a stream to it returns, and how many writes come later.
fn stream_to_failing_sink(by_error: bool) -> (Result<u64, StreamFault>, usize) {
    let mut sink = IoSink::new(FailsOnce::new(0, by_error));
    let mut source = SliceSource::new(b"abc", 4, None);
    let answer = hash_stream(&mut source, &mut sink, new_polynomial_hash());
    (answer, sink.into_inner().later)
}

#[test]
fn failed_sink_is_not_written_again(rt: HostRuntime) {
    for (by_error, wanted) in [(true, Err(DeviceError)), (false, Ok(0))] {
        let (answer, failed, later) = one_write_to_failing_sink(by_error);
        assert!(rt;
            answer == wanted && failed && later == 0,
            "by an error: {by_error}"
        );
        let (answer, later) = whole_write_to_failing_sink(by_error);
        assert!(rt;
            answer == Err(DeviceError) && later == 0,
            "by an error: {by_error}"
        );
        let (answer, later) = stream_to_failing_sink(by_error);
        assert!(rt;
            answer == Err(StreamFault::Write) && later == 0,
            "by an error: {by_error}"
        );
    }
}

#[test]
fn source_error_comes_after_its_bytes(rt: HostRuntime) {
    let mut piece = [0u8; 2];
    let mut source = SliceSource::new(b"abc", 3, Some(3));
    let first = (source.read(&mut piece), piece);
    let second = (source.read(&mut piece), piece);
    let failed_before = source.failed();
    let third = source.read(&mut piece);
    let fourth = source.read(&mut piece);
    let failed_after = source.failed();
    assert!(rt; first == (Ok(2), *b"ab"));
    assert!(rt; second == (Ok(1), *b"cb"));
    assert!(rt; !failed_before);
    assert!(rt; third == Err(DeviceError));
    assert!(rt; fourth == Err(DeviceError));
    assert!(rt; failed_after);
}

#[test]
fn source_may_end_before_its_error(rt: HostRuntime) {
    let mut piece = [0u8; 2];
    let mut source = SliceSource::new(b"", 3, Some(1));
    let first = source.read(&mut piece);
    let second = source.read(&mut piece);
    let failed = source.failed();
    assert!(rt; first == Ok(0));
    assert!(rt; second == Ok(0));
    assert!(rt; !failed);
}

#[test]
fn sink_error_comes_after_its_bytes(rt: HostRuntime) {
    let mut room = [0u8; 4];
    let mut sink = SliceSink::new(&mut room, 2, Some(3));
    let first = sink.write(b"abc");
    let second = sink.write(b"de");
    let failed_before = sink.failed();
    let third = sink.write(b"e");
    let (failed_after, written) = (sink.failed(), sink.written());
    assert!(rt; first == Ok(2));
    assert!(rt; second == Ok(1));
    assert!(rt; !failed_before);
    assert!(rt; third == Err(DeviceError));
    assert!(rt; failed_after);
    assert!(rt; written == 3);
    assert!(rt; room == *b"abd\0");
}

//! Reading a source to its end, and writing the digest of its bytes as a line.

ghost use Rattle.std.specs.Prelude.{◌≡◌, ◌≢◌, ◌↔◌, ℕ, ◌+◌, ◌*◌, ◌<◌, ◌≤◌, ◌^◌, List, length, take};
ghost use Rattle.std.specs.Prelude.{false, IsTrue, IsErr, IfOk, IfSome, OnOk, OnErr};
ghost use Rattle.std.specs.Result.{IsErrOf};
ghost use Rattle.std.specs.Io.KnownBytes.{Consumes, Appends, Keeps};
ghost use Rattle.blake2_digest.specs.States.{digest_after, digest_now, Updated};
ghost use Rattle.blake2_digest.specs.Texts.{AreBytes};
ghost use Rattle.blake2_streams.specs.Streams.{ReturnsAllBytes, AcceptsProperPrefix, line_of};

use super::device::{DeviceError, Sink, Source};
use blake2_digest::{FixedOutput, Update, tell_bytes};

// The number of bytes that one read requests.
const PIECE_BYTES: usize = 4096;

// The number of bytes of the longest line: two digits for each of 64 bytes, and a newline.
const LINE_BYTES: usize = 129;

/// Why a stream has no digest line.
#[derive(Clone, Copy, Debug, PartialEq, Eq)]
pub enum StreamFault {
    /// A read of the source returned an error.
    Read,
    /// The bytes that the hasher counts would be 2^64 or more.
    TooLong,
    /// A write to the sink returned an error or accepted no byte.
    Write,
}

/// Reads the source to its end, writes the hasher's digest of its bytes to the sink as a line,
/// and returns how many bytes it read. The line has two lower-case hexadecimal digits for each of
/// the `N` bytes, at most 64, and a newline. Neither device may have failed before.
///
/// The error is a `StreamFault`. A device that returns an error is not tried again. After `Read`
/// and `TooLong` nothing was written. After `Write` a beginning of the line was written, and not
/// the whole. The call allocates nothing.
pub fn hash_stream<H, S, K, const N: usize>(
    source: &mut S,
    sink: &mut K,
    mut hasher: H,
) -> Result<u64, StreamFault>
where
    H: FixedOutput<N> + Drop,
    S: Source,
    K: Sink,
    requires size { N ≤ 64 }
    requires source { S.failed source.old ≡ false }
    requires sink { K.failed sink.old ≡ false }

    // When each error comes: `TooLong` if a source that has not failed has so much input that the
    // count would reach 2^64.
    ensures read { IsErrOf result StreamFault.Read ↔ IsTrue (S.failed source.new) }
    ensures write { IsErrOf result StreamFault.Write ↔ IsTrue (K.failed sink.new) }
    ensures too_long { IfSome (S.left source.old) (λ bytes. IsErrOf result StreamFault.TooLong ↔
        ((S.failed source.new ≡ false) × (2 ^ 64 ≤ H.meaning.count hasher + length bytes))) }

    // What was read and written for each result; a source that has failed says nothing.
    ensures whole { IfOk result (λ n. (bytes : List ℕ) × (length bytes ≡ n)
        × ReturnsAllBytes (S.left source.old) (S.left source.new) bytes
        × (H.meaning.count hasher + n < 2 ^ 64)
        × Appends (K.held sink.old) (K.held sink.new)
        (line_of (digest_after H.meaning hasher bytes))) }
    ensures after_read { IsErrOf result StreamFault.Read
        → Keeps (K.held sink.old) (K.held sink.new) }
    ensures after_too_long { IsErrOf result StreamFault.TooLong → (bytes : List ℕ) × AreBytes bytes
        × Consumes (S.left source.old) (S.left source.new) bytes
        × (2 ^ 64 ≤ H.meaning.count hasher + length bytes)
        × Keeps (K.held sink.old) (K.held sink.new) }
    ensures after_write { IsErrOf result StreamFault.Write → (bytes : List ℕ)
        × ReturnsAllBytes (S.left source.old) (S.left source.new) bytes
        × (H.meaning.count hasher + length bytes < 2 ^ 64)
        × AcceptsProperPrefix (K.held sink.old) (K.held sink.new)
        (line_of (digest_after H.meaning hasher bytes)) }
{
    let total = absorb_stream(source, &mut hasher)?;
    match write_digest(hasher, sink) {
        Ok(()) => Ok(total),
        Err(DeviceError) => Err(StreamFault::Write),
    }
}

/// Reads the source to its end, passes its bytes to the hasher, and returns how many it read. The
/// source must not have failed before.
///
/// The error is a `StreamFault`: `Read` if a read returns an error, after which the source is not
/// tried again, or `TooLong` if the bytes that the hasher counts would be 2^64 or more. After an
/// error the hasher has absorbed a beginning of the bytes. The call allocates nothing.
pub fn absorb_stream<H: Update, S: Source>(
    source: &mut S,
    hasher: &mut H,
) -> Result<u64, StreamFault>
    requires { S.failed source.old ≡ false }

    // When each error comes: `TooLong` if a source that has not failed has so much input that the
    // count would reach 2^64.
    ensures read { IsErrOf result StreamFault.Read ↔ IsTrue (S.failed source.new) }
    ensures fault { result ≢ Err StreamFault.Write }
    ensures too_long { IfSome (S.left source.old) (λ bytes. IsErrOf result StreamFault.TooLong ↔
        ((S.failed source.new ≡ false)
        × (2 ^ 64 ≤ H.meaning.count hasher.old + length bytes))) }

    // What was read and absorbed for each result; a source that has failed says nothing.
    ensures whole { IfOk result (λ n. (bytes : List ℕ) × (length bytes ≡ n)
        × ReturnsAllBytes (S.left source.old) (S.left source.new) bytes
        × (H.meaning.count hasher.old + n < 2 ^ 64)
        × Updated H.meaning hasher.old bytes hasher.new) }
    ensures after_too_long { IsErrOf result StreamFault.TooLong → (bytes : List ℕ) × AreBytes bytes
        × Consumes (S.left source.old) (S.left source.new) bytes
        × (2 ^ 64 ≤ H.meaning.count hasher.old + length bytes) }
{
    let mut buffer = [0u8; PIECE_BYTES];
    let mut total = 0u64;
    let mut room = u64::MAX - hasher.counted();
    'reading: loop {
        let Ok(count) = source.read(&mut buffer) else {
            return Err(StreamFault::Read);
        };
        if count == 0 {
            break;
        }
        let piece = &buffer[..count];
        tell_bytes(piece);
        if count as u64 > room {
            return Err(StreamFault::TooLong);
        }
        hasher.update(piece);
        total += count as u64;
        room -= count as u64;
    }
    Ok(total)
}

/// Writes all bytes, and stops at the first write that returns an error or accepts no byte. The
/// error is then `DeviceError`, and the sink has accepted a beginning of the bytes, and not the
/// whole. The sink must not have failed before.
pub fn write_whole<K: Sink>(sink: &mut K, text: &[u8]) -> Result<(), DeviceError>
    requires { K.failed sink.old ≡ false }
    ensures fails { IsErr result ↔ IsTrue (K.failed sink.new) }
    ensures whole { OnOk result (Appends (K.held sink.old) (K.held sink.new) text.now) }
    ensures part { OnErr result (AcceptsProperPrefix (K.held sink.old) (K.held sink.new) text.now) }
{
    let mut at = 0;
    'writing: while at < text.len() {
        let count = sink.write(&text[at..])?;
        if count == 0 {
            return Err(DeviceError);
        }
        at += count;
    }
    Ok(())
}

// Writes the hasher's digest, of at most 64 bytes, as a line. The sink must not have failed
// before. The error is that of `write_whole`.
fn write_digest<H, K, const N: usize>(hasher: H, sink: &mut K) -> Result<(), DeviceError>
where
    H: FixedOutput<N> + Drop,
    K: Sink,
    requires size { N ≤ 64 }
    requires sink { K.failed sink.old ≡ false }
    ensures fails { IsErr result ↔ IsTrue (K.failed sink.new) }
    ensures whole { OnOk result
        (Appends (K.held sink.old) (K.held sink.new) (line_of (digest_now H.meaning hasher))) }
    ensures part { OnErr result
        (AcceptsProperPrefix (K.held sink.old) (K.held sink.new)
        (line_of (digest_now H.meaning hasher))) }
{
    let mut digest = [0u8; N];
    hasher.finalize_into(&mut digest);
    let line = padded_line(&digest);
    write_whole(sink, &line[..2 * N + 1])
}

// The line of a digest, at the front of an array that holds the longest one.
fn padded_line<const N: usize>(digest: &[u8; N]) -> [u8; LINE_BYTES]
    requires { N ≤ 64 }
    ensures { take (2 * N + 1) result ≡ line_of digest.now }
{
    let mut line = [0u8; LINE_BYTES];
    hex::encode_to_slice(&digest[..], &mut line[..2 * N]).unwrap();
    line[2 * N] = b'\n';
    line
}

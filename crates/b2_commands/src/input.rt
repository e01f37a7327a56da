//! Reads of the source: until a buffer is full, or to the source's end.

ghost use Rattle.std.specs.Prelude.{◌≡◌, ◌↔◌, ◌⊎◌, ◌<◌, ◌≤◌, length, take, false, IsTrue, IfOk};
ghost use Rattle.std.specs.Prelude.{IfErr, IfSome, IsOkUnless};
ghost use Rattle.std.specs.Io.KnownBytes.{Consumes, IsAtEnd};
ghost use Rattle.std.specs.Result.{IsErrOf};
ghost use Rattle.b2_commands.specs.declared.fault.Fault.TheVariants.{ReadFailed, NoMemory};

use crate::fault::Fault;
use blake2::streams::Source;
use std::alloc::Global;

// The length of the buffer between the source and the memory, in bytes.
const PIECE_BYTES: usize = 4096;

/// Reads the source to its end, and returns all its bytes. The source must not have failed
/// before. The error is a `Fault`: `ReadFailed` if a read returns an error, `NoMemory` if an
/// allocation fails.
pub(crate) fn read_all<S: Source>(alloc: Global, source: &mut S) -> Result<Vec<u8>, Fault>
    requires { S.failed source.old ≡ false }
    ensures read { IsErrOf result Fault.ReadFailed ↔ IsTrue (S.failed source.new) }
    ensures fault { IfErr result (λ fault. (fault ≡ ReadFailed) ⊎ (fault ≡ NoMemory)) }
    ensures whole { IfOk result (λ bytes. IfSome (S.left source.old) (λ left. bytes.items ≡ left)) }
{
    let mut bytes = Vec::new(alloc);
    let mut buffer = [0u8; PIECE_BYTES];
    'reading: loop {
        let filled = fill(source, &mut buffer)?;
        bytes.extend_from_slice(&buffer[..filled])?;
        if filled < PIECE_BYTES {
            return Ok(bytes);
        }
    }
}

/// Fills the buffer from its front with the next bytes of the source, and returns how many they
/// are: fewer than the buffer's length only if the source is at its end. The source must not have
/// failed before. The error is `Fault::ReadFailed`, if a read returns an error.
pub(crate) fn fill<S: Source>(source: &mut S, buffer: &mut [u8]) -> Result<usize, Fault>
    requires { S.failed source.old ≡ false }
    ensures read { IsErrOf result Fault.ReadFailed ↔ IsTrue (S.failed source.new) }
    ensures fault { IsOkUnless result Fault.ReadFailed }
    ensures size { length buffer.new ≡ length buffer.old }
    ensures within { IfOk result (λ n. n ≤ length buffer.new) }
    ensures bytes { IfOk result (λ n.
        Consumes (S.left source.old) (S.left source.new) (take n buffer.new)) }
    ensures end { IfOk result (λ n. n < length buffer.new → IsAtEnd (S.left source.new)) }
{
    let mut at = 0;
    'filling: while at < buffer.len() {
        let Ok(count) = source.read(&mut buffer[at..]) else {
            return Err(Fault::ReadFailed);
        };
        if count == 0 {
            return Ok(at);
        }
        at += count;
    }
    Ok(at)
}

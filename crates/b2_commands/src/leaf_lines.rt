//! The digests of leaves in lines, as `b2 leaves` prints them and `b2 root` reads them.

ghost use Rattle.std.specs.Prelude.{◌≡◌, ◌↔◌, false, IsTrue, IfOk, IfErr, OnOk, IsOkUnless};
ghost use Rattle.std.specs.Io.KnownBytes.{Appends};
ghost use Rattle.std.specs.Result.{IsErrOf};
ghost use Rattle.b2_commands.specs.LeafDigests.{digest_of_numbered_line, digest_lines};
ghost use Rattle.b2_commands.specs.LeafDigests.{read_digests};
ghost use Rattle.b2_commands.specs.ReadScripts.{IsScriptReadFault};

use crate::fault::Fault;
use crate::print::print_bytes;
use blake2::streams::Sink;
use std::alloc::Global;
use text_lines::split_line;

// The number of bytes of a leaf's digest.
const DIGEST_BYTES: usize = 64;

/// Prints joined digests of 64 bytes, a line each. The sink must not have failed before. The error
/// is `Fault::WriteFailed`, if a write fails.
pub(crate) fn print_digests<K: Sink>(digests: &[u8], sink: &mut K) -> Result<(), Fault>
    requires sink { K.failed sink.old ≡ false }
    ensures write { IsErrOf result Fault.WriteFailed ↔ IsTrue (K.failed sink.new) }
    ensures fault { IsOkUnless result Fault.WriteFailed }
    ensures lines { OnOk result
        (Appends (K.held sink.old) (K.held sink.new) (digest_lines digests.now)) }
{
    for i in 0..digests.len() / DIGEST_BYTES {
        let start = i * DIGEST_BYTES;
        print_bytes(&digests[start..start + DIGEST_BYTES], sink)?;
    }
    Ok(())
}

/// Returns the joined digests of the lines of a text, at least one, of 128 hexadecimal digits each.
/// Each line ends with a newline, which the last line may lack. The error is a `Fault`: `WrongLine`
/// with the number of the first wrong line, counted from 1, or `NoMemory` if an allocation fails.
pub(crate) fn digests_of(alloc: Global, text: &[u8]) -> Result<Vec<u8>, Fault>
    ensures digests { IfOk result (λ digests. read_digests text.now ≡ Ok digests.items) }
    ensures fault { IfErr result (λ fault. IsScriptReadFault fault (read_digests text.now)) }
{
    if text.is_empty() {
        return Err(Fault::WrongLine(1));
    }
    let mut digests = Vec::new(alloc);
    let mut rest = text;
    'lines: while !rest.is_empty() {
        let (line, after) = split_line(rest);
        let digest = digest_of(digests.len() / DIGEST_BYTES + 1, line)?;
        digests.extend_from_slice(&digest)?;
        rest = after;
    }
    Ok(digests)
}

// Returns the digest in the line of this number. The error is `Fault::WrongLine` with this number,
// if the line is not 128 hexadecimal digits.
fn digest_of(number: usize, line: &[u8]) -> Result<[u8; DIGEST_BYTES], Fault>
    ensures digest { IfOk result (λ digest. digest_of_numbered_line number line.now ≡ Ok digest) }
    ensures fault { IfErr result
        (λ fault. IsScriptReadFault fault (digest_of_numbered_line number line.now)) }
{
    let mut digest = [0u8; DIGEST_BYTES];
    match hex::decode_to_slice(line, &mut digest) {
        Ok(()) => Ok(digest),
        Err(_) => Err(Fault::WrongLine(number)),
    }
}

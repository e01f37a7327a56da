//! Callers of the message authentication codes.

ghost use Rattle.std.specs.Prelude.{◌≡◌, ◌+◌, ◌^◌, ◌<◌, ◌↔◌, ◌⊎◌, [], length, Some, IfOk, IsErr};
ghost use Rattle.std.specs.Prelude.{IsTrue};
ghost use Rattle.blake2_simd.specs.Family.{blake2b};
ghost use Rattle.blake2.specs.States.{digest_of};

use blake2::Blake2bMac512;
use blake2::digest::{InvalidLength, KeyInit, Mac};

/// Returns whether the tag is that of the message under this key, of 1 to 64 bytes. The error is
/// `InvalidLength`, exactly for a key of another length.
pub fn is_authentic(key: &[u8], message: &[u8], tag: &[u8]) -> Result<bool, InvalidLength>
    requires { 128 + length message.now < 2 ^ 64 }
    ensures refused { IsErr result ↔ ((length key.now ≡ 0) ⊎ (64 < length key.now)) }
    ensures value { IfOk result (λ is. IsTrue is
        ↔ (tag.now ≡ digest_of blake2b 64 [] [] (Some key.now) message.now)) }
{
    let mut mac = Blake2bMac512::new_from_slice(key)?;
    mac.update(message);
    Ok(mac.verify_slice(tag).is_ok())
}

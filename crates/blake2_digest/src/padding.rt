//! Bytes with trailing zeros, and what the type of a slice of bytes says.

ghost use Rattle.std.specs.Prelude.{◌≡◌, ◌≤◌, length};
ghost use Rattle.blake2_digest.specs.Texts;
ghost use Rattle.blake2_digest.specs.Texts.{AreBytes};

/// Returns the bytes, followed by zeros up to `N` bytes. There must be at most `N` bytes. A key,
/// a salt, a persona and the last block are padded in this way (RFC 7693, section 3.3; the BLAKE2
/// document, 2.8).
pub fn padded<const N: usize>(bytes: &[u8]) -> [u8; N]
    requires { length bytes.now ≤ N }
    ensures { result ≡ Texts.padded N bytes.now }
{
    let mut all = [0; N];
    all[..bytes.len()].copy_from_slice(bytes);
    all
}

/// Does nothing. Its contract says what the type of the slice implies: each element is below 256.
/// The numbers of a definition have no upper bound, so a proof about a list of bytes may need
/// this.
pub fn tell_bytes(slice: &[u8])
    ensures { AreBytes slice.now }
{}

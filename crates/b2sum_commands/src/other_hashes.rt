//! Lines of other hash functions.

ghost use Rattle.std.specs.Prelude.{◌≡◌};
ghost use Rattle.b2sum_commands.specs.OtherHashes.{is_line_of_other_hash};

/// Returns whether the line is one of another hash function: it begins as a tagged line of that
/// does.
pub(crate) fn is_line_of_other_hash(line: &[u8]) -> bool
    ensures { result ≡ is_line_of_other_hash line.now }
{
    line.starts_with(b"MD5 (".as_slice())
        || line.starts_with(b"SHA1 (".as_slice())
        || line.starts_with(b"SHA224 (".as_slice())
        || line.starts_with(b"SHA256 (".as_slice())
        || line.starts_with(b"SHA384 (".as_slice())
        || line.starts_with(b"SHA512 (".as_slice())
        || line.starts_with(b"SHA3-".as_slice())
        || line.starts_with(b"SM3 (".as_slice())
        || line.starts_with(b"BLAKE3 (".as_slice())
}

//! Saved states: their bytes, which are the same on every machine.

ghost use Rattle.std.specs.Prelude.{◌≡◌, ◌+◌, ◌≤◌, ℕ, List, ◌++◌, length};
ghost use Rattle.blake2_digest.specs.Texts.{padded};

mod blake2b;
mod blake2s;

// Writes the part after the first `start` bytes, after which there are zeros.
fn write_after<const N: usize>(out: &mut [u8; N], start: usize, part: &[u8])
    requires { start + length part.now ≤ N }
    ensures { (front : List ℕ) → length front ≡ start → out.old ≡ padded N front
        → out.new ≡ padded N (front ++ part.now) }
{
    let bytes = &mut out[..];
    bytes[start..start + part.len()].copy_from_slice(part);
}

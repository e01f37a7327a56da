//! A salt or a persona that is kept.

ghost use Rattle.std.specs.Prelude.{◌≡◌, ℕ, ◌≤◌, List, length, take};
ghost use Rattle.blake2_compress.specs.Hash.{AreBytes};

use crate::limits::LABEL_BYTES;
use blake2_digest::padded;
use std::marker::Model;

/// A salt or a persona, at most 16 bytes.
#[derive(Drop)]
pub(crate) struct KeptSalt {
    bytes: [u8; LABEL_BYTES],
    length: usize,
}

impl Model for KeptSalt {
    ghost Value = { List ℕ };

    ghost view = { λ l. take l.length l.bytes };

    ghost invariant = { λ l. (l.length ≤ 16) × AreBytes (take l.length l.bytes) };
}

impl KeptSalt {
    /// Returns a label that keeps these bytes, at most 16.
    pub(crate) fn new(text: &[u8]) -> Self
        requires { length text.now ≤ 16 }
        ensures { result ≡ text.now }
    {
        KeptSalt {
            bytes: padded(text),
            length: text.len(),
        }
    }

    /// Returns the bytes that are kept.
    pub(crate) fn as_slice(&self) -> &[u8]
        ensures bytes { result.now ≡ self.now }
        ensures short { length self.now ≤ 16 }
        ensures are { AreBytes self.now }
    {
        &self.bytes[..self.length]
    }
}

//! The entries of a manifest.

ghost use Rattle.std.specs.Prelude.{◌≡◌, ◌≤◌, IfOk};
ghost use Rattle.b2sum_lines.specs.ManifestLines.{max_bytes, tag, is_tree};

use std::alloc::{AllocError, Global};
use text_lines::push_decimal;

/// The hash functions that a manifest can have.
#[derive(Clone, Copy, Debug, PartialEq, Eq)]
pub enum Algorithm {
    /// BLAKE2b, with digests of at most 64 bytes.
    Blake2b,
    /// BLAKE2s, with digests of at most 32 bytes.
    Blake2s,
    /// BLAKE2bp, with digests of at most 64 bytes.
    Blake2bp,
    /// BLAKE2sp, with digests of at most 32 bytes.
    Blake2sp,
    /// The root of a tree over BLAKE2b with leaves of this many bytes, at most 64 bytes long. Its
    /// lines are always tagged.
    Tree(u32),
}

impl Algorithm {
    /// Returns the length of the longest digest, in bytes.
    pub fn max_bytes(self) -> usize
        ensures is { result ≡ max_bytes self }
        ensures most { result ≤ 64 }
    {
        match self {
            Algorithm::Blake2b | Algorithm::Blake2bp | Algorithm::Tree(_) => 64,
            Algorithm::Blake2s | Algorithm::Blake2sp => 32,
        }
    }

    /// Returns whether a digest is the root of a tree.
    pub fn is_tree(self) -> bool
        ensures { result ≡ is_tree self }
    {
        matches!(self, Algorithm::Tree(_))
    }

    /// Returns the name of the algorithm in a tagged line. The error is `AllocError`, if an
    /// allocation fails.
    pub fn tag(self, alloc: Global) -> Result<Vec<u8>, AllocError>
        ensures { IfOk result (λ name. name.items ≡ tag self) }
    {
        let mut name = Vec::new(alloc);
        match self {
            Algorithm::Blake2b => name.extend_from_slice(b"BLAKE2b")?,
            Algorithm::Blake2s => name.extend_from_slice(b"BLAKE2s")?,
            Algorithm::Blake2bp => name.extend_from_slice(b"BLAKE2bp")?,
            Algorithm::Blake2sp => name.extend_from_slice(b"BLAKE2sp")?,
            Algorithm::Tree(leaf) => {
                name.extend_from_slice(b"BLAKE2b-tree-")?;
                push_decimal(&mut name, u64::from(leaf))?;
            }
        }
        Ok(name)
    }
}

/// What a digest needs besides its file. A tag says it, so that nobody takes the digest for one
/// that needs nothing.
#[derive(Clone, Copy, Debug, PartialEq, Eq)]
pub struct Needs {
    /// It needs a key.
    pub key: bool,
    /// It needs a salt.
    pub salt: bool,
    /// It needs a personalization.
    pub personal: bool,
}

/// How a line has its entry.
#[derive(Clone, Copy, Debug, PartialEq, Eq)]
pub enum Style {
    /// `BLAKE2b-256 (NAME) = DIGITS`, or `BLAKE2b-key-256 (NAME) = DIGITS` with a key, and so on.
    Tagged(Needs),
    /// `DIGITS  NAME`
    Text,
    /// `DIGITS *NAME`
    Binary,
    /// `DIGITS NAME`, which is only read.
    Bare,
}

/// What the lines of a manifest have between the digits and the name.
#[derive(Clone, Copy, Debug, PartialEq, Eq)]
pub enum Spacing {
    /// No line before has decided it.
    Open,
    /// A space, and then a space or `*`.
    Two,
    /// One space.
    One,
}

/// The digest of the file of this name.
#[derive(Debug, Drop)]
pub struct Entry {
    /// The hash function of the digest.
    pub algorithm: Algorithm,
    /// The bytes of the digest.
    pub digest: Vec<u8>,
    /// The bytes of the file's name.
    pub name: Vec<u8>,
    /// The style of the entry's line.
    pub style: Style,
}

//! The steps of a hash as values: what BLAKE2 compresses for an input (RFC 7693, 3.3), written
//! down as a transcript, and read back. Blocks have B bytes, 128 in BLAKE2b and 64 in BLAKE2s;
//! words W are `u64` and `u32`; salts and personas have S bytes, 16 and 8.

pub mod blake2b;
pub mod blake2s;
pub(crate) mod entries;
mod reader;

use blake2_compress::params::Tree;

/// One compression of a transcript (RFC 7693, 3.2), without its chaining words.
#[derive(Clone, Copy, Debug, PartialEq, Eq)]
pub struct Entry<const B: usize> {
    /// The B bytes that are compressed. In the last block those after the data are zero.
    pub block: [u8; B],
    /// The number of bytes counted up to and including this block, without the zeros after the
    /// data.
    pub counter: u64,
    /// The final flag: no block follows.
    pub last: bool,
    /// The last-node flag: no block follows, and no other node on this level of the tree.
    pub last_node: bool,
}

/// What a run compresses, and what it starts from.
// The bound on the vector leaves it to each B that its entries are small enough for a vector.
#[derive(Drop)]
#[derive_where(Debug, PartialEq, Eq; W, Vec<Entry<B>>)]
pub struct Transcript<W, const B: usize> {
    /// The eight words of the parameter block (RFC 7693, 2.5; the BLAKE2 document, 2.8).
    pub words: [W; 8],
    /// One entry for each block, in their order.
    pub entries: Vec<Entry<B>>,
}

/// One compression (RFC 7693, 3.2) with its chaining words.
#[derive(Clone, Copy, Debug, PartialEq, Eq)]
pub struct Step<W, const B: usize> {
    /// The eight chaining words before it.
    pub chain: [W; 8],
    /// The B bytes that are compressed.
    pub block: [u8; B],
    /// The number of bytes counted up to and including this block, without the zeros after the
    /// data.
    pub counter: u64,
    /// The final flag: no block follows.
    pub last: bool,
    /// The last-node flag: no block follows, and no other node on this level of the tree.
    pub last_node: bool,
}

/// The input and the output size that a transcript is read as.
#[derive(Debug, PartialEq, Eq, Drop)]
pub struct Reading<const S: usize> {
    /// The size of the digest, in bytes.
    pub output_size: usize,
    /// The salt, with zeros up to S bytes.
    pub salt: [u8; S],
    /// The persona, with zeros up to S bytes.
    pub persona: [u8; S],
    /// The key, or nothing.
    pub key: Option<Vec<u8>>,
    /// The tree parameters.
    pub tree: Tree,
    /// Whether it is the last node on its level of the tree.
    pub last_node: bool,
    /// The message.
    pub message: Vec<u8>,
}

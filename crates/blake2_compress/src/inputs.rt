//! What is hashed: an input, whether a family accepts it, and the blocks of its data (RFC 7693,
//! 2.1 and 3.3). Blocks have B bytes, 128 in BLAKE2b and 64 in BLAKE2s; salts and personas have S
//! bytes, 16 and 8.

pub mod blake2b;
pub mod blake2s;
pub mod blocks;
mod limits;

use crate::params::Tree;

/// All that a digest depends on except its size. The module of each family has a function
/// `accepts`, which returns whether the family accepts the lengths of the parts and the tree
/// parameters.
#[derive(Clone, Copy)]
pub struct Input<'a> {
    /// The salt, at most S bytes. Trailing zeros change nothing (the BLAKE2 document, 2.8).
    pub salt: &'a [u8],
    /// The persona, at most S bytes. Trailing zeros change nothing (the BLAKE2 document, 2.8).
    pub persona: &'a [u8],
    /// The key, or nothing. A key has 1 to 64 bytes in BLAKE2b and 1 to 32 bytes in BLAKE2s (RFC
    /// 7693, 2.1).
    pub key: Option<&'a [u8]>,
    /// The tree parameters, such that the family's `admits_tree` is true of them: depth at least
    /// 1, inner length at most 64 (BLAKE2s: 32), and for BLAKE2s a node offset below 2^48.
    /// [`Tree::sequential`] is for a hash that is the whole tree.
    pub tree: Tree,
    /// Whether this is the last node on its level of a tree (the BLAKE2 document, 2.10). It is
    /// `false` for a hash that is the whole tree.
    pub last_node: bool,
    /// The message. Its bytes and those of the key's block are fewer than 2^64.
    pub message: &'a [u8],
}

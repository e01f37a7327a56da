//! BLAKE2b and BLAKE2s (RFC 7693), with the names of the crate `blake2` 0.11: hashers and MACs of
//! every output size, with salt and persona.
//!
//! ```rust
//! use blake2::{Blake2b512, Digest};
//!
//! let mut hasher = Blake2b512::new();
//! hasher.update(b"hello ");
//! hasher.update(b"world");
//! let digest: [u8; 64] = hasher.finalize();
//! ```
//!
//! A node of a tree of hashes (the BLAKE2 document, 2.10) is hashed under its tree parameters, and
//! a flag marks the last node of each level:
//!
//! ```rust
//! use blake2::{Blake2b512, Digest, LastNode, Tree};
//!
//! let place = Tree {
//!     fanout: 0,
//!     depth: 2,
//!     leaf_length: 4096,
//!     node_offset: 0,
//!     node_depth: 1,
//!     inner_length: 64,
//! };
//! let mut root = Blake2b512::new_with_tree(b"", b"", &place);
//! root.set_last_node(true);
//! root.update(digests_of_leaves);
//! let digest: [u8; 64] = root.finalize();
//! ```

#![tactic(auto)]

mod contexts;
mod cores;
mod hashers;
pub mod laws;
mod macs;
pub mod many;
#[cfg(test)]
mod tests;
pub mod transcripts;

pub use blake2_compress::params::Tree;
pub use blake2_digest as digest;
pub use blake2_digest::{Digest, LastNode};
pub use blake2_replay::calls;
pub use blake2_simd::rows;
pub use blake2_streams as engine;
pub use blake2_streams as streams;
pub use cores::blake2b::Blake2bVarCore;
pub use cores::blake2s::Blake2sVarCore;
pub use hashers::blake2b::Blake2b;
pub use hashers::blake2s::Blake2s;
pub use macs::blake2b::Blake2bMac;
pub use macs::blake2s::Blake2sMac;
pub use transcripts as steps;

/// BLAKE2b with digests of 16 bytes.
pub type Blake2b128 = Blake2b<16>;

/// BLAKE2b with digests of 32 bytes.
pub type Blake2b256 = Blake2b<32>;

/// BLAKE2b with digests of 64 bytes.
pub type Blake2b512 = Blake2b<64>;

/// BLAKE2s with digests of 16 bytes.
pub type Blake2s128 = Blake2s<16>;

/// BLAKE2s with digests of 32 bytes.
pub type Blake2s256 = Blake2s<32>;

/// BLAKE2b as a MAC with outputs of 64 bytes.
pub type Blake2bMac512 = Blake2bMac<64>;

/// BLAKE2s as a MAC with outputs of 32 bytes.
pub type Blake2sMac256 = Blake2sMac<32>;

//! A tree of hashes with two levels over BLAKE2b (the BLAKE2 document, 2.10). A message is cut into
//! leaves of one length; each leaf is hashed, and the root is the hash of the leaves' digests. The
//! values of the tree's parameters are this project's own choice: fanout 0 (without a limit), depth
//! 2, digests of 64 bytes below the root, and the last-node flag at the last leaf and at the root.
//!
//! ```rust
//! use blake2_tree::{TreeHasher, tree_root};
//!
//! let mut hasher = TreeHasher::<32>::new(b"", b"files", 1 << 20);
//! hasher.update(b"hello ");
//! hasher.update(b"world");
//! let root: [u8; 32] = hasher.finalize();
//! assert_eq!(root, tree_root::<32>(b"", b"files", 1 << 20, b"hello world"));
//! ```

#![tactic(auto)]

mod hasher;
mod kept_salt;
mod limits;
pub mod nodes;
mod ranges;
pub mod thread_plan;
mod witness;

pub use hasher::{TreeHasher, tree_root};
pub use limits::{LABEL_BYTES, MESSAGE_LIMIT, accepts, best_piece_length, has_room_for};
pub use ranges::{hash_leaves, is_range, leaf_count, root_of_leaves};
pub use witness::{TreeWitness, tree_witness};

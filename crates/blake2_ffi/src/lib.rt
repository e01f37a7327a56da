//! BLAKE2b and BLAKE2s (RFC 7693), BLAKE2bp and BLAKE2sp, BLAKE2Xb and BLAKE2Xs as a static library
//! for C: the digest of a message in one call, or step by step with a state that the caller keeps.
//! `c/include/vulfsjor.h` declares these functions and says what a caller must guarantee. C
//! programs use the functions `vulfsjor_*` of that header, which accept null pointers too.
//!
//! No pointer is null, not even that of no bytes. A buffer is a pointer and its length in bytes.
//! What a function writes overlaps none of its other arguments. A state is memory of written
//! bytes, whatever they are.

#![tactic(auto)]

ghost use Rattle.std.specs.Prelude.{◌≡◌, length, replicate};
ghost use Rattle.blake2_compress.specs.Views.{tree_of};
ghost use Rattle.blake2_ffi.specs.Status.{IsStatusOf};
ghost use Rattle.blake2_ffi.specs.TreeArguments.{tree_of_node_parameters};

mod blake2b;
mod blake2bp;
mod blake2s;
mod blake2sp;
mod blake2xb;
mod blake2xs;
mod many;
mod plans;
mod saved;
mod several;
mod trees;

use blake2::Tree;
use blake2_digest::constant_time_eq;

/// The position of a node in a tree of hashes, as `vulfsjor_tree` of the header (the BLAKE2
/// document, 2.10). The fields are those of [`Tree`], without room between them.
#[repr(C)]
#[derive(Clone, Copy)]
pub struct NodeParameters {
    /// The position of this node in its level, from 0.
    pub node_offset: u64,
    /// The maximum number of bytes of the message in a leaf; 0 is without a limit.
    pub leaf_length: u32,
    /// The maximum number of children of a node; 0 is without a limit.
    pub fanout: u8,
    /// The number of levels of the tree, at least 1.
    pub depth: u8,
    /// The level of this node, from 0, that of the leaves.
    pub node_depth: u8,
    /// The number of bytes of an inner node's digest.
    pub inner_length: u8,
}

impl NodeParameters {
    // The same tree parameters for the library.
    pub(crate) fn to_tree(&self) -> Tree
        ensures { tree_of result ≡ tree_of_node_parameters self.now }
    {
        Tree {
            fanout: self.fanout,
            depth: self.depth,
            leaf_length: self.leaf_length,
            node_offset: self.node_offset,
            node_depth: self.node_depth,
            inner_length: self.inner_length,
        }
    }
}

/// Returns 0 if the bytes are equal, and -1 if they are not. If the lengths are equal, it looks
/// at all bytes, wherever the first difference is.
#[unsafe(no_mangle)]
pub extern "C" fn vulfsjor_ffi_memcmp(a: &[u8], b: &[u8]) -> i32
    ensures { IsStatusOf result (a.now ≡ b.now) }
{
    if constant_time_eq(a, b) { 0 } else { -1 }
}

/// Overwrites the bytes with zeros. A compiler cannot remove the call, since it does not see what
/// is done here.
#[unsafe(no_mangle)]
pub extern "C" fn vulfsjor_ffi_wipe(bytes: &mut [u8])
    ensures { bytes.new ≡ replicate (length bytes.old) 0 }
{
    bytes.fill(0);
}

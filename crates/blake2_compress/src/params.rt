//! What a parameter block names, the block itself, its words, and the chaining words that a run
//! starts from (RFC 7693, 2.5 and 3.3; the BLAKE2 document, 2.8).

pub mod blake2b;
pub mod blake2s;

ghost use Rattle.std.specs.Prelude.{◌≡◌, ◌+◌, ◌≤◌, length};
ghost use Rattle.blake2_simd.specs.Family.{Family, offset_bytes, reserved_bytes, salt_bytes};
ghost use Rattle.blake2_compress.specs.Hash;
ghost use Rattle.blake2_compress.specs.Hash.{Fits};
ghost use Rattle.blake2_compress.specs.ParameterBlock;
ghost use Rattle.blake2_compress.specs.Views.{given_parameters, tree_of};

use blake2_simd::padded;

/// The position of a hash in a tree of hashes (the BLAKE2 document, 2.10), as its parameter block
/// names it (2.8). A core's `admits_tree` returns whether its family accepts it.
#[derive(Clone, Copy, Debug, PartialEq, Eq)]
pub struct Tree {
    /// The maximum number of children of a node; 0 is without a limit.
    pub fanout: u8,
    /// The number of levels of the tree, at least 1.
    pub depth: u8,
    /// The maximum number of bytes of the message in a leaf; 0 is without a limit.
    pub leaf_length: u32,
    /// The position of this node in its level, from 0; less than 2^48 in BLAKE2s.
    pub node_offset: u64,
    /// The level of this node, from 0, that of the leaves.
    pub node_depth: u8,
    /// The number of bytes of an inner node's digest, at most 64 in BLAKE2b and 32 in BLAKE2s.
    pub inner_length: u8,
}

impl Tree {
    /// Returns the tree parameters of a hash that is the whole tree: fanout and depth are 1, all
    /// else is 0 (RFC 7693, 2.5; the BLAKE2 document, 2.10).
    #[inline]
    pub fn sequential() -> Self
        ensures { tree_of result ≡ Hash.sequential }
    {
        Tree {
            fanout: 1,
            depth: 1,
            leaf_length: 0,
            node_offset: 0,
            node_depth: 0,
            inner_length: 0,
        }
    }
}

/// What a parameter block names (RFC 7693, 2.5; the BLAKE2 document, 2.8).
#[derive(Clone, Copy)]
pub struct Parameters<'a> {
    /// The number of bytes of the digest, at most 64 in BLAKE2b and 32 in BLAKE2s.
    pub output_size: usize,
    /// The number of bytes of the key, 0 without one, and at most 64 in BLAKE2b and 32 in
    /// BLAKE2s.
    pub key_size: usize,
    /// The salt, at most 16 bytes in BLAKE2b and 8 in BLAKE2s. Trailing zeros change nothing.
    pub salt: &'a [u8],
    /// The persona, at most 16 bytes in BLAKE2b and 8 in BLAKE2s. Trailing zeros change nothing.
    pub persona: &'a [u8],
    /// The tree parameters.
    pub tree: Tree,
}

// The N bytes of the parameter block, field by field (the BLAKE2 document, 2.8): the node offset
// has O bytes, R are reserved, and a salt and a persona have S bytes each.
#[inline(always)]
fn parameter_block<const N: usize, const O: usize, const R: usize, const S: usize>(
    parameters: &Parameters<'_>,
) -> [u8; N]
    ghost f: { Family }
    requires offset { offset_bytes f ≡ O }
    requires offset_room { O ≤ 8 }
    requires reserved { reserved_bytes f ≡ R }
    requires salt { salt_bytes f ≡ S }
    requires table { 4 + 4 + O + 2 + R + S + S ≡ N }
    requires fits { Fits f (given_parameters parameters.now) }
    ensures { result ≡ Hash.parameter_block f (given_parameters parameters.now) }
{
    let Parameters {
        output_size,
        key_size,
        salt,
        persona,
        tree,
    } = *parameters;
    let mut block = [0; N];
    let fields = &mut block[..];
    fields[..4].copy_from_slice(&[output_size as u8, key_size as u8, tree.fanout, tree.depth]);
    fields[4..8].copy_from_slice(&tree.leaf_length.to_le_bytes());
    fields[8..8 + O].copy_from_slice(&tree.node_offset.to_le_bytes()[..O]);
    fields[8 + O..10 + O].copy_from_slice(&[tree.node_depth, tree.inner_length]);
    // The reserved bytes are zero.
    let texts = 4 + 4 + O + 2 + R;
    fields[texts..texts + salt.len()].copy_from_slice(salt);
    fields[texts + S..texts + S + persona.len()].copy_from_slice(persona);
    block
}

// The tree parameters that a parameter block names, if the node offset has O bytes.
fn tree_in<const O: usize>(block: &[u8]) -> Tree
    ghost f: { Family }
    requires offset { offset_bytes f ≡ O }
    requires offset_room { O ≤ 8 }
    requires fields { 8 + O + 2 ≤ length block.now }
    ensures { tree_of result ≡ ParameterBlock.tree_in_block f block.now }
{
    Tree {
        fanout: block[2],
        depth: block[3],
        leaf_length: u32::from_le_bytes(padded(&block[4..8])),
        node_offset: u64::from_le_bytes(padded(&block[8..8 + O])),
        node_depth: block[8 + O],
        inner_length: block[8 + O + 1],
    }
}

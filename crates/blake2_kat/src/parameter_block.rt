//! The words of the parameter block, and the tree parameters that are accepted.

use blake2::Tree;
use blake2_compress::params::{Parameters, blake2b, blake2s};

// The first parameter word of an unkeyed digest of 64 bytes, and its bytes: digest length 64,
// key length 0, fanout 1, depth 1 and leaf length 0 (the BLAKE2 document, 2.8).
#[test]
fn first_word_of_unkeyed_512_bits(rt: HostRuntime) {
    let [first, ..] = blake2b::parameter_words(&Parameters {
        output_size: 64,
        key_size: 0,
        salt: &[],
        persona: &[],
        tree: Tree::sequential(),
    });
    assert!(rt; first == 0x01010040);
    assert!(rt; first.to_le_bytes() == [0x40, 0x00, 0x01, 0x01, 0x00, 0x00, 0x00, 0x00]);
}

// The words of a leaf and of the root of a tree of two levels, byte by byte as the parameter
// block has its fields (the BLAKE2 document, 2.8).
#[test]
fn words_of_leaf_and_root_of_blake2b(rt: HostRuntime) {
    let leaf = Tree {
        fanout: 0,
        depth: 2,
        leaf_length: 4096,
        node_offset: 3,
        node_depth: 0,
        inner_length: 64,
    };
    let of_leaf = Parameters {
        output_size: 64,
        key_size: 0,
        salt: &[],
        persona: &[],
        tree: leaf,
    };
    let words = blake2b::parameter_words(&of_leaf);
    assert!(rt; words == [0x0000100002000040, 3, 0x4000, 0, 0, 0, 0, 0]);
    let root = Tree {
        node_offset: 0,
        node_depth: 1,
        ..leaf
    };
    let words = blake2b::parameter_words(&Parameters {
        output_size: 32,
        tree: root,
        ..of_leaf
    });
    assert!(rt; words == [0x0000100002000020, 0, 0x4001, 0, 0, 0, 0, 0]);
}

// The same for BLAKE2s, whose node offset has 48 bits.
#[test]
fn words_of_leaf_and_root_of_blake2s(rt: HostRuntime) {
    let node = Tree {
        fanout: 2,
        depth: 3,
        leaf_length: 7,
        node_offset: (1 << 32) + 5,
        node_depth: 1,
        inner_length: 32,
    };
    let of_node = blake2s::parameter_words(&Parameters {
        output_size: 32,
        key_size: 0,
        salt: &[],
        persona: &[],
        tree: node,
    });
    assert!(rt; of_node == [0x03020020, 7, 5, 0x20010001, 0, 0, 0, 0]);
}

// The last of 48 bits' node offsets is accepted. The next is not, nor are an inner length past 32
// or a tree without levels.
#[test]
fn blake2s_accepts_48_bit_node_offsets(rt: HostRuntime) {
    let mut tree = Tree::sequential();
    tree.node_offset = (1 << 48) - 1;
    assert!(rt; blake2s::admits_tree(&tree));
    tree.node_offset = 1 << 48;
    assert!(rt; !blake2s::admits_tree(&tree));
    tree = Tree::sequential();
    tree.inner_length = 33;
    assert!(rt; !blake2s::admits_tree(&tree));
    tree = Tree::sequential();
    tree.depth = 0;
    assert!(rt; !blake2s::admits_tree(&tree));
}

//! Trees against their nodes, and against roots from Python's `hashlib`.

ghost use Rattle.std.specs.Prelude.{◌^◌, ◌<◌, length};

mod memory;
mod plans;
mod ranges;
mod roots;
mod witness;

use blake2::Blake2b;
use blake2::digest::{FixedOutput, LastNode, Update};
use blake2::transcripts::{Step, Tree};

// The digest of a node of a tree, without salt and persona.
fn digest_of_node(
    leaf_length: u32,
    node_offset: u64,
    node_depth: u8,
    last: bool,
    bytes: &[u8],
) -> [u8; 64]
    requires { length bytes.now < 2 ^ 58 }
{
    let tree = Tree {
        fanout: 0,
        depth: 2,
        leaf_length,
        node_offset,
        node_depth,
        inner_length: 64,
    };
    let mut hasher = Blake2b::new_with_tree(&[], &[], &tree);
    hasher.set_last_node(last);
    hasher.update(bytes);
    hasher.finalize_fixed()
}

// The step of a root of no bytes over the digests of one leaf or two, without salt and persona. Its
// chaining words are IV xored with the parameter words (the BLAKE2 document, 2.8): the first word
// has the length of a leaf, the third node depth 1 and inner length 64.
fn step_of_root_over_digests(first_word: u64, digests: &[u8]) -> Step<u64, 128> {
    let mut block = [0; 128];
    for (byte, digest_byte) in block.iter_mut().zip(digests) {
        *byte = *digest_byte;
    }
    Step {
        chain: [
            first_word,
            0xbb67ae8584caa73b,
            0x3c6ef372fe94b82a,
            0xa54ff53a5f1d36f1,
            0x510e527fade682d1,
            0x9b05688c2b3e6c1f,
            0x1f83d9abfb41bd6b,
            0x5be0cd19137e2179,
        ],
        block,
        counter: digests.len() as u64,
        last: true,
        last_node: true,
    }
}

//! States of plain numbers.

mod blake2b;
mod blake2s;
mod leaves;
mod roots;

use blake2::Tree;
use blake2_state::StateParameters;
pub(crate) use leaves::root_by_state_from_leaf_digests;

// What a keyed state is made from.
fn keyed_state_parameters<'a>() -> StateParameters<'a> {
    StateParameters {
        output_size: 20,
        key: b"key",
        salt: b"salt",
        persona: b"persona",
    }
}

// A node of a tree whose digests below the root have this length.
fn node_with_inner_length(inner_length: u8) -> Tree {
    Tree {
        fanout: 2,
        depth: 3,
        leaf_length: 4096,
        node_offset: 5,
        node_depth: 1,
        inner_length,
    }
}

//! Plain states of a tree that hash whole leaves, and absorb them by their digests, against roots
//! of `tree_root`.

ghost use Rattle.std.specs.Prelude.{◌≤◌, length};

use blake2_state::tree::TreeState;
use blake2_tree::leaf_count;
use std::process::Abort;

// The root that a state returns for a message of which the leaves between these two come as their
// digests, which the state hashes one by one, and what follows in two pieces.
pub(crate) fn root_by_state_from_leaf_digests(
    rt: &impl Abort,
    message: &[u8],
    from: usize,
    to: usize,
    cut: usize,
) -> [u8; 64]
    requires { length message.now ≤ 44 }
{
    let mut digests = [0; 704];
    let mut root = [0; 64];
    assert!(rt; from < to && to < cut && cut <= message.len());
    let Ok(mut state) = TreeState::new(64, b"salt", b"persona", 4) else {
        return root;
    };
    state.update(&message[..from]);
    let leaves = leaf_count(4, (to - from) as u64);
    assert!(rt; leaves <= 11);
    for i in 0..leaves {
        let start = from + 4 * i as usize;
        assert!(rt; start + 4 <= message.len() && state.are_leaves_ahead(i, 4));
        let at = 64 * i as usize;
        state.hash_leaves_ahead(i, &message[start..start + 4], &mut digests[at..at + 64]);
    }
    let written = 64 * leaves as usize;
    assert!(rt; state.accepts_leaves(written, cut - to));
    state.update_leaves(&digests[..written], &message[to..cut]);
    assert!(rt; state.is_ready() && state.counted() == cut as u64);
    let rest = &message[cut..];
    assert!(rt; state.accepts_leaves(0, rest.len()));
    state.update_leaves(&[], rest);
    assert!(rt; state.is_ready() && state.counted() == message.len() as u64);
    state.write_root(&mut root);
    root
}

#[test]
fn state_accepts_exactly_right_leaves(rt: HostRuntime) {
    let mut state = TreeState::new(64, b"", b"", 1 << 31).expect(&rt, "a state");
    assert!(rt; state.is_at_boundary());
    assert!(rt; state.accepts_leaves(64, 1) && state.accepts_leaves(0, 0));
    assert!(rt; !state.accepts_leaves(64, 0) && !state.accepts_leaves(63, 1));
    let most = 64 * ((1 << 27) - 1);
    assert!(rt; state.accepts_leaves(most, (1 << 31) - 1));
    assert!(rt; !state.accepts_leaves(most, 1 << 31));
    assert!(rt; !state.accepts_leaves(most + 64, 1) && !state.accepts_leaves(usize::MAX - 63, 1));
    assert!(rt; state.accepts_leaves(0, (1 << 58) - 1) && !state.accepts_leaves(0, 1 << 58));
    let leaf = 1 << 31;
    assert!(rt;
        state.are_leaves_ahead((1 << 27) - 2, leaf) && !state.are_leaves_ahead(1 << 27, leaf)
    );
    assert!(rt; !state.are_leaves_ahead((1 << 27) - 1, leaf) && !state.are_leaves_ahead(0, 0));
    assert!(rt; !state.are_leaves_ahead(u64::MAX, leaf) && !state.are_leaves_ahead(0, leaf + 1));
    state.update(b"a");
    assert!(rt; !state.is_at_boundary() && !state.are_leaves_ahead(0, leaf));
    assert!(rt; !state.accepts_leaves(64, 1) && state.accepts_leaves(0, 1));
    assert!(rt; state.accepts_leaves(0, (1 << 58) - 2) && !state.accepts_leaves(0, (1 << 58) - 1));
}

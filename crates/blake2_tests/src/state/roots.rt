//! Roots of plain states, and over digests of leaves, against those of `tree_root`.

use blake2_state::tree::{TreeState, write_root_of_leaves};
use blake2_tree::{hash_leaves, is_range, leaf_count, tree_root};

// The bytes after the root stay.
#[test]
fn root_of_20_bytes_leaves_the_rest(rt: HostRuntime) {
    let salt = b"0123456789abcdef";
    let persona = b"fedcba9876543210";
    let root = tree_root::<20>(salt, persona, u32::MAX, b"abc");
    let mut state = TreeState::new(20, salt, persona, u32::MAX).expect(&rt, "a state");
    state.update(b"abc");
    let mut out = [7; 24];
    state.write_root(&mut out);
    assert!(rt; &out[..20] == root.as_slice());
    assert!(rt; &out[20..] == [7; 4].as_slice());
    state.wipe();
    assert!(rt; !state.is_ready());
}

// The root over digests has the number of bytes that there is room for.
#[test]
fn root_over_digests_fills_its_room(rt: HostRuntime) {
    let message = b"abcdefghi";
    let mut digests = [0; 192];
    assert!(rt; is_range(4, 0, true, 9) && leaf_count(4, 9) == 3);
    hash_leaves(b"salt", b"persona", 4, 0, true, message, &mut digests);
    let mut out = [7; 20];
    write_root_of_leaves(&mut out, &digests, b"salt", b"persona", 4);
    assert!(rt; out == tree_root::<20>(b"salt", b"persona", 4, message));
    let mut longest = [7; 64];
    write_root_of_leaves(&mut longest, &digests, b"salt", b"persona", 4);
    assert!(rt; longest == tree_root::<64>(b"salt", b"persona", 4, message));
}

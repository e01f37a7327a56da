//! Ranges of leaves and their digests, the root over them, and hashers that absorb whole leaves by
//! their digests.

ghost use Rattle.std.specs.Prelude.{◌≤◌, length};

use crate::checks::check_digits;
use crate::state::root_by_state_from_leaf_digests;
use blake2::Blake2b256;
use blake2::digest::{Digest, Update};
use blake2_test_support::inputs::{fill_with_counting_bytes, split_leading_number};
use blake2_tree::{TreeHasher, hash_leaves, is_range, leaf_count, root_of_leaves, tree_root};
use std::process::Abort;

// Writes the digests of a range to the front of these bytes, and returns how many bytes they are.
fn write_digests_of_range(
    rt: &impl Abort,
    leaf_length: u32,
    first: u64,
    ends: bool,
    bytes: &[u8],
    digests: &mut [u8],
) -> usize
    requires { 1 ≤ leaf_length }
{
    assert!(rt; is_range(leaf_length, first, ends, bytes.len() as u64));
    let count = leaf_count(leaf_length, bytes.len() as u64);
    assert!(rt; count <= digests.len() as u64 / 64);
    let length = 64 * count as usize;
    let room = &mut digests[..length];
    hash_leaves(b"salt", b"persona", leaf_length, first, ends, bytes, room);
    length
}

// Checks the digest of the digests of ranges from several leaves on.
fn check_digest_of_range_digests(rt: &impl Abort, leaf_length: u32, wanted: &str)
    requires least { 1 ≤ leaf_length }
    requires most { leaf_length ≤ 200 }
{
    let mut text = [0; 1800];
    fill_with_counting_bytes(&mut text);
    let mut digests = [0; 576];
    let mut all = Blake2b256::new();
    for first in [0, 7, 1 << 40] {
        for leaves in [1, 3, 4, 5, 8, 9] {
            for (ends, less) in [(false, 0), (true, 0), (true, leaf_length / 2)] {
                let length = (leaves * leaf_length - less) as usize;
                assert!(rt; length <= text.len());
                let bytes = &text[..length];
                let written = write_digests_of_range(
                    rt,
                    leaf_length,
                    first,
                    ends,
                    bytes,
                    &mut digests,
                );
                assert!(rt; written == 64 * leaves as usize && written <= digests.len());
                assert!(rt; all.counted() <= 100_000);
                Update::update(&mut all, &digests[..written]);
            }
        }
    }
    check_digits(rt, &all.finalize(), wanted);
}

// The length of a leaf, and the digest, as `tests/expected_values.py` prints them under `ranges`.
const DIGESTS: &str = "\
1|ac89d5c6c8c0c96af7bf5d0e18f28e48a4668ee606d93f07bc59a1be2ad0c0d1\n\
2|a5ccdbd7904c16c687c247ea1dd3416e07c9613dc2c0127ee1ce9564dc1d51c5\n\
3|b60c1e608b6f2d63c117409c414991f25f366a588e24a752e8b40170cc0f4201\n\
64|137b03e526fa82a73add0038f0a87df44caba3be39d5c0221db04ce0309ec5c3\n\
127|ea2532f5b4c3b0455e0ae14b9d9e2c07696ce2900f08868cc80eaebf722cde1d\n\
128|149e5a656cbc4e63cee97b6cdf16ab556060aec34aeb395551151060bef34582\n\
129|81edd4f8ee44d0ad83ac84749c64926cbb6c4c92856f444246835ff9befaa229\n\
200|c11911ad5384952115fa08cf4d70a42d39b62518a5ce6e0d30509a478b2c774a\n\
";

#[test]
fn digests_of_leaf_ranges_are_known(rt: HostRuntime) {
    for row in DIGESTS.lines() {
        let (leaf_length, wanted) = split_leading_number(row).unwrap_or((0, row));
        assert!(rt; 1 <= leaf_length && leaf_length <= 200, "{row}");
        check_digest_of_range_digests(&rt, leaf_length as u32, wanted);
    }
}

// The root from two ranges of a message, of which the first ends at `cut`.
fn root_from_two_ranges(rt: &impl Abort, message: &[u8], cut: usize, ends: bool) -> [u8; 64] {
    let mut digests = [0; 704];
    assert!(rt; cut <= message.len());
    let (front, last) = message.split_at(cut);
    let mut at = 0;
    if cut > 0 {
        at = write_digests_of_range(rt, 4, 0, false, front, &mut digests);
    }
    assert!(rt; at <= digests.len());
    let written = write_digests_of_range(rt, 4, cut as u64 / 4, ends, last, &mut digests[at..]);
    assert!(rt; written <= digests.len() && at + written <= digests.len());
    root_of_leaves(b"salt", b"persona", 4, &digests[..at + written])
}

// Up to eleven leaves of four bytes, cut at each border of leaves. A range of whole leaves has
// another root if `ends` is not set.
#[test]
fn root_is_the_same_from_two_ranges(rt: HostRuntime) {
    let mut text = [0; 44];
    fill_with_counting_bytes(&mut text);
    for length in 1..45 {
        let message = &text[..length];
        let root = tree_root::<64>(b"salt", b"persona", 4, message);
        for cut in 0..12 {
            if 4 * cut < length {
                assert!(rt;
                    root_from_two_ranges(&rt, message, 4 * cut, true) == root,
                    "{length}, {cut}"
                );
                let is_whole = length % 4 == 0;
                if is_whole {
                    let other = root_from_two_ranges(&rt, message, 4 * cut, false);
                    assert!(rt; other != root, "{length}, {cut}");
                }
            }
        }
    }
    let root = tree_root::<64>(b"salt", b"persona", 4, b"");
    assert!(rt; root_from_two_ranges(&rt, b"", 0, true) == root);
}

// The root over digests has the size that is requested.
#[test]
fn root_over_digests_has_requested_size(rt: HostRuntime) {
    let message = b"abcdefghi";
    let mut digests = [0; 192];
    let written = write_digests_of_range(&rt, 4, 0, true, message, &mut digests);
    assert!(rt; written == 192);
    let none: [u8; 0] = root_of_leaves(b"salt", b"persona", 4, &digests);
    assert!(rt; none == []);
    let one: [u8; 1] = root_of_leaves(b"salt", b"persona", 4, &digests);
    assert!(rt; one == tree_root::<1>(b"salt", b"persona", 4, message));
    let root: [u8; 20] = root_of_leaves(b"salt", b"persona", 4, &digests);
    assert!(rt; root == tree_root::<20>(b"salt", b"persona", 4, message));
    let swapped: [u8; 20] = root_of_leaves(b"persona", b"salt", 4, &digests);
    assert!(rt; swapped != root);
}

#[test]
fn leaf_counts_are_right(rt: HostRuntime) {
    assert!(rt; leaf_count(4, 0) == 1 && leaf_count(4, 1) == 1 && leaf_count(4, 4) == 1);
    assert!(rt; leaf_count(4, 5) == 2 && leaf_count(4, 8) == 2 && leaf_count(4, 9) == 3);
    assert!(rt; leaf_count(1, u64::MAX) == u64::MAX);
    assert!(rt; leaf_count(2, u64::MAX) == 1 << 63);
    assert!(rt; leaf_count(u32::MAX, u64::MAX) == (1 << 32) + 1);
}

#[test]
fn lengths_of_ranges_are_accepted(rt: HostRuntime) {
    // No bytes are a range only of a message of none.
    assert!(rt; is_range(4, 0, true, 0) && !is_range(4, 0, false, 0) && !is_range(4, 1, true, 0));
    // Only the message's last leaf may be shorter.
    assert!(rt; is_range(4, 0, true, 5) && !is_range(4, 0, false, 5) && is_range(4, 0, false, 8));
    // All ends below 2^58 bytes.
    let limit = 1 << 58;
    assert!(rt; is_range(1, limit - 2, true, 1) && !is_range(1, limit - 1, true, 1));
    assert!(rt; is_range(1, 0, false, limit - 1) && !is_range(1, 0, false, limit));
    assert!(rt; !is_range(1, 0, true, u64::MAX) && !is_range(1, u64::MAX, true, 1));
    assert!(rt; !is_range(u32::MAX, u64::MAX, true, u64::MAX));
    let leaf = 1u32 << 31;
    assert!(rt; is_range(leaf, (1 << 27) - 1, true, u64::from(leaf) - 1));
    assert!(rt; !is_range(leaf, (1 << 27) - 1, false, u64::from(leaf)));
    assert!(rt; !is_range(leaf, 1 << 27, true, 1));
}

// The root that a hasher returns for a message of which the leaves between these two come as
// their digests, and what follows in two pieces. Each count is as it should be.
fn root_by_hasher_from_leaf_digests(
    rt: &impl Abort,
    message: &[u8],
    from: usize,
    to: usize,
    cut: usize,
) -> [u8; 64]
    requires { length message.now ≤ 44 }
{
    let mut digests = [0; 704];
    assert!(rt; from < to && to < cut && cut <= message.len());
    let written = write_digests_of_range(
        rt,
        4,
        from as u64 / 4,
        false,
        &message[from..to],
        &mut digests,
    );
    assert!(rt; written <= digests.len());
    let mut hasher = TreeHasher::<64>::new(b"salt", b"persona", 4);
    hasher.update(&message[..from]);
    assert!(rt; hasher.is_at_boundary());
    assert!(rt; hasher.accepts_leaves(written, cut - to));
    hasher.update_leaves(&digests[..written], &message[to..cut]);
    assert!(rt; hasher.counted() == cut as u64);
    let rest = &message[cut..];
    assert!(rt; hasher.accepts_leaves(0, rest.len()));
    hasher.update_leaves(&[], rest);
    assert!(rt; hasher.counted() == message.len() as u64);
    hasher.finalize()
}

// Up to six leaves of four bytes, and each run of whole leaves that does not end the message, by a
// hasher and by a plain state.
#[test]
fn root_is_the_same_from_leaf_digests(rt: HostRuntime) {
    let mut text = [0; 24];
    fill_with_counting_bytes(&mut text);
    for length in 5..25 {
        let message = &text[..length];
        let root = tree_root::<64>(b"salt", b"persona", 4, message);
        for from in 0..6 {
            for to in from + 1..6 {
                for cut in 4 * to + 1..length + 1 {
                    let found = root_by_hasher_from_leaf_digests(
                        &rt,
                        message,
                        4 * from,
                        4 * to,
                        cut,
                    );
                    assert!(rt; found == root, "{length}, {from}, {to}, {cut}");
                    let found = root_by_state_from_leaf_digests(
                        &rt,
                        message,
                        4 * from,
                        4 * to,
                        cut,
                    );
                    assert!(rt; found == root, "{length}, {from}, {to}, {cut}");
                }
            }
        }
    }
}

#[test]
fn hasher_accepts_exactly_right_leaves(rt: HostRuntime) {
    let mut hasher = TreeHasher::<64>::new(b"", b"", 1 << 31);
    assert!(rt; hasher.is_at_boundary());
    assert!(rt; hasher.accepts_leaves(64, 1) && hasher.accepts_leaves(0, 0));
    assert!(rt; !hasher.accepts_leaves(64, 0) && !hasher.accepts_leaves(63, 1));
    assert!(rt; !hasher.accepts_leaves(1, 1) && !hasher.accepts_leaves(65, 1));
    // 2^27 leaves are 2^58 bytes.
    let most = 64 * ((1 << 27) - 1);
    assert!(rt; hasher.accepts_leaves(most, (1 << 31) - 1));
    assert!(rt; !hasher.accepts_leaves(most, 1 << 31));
    assert!(rt; !hasher.accepts_leaves(most + 64, 1) && !hasher.accepts_leaves(most, usize::MAX));
    assert!(rt; !hasher.accepts_leaves(usize::MAX - 63, 1));
    assert!(rt; hasher.accepts_leaves(0, (1 << 58) - 1) && !hasher.accepts_leaves(0, 1 << 58));
    hasher.update(b"a");
    assert!(rt; !hasher.is_at_boundary());
    assert!(rt; !hasher.accepts_leaves(64, 1) && hasher.accepts_leaves(0, 1));
    assert!(rt;
        hasher.accepts_leaves(0, (1 << 58) - 2) && !hasher.accepts_leaves(0, (1 << 58) - 1)
    );
}

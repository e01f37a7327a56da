//! Roots of `tree_root` and `TreeHasher`. The values in hexadecimal are those of `hashlib`, as
//! `tests/expected_values.py` prints them.

ghost use Rattle.std.specs.Prelude.{◌≤◌, length};

use super::digest_of_node;
use crate::checks::check_digits;
use blake2::Blake2b256;
use blake2::digest::{Digest, Update};
use blake2_test_support::inputs::{fill_with_counting_bytes, split_leading_number};
use blake2_tree::{TreeHasher, tree_root};
use std::process::Abort;

// The root of a message, node by node, and how many bytes its message has.
fn root_and_length_by_nodes(
    rt: &(impl Abort + AllocGlobal),
    message: &[u8],
    leaves: u64,
) -> ([u8; 64], usize)
    requires message { length message.now ≤ 100 }
    requires leaves { leaves ≤ 100 }
{
    let mut digests: Vec<u8> = Vec::new(rt.alloc());
    for i in 0..leaves {
        let start = message.len().min(i as usize * 4);
        let end = message.len().min(start + 4);
        let digest = digest_of_node(4, i, 0, i + 1 == leaves, &message[start..end]);
        digests
            .extend_from_slice(&digest)
            .expect(rt, "room for a digest");
    }
    assert!(rt; digests.len() <= 10_000);
    (digest_of_node(4, 0, 1, true, &digests), digests.len())
}

// The root that a hasher returns for a message in two pieces, which counts the bytes of both.
fn root_of_two_pieces(first: &[u8], second: &[u8]) -> Option<[u8; 64]>
    requires first { length first.now ≤ 100 }
    requires second { length second.now ≤ 100 }
{
    let mut hasher = TreeHasher::new(&[], &[], 4);
    hasher.update(first);
    if hasher.counted() != first.len() as u64 {
        return None;
    }
    hasher.update(second);
    if hasher.counted() != (first.len() + second.len()) as u64 {
        return None;
    }
    Some(hasher.finalize())
}

// Checks the root that a hasher returns for a message, for each cut.
fn check_root_for_each_cut(rt: &impl Abort, message: &[u8], root: [u8; 64])
    requires { length message.now ≤ 100 }
{
    let length = message.len();
    for cut in 0..length + 1 {
        let (first, second) = message.split_at(cut);
        let of_pieces = root_of_two_pieces(first, second);
        assert!(rt; of_pieces == Some(root), "{length}, {cut}");
    }
}

// Checks the root of the first bytes of `abcdefghi`, and their number of leaves.
fn check_root_and_leaf_count(
    rt: &(impl Abort + AllocGlobal),
    length: usize,
    leaves: u64,
    root_message: usize,
    wanted: &str,
) {
    let message = b"abcdefghi";
    assert!(rt; length <= message.len() && leaves <= 3);
    let message = &message[..length];
    let root = tree_root::<64>(&[], &[], 4, message);
    check_digits(rt, &root, wanted);
    let by_nodes = root_and_length_by_nodes(rt, message, leaves);
    assert!(rt; by_nodes == (root, root_message), "{length}");
    check_root_for_each_cut(rt, message, root);
}

#[test]
fn roots_are_those_by_nodes(rt: HostRuntime) {
    let wanted = "0a69959bd9aee74e029fe7398f08e6d2ac3ff6f7d444317962d76c65f57bad89\
        cbe18314d10ca47ab5926f8efa4fecde12dbaf655fbdd52437174ca8fcab8037";
    check_root_and_leaf_count(&rt, 0, 1, 64, wanted);
    let wanted = "d13bf66d341b8a441dd9592ba27e2661ae3ec480eb51bfb58ab7f2c48a772629\
        08588dc29f84f01bff65d687b946d723d5affc1a4449f039a236f53d1a5e8ed5";
    check_root_and_leaf_count(&rt, 4, 1, 64, wanted);
    let wanted = "14b0752e3ca5c2b4f5df98dcb4fab97caeda23424260d531f9b0b52310bb58ee\
        cb6e13211a8298c3e52d543a21efa545053f3006100629ff6bd181611b38f8c8";
    check_root_and_leaf_count(&rt, 5, 2, 128, wanted);
    let wanted = "d1c746476ff20334428bec346f84e167ad8d38238a4101b213de160da378bce3\
        e083629eb99294e0a0a76ae1a1959d8a7ebe89ca4f47ae640163303670edf789";
    check_root_and_leaf_count(&rt, 8, 2, 128, wanted);
    let wanted = "2a6dca2bf6c1cbff1afe73228acd003d96f055f29871990244afb9379738dd21\
        67f63eb8f6859d9038334a573a147e507542a63a0940f0d3cf2d5f172db208b9";
    check_root_and_leaf_count(&rt, 9, 3, 192, wanted);
}

// Up to eleven leaves of four bytes, and each cut: four leaves in parallel are on both sides of
// it.
#[test]
fn root_is_the_same_for_every_cut(rt: HostRuntime) {
    let mut text = [0; 41];
    fill_with_counting_bytes(&mut text);
    for length in 1..42 {
        let message = &text[..length];
        let root = tree_root::<64>(&[], &[], 4, message);
        let leaves = (length as u64).div_ceil(4);
        assert!(rt; leaves <= 11);
        let (by_nodes, _) = root_and_length_by_nodes(&rt, message, leaves);
        assert!(rt; root == by_nodes, "{length}");
        check_root_for_each_cut(&rt, message, root);
    }
}

// Checks the digest of the roots, one after the other, of messages around each number of leaves.
fn check_digest_of_roots(rt: &impl Abort, leaf_length: u32, wanted: &str)
    requires leaf_length { 1 ≤ leaf_length }
    requires within { leaf_length ≤ 200 }
{
    let mut text = [0; 2000];
    fill_with_counting_bytes(&mut text);
    let mut roots = Blake2b256::new();
    for leaves in [0, 1, 3, 4, 5, 8, 9] {
        for more in [0, 1, leaf_length - 1] {
            let length = (leaves * leaf_length + more) as usize;
            let message = &text[..length.min(2000)];
            let root = tree_root::<32>(b"salt", b"persona", leaf_length, message);
            assert!(rt; roots.counted() <= 10_000);
            Update::update(&mut roots, &root);
        }
    }
    check_digits(rt, &roots.finalize(), wanted);
}

// The length of a leaf, and the digest, as `tests/expected_values.py` prints them under `trees`.
const ROOTS: &str = "\
1|49a062c168580112fc107f1e33225fddc1f391c5137b9334e18084f9b364686a\n\
2|e26126c768572bc469a254cfa09e6e7e48483d44a0e488c867e236404599510f\n\
3|7d0c2a88598c2e32119327789551e6d48e3c05426fc48e94e7d7e8d7cc5df28c\n\
64|df7244d92a9de544be536d0c239c056d8c1de98aeb53ac263c49d0bbe1f2d3eb\n\
127|8ebebd3cb69fc3aba6ddcd6313cccfd48d13a8475bacda20a6a4dfc218cf2fa8\n\
128|faccdd90b7edb611795f9259089185f4f3967e9038aee848fcd846ada88dc3f2\n\
129|5c0a2242bf300cba48ac6f0fab92fc5e15c3d3851913373da861c663e9c5b9c6\n\
200|2e0e3d01bf81b73ca78d54d65b85e83a87a4f75fc6b273afa196c80f0386717b\n\
";

#[test]
fn roots_around_leaf_ends_are_known(rt: HostRuntime) {
    for row in ROOTS.lines() {
        let (leaf_length, wanted) = split_leading_number(row).unwrap_or((0, row));
        assert!(rt; 1 <= leaf_length && leaf_length <= 200, "{row}");
        check_digest_of_roots(&rt, leaf_length as u32, wanted);
    }
}

// Leaves of the maximum length, with the longest salt and persona.
#[test]
fn root_of_one_longest_leaf(rt: HostRuntime) {
    let root = tree_root::<20>(b"0123456789abcdef", b"fedcba9876543210", u32::MAX, b"abc");
    check_digits(&rt, &root, "e48365e95438791be6e2a59b38f636c8bad1b703");
    let none: [u8; 0] = tree_root(b"", b"", 1, b"abc");
    assert!(rt; none == []);
}

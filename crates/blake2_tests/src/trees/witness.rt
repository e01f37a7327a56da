//! Witnesses of two messages with one root.

use super::step_of_root_over_digests;
use blake2::transcripts::Step;
use blake2_tree::{TreeWitness, tree_root, tree_witness};
use std::process::Abort;

// The digests of the only leaf of `a` and of `b`, in leaves of four bytes, from hashlib.
const LEAF_A: [u128; 4] = [
    0xdd206e533109e907ae7c0cf0ab50bdbb,
    0xb1a25921d9275613722b853530500cd8,
    0x38759b09972fc2f3c6d856c114cd242a,
    0x8ccf97d2eef4b7df5818637f13899986,
];

const LEAF_B: [u128; 4] = [
    0x778fd3917fd9deaf354037a7222ad928,
    0x62d0f02e28172b332825cda76ac3ce67,
    0xb3bb147ab60146d6d3cbf4f28ecb199d,
    0x83785d9204b1a4bc5b05ea47ce002fb7,
];

// The step of a root of no bytes over one leaf of four bytes or fewer.
fn step_of_root_over_one_leaf(leaf: [u128; 4]) -> Step<u64, 128> {
    let digest = leaf.map(|number| number.to_be_bytes());
    step_of_root_over_digests(0x6a09e663f1bcc908, digest.as_flattened())
}

// The witness of `a` and `b` in leaves of four bytes, at roots of no bytes, which are all equal:
// the steps of the roots.
pub(super) fn witness_of_a_and_b() -> TreeWitness {
    TreeWitness::Root(
        step_of_root_over_one_leaf(LEAF_A),
        step_of_root_over_one_leaf(LEAF_B),
    )
}

#[test]
fn witness_of_a_and_b_is_their_roots(rt: HostRuntime) {
    let found = tree_witness(rt.alloc(), &[], &[], 4, 0, b"a", b"b");
    assert!(rt; found == Ok(Some(witness_of_a_and_b())), "{found:?}");
}

// Checks that two messages have no witness at roots of this size, in leaves of four bytes.
fn check_no_witness(rt: &(impl Abort + AllocGlobal), size: usize, a: &[u8], b: &[u8]) {
    assert!(rt; size <= 64 && a.len() < 10 && b.len() < 10);
    let found = tree_witness(rt.alloc(), &[], &[], 4, size, a, b);
    assert!(rt; found == Ok(None), "{size}, {a:?}, {b:?}");
    let found = tree_witness(rt.alloc(), b"salt", b"persona", 4, size, a, b);
    assert!(rt; found == Ok(None), "{size}, {a:?}, {b:?}, salted");
}

// The same message has no witness, nor have messages whose roots differ.
#[test]
fn no_witness_of_same_or_other_root(rt: HostRuntime) {
    check_no_witness(&rt, 0, b"a", b"a");
    check_no_witness(&rt, 0, b"", b"");
    check_no_witness(&rt, 1, b"abcdefghi", b"abcdefghi");
    check_no_witness(&rt, 64, b"abcdefghi", b"abcdefghi");
    check_no_witness(&rt, 64, b"abcdefghi", b"abcdefghj");
    check_no_witness(&rt, 64, b"abcd", b"abcde");
    check_no_witness(&rt, 64, b"", b"\0");
    check_no_witness(&rt, 16, b"abcdefgh", b"abcdEfgh");
}

// Two of 257 messages have one root of one byte.
#[test]
fn witness_of_equal_1_byte_roots(rt: HostRuntime) {
    let mut pair = None;
    for i in 0..257u16 {
        let a = i.to_be_bytes();
        let root = tree_root::<1>(&[], &[], 4, &a);
        for j in 0..i {
            let b = j.to_be_bytes();
            if pair.is_none() && root == tree_root::<1>(&[], &[], 4, &b) {
                pair = Some((a, b));
            }
        }
    }
    let (a, b) = pair.expect(&rt, "no pair");
    let found = tree_witness(rt.alloc(), &[], &[], 4, 1, &a, &b);
    assert!(rt;
        matches!(found, Ok(Some(TreeWitness::Root(x, y))) if x != y),
        "{a:?} {b:?}"
    );
}

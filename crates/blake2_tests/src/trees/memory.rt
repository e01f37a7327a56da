//! Trees when memory is refused: a witness returns an error, or what it returns if there is
//! enough; a root needs none.

ghost use Rattle.std.specs.Prelude.{◌≤◌};

use super::witness::witness_of_a_and_b;
use super::{digest_of_node, step_of_root_over_digests};
use blake2::transcripts::Step;
use blake2_test_support::no_memory::{
    SPARE_BYTES, TRIES, allocate_all_memory_but, allocate_spare_bytes_but,
};
use blake2_tree::{TreeWitness, tree_root, tree_witness};
use std::alloc::{AllocError, Global};
use std::process::Abort;

// Two messages whose roots of no bytes are equal: `a` and `b`, of one leaf each, or 2,000 times
// these letters, of two leaves.
#[derive(Copy, Clone)]
enum Messages {
    OneLeaf,
    TwoLeaves,
}

// What `tree_witness` returns for them.
fn witness_of(alloc: Global, messages: Messages) -> Result<Option<TreeWitness>, AllocError> {
    match messages {
        Messages::OneLeaf => tree_witness(alloc, &[], &[], 4, 0, b"a", b"b"),
        Messages::TwoLeaves => {
            tree_witness(alloc, &[], &[], 1000, 0, &[b'a'; 2000], &[b'b'; 2000])
        }
    }
}

// What it returns for them with a number of bytes left by a hoard, and whether enough are granted
// then for the digests of one message's leaves.
fn witness_with_bytes_left(
    alloc: Global,
    messages: Messages,
    left: usize,
) -> Result<(Result<Option<TreeWitness>, AllocError>, bool), AllocError>
    requires { left ≤ 65536 }
{
    let plug = allocate_spare_bytes_but(alloc, left)?;
    let digest_bytes = match messages {
        Messages::OneLeaf => 64,
        Messages::TwoLeaves => 128,
    };
    let first: Result<Vec<u8>, AllocError> = Vec::with_capacity(alloc, digest_bytes);
    let first_fits = first.is_ok();
    drop(first);
    let found = witness_of(alloc, messages);
    drop(plug);
    Ok((found, first_fits))
}

// Requests the witness under a hoard, with 16 bytes more in each try. Returns the try after the
// last that was refused; whether one was refused whose first request would have been granted; and
// the first that is wrong: it returned another witness, or was refused after one that was not.
fn refusals_with_growing_memory(
    alloc: Global,
    messages: Messages,
    wanted: TreeWitness,
) -> Result<(usize, bool, Option<usize>), AllocError> {
    let mut refused = 0;
    let mut is_behind_the_first = false;
    let mut wrong = None;
    let hoard = allocate_all_memory_but(alloc, SPARE_BYTES)?;
    for tries in 0..TRIES {
        let (found, first_fits) = witness_with_bytes_left(alloc, messages, 16 * tries)?;
        let is_right = match found {
            Ok(found) => found == Some(wanted),
            Err(AllocError) => refused == tries,
        };
        if found.is_err() {
            refused = tries + 1;
            is_behind_the_first = is_behind_the_first || first_fits;
        }
        if !is_right && wrong.is_none() {
            wrong = Some(tries);
        }
    }
    drop(hoard);
    Ok((refused, is_behind_the_first, wrong))
}

// Checks that `tree_witness` returns the error for the messages until no request is refused, and
// then this. Some refusals come after the first request, which a control makes too.
fn check_refusals_until_enough_memory(
    rt: &(impl Abort + AllocGlobal),
    messages: Messages,
    wanted: TreeWitness,
) {
    assert!(rt; witness_of(rt.alloc(), messages) == Ok(Some(wanted)));
    let found = refusals_with_growing_memory(rt.alloc(), messages, wanted).expect(
        rt,
        "room for the hoard",
    );
    let (refused, is_behind_the_first, wrong) = found;
    assert!(rt; wrong.is_none(), "{wrong:?}");
    assert!(rt; 0 < refused && refused < TRIES, "{refused}");
    assert!(rt; is_behind_the_first, "{refused}");
}

#[test]
fn witness_of_a_and_b_errs_without_memory(rt: HostRuntime) {
    check_refusals_until_enough_memory(&rt, Messages::OneLeaf, witness_of_a_and_b());
}

// The step of a root of no bytes over 2,000 times a letter, in leaves of 1,000 bytes.
fn step_over_2000_letters(letter: u8) -> Step<u64, 128> {
    let leaf = [letter; 1000];
    let first = digest_of_node(1000, 0, 0, false, &leaf);
    let last = digest_of_node(1000, 1, 0, true, &leaf);
    step_of_root_over_digests(0x6a09e58ff1bcc908, [first, last].as_flattened())
}

// A witness requests the 64 bytes of a leaf's digest, and not more for a longer leaf: so it has
// enough under a budget that is far below 64 bytes for each byte of the messages.
#[test]
fn witness_of_long_leaves_needs_few_bytes(rt: HostRuntime) {
    let wanted = TreeWitness::Root(step_over_2000_letters(b'a'), step_over_2000_letters(b'b'));
    check_refusals_until_enough_memory(&rt, Messages::TwoLeaves, wanted);
}

// The steps of the roots that a witness has.
fn steps_of_witness(
    rt: &impl Abort,
    found: Result<Option<TreeWitness>, AllocError>,
) -> (Step<u64, 128>, Step<u64, 128>) {
    match found {
        Ok(Some(TreeWitness::Root(x, y))) => (x, y),
        _ => panic!(rt; "no pair of roots"),
    }
}

// If there is memory, a witness of messages of more than 4,096 leaves, whose last ones differ.
#[test]
fn witness_of_more_than_4096_leaves(rt: HostRuntime) {
    let a = [0; 4100];
    let mut b = a;
    b[4099] = 1;
    let (x, y) = steps_of_witness(&rt, tree_witness(rt.alloc(), &[], &[], 1, 0, &a, &b));
    assert!(rt; x.last && x.counter == 64 * 4100 && y.counter == 64 * 4100);
    assert!(rt; x.block[..64] == y.block[..64]);
    assert!(rt; x.block[64..] != y.block[64..]);
}

// The same messages have none at roots of 64 bytes, nor has one of them with itself.
#[test]
fn no_witness_of_many_leaves_at_64_bytes(rt: HostRuntime) {
    let a = [0; 4100];
    let mut b = a;
    b[4099] = 1;
    assert!(rt; tree_witness(rt.alloc(), &[], &[], 1, 64, &a, &a) == Ok(None));
    assert!(rt; tree_witness(rt.alloc(), &[], &[], 1, 64, &a, &b) == Ok(None));
}

// The root of a message of seven leaves.
fn root_of_seven_leaves() -> [u8; 64] {
    tree_root::<64>(b"salt", b"persona", 4, b"abcdefghijklmnopqrstuvwxyz")
}

// That root under a hoard, and whether a byte is granted then.
fn root_under_hoarded_memory(alloc: Global) -> Result<([u8; 64], bool), AllocError> {
    let hoard = allocate_all_memory_but(alloc, SPARE_BYTES)?;
    let plug = allocate_spare_bytes_but(alloc, 0)?;
    let one_byte: Result<Vec<u8>, AllocError> = Vec::with_capacity(alloc, 1);
    let root = root_of_seven_leaves();
    drop(plug);
    drop(hoard);
    Ok((root, one_byte.is_ok()))
}

#[test]
fn root_needs_no_memory(rt: HostRuntime) {
    let wanted = root_of_seven_leaves();
    let found = root_under_hoarded_memory(rt.alloc());
    let (root, is_granted) = found.expect(&rt, "room for the hoard");
    assert!(rt; !is_granted);
    assert!(rt; root == wanted);
}

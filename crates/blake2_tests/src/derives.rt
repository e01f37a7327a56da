//! The derives of plain values: copies and clones are equal to them, and other values are not.

use blake2::calls::{Call, ReplayFault};
use blake2::digest::{InvalidLength, InvalidOutputSize, Lazy, MacError, TruncSide};
use blake2::rows::{u32x4, u64x4};
use blake2::streams::{DeviceError, StreamFault};
use blake2::transcripts::{Entry, Input, Reading, Step, Tree};
use blake2_test_support::inputs::{entry, input, reading, step, transcript, unkeyed};
use blake2_tree::TreeWitness;
use std::alloc::AllocError;
use std::fmt;
use std::process::Abort;

// Checks that each value is equal only to itself.
fn check_values_are_all_different<T: Eq>(rt: &impl Abort, values: &[T]) {
    for (i, value) in values.iter().enumerate() {
        for (j, other) in values.iter().enumerate() {
            assert!(rt; (value == other) == (i == j), "{i} {j}");
        }
    }
}

// Checks that `Debug` writes this of the value.
fn check_debug<T: fmt::Debug>(rt: &(impl Abort + AllocGlobal), value: &T, wanted: &str) {
    let text = format!(in rt.alloc(); "{value:?}").expect(rt, wanted);
    assert!(rt; text.as_str() == wanted, "{text} in place of {wanted}");
}

// Checks the copies and clones of values, no two of which are equal.
fn check_copies_are_equal<T: Copy + Eq>(rt: &impl Abort, values: &[T]) {
    check_values_are_all_different(rt, values);
    for (i, value) in values.iter().enumerate() {
        let copy = *value;
        let clone: Result<T, AllocError> = value.clone();
        assert!(rt; copy == *value && clone == Ok(*value), "{i}");
    }
}

// Checks that what `Debug` writes of the value begins with its name.
fn check_debug_begins_with<T: fmt::Debug>(rt: &(impl Abort + AllocGlobal), value: &T, name: &str) {
    let text = format!(in rt.alloc(); "{value:?}").expect(rt, name);
    assert!(rt;
        text.as_str().starts_with(name),
        "{text} in place of {name}"
    );
}

const STREAM_FAULTS: [StreamFault; 3] = [
    StreamFault::Read,
    StreamFault::TooLong,
    StreamFault::Write,
];

const REPLAY_FAULTS: [ReplayFault; 4] = [
    ReplayFault::NoSuchSlot(1),
    ReplayFault::NoSuchSlot(2),
    ReplayFault::TooLong(1),
    ReplayFault::Memory,
];

#[test]
fn faults_copy_and_compare(rt: HostRuntime) {
    check_copies_are_equal(&rt, &[InvalidOutputSize]);
    check_copies_are_equal(&rt, &[InvalidLength]);
    check_copies_are_equal(&rt, &[MacError]);
    check_copies_are_equal(&rt, &[DeviceError]);
    check_copies_are_equal(&rt, &[Lazy]);
    check_copies_are_equal(&rt, &[TruncSide::Left, TruncSide::Right]);
    check_copies_are_equal(&rt, &STREAM_FAULTS);
    check_copies_are_equal(&rt, &REPLAY_FAULTS);
}

#[test]
fn debug_of_faults(rt: HostRuntime) {
    let faults = (DeviceError, STREAM_FAULTS, REPLAY_FAULTS);
    let wanted = "(DeviceError, [Read, TooLong, Write], \
                  [NoSuchSlot(1), NoSuchSlot(2), TooLong(1), Memory])";
    check_debug(&rt, &faults, wanted);
    let faults = (
        InvalidOutputSize,
        InvalidLength,
        MacError,
        Lazy,
        TruncSide::Left,
    );
    let wanted = "(InvalidOutputSize, InvalidLength, MacError, Lazy, Left)";
    check_debug(&rt, &faults, wanted);
}

#[test]
fn entries_copy_and_compare(rt: HostRuntime) {
    let first = entry(b"a", 1, true);
    let entries: [Entry<64>; 5] = [
        first,
        entry(b"b", 1, true),
        entry(b"a", 2, true),
        entry(b"a", 1, false),
        Entry {
            last_node: true,
            ..first
        },
    ];
    check_copies_are_equal(&rt, &entries);
}

#[test]
fn steps_copy_and_compare(rt: HostRuntime) {
    let chain = [1, 2, 3, 4, 5, 6, 7, 8];
    let last = step(chain, &[9; 128], 10, true);
    let steps: [Step<u64, 128>; 6] = [
        step(chain, &[9; 128], 10, false),
        step([1, 2, 3, 4, 5, 6, 7, 9], &[9; 128], 10, false),
        step(chain, &[9; 127], 10, false),
        step(chain, &[9; 128], 11, false),
        last,
        Step {
            last_node: true,
            ..last
        },
    ];
    check_copies_are_equal(&rt, &steps);
}

// Two steps that differ in their blocks.
fn two_steps() -> [Step<u64, 128>; 2] {
    let chain = [1, 2, 3, 4, 5, 6, 7, 8];
    [
        step(chain, &[9; 128], 10, true),
        step(chain, &[9; 127], 10, true),
    ]
}

#[test]
fn tree_witnesses_copy_and_compare(rt: HostRuntime) {
    let [x, y] = two_steps();
    check_copies_are_equal(
        &rt,
        &[
            TreeWitness::Root(x, y),
            TreeWitness::Root(y, x),
            TreeWitness::Root(x, x),
            TreeWitness::Leaf(0, x, y),
        ],
    );
    check_copies_are_equal(
        &rt,
        &[
            TreeWitness::Leaf(0, x, y),
            TreeWitness::Leaf(0, y, x),
            TreeWitness::Leaf(0, x, x),
            TreeWitness::Leaf(1, x, y),
        ],
    );
}

#[test]
fn debug_of_witnesses_and_trees(rt: HostRuntime) {
    let [x, y] = two_steps();
    check_debug_begins_with(&rt, &TreeWitness::Root(x, y), "Root(Step");
    check_debug_begins_with(&rt, &TreeWitness::Leaf(7, x, y), "Leaf(7, Step");
    check_debug_begins_with(&rt, &Tree::sequential(), "Tree");
}

// Tree parameters, each of which differs from the first in one number at most.
fn trees_with_one_number_changed() -> [Tree; 7] {
    let whole = Tree::sequential();
    [
        whole,
        Tree { fanout: 2, ..whole },
        Tree { depth: 2, ..whole },
        Tree {
            leaf_length: 1,
            ..whole
        },
        Tree {
            node_offset: 1,
            ..whole
        },
        Tree {
            node_depth: 1,
            ..whole
        },
        Tree {
            inner_length: 1,
            ..whole
        },
    ]
}

#[test]
fn trees_copy_and_compare(rt: HostRuntime) {
    check_copies_are_equal(&rt, &trees_with_one_number_changed());
}

#[test]
fn lanes_copy_and_compare(rt: HostRuntime) {
    let row = u64x4::new(1, 2, 3, 4);
    let copy = row;
    assert!(rt; copy.to_bytes() == row.to_bytes());
    assert!(rt; matches!(row.clone(), Ok(clone) if clone.to_bytes() == row.to_bytes()));
    let row = u32x4::new(1, 2, 3, 4);
    let copy = row;
    assert!(rt; copy.to_bytes() == row.to_bytes());
    assert!(rt; matches!(row.clone(), Ok(clone) if clone.to_bytes() == row.to_bytes()));
}

#[test]
fn calls_copy_and_compare(rt: HostRuntime) {
    let call = Call::Update(7, b"abc");
    let copy = call;
    assert!(rt; matches!(copy, Call::Update(7, b"abc")));
    assert!(rt; matches!(call.clone(), Ok(Call::Update(7, b"abc"))));
}

// Whether the input has the parts of the one that `inputs_copy_and_keep_their_parts` copies.
fn has_parts_of_copied_input(input: &Input<'_>) -> bool {
    matches!(input.key, Some(key) if key == b"key".as_slice())
        && input.salt == b"salt".as_slice()
        && input.persona == b"persona".as_slice()
        && input.message == b"message".as_slice()
        && input.tree.node_offset == 1
        && input.last_node
}

#[test]
fn inputs_copy_and_keep_their_parts(rt: HostRuntime) {
    let given = Input {
        tree: Tree {
            node_offset: 1,
            ..Tree::sequential()
        },
        last_node: true,
        ..input(Some(b"key"), b"salt", b"persona", b"message")
    };
    let copy = given;
    assert!(rt; has_parts_of_copied_input(&given));
    assert!(rt; has_parts_of_copied_input(&copy));
    assert!(rt; matches!(given.clone(), Ok(clone) if has_parts_of_copied_input(&clone)));
}

#[test]
fn transcripts_compare_and_clone(rt: HostRuntime) {
    let words = [1u32, 2, 3, 4, 5, 6, 7, 8];
    let entries: [Entry<64>; 2] = [entry(b"a", 64, false), entry(b"b", 65, true)];
    let mut transcripts = Vec::new(rt.alloc());
    for (words, entries) in [
        (words, &entries[..]),
        ([1, 2, 3, 4, 5, 6, 7, 9], &entries),
        (words, &entries[..1]),
        (words, &[entries[1], entries[0]]),
    ] {
        let told = transcript(rt.alloc(), words, entries).expect(&rt, "room for entries");
        transcripts.push(told).expect(&rt, "room for a transcript");
    }
    check_values_are_all_different(&rt, transcripts.as_slice());
}

#[test]
fn readings_compare_and_clone(rt: HostRuntime) {
    let whole = unkeyed(b"message");
    let tree = Tree {
        node_depth: 1,
        ..Tree::sequential()
    };
    let mut readings: Vec<Reading<8>> = Vec::new(rt.alloc());
    for (given, output_size) in [
        (whole, 32),
        (whole, 31),
        (unkeyed(b"messages"), 32),
        (input(None, b"salt", b"", b"message"), 32),
        (input(None, b"", b"persona", b"message"), 32),
        (input(Some(&[0]), b"", b"", b"message"), 32),
        (Input { tree, ..whole }, 32),
        (
            Input {
                last_node: true,
                ..whole
            },
            32,
        ),
    ] {
        assert!(rt; given.salt.len() <= 8 && given.persona.len() <= 8);
        let read = reading(rt.alloc(), &given, output_size).expect(&rt, "room for its parts");
        readings.push(read).expect(&rt, "room for a reading");
    }
    check_values_are_all_different(&rt, readings.as_slice());
}

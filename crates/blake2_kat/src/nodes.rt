//! Nodes of trees (the BLAKE2 document, 2.10): their digests and transcripts, what transcripts are
//! read as, and their witnesses. The digests over lists of 64 nodes are those of
//! `tests/expected_values.py`, under `nodes`.

ghost use Rattle.std.specs.Prelude.{◌≤◌};

use crate::checks::{check_digest_of, transcript};
use crate::families::Word;
use blake2::Blake2bVarCore;
use blake2::transcripts::{Entry, Input, Step, Transcript, Tree};
use blake2_test_support::inputs::{
    blake2b_last_step, entry, fill_with_counting_bytes, input, unkeyed,
};
use std::process::Abort;

// The tree parameters of the node with this number among 64, if node offsets have 64 bits less
// `shift`, and outputs at most `longest` bytes.
fn tree_node_parameters(number: u8, shift: u32, longest: u32) -> Tree {
    Tree {
        fanout: number.wrapping_mul(37),
        depth: (1 + number as u32 * 11 % 255) as u8,
        leaf_length: (number as u32).wrapping_mul(0x9e3779b1),
        node_offset: (number as u64).wrapping_mul(0x9e3779b97f4a7c15) >> shift % 64,
        node_depth: number.wrapping_mul(5),
        inner_length: (number as u32 % longest.saturating_add(1).max(1)) as u8,
    }
}

// Adds some bytes.
fn append_bytes(rt: &impl Abort, bytes: &mut Vec<u8>, more: &[u8]) {
    bytes.extend_from_slice(more).expect(rt, "room for them");
}

// Adds the counter, the two flags and the block of each entry.
fn append_entries<const B: usize>(rt: &impl Abort, bytes: &mut Vec<u8>, entries: &[Entry<B>]) {
    for entry in entries {
        let counter = entry.counter.to_le_bytes();
        let flags = [u8::from(entry.last), u8::from(entry.last_node)];
        for piece in [counter.as_slice(), &flags, &entry.block] {
            append_bytes(rt, bytes, piece);
        }
    }
}

// Adds the digest of a node, and the words and the entries of its transcript, and checks that this
// is read as the node.
fn append_node_and_its_transcript<W: Word<B>, const B: usize>(
    rt: &(impl Abort + AllocGlobal),
    node: &Input<'_>,
    told: &Transcript<W, B>,
    output_size: usize,
    outputs: &mut Vec<u8>,
    transcripts: &mut Vec<u8>,
)
    requires { B ≤ 128 }
{
    append_bytes(rt, outputs, W::digest(rt, node).as_slice());
    for word in told.words {
        append_bytes(rt, transcripts, &word.to_bytes()[..B / 16]);
    }
    append_entries(rt, transcripts, told.entries.as_slice());
    let is_read = W::is_read_as(rt, told, node, output_size);
    assert!(rt; is_read, "{} bytes", node.message.len());
}

// The node with this number and these tree parameters, whose salt and persona have fewer than
// `texts` bytes.
fn node_input<'a>(bytes: &'a [u8; 320], number: u8, tree: Tree, texts: usize) -> Input<'a>
    requires number { number ≤ 63 }
    requires least { 1 ≤ texts }
    requires most { texts ≤ 17 }
{
    let i = number as usize;
    let (salt, persona) = (&bytes[..i % texts], &bytes[..2 * i % texts]);
    Input {
        tree,
        last_node: i % 3 == 0,
        ..input(None, salt, persona, &bytes[..5 * i])
    }
}

#[test]
fn blake2b_nodes_and_their_transcripts(rt: HostRuntime) {
    let mut bytes = [0; 320];
    fill_with_counting_bytes(&mut bytes);
    let (mut outputs, mut transcripts) = (Vec::new(rt.alloc()), Vec::new(rt.alloc()));
    for number in 0..64u8 {
        let node = node_input(&bytes, number, tree_node_parameters(number, 0, 64), 17);
        let told = u64::transcript_of_accepted(&rt, &node, 64);
        append_node_and_its_transcript(&rt, &node, &told, 64, &mut outputs, &mut transcripts);
    }
    let wanted = "743494e239b845379ce3db0c03d9c6c6828864db7264aedb66b4fa41ec51901d";
    check_digest_of(&rt, outputs.as_slice(), wanted);
    let wanted = "9dc50af7ecb732cdb106a820c118ee976b365e5733a15eb5a95d514e6236a0db";
    check_digest_of(&rt, transcripts.as_slice(), wanted);
}

#[test]
fn blake2s_nodes_and_their_transcripts(rt: HostRuntime) {
    let mut bytes = [0; 320];
    fill_with_counting_bytes(&mut bytes);
    let (mut outputs, mut transcripts) = (Vec::new(rt.alloc()), Vec::new(rt.alloc()));
    for number in 0..64u8 {
        let node = node_input(&bytes, number, tree_node_parameters(number, 16, 32), 9);
        let told = u32::transcript_of_accepted(&rt, &node, 32);
        append_node_and_its_transcript(&rt, &node, &told, 32, &mut outputs, &mut transcripts);
    }
    let wanted = "d2d1ec99c81c273452aa7241f907a5dabf6cc3a797c4fef5894148c7d8a4194a";
    check_digest_of(&rt, outputs.as_slice(), wanted);
    let wanted = "2aa6df9354f3469b353a468efcf02435da6adc234e18c1d3efe639626d6a8b13";
    check_digest_of(&rt, transcripts.as_slice(), wanted);
}

// Tree parameters of depth 1 with this fanout, leaf length, node offset, node depth and inner
// length.
fn tree_of_depth_1(
    fanout: u8,
    leaf_length: u32,
    node_offset: u64,
    node_depth: u8,
    inner_length: u8,
) -> Tree {
    Tree {
        fanout,
        depth: 1,
        leaf_length,
        node_offset,
        node_depth,
        inner_length,
    }
}

// Whether BLAKE2b reads the transcript of these words and entries as this input at its maximum
// size, or as none.
fn blake2b_reads_only_as(
    rt: &(impl Abort + AllocGlobal),
    words: [u64; 8],
    entries: &[Entry<128>],
    wanted: Option<Input<'_>>,
) -> bool {
    let told = transcript(rt, words, entries);
    match wanted {
        Some(input) => u64::is_read_as(rt, &told, &input, 64),
        None => Blake2bVarCore::read_transcript(rt.alloc(), &told) == Ok(None),
    }
}

#[test]
fn transcripts_are_read_at_their_tree_place(rt: HostRuntime) {
    let block = [0x2a; 128];
    for (place, word, tree) in [
        (2, 0x10000, None),
        (2, 0x4100, None),
        (3, 1, None),
        (0, 0x00010040, None),
        (2, 0x4001, Some(tree_of_depth_1(1, 0, 0, 1, 64))),
        (0, 0x01000040, Some(tree_of_depth_1(0, 0, 0, 0, 0))),
        (1, 1, Some(tree_of_depth_1(1, 0, 1, 0, 0))),
        (0, 0x0000000701010040, Some(tree_of_depth_1(1, 7, 0, 0, 0))),
    ] {
        let mut words = [0x01010040, 0, 0, 0, 0, 0, 0, 0];
        words[place] = word;
        let entries = [entry(&block, 128, true)];
        let wanted = match tree {
            Some(tree) => Some(Input {
                tree,
                ..unkeyed(&block)
            }),
            None => None,
        };
        let is_read = blake2b_reads_only_as(&rt, words, &entries, wanted);
        assert!(rt; is_read, "{place} {word:x}");
    }
}

#[test]
fn last_node_flag_is_read_from_transcripts(rt: HostRuntime) {
    let message = [0x2a; 129];
    let words = [0x01010040, 0, 0, 0, 0, 0, 0, 0];
    for (first, second) in [(false, false), (false, true), (true, false), (true, true)] {
        let entries = [
            Entry {
                last_node: first,
                ..entry(&message[..128], 128, false)
            },
            Entry {
                last_node: second,
                ..entry(&message[128..], 129, true)
            },
        ];
        let input = Input {
            last_node: second,
            ..unkeyed(&message)
        };
        let wanted = if first { None } else { Some(input) };
        let is_read = blake2b_reads_only_as(&rt, words, &entries, wanted);
        assert!(rt; is_read, "{first} {second}");
    }
}

// The flag of the only entry, over no message, one of a byte and one of a block.
#[test]
fn last_node_flag_is_read_from_one_entry(rt: HostRuntime) {
    let message = [0x2a; 128];
    let words = [0x01010040, 0, 0, 0, 0, 0, 0, 0];
    for (length, last_node) in [
        (0, true),
        (0, false),
        (1, true),
        (1, false),
        (128, true),
        (128, false),
    ] {
        let message = &message[..length];
        let told = Entry {
            last_node,
            ..entry(message, length as u64, true)
        };
        let input = Input {
            last_node,
            ..unkeyed(message)
        };
        let is_read = blake2b_reads_only_as(&rt, words, &[told], Some(input));
        assert!(rt; is_read, "{length} {last_node}");
    }
}

// The last step of BLAKE2b over `a` at the size 0, from the start words of this node offset.
fn last_step_over_a(node_offset: u64, last_node: bool) -> Step<u64, 128> {
    let mut last = blake2b_last_step(0x6a09e667f2bdc908, b"a", 1);
    last.chain[1] ^= node_offset;
    Step { last_node, ..last }
}

#[test]
fn witness_differs_by_node(rt: HostRuntime) {
    let alloc = rt.alloc();
    let a = unkeyed(b"a");
    for (node_offset, last_node) in [(0, true), (1, false), (1, true)] {
        let tree = Tree {
            node_offset,
            ..Tree::sequential()
        };
        let b = Input {
            tree,
            last_node,
            ..a
        };
        assert!(rt; Blake2bVarCore::accepts(&a) && Blake2bVarCore::accepts(&b));
        let x = last_step_over_a(0, false);
        let y = last_step_over_a(node_offset, last_node);
        let found = Blake2bVarCore::witness(alloc, &a, &b, 0);
        assert!(rt; found == Ok(Some((x, y))), "{node_offset} {last_node}");
        for (a, b, output_size) in [(a, b, 64), (b, b, 0)] {
            let found = Blake2bVarCore::witness(alloc, &a, &b, output_size);
            assert!(rt;
                matches!(found, Ok(None)),
                "{node_offset} {last_node} {output_size}"
            );
        }
    }
}

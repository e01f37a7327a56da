//! Two messages with one root.

ghost use Rattle.std.specs.Prelude.{◌^◌, ◌<◌, ◌≤◌, ◌↔◌, length, IfOk, IfSome, IsSome};
ghost use Rattle.blake2_tree.specs.TreeRoot.{tree_parameters};
ghost use Rattle.blake2_tree.specs.TreeWitnesses.{RootsCollide, IsTreeWitness};

use crate::nodes::Nodes;
use blake2::Blake2bVarCore;
use blake2::laws::pieces::first_difference;
use blake2::transcripts::Step;
use std::alloc::{AllocError, Global};

/// What two different messages with one root come to: two different compressions, one of each
/// message's tree, whose outputs agree.
#[derive(Clone, Copy, Debug, PartialEq, Eq)]
pub enum TreeWitness {
    /// A step of each root. The digests of the leaves differ.
    Root(Step<u64, 128>, Step<u64, 128>),
    /// The index, from 0, of the first leaf that differs, and a step of each of its two digests.
    /// The digests of the leaves are equal.
    Leaf(u64, Step<u64, 128>, Step<u64, 128>),
}

/// Returns the witness of a collision of roots. For two different messages whose roots of
/// `output_size` bytes, at most 64, are equal, it has a differing step of each root if their
/// leaves' digests differ; otherwise it has the first leaf that differs and a differing step of
/// each of its two digests. The result is `None` if the messages are the same or the roots
/// differ. The error is `AllocError`, if an allocation fails: the call keeps the digests of all
/// leaves.
///
/// Salt and persona have at most 16 bytes each, a leaf has `leaf_length` bytes, 1 to 2^32 - 1,
/// and each message fewer than 2^58.
pub fn tree_witness(
    alloc: Global,
    salt: &[u8],
    persona: &[u8],
    leaf_length: u32,
    output_size: usize,
    a: &[u8],
    b: &[u8],
) -> Result<Option<TreeWitness>, AllocError>
    requires salt { length salt.now ≤ 16 }
    requires persona { length persona.now ≤ 16 }
    requires leaf_length { 1 ≤ leaf_length }
    requires output_size { output_size ≤ 64 }
    requires a { length a.now < 2 ^ 58 }
    requires b { length b.now < 2 ^ 58 }
    ensures some { IfOk result (λ witness. IsSome witness ↔ RootsCollide output_size
        (tree_parameters salt.now persona.now leaf_length) a.now b.now) }
    ensures witness { IfOk result (λ witness. IfSome witness (IsTreeWitness output_size
        (tree_parameters salt.now persona.now leaf_length) a.now b.now)) }
{
    let nodes = Nodes::new(salt, persona, leaf_length);
    let digests_a = nodes.leaf_digests(alloc, a)?;
    let digests_b = nodes.leaf_digests(alloc, b)?;
    if digests_a != digests_b {
        let root_a = nodes.root(&digests_a);
        let root_b = nodes.root(&digests_b);
        let pair = Blake2bVarCore::witness(alloc, &root_a, &root_b, output_size)?;
        return Ok(pair.map(|(x, y)| TreeWitness::Root(x, y)));
    }
    let Some(i) = first_difference(leaf_length as usize, a, b) else {
        return Ok(None);
    };
    let leaf_a = nodes.leaf(a, i);
    let leaf_b = nodes.leaf(b, i);
    let pair = Blake2bVarCore::witness(alloc, &leaf_a, &leaf_b, 64)?;
    Ok(pair.map(|(x, y)| TreeWitness::Leaf(i as u64, x, y)))
}

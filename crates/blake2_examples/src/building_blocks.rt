//! Callers of the parts that the hash functions are made of, and of what runs them.

ghost use Rattle.std.specs.Prelude.{◌≡◌, ◌⊎◌, true, [], None, Ok, Err, IfOk, IfErr};
ghost use Rattle.blake2_simd.specs.Family.{blake2b};
ghost use Rattle.blake2_simd.specs.Rows.{lane_sums, lane_rotations};
ghost use Rattle.blake2_compress.specs.Hash.{AdmitsTree, compress, start, inner, Fits};
ghost use Rattle.blake2_compress.specs.Views.{given_parameters, tree_of};
ghost use Rattle.blake2_replay.specs.Play.{play_fresh};
ghost use Rattle.blake2.specs.States.{digest_of, node_digest_of};

use blake2::calls::{Call, ReplayFault, replay};
use blake2::digest::{Digest, LastNode};
use blake2::{Blake2b512, Tree};
use blake2_compress::compress::{Flags, blake2b as words};
use blake2_compress::params::{Parameters, blake2b as params};
use blake2_simd::rows::u64x4;
use std::alloc::Global;

/// Returns the sums of the lanes, each rotated to the right by 24 bits.
pub fn add_and_rotate(a: u64x4, b: u64x4) -> u64x4
    ensures { result ≡ lane_rotations blake2b (lane_sums blake2b a b) 24 }
{
    (a + b).rotate_right_const(24)
}

/// Returns the chaining words under these parameters after a first block that others follow.
pub fn after_first_block(parameters: &Parameters<'_>, block: &[u8; 128]) -> [u64; 8]
    requires { Fits blake2b (given_parameters parameters.now) }
    ensures { result
        ≡ compress blake2b (start blake2b (given_parameters parameters.now)) block.now 128 inner }
{
    let mut h = params::start_words(parameters);
    words::compress_words(&mut h, block, 128, Flags::INNER);
    h
}

/// Returns the digests of a list of calls on a new hasher.
pub fn digests_of_calls(alloc: Global, calls: &[Call<'_>]) -> Result<Vec<[u8; 64]>, ReplayFault>
    ensures { IfOk result (λ digests. play_fresh (digest_of blake2b 64 [] [] None) 0 calls.now
        ≡ Ok digests.items) }
{
    replay(alloc, Blake2b512::new(), calls)
}

/// Returns the digests of a list of calls on a hasher of the node with these tree parameters, the
/// last of its level: each under the last-node flag, which no call of a list changes.
pub fn digests_of_last_node(
    alloc: Global,
    tree: &Tree,
    calls: &[Call<'_>],
) -> Result<Vec<[u8; 64]>, ReplayFault>
    requires { AdmitsTree blake2b (tree_of tree.now) }
    ensures digests { let digest = node_digest_of blake2b 64 [] [] None (tree_of tree.now) true in
        IfOk result (λ digests. play_fresh digest 0 calls.now ≡ Ok digests.items) }
    ensures fault { let digest = node_digest_of blake2b 64 [] [] None (tree_of tree.now) true in
        IfErr result (λ fault.
        (fault ≡ ReplayFault.Memory) ⊎ (play_fresh digest 0 calls.now ≡ Err fault)) }
{
    let mut hasher = Blake2b512::new_with_tree(b"", b"", tree);
    hasher.set_last_node(true);
    replay(alloc, hasher, calls)
}

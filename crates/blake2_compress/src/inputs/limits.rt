//! The lengths of an input's parts, for a family of any sizes.

ghost use Rattle.std.specs.Prelude.{◌≡◌, ◌<◌, ◌≤◌, ◌^◌, ◌↔◌, length, IsTrue, Some};
ghost use Rattle.blake2_simd.specs.Family.{Family, block_bytes, key_bytes, salt_bytes};
ghost use Rattle.blake2_compress.specs.Hash.{AdmitsTree, AreBytes, data_bytes};
ghost use Rattle.blake2_compress.specs.Inputs.{Accepts, KeyFits};
ghost use Rattle.blake2_compress.specs.Views.{input_of, key_of, tree_of};

use super::Input;

// Whether there are at most `most` bytes. That they are bytes is what their type says.
fn fits(text: &[u8], most: usize) -> bool
    ensures within { IsTrue result ↔ (length text.now ≤ most) }
    ensures bytes { AreBytes text.now }
{
    text.len() <= most
}

// Whether the key has 1 to K bytes, and a block of B bytes with the message is counted in 64
// bits.
fn given_key_fits<const B: usize, const K: usize>(key: &[u8], message: &[u8]) -> bool
    ghost f: { Family }
    requires block { block_bytes f ≡ B }
    requires key { key_bytes f ≡ K }
    ensures { IsTrue result
        ↔ KeyFits f (Some key.now) × (length (data_bytes f (Some key.now) message.now) < 2 ^ 64) }
{
    let key_within = fits(key, K);
    if key.is_empty() || !key_within {
        return false;
    }
    fits(message, usize::MAX - B)
}

// Whether the key is absent or has 1 to K bytes, and the data is counted in 64 bits. That the
// message consists of bytes is what its type says.
#[tactic(auto, unfolding(crate::specs::Hash::key_block))]
fn key_fits<const B: usize, const K: usize>(key: &Option<&[u8]>, message: &[u8]) -> bool
    ghost f: { Family }
    requires block { block_bytes f ≡ B }
    requires key { key_bytes f ≡ K }
    ensures within { IsTrue result ↔ KeyFits f (key_of key.now)
        × (length (data_bytes f (key_of key.now) message.now) < 2 ^ 64) }
    ensures bytes { AreBytes message.now }
{
    match *key {
        None => true,
        Some(key) => given_key_fits::<B, K>(key, message),
    }
}

// Whether a family with blocks of B, keys of K and salts of S bytes accepts the input, if
// `takes_tree` says whether it accepts the tree.
pub(crate) fn accepts<const B: usize, const K: usize, const S: usize>(
    input: &Input<'_>,
    takes_tree: bool,
) -> bool
    ghost f: { Family }
    requires block { block_bytes f ≡ B }
    requires key { key_bytes f ≡ K }
    requires salt { salt_bytes f ≡ S }
    requires tree { IsTrue takes_tree ↔ AdmitsTree f (tree_of input.now.tree) }
    ensures { IsTrue result ↔ Accepts f (input_of input.now) }
{
    let salt_fits = fits(input.salt, S);
    let persona_fits = fits(input.persona, S);
    let key_fits = key_fits::<B, K>(&input.key, input.message);
    salt_fits && persona_fits && key_fits && takes_tree
}

//! Whether two inputs are the same, for salts of any length.

ghost use Rattle.std.specs.Prelude.{◌≡◌, ◌↔◌, IsTrue};
ghost use Rattle.blake2_simd.specs.Family.{Family, salt_bytes};
ghost use Rattle.blake2_compress.specs.Inputs.{Accepts, SameUpToTrailingZeros};
ghost use Rattle.blake2_compress.specs.Views.{input_of};

use blake2_compress::inputs::Input;
use blake2_simd::padded;

// Whether salts and personas, with zeros up to S bytes, keys, trees, last-node flags and messages
// are equal.
pub(crate) fn are_same_inputs<const S: usize>(a: &Input<'_>, b: &Input<'_>) -> bool
    ghost f: { Family }
    requires salt { salt_bytes f ≡ S }
    requires a { Accepts f (input_of a.now) }
    requires b { Accepts f (input_of b.now) }
    ensures { IsTrue result ↔ SameUpToTrailingZeros f (input_of a.now) (input_of b.now) }
{
    let same_salts = padded::<S>(a.salt) == padded::<S>(b.salt);
    let same_personas = padded::<S>(a.persona) == padded::<S>(b.persona);
    let same_keys = a.key == b.key;
    let same_trees = a.tree == b.tree;
    let same_flags = a.last_node == b.last_node;
    let same_messages = a.message == b.message;
    same_salts && same_personas && same_keys && same_trees && same_flags && same_messages
}

//! The compression of both families over rows of four words, and the rows as words and bytes
//! (RFC 7693, 2.4 and 3.2).

pub mod blake2b;
pub mod blake2s;

ghost use Rattle.std.specs.Prelude.{◌≡◌};
ghost use Rattle.blake2_compress.specs.Hash.{final};
ghost use Rattle.blake2_compress.specs.Views.{given_flags};

/// The flags of a compression (RFC 7693, 3.2; the BLAKE2 document, 2.10).
#[derive(Clone, Copy)]
pub struct Flags {
    /// The final flag: no block follows.
    pub last: bool,
    /// The last-node flag: no block follows, and no other node on this level of the tree.
    pub last_node: bool,
}

impl Flags {
    /// The flags of a block that others follow.
    pub const INNER: Self = Flags {
        last: false,
        last_node: false,
    };

    /// Returns the flags of the last block. `last_node` says whether its node is the last on its
    /// level of a tree.
    #[inline(always)]
    pub fn last_block(last_node: bool) -> Self
        ensures { given_flags result ≡ final last_node }
    {
        Flags {
            last: true,
            last_node,
        }
    }
}

//! The tree's numbers, and the best length for the pieces of a message.

ghost use Rattle.std.specs.Prelude.{◌≡◌, ℕ, ◌+◌, ◌*◌, ◌^◌, ◌<◌, ◌≤◌, ◌↔◌, ◌⊎◌, IsTrue};
ghost use Rattle.blake2_tree.specs.PieceLengths.{best_piece_length};
ghost use Rattle.blake2_tree.specs.TreeLengths.{AreAcceptedTreeLengths};

/// A message has fewer bytes than this: so the digests of leaves of one byte still fit the count of
/// the root, which is below 2^64.
pub const MESSAGE_LIMIT: u64 = 1 << 58;

/// Salt and persona have at most this many bytes each (the BLAKE2 document, 2.8).
pub const LABEL_BYTES: usize = 16;

/// Returns whether a tree accepts these lengths: a root of 1 to 64 bytes, a salt and a persona of
/// up to 16 bytes each, and leaves of at least 1 byte.
pub fn accepts(root_size: usize, salt: usize, persona: usize, leaf_length: u32) -> bool
    ensures { IsTrue result ↔ AreAcceptedTreeLengths
        (record { root = root_size; salt = salt; persona = persona; leaf = leaf_length }) }
{
    root_size >= 1
        && root_size <= 64
        && salt <= LABEL_BYTES
        && persona <= LABEL_BYTES
        && leaf_length >= 1
}

/// Returns whether a message of `count` bytes, fewer than 2^58, still has room for `leaves` whole
/// leaves of `leaf_length` bytes, at least 1, and `more` bytes.
pub fn has_room_for(count: u64, leaves: u64, leaf_length: u64, more: u64) -> bool
    requires some { 1 ≤ leaf_length }
    requires counted { count < 2 ^ 58 }
    ensures { IsTrue result ↔ count + leaves * leaf_length + more < 2 ^ 58 }
{
    let rest = MESSAGE_LIMIT - 1 - count;
    more <= rest && leaves <= (rest - more) / leaf_length
}

// The number of bytes of a piece, if leaves are short or very long.
const PIECE_BYTES: usize = 1 << 16;

// The number of bytes of the longest piece.
const LONGEST_PIECE_BYTES: usize = 1 << 24;

/// Returns the best number of bytes for a piece of a message, for a tree with leaves of this
/// length, at least 1: about 64 KiB, or 17 leaves if these are more, and at most 16 MiB. Four
/// leaves are hashed in parallel if others follow them. So a piece is a multiple of four leaves
/// and one leaf more, which stays open until the next piece shows that others follow it, and is
/// hashed separately. At most one leaf in 17 is, and one in 13 with leaves of 1 MiB, of which 17
/// are longer than the longest piece. If five leaves are longer than that, a piece is not a
/// number of leaves.
pub fn best_piece_length(leaf_length: u32) -> usize
    requires { 1 ≤ leaf_length }
    ensures is { result ≡ best_piece_length leaf_length }
    ensures least { 2 ^ 14 < result }
    ensures most { result ≤ 2 ^ 24 }
    ensures fours { 5 * leaf_length ≤ 2 ^ 24
        → (fours : ℕ) × (1 ≤ fours) × (result ≡ leaf_length * (4 * fours + 1)) }
    ensures long { 5 * leaf_length ≤ 2 ^ 24
        → (17 * leaf_length ≤ result) ⊎ (2 ^ 24 < result + 4 * leaf_length) }
    ensures short { (result ≤ 2 ^ 16 + leaf_length) ⊎ (result ≤ 17 * leaf_length) }
{
    let leaf = leaf_length as usize;
    let fours = (PIECE_BYTES / leaf / 4).max(4);
    let whole = leaf * (4 * fours + 1);
    if whole <= LONGEST_PIECE_BYTES {
        whole
    } else if 5 * leaf <= LONGEST_PIECE_BYTES {
        leaf * (4 * ((LONGEST_PIECE_BYTES / leaf - 1) / 4) + 1)
    } else {
        PIECE_BYTES
    }
}

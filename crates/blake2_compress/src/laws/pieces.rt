//! Bytes in pieces of one length, the last of which may be shorter: the leaves of a tree (the
//! BLAKE2 document, 2.10).

ghost use Rattle.std.specs.Prelude.{◌≡◌, ◌↔◌, ◌<◌, length, IsTrue, MatchOption};
ghost use Rattle.blake2_compress.specs.MessagePieces.{piece_count, piece, IsFirstDifference};
ghost use Rattle.blake2_compress.specs.MessagePieces.{PiecesDetermineMessage, EqualIfNoPairDiffers};

/// Returns how many pieces of `size` bytes, at least 1, a message has. It has at least one, and
/// the last may be shorter.
pub fn piece_count(size: usize, text: &[u8]) -> usize
    requires size { 0 < size }
    ensures { result ≡ piece_count size (length text.now) }
{
    text.len().div_ceil(size).max(1)
}

/// Returns piece `i`, counted from 0, of a message: bytes i·size to (i+1)·size, or up to its end.
/// The size must be at least 1, and `i` below the number of pieces.
pub fn piece(size: usize, text: &[u8], i: usize) -> &[u8]
    requires size { 0 < size }
    requires within { i < piece_count size (length text.now) }
    ensures { result.now ≡ piece size text.now i }
{
    let rest = &text[i * size..];
    &rest[..rest.len().min(size)]
}

/// Returns the index of the first piece, from 0, in which two messages differ, or `None` if they
/// are equal. They must have the same number of pieces, and the size must be at least 1.
pub fn first_difference(size: usize, a: &[u8], b: &[u8]) -> Option<usize>
    requires size { 0 < size }
    requires equally_many { piece_count size (length a.now) ≡ piece_count size (length b.now) }
    ensures { MatchOption result (a.now ≡ b.now) (IsFirstDifference size a.now b.now) }
{
    for i in 0..piece_count(size, a) {
        if piece(size, a, i) != piece(size, b, i) {
            return Some(i);
        }
    }
    None
}

/// Returns whether the pieces of two messages are the same, which is so exactly if the messages
/// are: if two messages with the same number of pieces differ, some pair of pieces differs, and
/// the pieces of a message determine it. They must have the same number of pieces, and the size
/// must be at least 1.
pub fn same_pieces(size: usize, a: &[u8], b: &[u8]) -> bool
    requires size { 0 < size }
    requires equally_many { piece_count size (length a.now) ≡ piece_count size (length b.now) }
    ensures same { IsTrue result ↔ (a.now ≡ b.now) }
    ensures pieces_determine { PiecesDetermineMessage }
    ensures no_pair_differs { EqualIfNoPairDiffers }
{
    first_difference(size, a, b).is_none()
}

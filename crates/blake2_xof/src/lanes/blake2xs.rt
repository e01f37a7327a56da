//! Eight blocks of BLAKE2s in lanes.

ghost use Rattle.std.specs.Prelude.{◌≡◌, ℕ, ◌<◌, [], false, slice_index_or};
ghost use Rattle.blake2_simd.specs.Family.{blake2s};
ghost use Rattle.blake2_simd.specs.Lanes.{in_lane};
ghost use Rattle.blake2_compress.specs.Hash.{bytes_of, compress as F, final};

use blake2_compress::compress::Flags;
use blake2_compress::compress::blake2s::to_bytes;
use blake2_compress::many::blake2s as many;
use blake2_compress::many::blake2s::lane_rows;
use blake2_simd::rows::u32x8;

/// Returns the outputs of eight hashes of one block, the same for each, from the rows of the words
/// that they start from. `count` bytes are counted with the block.
pub(crate) fn last_of_eight(rows: &[u32x8; 8], block: &[u8; 64], count: u64) -> [[u8; 32]; 8]
    ensures { (j : ℕ) → j < 8 → slice_index_or result j []
        ≡ bytes_of blake2s (F blake2s (in_lane j rows.now) block.now count (final false)) }
{
    let mut all = *rows;
    many::compress_each(
        &mut all,
        &[block; 8],
        &[count; 8],
        &[Flags::last_block(false); 8],
    );
    [
        to_bytes(&lane_rows(&all, 0)),
        to_bytes(&lane_rows(&all, 1)),
        to_bytes(&lane_rows(&all, 2)),
        to_bytes(&lane_rows(&all, 3)),
        to_bytes(&lane_rows(&all, 4)),
        to_bytes(&lane_rows(&all, 5)),
        to_bytes(&lane_rows(&all, 6)),
        to_bytes(&lane_rows(&all, 7)),
    ]
}

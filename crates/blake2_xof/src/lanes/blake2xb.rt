//! Four blocks of BLAKE2b in lanes.

ghost use Rattle.std.specs.Prelude.{◌≡◌, ℕ, ◌<◌, [], false, slice_index_or};
ghost use Rattle.blake2_simd.specs.Family.{blake2b};
ghost use Rattle.blake2_simd.specs.Lanes.{in_lane};
ghost use Rattle.blake2_compress.specs.Hash.{bytes_of, compress as F, final};

use blake2_compress::compress::Flags;
use blake2_compress::compress::blake2b::to_bytes;
use blake2_compress::many::blake2b as many;
use blake2_compress::many::blake2b::lane_rows;
use blake2_simd::rows::u64x4;

/// Returns the outputs of four hashes of one block, the same for each, from the rows of the words
/// that they start from. `count` bytes are counted with the block.
pub(crate) fn last_of_four(rows: &[u64x4; 8], block: &[u8; 128], count: u64) -> [[u8; 64]; 4]
    ensures { (j : ℕ) → j < 4 → slice_index_or result j []
        ≡ bytes_of blake2b (F blake2b (in_lane j rows.now) block.now count (final false)) }
{
    let mut all = *rows;
    many::compress_each(
        &mut all,
        &[block; 4],
        &[count; 4],
        &[Flags::last_block(false); 4],
    );
    [
        to_bytes(&lane_rows(&all, 0)),
        to_bytes(&lane_rows(&all, 1)),
        to_bytes(&lane_rows(&all, 2)),
        to_bytes(&lane_rows(&all, 3)),
    ]
}

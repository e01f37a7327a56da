//! Four lanes in a vector: [`u64x4`] for BLAKE2b and [`u32x4`] for BLAKE2s, named after the items
//! of the crate `blake2`.
//!
//! Four rows hold the sixteen words of a compression: row r has words 4r to 4r + 3 (RFC 7693,
//! section 3.2). `round` mixes the columns in parallel, moves the diagonals to the columns, mixes
//! these, and moves them back.
//!
//! Sixteen rows hold several states, one in each lane: four of BLAKE2b in [`u64x4`] or eight in
//! [`u64x8`], eight of BLAKE2s in [`u32x8`]. `round_each` mixes all of them in parallel, and no
//! lane moves.

mod u32_lanes;
mod u32_states;
mod u32_wide;
mod u64_lanes;
mod u64_states;
mod u64_wide;
mod u64_wide_states;

pub use u32_lanes::u32x4;
pub use u32_wide::u32x8;
pub use u64_lanes::u64x4;
pub use u64_wide::u64x8;

//! Four messages of BLAKE2b in parallel, or eight.

pub use blake2_compress::many::blake2b::{
    accepts_four, best_lane_count, eight, hash_four, hash_four_sized,
};

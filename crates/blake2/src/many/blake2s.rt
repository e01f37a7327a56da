//! Eight messages of BLAKE2s in parallel.

pub use blake2_compress::many::blake2s::{
    accepts_eight, best_lane_count, hash_eight, hash_eight_sized,
};

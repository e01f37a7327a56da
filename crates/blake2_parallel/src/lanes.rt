//! The leaves, one in each lane of the vectors.

pub mod blake2bp;
pub mod blake2sp;

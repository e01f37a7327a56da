//! Several blocks in parallel, one in each lane of the vectors.

pub mod blake2xb;
pub mod blake2xs;

//! The output, which is read in pieces.

pub mod blake2xb;
pub mod blake2xs;

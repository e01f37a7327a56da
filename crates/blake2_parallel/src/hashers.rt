//! The hashers.

pub mod blake2bp;
pub mod blake2sp;

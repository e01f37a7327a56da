//! The message authentication codes.

pub mod blake2bp;
pub mod blake2sp;

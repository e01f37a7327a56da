//! The hashers: a core after a lazy buffer.

pub mod blake2b;
pub mod blake2s;

//! The MACs: a core after a lazy buffer that starts with the key's block.

pub mod blake2b;
pub mod blake2s;

//! The contexts: a core after a lazy buffer. A hasher is one, and a MAC is one with its key.

pub mod blake2b;
pub mod blake2s;

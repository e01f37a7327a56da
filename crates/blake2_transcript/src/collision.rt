//! The witness of a collision: for two inputs that are not the same, though their digests are
//! equal, one step of each run, such that these steps differ and their outputs agree. So everyone
//! who finds a collision of the hash has found one of its compression function.

pub mod blake2b;
pub mod blake2s;
mod same_inputs;

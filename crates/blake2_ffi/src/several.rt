//! Several states.

mod blake2b;
mod blake2s;

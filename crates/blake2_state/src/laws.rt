//! Laws of the definitions, each the contract of a small function that shows it at work.

pub mod blake2b;
pub mod blake2s;

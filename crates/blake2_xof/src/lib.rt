//! BLAKE2X: BLAKE2 with an output of any length, which is read in pieces (the BLAKE2X document).

#![tactic(auto)]

pub mod blake2xb;
pub mod blake2xs;
mod lanes;
pub mod laws;
pub mod reader;

//! Transcripts of BLAKE2b and BLAKE2s: the steps of a hash as values, the transcript of an input,
//! its reader, and the witness, a pair of steps from two inputs with equal digests (RFC 7693).

#![tactic(auto)]

pub mod collision;
pub mod laws;
pub mod steps;

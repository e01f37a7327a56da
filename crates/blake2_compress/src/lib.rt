//! The compression functions of BLAKE2b and BLAKE2s (RFC 7693): the tables, the compression over
//! rows of words, the parameter block, inputs and their blocks, several messages in parallel, a
//! whole message, and laws.

#![tactic(auto)]

pub mod compress;
pub mod consts;
pub mod inputs;
pub mod laws;
pub mod many;
pub mod params;
pub mod whole;

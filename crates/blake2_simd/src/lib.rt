//! The rows of BLAKE2: sixteen words as four rows of four lanes, which are vectors, and the round
//! that mixes them. The definitions of the two families, of the mixing function G and of the
//! round (RFC 7693, sections 2.1 and 3) are in `specs/`, and the crates above use them.
//! [`padded`] is that of `blake2_digest`, which they need too.

#![tactic(auto)]

pub mod rows;

pub use blake2_digest::padded;

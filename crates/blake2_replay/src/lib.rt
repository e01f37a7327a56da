//! Lists of calls on hash functions, proved only from the contracts of `blake2_digest`, for every
//! hasher and MAC that meets them.

#![tactic(auto)]

pub mod calls;

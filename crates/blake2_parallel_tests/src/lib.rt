//! Tests of BLAKE2bp and BLAKE2sp. The digests are those of `parallel_digest` in tests/oracle.py.

#![tactic(auto)]

#[cfg(test)]
mod blake2bp;
#[cfg(test)]
mod blake2sp;
#[cfg(test)]
mod checks;
#[cfg(test)]
mod traits;

//! Tests of BLAKE2Xb and BLAKE2Xs. The outputs are those of `output` in tests/oracle.py. Those of a
//! message of 256 bytes are among the BLAKE2X authors' own.

#![tactic(auto)]

#[cfg(test)]
mod blake2xb;
#[cfg(test)]
mod blake2xs;
#[cfg(test)]
mod checks;

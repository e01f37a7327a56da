//! BLAKE2bp and BLAKE2sp: BLAKE2 over four or eight leaves among which a message is dealt out block
//! by block, so that one thread hashes it in the lanes of its vectors (the BLAKE2 document,
//! "Parallel hashing").

#![tactic(auto)]

pub mod blake2bp;
pub mod blake2sp;
pub mod hashers;
pub mod lanes;
pub mod macs;

pub use hashers::blake2bp::Blake2bp;
pub use hashers::blake2sp::Blake2sp;
pub use macs::blake2bp::Blake2bpMac;
pub use macs::blake2sp::Blake2spMac;

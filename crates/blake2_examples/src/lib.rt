//! Callers of this project's libraries, to which the pages of their crates lead: what a caller
//! writes, and what its contract may then promise.

#![tactic(auto)]

mod building_blocks;
mod hashes;
mod macs;
mod run_time_sizes;
mod runs;
mod trees;

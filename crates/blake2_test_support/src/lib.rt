//! What the tests of several crates share: a device that fails once, memory that is refused, and
//! inputs, messages and pieces.

#![tactic(auto)]

pub mod devices;
pub mod inputs;
pub mod no_memory;

//! Tests that run the commands of `b2`. They are in a separate crate, since a crate that has
//! tests is proved twice.

#![tactic(auto)]

#[cfg(test)]
mod tests;

//! Texts that people read and write: cutting them into lines, and numbers in decimal.

#![tactic(auto)]

mod cuts;
mod numbers;

pub use cuts::{split_line, split_once};
pub use numbers::{DECIMAL_BYTES, push_decimal, write_decimal};

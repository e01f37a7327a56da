//! The commands of `b2`: digests, scripts, transcripts and witnesses of BLAKE2b and BLAKE2s, roots
//! of trees and the digests of their leaves, and outputs of BLAKE2X. They read a source of bytes
//! and print to a sink. The program passes standard input and standard output to them.

#![tactic(auto)]

mod arguments;
mod digests;
mod dispatch;
mod fault;
mod help;
mod input;
pub mod laws;
mod leaf_lines;
mod leaves;
mod numbers;
mod output_arguments;
mod outputs;
mod print;
mod script;
mod script_lines;
mod steps;
mod task;
mod tree;
mod tree_arguments;
mod witness;
mod witness_arguments;

pub use dispatch::{run, run_with_notes};
pub use fault::Fault;

//! The program `b2sum` over any files, input and outputs: its options, digests of files, and the
//! check of manifests.

#![tactic(auto)]

mod ahead;
mod check;
mod choices;
mod devices;
mod digest;
mod expected;
mod folder_checks;
mod folders;
mod hashes;
mod key;
pub mod laws;
mod line_needs;
mod line_reader;
mod listed_ahead;
mod messages;
mod option_names;
mod options;
mod other_hashes;
mod program;
mod quoting;
mod sealed_checks;
mod seals;
mod session;
mod sums;
mod values;

pub use check::{Counts, Verdict, check_manifest, check_manifests};
pub use devices::{Disk, Fault, OpenFile, Output};
pub use digest::ExpectedDigest;
pub use hashes::{Function, Hashes};
pub use line_needs::Lacks;
pub use options::{Options, Report, Shape};
pub use program::run;
pub use seals::print_list;
pub use session::{Host, Program, Session};
pub use sums::print_sums;

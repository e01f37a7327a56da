//! Laws of the definitions, each the contract of a small function that shows it at work.

pub use blake2_compress::laws::{blake2b, blake2s, pieces};
pub use blake2_transcript::laws as transcripts;

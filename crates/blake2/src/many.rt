//! Several messages of one length in parallel, one in each lane of the vectors. How much time that
//! saves depends on the length of the processor's vectors: docs/SPEED.md has what was measured.
//!
//! ```rust
//! use blake2::many;
//! use blake2::transcripts::Input;
//!
//! let inputs: [Input<'_>; 4] = leaves;
//! if many::blake2b::accepts_four(&inputs) {
//!     let digests: [[u8; 64]; 4] = many::blake2b::hash_four(&inputs);
//! }
//! ```

pub mod blake2b;
pub mod blake2s;

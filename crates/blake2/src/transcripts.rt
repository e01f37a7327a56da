//! The steps of a hash as values: inputs, transcripts and their readings, and the witness, a pair
//! of steps from two inputs with equal digests. The calls are associated functions of the cores.

mod blake2b;
mod blake2s;

pub use blake2_compress::inputs::Input;
pub use blake2_compress::params::Tree;
pub use blake2_transcript::steps::{Entry, Reading, Step, Transcript};

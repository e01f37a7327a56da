//! Streams: sources and sinks of bytes, `absorb_stream`, which passes a source to a hasher, to its
//! end, and `hash_stream`, which then writes the digest to a sink. They are proved only from the
//! contracts of `blake2_digest`, for every hasher and MAC that meets them.

#![tactic(auto)]

mod device;
mod io_sink;
mod io_source;
mod slice_sink;
mod slice_source;
mod stream;

pub use device::{DeviceError, Sink, Source};
pub use io_sink::IoSink;
pub use io_source::IoSource;
pub use slice_sink::SliceSink;
pub use slice_source::SliceSource;
pub use stream::{StreamFault, absorb_stream, hash_stream, write_whole};

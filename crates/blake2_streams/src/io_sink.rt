//! Writers as sinks.

ghost use Rattle.std.specs.Prelude.{◌≡◌, false};

use super::device::{DeviceError, Sink};
use std::io::Write;

/// A writer of std as a sink. A write that returns an error, even an interrupted one, is a
/// failure, and so is one that accepts no byte of a piece that is not empty.
#[derive(Drop)]
pub struct IoSink<W> {
    inner: W,
    has_failed: bool,
}

impl<W: Write> IoSink<W> {
    /// Returns a sink into the writer, which has not failed.
    pub fn new(inner: W) -> Self
        ensures held { ⟦<IoSink<W> as Sink>⟧.held result ≡ W.contents inner }
        ensures unfailed { ⟦<IoSink<W> as Sink>⟧.failed result ≡ false }
    {
        IoSink {
            inner,
            has_failed: false,
        }
    }

    /// Returns the writer, with the bytes that it accepted.
    pub fn into_inner(self) -> W
        ensures { W.contents result ≡ ⟦<IoSink<W> as Sink>⟧.held self }
    {
        let IoSink {
            inner,
            has_failed: _,
        } = self;
        inner
    }
}

impl<W: Write> Sink for IoSink<W> {
    ghost held = { λ s. W.contents s.inner };

    ghost failed = { λ s. s.has_failed };

    fn write(&mut self, buf: &[u8]) -> Result<usize, DeviceError> {
        match self.inner.write(buf) {
            Ok(0) => {
                if !buf.is_empty() {
                    self.has_failed = true;
                }
                Ok(0)
            }
            Ok(count) => Ok(count),
            Err(_) => {
                self.has_failed = true;
                Err(DeviceError)
            }
        }
    }

    fn failed(&self) -> bool {
        self.has_failed
    }
}

//! Readers as sources.

ghost use Rattle.std.specs.Prelude.{◌≡◌, false};

use super::device::{DeviceError, Source};
use std::io::Read;

/// A reader of std as a source. A read that returns an error, even an interrupted one, is a
/// failure.
#[derive(Drop)]
pub struct IoSource<R> {
    inner: R,
    has_failed: bool,
}

impl<R: Read> IoSource<R> {
    /// Returns a source of the bytes that the reader returns, which has not failed.
    pub fn new(inner: R) -> Self
        ensures left { ⟦<IoSource<R> as Source>⟧.left result ≡ R.remaining inner }
        ensures unfailed { ⟦<IoSource<R> as Source>⟧.failed result ≡ false }
    {
        IoSource {
            inner,
            has_failed: false,
        }
    }

    /// Returns the reader, at the byte after those that were read.
    pub fn into_inner(self) -> R
        ensures { R.remaining result ≡ ⟦<IoSource<R> as Source>⟧.left self }
    {
        let IoSource {
            inner,
            has_failed: _,
        } = self;
        inner
    }
}

impl<R: Read> Source for IoSource<R> {
    ghost left = { λ s. R.remaining s.inner };

    ghost failed = { λ s. s.has_failed };

    fn read(&mut self, buf: &mut [u8]) -> Result<usize, DeviceError> {
        match self.inner.read(buf) {
            Ok(count) => Ok(count),
            Err(_) => {
                self.has_failed = true;
                Err(DeviceError)
            }
        }
    }

    fn failed(&self) -> bool {
        self.has_failed
    }
}

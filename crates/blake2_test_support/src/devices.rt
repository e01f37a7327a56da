//! An output that fails once, for tests of several crates.

use std::io;
use std::io::{ErrorKind, Write};

/// Accepts `before` bytes, then fails once, by an error or by accepting none, and accepts all that
/// comes later.
#[derive(Drop)]
pub struct FailsOnce {
    before: usize,
    by_error: bool,
    /// Whether it has failed.
    pub has_failed: bool,
    /// How many writes came later.
    pub later: usize,
}

impl FailsOnce {
    /// A device that has not failed yet.
    pub fn new(before: usize, by_error: bool) -> Self {
        FailsOnce {
            before,
            by_error,
            has_failed: false,
            later: 0,
        }
    }
}

impl Write for FailsOnce {
    fn write(&mut self, buf: &[u8]) -> io::Result<usize> {
        if self.has_failed {
            self.later = self.later.saturating_add(1);
            return Ok(buf.len());
        }
        let count = buf.len().min(self.before);
        self.before -= count;
        if count == 0 && !buf.is_empty() {
            self.has_failed = true;
            if self.by_error {
                return Err(io::Error::from(ErrorKind::Interrupted));
            }
        }
        Ok(count)
    }

    fn flush(&mut self) -> io::Result<()> {
        Ok(())
    }
}

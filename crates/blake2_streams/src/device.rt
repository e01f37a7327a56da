//! What `hash_stream` reads from and writes to.

ghost use Rattle.std.specs.Prelude.{◌≡◌, ℕ, List, Option, Bool, ◌||◌, is_err};
ghost use Rattle.std.specs.Io.{ReadsAtMost, WritesAtMost};
ghost use Rattle.std.specs.Io.KnownBytes.{WriteAppends};
ghost use Rattle.blake2_streams.specs.Devices.{ReadReturns, is_failed_write};

/// The error of a device that failed, or that accepted no byte of a piece that is not empty.
#[derive(Clone, Copy, Debug, PartialEq, Eq)]
pub struct DeviceError;

/// Devices that return bytes in pieces.
pub trait Source {
    // The bytes that reads will return from here on, if the source says which.
    ghost left: { Self → Option (List ℕ) };

    // A read has returned an error.
    ghost failed: { Self → Bool };

    /// Reads the next bytes into the front of the buffer, and returns how many: at most the
    /// buffer's length. Zero for a buffer that is not empty means the end. The error is
    /// `DeviceError`, if the device fails. After an error nothing is promised about the bytes.
    fn read(&mut self, buf: &mut [u8]) -> Result<usize, DeviceError>
        ensures bound { ReadsAtMost result buf.new }
        ensures bytes { ReadReturns (left self.old) (left self.new) result buf.new }
        ensures fails { failed self.new ≡ (failed self.old || is_err result) };

    /// Returns whether a read has returned an error.
    fn failed(&self) -> bool
        ensures { result ≡ failed self.now };
}

/// Devices that accept bytes in pieces.
pub trait Sink {
    // The bytes that the sink holds, if it says which.
    ghost held: { Self → Option (List ℕ) };

    // A write has returned an error, or accepted no byte of a piece that is not empty.
    ghost failed: { Self → Bool };

    /// Writes a beginning of the piece, and returns its length in bytes. The error is
    /// `DeviceError`, if the device fails. A write that returns an error accepts no byte.
    fn write(&mut self, buf: &[u8]) -> Result<usize, DeviceError>
        ensures bound { WritesAtMost result buf.now }
        ensures bytes { WriteAppends (held self.old) (held self.new) result buf.now }
        ensures fails { failed self.new ≡ (failed self.old || is_failed_write result buf.now) };

    /// Returns whether a write has returned an error, or accepted no byte of a piece that is not
    /// empty.
    fn failed(&self) -> bool
        ensures { result ≡ failed self.now };
}

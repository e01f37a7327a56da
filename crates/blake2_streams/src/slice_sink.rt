//! Memory as a sink that accepts few bytes at a time, has little room, or fails when required: a
//! test double.

ghost use Rattle.std.specs.Prelude.{◌≡◌, ◌↔◌, ◌≤◌, ◌||◌, length, Some, [], IsErr, IfOk, OnErr};
ghost use Rattle.std.specs.Prelude.{true, false};
ghost use Rattle.std.specs.Io.{WritesAtMost};
ghost use Rattle.std.specs.Io.KnownBytes.{WriteAppends};
ghost use Rattle.blake2_streams.specs.Devices.{is_failed_write, SinkState, write_count};
ghost use Rattle.blake2_streams.specs.Devices.{sink_after_write};

use super::device::{DeviceError, Sink};
use std::marker::Model;

/// A slice as a sink, a test double: a call accepts at most `most` bytes, and returns an error
/// once `fail_at` bytes have passed. No call accepts a byte after the error, and a full slice
/// accepts none. The accepted bytes are at the front of the slice, in their order, and those
/// after them stay as they were.
#[derive(Drop)]
pub struct SliceSink<'a> {
    room: &'a mut [u8],
    at: usize,
    most: usize,
    // how many bytes pass before the error, if it comes
    before_error: Option<usize>,
    has_failed: bool,
}

impl<'a> Model for SliceSink<'a> {
    ghost use Rattle.std.specs.Prelude.{◌≤◌, length, take, drop};
    ghost use Rattle.blake2_streams.specs.Devices.{SinkState};

    ghost Value = { SinkState };

    ghost view = { λ s. record {
      held = take s.at s.room.now;
      rest = drop s.at s.room.now;
      most = s.most;
      before_error = s.before_error;
      failed = s.has_failed;
    } };

    ghost invariant = { λ s. (1 ≤ s.most) × (s.at ≤ length s.room.now) };
}

impl<'a> SliceSink<'a> {
    /// Returns a sink into this memory, which accepts at most `most` bytes a call, at least 1,
    /// and returns `DeviceError` once `fail_at` bytes have passed. `None` means that it never
    /// does.
    pub fn new(room: &'a mut [u8], most: usize, fail_at: Option<usize>) -> Self
        requires { 1 ≤ most }
        ensures { result ≡ record {
          held = [];
          rest = room.old;
          most = most;
          before_error = fail_at;
          failed = false;
        } }
    {
        SliceSink {
            room,
            at: 0,
            most,
            before_error: fail_at,
            has_failed: false,
        }
    }

    /// Returns how many bytes it has accepted.
    pub fn written(&self) -> usize
        ensures { result ≡ length self.now.held }
    {
        self.at
    }
}

impl Sink for SliceSink<'_> {
    ghost held = { λ s. Some s.held };

    ghost failed = { λ s. s.failed };

    fn write(&mut self, buf: &[u8]) -> Result<usize, DeviceError>
        ensures bound { WritesAtMost result buf.now }
        ensures bytes { WriteAppends (Some self.old.held) (Some self.new.held) result buf.now }
        ensures fails { self.new.failed ≡ (self.old.failed || is_failed_write result buf.now) }

        // What it returns, and what it holds then.
        ensures refused { IsErr result ↔ (self.old.before_error ≡ Some 0) }
        ensures count { IfOk result (λ n. n ≡ write_count self.old (length buf.now)) }
        ensures taken { IfOk result (λ n. self.new ≡ sink_after_write self.old buf.now n) }
        ensures unmoved { OnErr result (self.new ≡ record self.old { failed = true }) }
    {
        let mut count = buf.len().min(self.room.len() - self.at).min(self.most);
        if let Some(before) = self.before_error {
            if before == 0 {
                self.has_failed = true;
                return Err(DeviceError);
            }
            count = count.min(before);
            self.before_error = Some(before - count);
        }
        if count == 0 && !buf.is_empty() {
            self.has_failed = true;
        }
        let end = self.at + count;
        self.room[self.at..end].copy_from_slice(&buf[..count]);
        self.at = end;
        Ok(count)
    }

    fn failed(&self) -> bool {
        self.has_failed
    }
}

//! Memory as a source that returns few bytes at a time, or fails when required: a test double.

ghost use Rattle.std.specs.Prelude.{◌≡◌, ◌↔◌, ◌≤◌, ◌||◌, length, Some, is_err, IsErr, IfOk, OnErr};
ghost use Rattle.std.specs.Prelude.{true, false};
ghost use Rattle.std.specs.Io.{ReadsAtMost};
ghost use Rattle.blake2_streams.specs.Devices.{ReadReturns, SourceState, read_count};
ghost use Rattle.blake2_streams.specs.Devices.{source_after_read};

use super::device::{DeviceError, Source};
use std::marker::Model;

/// A slice as a source, a test double: a call returns at most `most` bytes, and an error once
/// `fail_at` bytes have passed. No call returns a byte after the error, which comes even if no
/// byte is left.
#[derive(Drop)]
pub struct SliceSource<'a> {
    rest: &'a [u8],
    most: usize,
    // how many bytes pass before the error, if it comes
    before_error: Option<usize>,
    has_failed: bool,
}

impl<'a> Model for SliceSource<'a> {
    ghost use Rattle.std.specs.Prelude.{◌≤◌};
    ghost use Rattle.blake2_streams.specs.Devices.{SourceState};

    ghost Value = { SourceState };

    ghost view = { λ s. record {
      rest = s.rest.now;
      most = s.most;
      before_error = s.before_error;
      failed = s.has_failed;
    } };

    ghost invariant = { λ s. 1 ≤ s.most };
}

impl<'a> SliceSource<'a> {
    /// Returns a source of these bytes, which returns at most `most` a call, at least 1, and
    /// `DeviceError` once `fail_at` bytes have passed. `None` means that it never does.
    pub fn new(bytes: &'a [u8], most: usize, fail_at: Option<usize>) -> Self
        requires { 1 ≤ most }
        ensures { result ≡
            record { rest = bytes.now; most = most; before_error = fail_at; failed = false } }
    {
        SliceSource {
            rest: bytes,
            most,
            before_error: fail_at,
            has_failed: false,
        }
    }
}

impl Source for SliceSource<'_> {
    ghost left = { λ s. Some s.rest };

    ghost failed = { λ s. s.failed };

    fn read(&mut self, buf: &mut [u8]) -> Result<usize, DeviceError>
        ensures bound { ReadsAtMost result buf.new }
        ensures bytes { ReadReturns (Some self.old.rest) (Some self.new.rest) result buf.new }
        ensures fails { self.new.failed ≡ (self.old.failed || is_err result) }

        // What it returns, and what is left.
        ensures refused { IsErr result ↔ (self.old.before_error ≡ Some 0) }
        ensures count { IfOk result (λ n. n ≡ read_count self.old (length buf.old)) }
        ensures given { IfOk result (λ n. self.new ≡ source_after_read self.old n) }
        ensures unmoved { OnErr result (self.new ≡ record self.old { failed = true }) }
    {
        let mut count = self.rest.len().min(buf.len()).min(self.most);
        if let Some(before) = self.before_error {
            if before == 0 {
                self.has_failed = true;
                return Err(DeviceError);
            }
            count = count.min(before);
            self.before_error = Some(before - count);
        }
        let all = self.rest;
        buf[..count].copy_from_slice(&all[..count]);
        self.rest = &all[count..];
        Ok(count)
    }

    fn failed(&self) -> bool {
        self.has_failed
    }
}

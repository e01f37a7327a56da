//! Files by name, and what is printed where.

ghost use Rattle.std.specs.Prelude.{◌≡◌, ◌||◌, ℕ, ℤ, List, Option, Some, Bool, IfOk, IfErr, IfSome};
ghost use Rattle.std.specs.Prelude.{true, false, IsErr, OnOk, OnErr, is_err, string_bytes};
ghost use Rattle.std.specs.Io.{ReadsAtMost};
ghost use Rattle.std.specs.declared.io.Error.{Error};
ghost use Rattle.blake2_streams.specs.Devices.{ReadReturns};
ghost use Rattle.std.specs.Io.KnownBytes.{Appends};
ghost use Rattle.b2sum_commands.specs.World.{SinkAcceptsOrFails, AcceptsNothingOrPart};
ghost use Rattle.b2sum_commands.specs.declared.devices.Fault.TheVariants.{NoMemory, WriteFailed};

use blake2_streams::{DeviceError, Sink, write_whole};
use std::alloc::{AllocError, Global};
use std::io;

/// Files that are open for reading, which know their name, and why a read failed.
pub trait OpenFile {
    // The bytes that reads will return from here on, if that is known.
    ghost left: { Self → Option (List ℕ) };

    // A read has returned an error.
    ghost failed: { Self → Bool };

    // The error of the last read that failed.
    ghost failure: { Self → Option Error };

    // The number by which the system knows the file.
    ghost descriptor: { Self → Option ℤ };

    // The name by which the file was opened, and `-` for standard input.
    ghost named: { Self → List ℕ };

    /// Reads the next bytes into the front of the buffer, and returns how many: at most the
    /// buffer's length. Zero for a buffer that is not empty means the end. The error is
    /// `DeviceError`, if the read fails. After an error nothing is promised about the bytes.
    fn read(&mut self, buf: &mut [u8]) -> Result<usize, DeviceError>
        ensures bound { ReadsAtMost result buf.new }
        ensures bytes { ReadReturns (left self.old) (left self.new) result buf.new }
        ensures fails { failed self.new ≡ (failed self.old || is_err result) }
        ensures name { named self.new ≡ named self.old };

    /// Returns whether a read has returned an error.
    fn failed(&self) -> bool
        ensures { result ≡ failed self.now };

    /// Returns the error of the last read that failed.
    fn last_error(&self) -> io::Error
        ensures { failed self.now ≡ true → failure self.now ≡ Some result };

    /// Returns the number by which the system knows the file.
    fn number(&self) -> i32
        ensures { IfSome (descriptor self.now) (λ number. result ≡ number) };
}

/// Sinks that know why a write failed.
pub trait Output: Sink {
    // The error of the last write that failed.
    ghost failure: { Self → Option Error };

    /// Returns the error of the last write that failed.
    fn last_error(&self) -> io::Error
        ensures { Self.failed self.now ≡ true → failure self.now ≡ Some result };
}

/// Files that are opened by names of any bytes.
pub trait Disk {
    ghost use Rattle.b2sum_commands.specs.World.{Files};

    // The files by their names.
    ghost files: { Self → Files };

    /// An open file.
    type File: OpenFile + Drop;

    // The system can keep memory from others.
    ghost hides: { Self → Bool };

    /// Keeps what the program holds from now on from others, as far as the system can. Returns
    /// whether it can. It is called before a key is read.
    fn hide_memory(&self) -> bool
        ensures { result ≡ hides self.now };

    /// Shows the progress of long reads from now on, as far as the system can. It is called before
    /// a file is opened.
    fn show_progress(&self);

    /// Opens the file of this name for reading. The error says why it cannot be opened.
    fn open(&self, alloc: Global, name: &[u8]) -> io::Result<Self::File>
        ensures refused { IfErr result ((files self.now).refuses name.now) }
        ensures bytes { IfOk result (λ file. IfSome ((files self.now).holds name.now)
            (λ _. Self.File.left file ≡ (files self.now).holds name.now)) }
        ensures unfailed { IfOk result (λ file. Self.File.failed file ≡ false) }
        ensures named { IfOk result (λ file. Self.File.named file ≡ name.now) };

    /// Opens the file of this name for reading before its turn: a regular file of 1 byte to 1 MiB,
    /// that is not standard output. The result is `None` if it is none, or cannot be opened now.
    fn open_ahead(&self, alloc: Global, name: &[u8]) -> Option<Self::File>
        ensures { IfSome result (λ file. IfSome ((files self.now).holds name.now)
            (λ _. Self.File.left file ≡ (files self.now).holds name.now)) };

    /// Opens the list of what is in the folder of this name, for reading: for each entry a letter,
    /// `d` for a folder, `f` for a file, and another for anything else, its name in the folder, and
    /// a zero byte. The error says why it cannot be opened.
    fn open_folder(&self, alloc: Global, name: &[u8]) -> io::Result<Self::File>
        ensures refused { IfErr result ((files self.now).refuses name.now) }
        ensures bytes { IfOk result (λ file. IfSome ((files self.now).lists name.now)
            (λ _. Self.File.left file ≡ (files self.now).lists name.now)) }
        ensures unfailed { IfOk result (λ file. Self.File.failed file ≡ false) }
        ensures named { IfOk result (λ file. Self.File.named file ≡ name.now) };

    /// Returns the text of an error.
    fn reason_of(&self, alloc: Global, error: io::Error) -> Result<String, AllocError>
        ensures { IfOk result
            (λ text. (files self.now).describes error (string_bytes text)) };
}

/// Why a command ends early.
#[derive(Clone, Copy, Debug, PartialEq, Eq)]
pub enum Fault {
    /// An allocation failed.
    NoMemory,
    /// A write to standard output failed.
    WriteFailed,
}

impl From<AllocError> for Fault {
    ghost from_gives = { λ _ fault. fault ≡ NoMemory };

    fn from(_: AllocError) -> Fault {
        Fault::NoMemory
    }
}

impl From<DeviceError> for Fault {
    ghost from_gives = { λ _ fault. fault ≡ WriteFailed };

    fn from(_: DeviceError) -> Fault {
        Fault::WriteFailed
    }
}

/// Writes the text, if the sink has not failed before.
pub(crate) fn put<K: Sink>(sink: &mut K, text: &[u8]) -> Result<(), DeviceError>
    ensures stays { K.failed sink.old ≡ true → K.failed sink.new ≡ true }
    ensures fails { IsErr result → K.failed sink.new ≡ true }
    ensures whole { OnOk result (Appends (K.held sink.old) (K.held sink.new) text.now) }
    ensures part { OnErr result
        (AcceptsNothingOrPart (K.held sink.old) (K.held sink.new) text.now) }
{
    if sink.failed() {
        return Err(DeviceError);
    }
    write_whole(sink, text)
}

/// Writes a message, and leaves a failure to the sink.
pub(crate) fn print_message<E: Sink>(sink: &mut E, text: &[u8])
    ensures { SinkAcceptsOrFails (E.failed sink.old) (E.failed sink.new) (E.held sink.old)
        (E.held sink.new)
        text.now }
{
    let _ = put(sink, text);
}

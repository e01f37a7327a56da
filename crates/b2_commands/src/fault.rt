//! The errors that end the program without its whole output.

ghost use Rattle.std.specs.Prelude.{◌≡◌, ◌≢◌, ◌<◌, ◌↔◌, [], ◌∷◌, ◌++◌, length, false, IsTrue};
ghost use Rattle.std.specs.Io.KnownBytes.{Appends};
ghost use Rattle.b2_commands.specs.declared.fault.Fault.TheVariants.{WrongLength, NoMemory};
ghost use Rattle.b2_commands.specs.declared.fault.Fault.TheVariants.{WriteFailed};
ghost use Rattle.b2_commands.specs.Faults.{fault_of_stream};

use crate::print::{LINE_BYTES, Line};
use blake2::digest::InvalidLength;
use blake2::streams::{Sink, StreamFault};
use std::alloc::AllocError;

/// An error of the arguments, the input, the devices or the memory. Each except `WriteFailed`
/// prints one line.
#[derive(Clone, Copy, Debug, PartialEq, Eq)]
pub enum Fault {
    /// There is no command, it is unknown, or an argument is missing or is not one that it
    /// accepts.
    WrongWords,
    /// The HEX of an argument is not an even number of hexadecimal digits, or the argument of a
    /// message is empty.
    WrongHex,
    /// A key, salt or persona has a length that the hash function or the tree does not accept, or
    /// the input of `leaves` is not a range of a message's leaves.
    WrongLength,
    /// The line of this number in the input, counted from 1, is malformed: in a script it is not a
    /// call, and for `root` it is not a digest.
    WrongLine(usize),
    /// The call in the line of this number names a slot that is absent or has ended.
    NoSuchSlot(usize),
    /// The update in the line of this number would bring its slot's count to 2^64 bytes or more.
    LineTooLong(usize),
    /// The input, with the key's block if there is a key, has 2^64 bytes or more; for `tree`, the
    /// input has 2^58 bytes or more.
    TooLong,
    /// A read of the source returned an error.
    ReadFailed,
    /// An allocation failed.
    NoMemory,
    /// A write to the sink returned an error or accepted no byte.
    WriteFailed,
}

impl Fault {
    ghost use Rattle.b2_commands.specs.Faults.{exit_status_of, line_number, fault_message};
    ghost use Rattle.b2_commands.specs.Faults.{fault_line};

    // Returns the line that the error prints, without its newline: there is room for that. The
    // error must not be `WriteFailed`, which prints no line.
    fn line(self) -> Line
        requires { self ≢ WriteFailed }
        ensures text { result ++ 10 ∷ [] ≡ fault_line self }
        ensures room { length result < LINE_BYTES }
    {
        let mut line = Line::starting(b"b2: ");
        if let Some(number) = self.script_line() {
            line.push(b"line ");
            line.push_decimal(number as u64);
            line.push(b": ");
        }
        line.push(self.message_text().as_bytes());
        line
    }

    // Returns the number of the input's line that the error names, from 1, or `None` if it names
    // no line.
    fn script_line(self) -> Option<usize>
        ensures { result ≡ line_number self }
    {
        match self {
            Fault::WrongLine(number) | Fault::NoSuchSlot(number) | Fault::LineTooLong(number) => {
                Some(number)
            }
            _ => None,
        }
    }

    // Returns what the error's line says of its cause, or nothing for `WriteFailed`.
    fn message_text(self) -> &'static str
        ensures { result.now ≡ fault_message self }
    {
        match self {
            Fault::WrongWords => "wrong words",
            Fault::WrongHex => "wrong hex",
            Fault::WrongLength => "wrong length",
            Fault::WrongLine(_) => "wrong line",
            Fault::NoSuchSlot(_) => "no such slot",
            Fault::LineTooLong(_) | Fault::TooLong => "too long",
            Fault::ReadFailed => "read failed",
            Fault::NoMemory => "no memory",
            Fault::WriteFailed => "",
        }
    }

    // Returns the status of the error: 2 for the arguments and the input, 1 for the devices and
    // the memory.
    fn status(self) -> u8
        ensures { result ≡ exit_status_of self }
    {
        match self {
            Fault::WrongWords
            | Fault::WrongHex
            | Fault::WrongLength
            | Fault::WrongLine(_)
            | Fault::NoSuchSlot(_)
            | Fault::LineTooLong(_)
            | Fault::TooLong => 2,
            Fault::ReadFailed | Fault::NoMemory | Fault::WriteFailed => 1,
        }
    }

    /// Prints the error's line, and returns its status, or 1 if a write fails. For `WriteFailed`
    /// it prints nothing and returns 1. The error must be `WriteFailed` if the sink has failed
    /// before, and only then.
    pub fn report<K: Sink>(self, sink: &mut K) -> u8
        requires { (self ≡ WriteFailed) ↔ IsTrue (K.failed sink.old) }
        ensures printed { K.failed sink.new ≡ false →
            (result ≡ exit_status_of self)
            × Appends (K.held sink.old) (K.held sink.new) (fault_line self) }
        ensures failed { IsTrue (K.failed sink.old) → IsTrue (K.failed sink.new) }
        ensures unprinted { IsTrue (K.failed sink.new) → result ≡ 1 }
    {
        if self == Fault::WriteFailed {
            return 1;
        }
        match self.line().print(sink) {
            Ok(()) => self.status(),
            Err(_) => 1,
        }
    }
}

impl From<InvalidLength> for Fault {
    ghost from_gives = { λ _ r. r ≡ WrongLength };

    fn from(_: InvalidLength) -> Fault {
        Fault::WrongLength
    }
}

impl From<StreamFault> for Fault {
    ghost from_gives = { λ fault r. r ≡ fault_of_stream fault };

    fn from(fault: StreamFault) -> Fault {
        match fault {
            StreamFault::Read => Fault::ReadFailed,
            StreamFault::TooLong => Fault::TooLong,
            StreamFault::Write => Fault::WriteFailed,
        }
    }
}

impl From<AllocError> for Fault {
    ghost from_gives = { λ _ r. r ≡ NoMemory };

    fn from(_: AllocError) -> Fault {
        Fault::NoMemory
    }
}

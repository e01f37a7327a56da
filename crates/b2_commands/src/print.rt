//! Lines of output.

ghost use Rattle.std.specs.Prelude.{◌≡◌, ◌↔◌, ◌+◌, ◌*◌, ◌<◌, ◌≤◌, ◌∷◌, [], ◌++◌, length, decimal};
ghost use Rattle.std.specs.Prelude.{false, IsTrue, OnOk, IsOkUnless};
ghost use Rattle.std.specs.Result.{IsErrOf};
ghost use Rattle.std.specs.Io.KnownBytes.{Appends};
ghost use Rattle.hex.specs.Hex.{encode_lower};
ghost use Rattle.blake2.specs.Family.{blake2b, blake2s};
ghost use Rattle.blake2.specs.Streams.{line_of};
ghost use Rattle.b2_commands.specs.PrintedLines.{bytes_field, word_fields, number_field};
ghost use Rattle.b2_commands.specs.PrintedLines.{flag_field};

use crate::fault::Fault;
use blake2::streams::{Sink, write_whole};
use std::marker::Model;
use text_lines::{DECIMAL_BYTES, write_decimal};

// The length in bytes of eight words of BLAKE2b as fields, with 16 digits each. Each field has a
// space before it.
const BLAKE2B_WORDS_BYTES: usize = 8 * (1 + 16);

// The length in bytes of eight words of BLAKE2s as fields, with 8 digits each.
const BLAKE2S_WORDS_BYTES: usize = 8 * (1 + 8);

// The length in bytes of the longest number as a field.
const NUMBER_BYTES: usize = 1 + DECIMAL_BYTES;

// The length in bytes of a flag as a field.
const FLAG_BYTES: usize = 1 + 1;

// The length in bytes of a block of BLAKE2b as a field.
const BLOCK_BYTES: usize = 1 + 2 * 128;

/// The length in bytes of the longest line, that of a step of BLAKE2b: a letter, eight words, a
/// counter, a flag, a block and a newline.
pub(crate) const LINE_BYTES: usize = 1
    + BLAKE2B_WORDS_BYTES
    + NUMBER_BYTES
    + FLAG_BYTES
    + BLOCK_BYTES
    + 1;

/// A line that is built field by field, with a space before each. It has at most `LINE_BYTES`
/// bytes, and allocates nothing.
#[derive(Drop)]
pub(crate) struct Line {
    bytes: [u8; LINE_BYTES],
    length: usize,
}

impl Model for Line {
    ghost use Rattle.std.specs.Prelude.{ℕ, ◌≤◌, List, take};
    ghost use Rattle.b2_commands.specs.declared.print.TheConstants.{LINE_BYTES};

    ghost Value = { List ℕ };

    ghost view = { λ line. take line.length line.bytes };

    ghost invariant = { λ line. line.length ≤ LINE_BYTES };
}

impl Line {
    /// Returns a line of no bytes.
    pub(crate) fn new() -> Line
        ensures { result ≡ [] }
    {
        Line {
            bytes: [0; LINE_BYTES],
            length: 0,
        }
    }

    /// Returns a line of these bytes, at most `LINE_BYTES`.
    pub(crate) fn starting(text: &[u8]) -> Line
        requires { length text.now ≤ LINE_BYTES }
        ensures { result ≡ text.now }
    {
        let mut line = Line::new();
        line.push(text);
        line
    }

    /// Appends these bytes. The line must have room for them.
    pub(crate) fn push(&mut self, text: &[u8])
        requires { length self.old + length text.now ≤ LINE_BYTES }
        ensures { self.new ≡ self.old ++ text.now }
    {
        let end = self.length + text.len();
        let bytes = &mut self.bytes[..];
        bytes[self.length..end].copy_from_slice(text);
        self.length = end;
    }

    /// Appends two lower-case hexadecimal digits for each byte. The line must have room for them.
    pub(crate) fn push_hex(&mut self, bytes: &[u8])
        requires { length self.old + 2 * length bytes.now ≤ LINE_BYTES }
        ensures { self.new ≡ self.old ++ encode_lower bytes.now }
    {
        let end = self.length + 2 * bytes.len();
        let all = &mut self.bytes[..];
        hex::encode_to_slice(bytes, &mut all[self.length..end]).unwrap();
        self.length = end;
    }

    // Appends a field: a space, and two lower-case hexadecimal digits for each byte. The line
    // must have room for it.
    fn add_bytes(&mut self, bytes: &[u8])
        requires { length self.old + 2 * length bytes.now < LINE_BYTES }
        ensures added { self.new ≡ self.old ++ bytes_field bytes.now }
        ensures longer { length self.new ≡ length self.old + 2 * length bytes.now + 1 }
    {
        self.push(b" ");
        self.push_hex(bytes);
    }

    /// Appends a block as a field: a space, and two lower-case hexadecimal digits for each byte.
    /// The line must have room for it. It is a separate call, in which the compiler knows that
    /// the line and the block do not overlap; inlined, it needs a tenth more instructions.
    #[inline(never)]
    pub(crate) fn add_block(&mut self, block: &[u8])
        requires { length self.old + 2 * length block.now < LINE_BYTES }
        ensures added { self.new ≡ self.old ++ bytes_field block.now }
        ensures longer { length self.new ≡ length self.old + 2 * length block.now + 1 }
    {
        self.add_bytes(block);
    }

    /// Appends the words as fields: a space and 16 lower-case hexadecimal digits each. The line
    /// must have room for `BLAKE2B_WORDS_BYTES` bytes.
    pub(crate) fn add_words_of_64(&mut self, words: &[u64; 8])
        requires { length self.old + BLAKE2B_WORDS_BYTES ≤ LINE_BYTES }
        ensures added { self.new ≡ self.old ++ word_fields blake2b words.now }
        ensures longer { length self.new ≡ length self.old + BLAKE2B_WORDS_BYTES }
    {
        for word in words {
            self.add_bytes(&word.to_be_bytes());
        }
    }

    /// Appends the words as fields: a space and 8 lower-case hexadecimal digits each. The line
    /// must have room for `BLAKE2S_WORDS_BYTES` bytes.
    pub(crate) fn add_words_of_32(&mut self, words: &[u32; 8])
        requires { length self.old + BLAKE2S_WORDS_BYTES ≤ LINE_BYTES }
        ensures added { self.new ≡ self.old ++ word_fields blake2s words.now }
        ensures longer { length self.new ≡ length self.old + BLAKE2S_WORDS_BYTES }
    {
        for word in words {
            self.add_bytes(&word.to_be_bytes());
        }
    }

    /// Appends a number in decimal, without leading zeros. The line must have room for it.
    pub(crate) fn push_decimal(&mut self, n: u64)
        requires { length self.old + length (decimal n) ≤ LINE_BYTES }
        ensures { self.new ≡ self.old ++ decimal n }
    {
        let mut digits = [0u8; DECIMAL_BYTES];
        let start = write_decimal(n, &mut digits);
        let digits = &digits[..];
        self.push(&digits[start..]);
    }

    /// Appends a field: a space, and a number in decimal, without leading zeros. The line must
    /// have room for `NUMBER_BYTES` bytes, even if the number is shorter.
    pub(crate) fn add_number(&mut self, n: u64)
        requires { length self.old + NUMBER_BYTES ≤ LINE_BYTES }
        ensures added { self.new ≡ self.old ++ number_field n }
        ensures longer { length self.new ≤ length self.old + NUMBER_BYTES }
    {
        self.push(b" ");
        self.push_decimal(n);
    }

    /// Appends a field: a space, and `1` or `0`. The line must have room for it.
    pub(crate) fn add_flag(&mut self, flag: bool)
        requires { length self.old + FLAG_BYTES ≤ LINE_BYTES }
        ensures added { self.new ≡ self.old ++ flag_field flag }
        ensures longer { length self.new ≡ length self.old + FLAG_BYTES }
    {
        self.push(if flag { b" 1" } else { b" 0" });
    }

    /// Appends a newline, and writes the line. The line must have room for the newline, and the
    /// sink must not have failed before. The error is `Fault::WriteFailed`, if a write returns an
    /// error or accepts no byte.
    pub(crate) fn print<K: Sink>(&mut self, sink: &mut K) -> Result<(), Fault>
        requires room { length self.old < LINE_BYTES }
        requires sink { K.failed sink.old ≡ false }
        ensures write { IsErrOf result Fault.WriteFailed ↔ IsTrue (K.failed sink.new) }
        ensures fault { IsOkUnless result Fault.WriteFailed }
        ensures line { OnOk result
            (Appends (K.held sink.old) (K.held sink.new) (self.old ++ 10 ∷ [])) }
    {
        self.push(b"\n");
        let bytes = &self.bytes[..];
        write_whole(sink, &bytes[..self.length]).map_err(|_| Fault::WriteFailed)
    }
}

/// Prints a digest of at most 64 bytes as a line, two lower-case hexadecimal digits for each
/// byte. The sink must not have failed before. The error is `Fault::WriteFailed`, if a write
/// fails.
pub(crate) fn print_digest<K: Sink, const N: usize>(
    digest: &[u8; N],
    sink: &mut K,
) -> Result<(), Fault>
    requires size { N ≤ 64 }
    requires sink { K.failed sink.old ≡ false }
    ensures write { IsErrOf result Fault.WriteFailed ↔ IsTrue (K.failed sink.new) }
    ensures fault { IsOkUnless result Fault.WriteFailed }
    ensures line { OnOk result (Appends (K.held sink.old) (K.held sink.new) (line_of digest.now)) }
{
    print_bytes(digest, sink)
}

/// Prints at most 64 bytes as a line, as `print_digest` does.
pub(crate) fn print_bytes<K: Sink>(bytes: &[u8], sink: &mut K) -> Result<(), Fault>
    requires size { length bytes.now ≤ 64 }
    requires sink { K.failed sink.old ≡ false }
    ensures write { IsErrOf result Fault.WriteFailed ↔ IsTrue (K.failed sink.new) }
    ensures fault { IsOkUnless result Fault.WriteFailed }
    ensures line { OnOk result (Appends (K.held sink.old) (K.held sink.new) (line_of bytes.now)) }
{
    let mut line = Line::new();
    line.push_hex(bytes);
    line.print(sink)
}

//! The lines of a source, one after the other.

ghost use Rattle.std.specs.Prelude.{◌≡◌, ℕ, List, Option, [], true, length, IfOk, IsErr};
ghost use Rattle.std.specs.Io.KnownBytes.{Consumes, IsAtEnd};
ghost use Rattle.b2sum_commands.specs.LineReads.{LineIsCutOff, SourceIsAfterLine};

use crate::devices::OpenFile;
use blake2_streams::DeviceError;
use std::alloc::{AllocError, Global};
use std::marker::Model;
use text_lines::split_once;

// The number of bytes that a read requests.
const PIECE_BYTES: usize = 1 << 16;

/// What comes after a line.
#[derive(Clone, Copy, Debug, PartialEq, Eq)]
pub(crate) enum LineEnd {
    /// A newline.
    Newline,
    /// The end of the source.
    Last,
    /// A read that failed.
    Failure,
}

/// The bytes of a source that were read and are in no line yet.
#[derive(Drop)]
pub(crate) struct LineReader {
    piece: Vec<u8>,
    // Where these bytes are in the piece.
    start: usize,
    end: usize,
}

impl Model for LineReader {
    ghost use Rattle.std.specs.Prelude.{ℕ, ◌≤◌, ◌<◌, List, length, take, drop};

    ghost Value = { List ℕ };

    ghost view = { λ r. drop r.start (take r.end r.piece.items) };

    ghost invariant = { λ r.
        (r.start ≤ r.end) × (r.end ≤ length r.piece.items) × (0 < length r.piece.items) };
}

impl LineReader {
    /// Returns a reader of a source of which nothing was read. The error is that of the allocator,
    /// for a buffer of 64 KiB.
    pub(crate) fn new(alloc: Global) -> Result<LineReader, AllocError>
        ensures { IfOk result (λ reader. reader ≡ []) }
    {
        Ok(LineReader {
            piece: vec![in alloc; 0u8; PIECE_BYTES]?,
            start: 0,
            end: 0,
        })
    }

    /// Reads the next line of the source into `line`, without its newline. Returns what comes after
    /// it: if that is no newline, the line is what is left, which may be nothing.
    pub(crate) fn read_line<S: OpenFile>(
        &mut self,
        source: &mut S,
        line: &mut Vec<u8>,
    ) -> Result<LineEnd, AllocError>
        ensures line { IfOk result (λ end. (more : List ℕ) × (rest : Option (List ℕ))
            × Consumes (S.left source.old) rest more
            × LineIsCutOff end self.old more line.new.items self.new
            × SourceIsAfterLine end rest (S.left source.new) (S.failed source.new ≡ true)) }
        ensures name { S.named source.new ≡ S.named source.old }
    {
        line.clear();
        for _ in 0..u64::MAX {
            let unread = &self.piece.as_slice()[self.start..self.end];
            if let Some((part, after)) = split_once(unread, b'\n') {
                line.extend_from_slice(part)?;
                self.start = self.end - after.len();
                return Ok(LineEnd::Newline);
            }
            line.extend_from_slice(unread)?;
            match self.read_piece(source) {
                Err(_) => return Ok(LineEnd::Failure),
                Ok(0) => return Ok(LineEnd::Last),
                Ok(_) => {}
            }
        }
        Err(AllocError)
    }

    /// Returns the bytes that were read and are in no line yet.
    pub(crate) fn unread(&self) -> &[u8]
        ensures { result.now ≡ self.now }
    {
        &self.piece.as_slice()[self.start..self.end]
    }

    // Reads the next bytes of the source, in the place of those that were read before. Returns how
    // many they are: 0 at the end. The error is that of the read.
    fn read_piece<S: OpenFile>(&mut self, source: &mut S) -> Result<usize, DeviceError>
        ensures count { IfOk result (λ n. n ≡ length self.new) }
        ensures bytes { IfOk result
            (λ _. Consumes (S.left source.old) (S.left source.new) self.new) }
        ensures end { IfOk result (λ n. n ≡ 0 → IsAtEnd (S.left source.new)) }
        ensures failed { IsErr result → S.failed source.new ≡ true }
        ensures name { S.named source.new ≡ S.named source.old }
    {
        self.start = 0;
        self.end = 0;
        let count = source.read(self.piece.as_mut_slice())?;
        self.end = count;
        Ok(count)
    }
}

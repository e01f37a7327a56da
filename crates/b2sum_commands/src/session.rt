//! What a run works with.

ghost use Rattle.std.specs.Prelude.{◌≡◌, ◌<◌, ◌≤◌, ◌^◌, ◌∷◌, [], length, IfOk, IsErr, OnOk};
ghost use Rattle.b2sum_commands.specs.Manifests.{initial_place};
ghost use Rattle.b2sum_commands.specs.ProgramName.{program_name};
ghost use Rattle.b2sum_commands.specs.TextParts.{after_last};
ghost use Rattle.b2sum_lines.specs.declared.entry.Spacing.TheVariants.{Open};

use crate::devices::{OpenFile, Output};
use crate::options::Options;
use b2sum_lines::Spacing;
use blake2_streams::Sink;
use std::alloc::{AllocError, Global};
use std::marker::Model;

/// The number of bytes that one read requests, for most hash functions.
const PIECE_BYTES: usize = 1 << 16;

/// The memory of a run, and the name that its messages begin with.
#[derive(Drop)]
pub struct Program {
    /// The memory.
    pub alloc: Global,
    /// The name.
    pub name: Vec<u8>,
}

impl Program {
    /// Returns a program whose name is that of argument 0: what is after the last `/`, or `b2sum`
    /// if that is empty. The error is that of the allocator, for the name.
    pub fn new(alloc: Global, path: &[u8]) -> Result<Program, AllocError>
        ensures { IfOk result (λ p. p.name.items ≡ program_name path.now) }
    {
        let part = after_last(path, b'/');
        let name: &[u8] = if part.is_empty() { b"b2sum" } else { part };
        Ok(Program {
            alloc,
            name: Vec::from_slice(alloc, name)?,
        })
    }
}

/// Returns what is after the last such byte of a text, or all of it if there is none.
pub(crate) fn after_last(text: &[u8], byte: u8) -> &[u8]
    ensures part { result.now ≡ after_last byte text.now }
    ensures shorter { length result.now ≤ length text.now }
{
    let mut at = text.len();
    'part: while at > 0 && text[at - 1] != byte {
        at -= 1;
    }
    &text[at..]
}

/// The program, the hash functions and the files of a run.
#[derive(Drop)]
pub struct Host<H, D> {
    /// The program.
    pub program: Program,
    /// The hash functions.
    pub hashes: H,
    /// The files.
    pub disk: D,
}

/// The streams of a run, and what goes on from one file to the next.
#[derive(Drop)]
pub struct Session<F: OpenFile, K: Output, E: Sink> {
    pub(crate) input: F,
    pub(crate) output: K,
    pub(crate) messages: E,
    // What each read is for.
    pub(crate) buffer: Vec<u8>,
    pub(crate) place: Place,
}

/// The manifest that is checked, as far as it is read.
#[derive(Drop)]
pub(crate) struct Place {
    /// Its name.
    pub(crate) name: Vec<u8>,
    /// The spacing of its lines.
    pub(crate) spacing: Spacing,
    /// How many lines were read, at most 2^64 - 1.
    pub(crate) number: u64,
}

impl<F: OpenFile, K: Output, E: Sink> Model for Session<F, K, E> {
    ghost use Rattle.std.specs.Prelude.{◌≡◌, ◌<◌, ◌≤◌, ◌^◌, ◌∷◌, [], length};
    ghost use Rattle.b2sum_commands.specs.World.{Streams};

    ghost Value = { Streams };

    ghost view = { λ s. record {
      left = F.left s.input;
      held = K.held s.output;
      told = E.held s.messages;
      output_failed = K.failed s.output;
      output_error = K.failure s.output;
      messages_failed = E.failed s.messages;
      place = record {
        name = s.place.name.items;
        spacing = s.place.spacing;
        number = s.place.number;
      };
    } };

    ghost invariant = { λ s. (0 < length s.buffer.items) × (length s.buffer.items ≤ 2 ^ 24)
        × (F.named s.input ≡ 45 ∷ []) };
}

impl<F: OpenFile + Drop, K: Output + Drop, E: Sink + Drop> Session<F, K, E> {
    /// Returns a session with this standard input, which has the name `-`, output and messages. The
    /// error is that of the allocator, for a buffer of 64 KiB.
    pub fn new(alloc: Global, input: F, output: K, messages: E) -> Result<Self, AllocError>
        requires { F.named input ≡ 45 ∷ [] }
        ensures { IfOk result (λ s. s ≡ record {
          left = F.left input;
          held = K.held output;
          told = E.held messages;
          output_failed = K.failed output;
          output_error = K.failure output;
          messages_failed = E.failed messages;
          place = record { name = []; spacing = Open; number = 0 };
        }) }
    {
        let buffer = vec![in alloc; 0u8; PIECE_BYTES]?;
        Ok(Session {
            input,
            output,
            messages,
            buffer,
            place: Place {
                name: Vec::new(alloc),
                spacing: Spacing::Open,
                number: 0,
            },
        })
    }
}

impl<F: OpenFile, K: Output, E: Sink> Session<F, K, E> {
    /// Begins the check of the manifest of this name, whose spacing is not known yet. Under a key
    /// it has two bytes before each name.
    pub(crate) fn begin_manifest(
        &mut self,
        alloc: Global,
        options: &Options,
        name: &[u8],
    ) -> Result<(), AllocError>
        ensures begun { OnOk result
            (self.new ≡ record self.old { place = initial_place options.now name.now }) }
        ensures unbegun { IsErr result → self.new ≡ self.old }
    {
        let name = Vec::from_slice(alloc, name)?;
        let spacing = if options.needs.key {
            Spacing::Two
        } else {
            Spacing::Open
        };
        self.place = Place {
            name,
            spacing,
            number: 0,
        };
        Ok(())
    }

    /// Returns the spacing of the lines of the manifest that is checked.
    pub(crate) fn spacing(&self) -> Spacing
        ensures { result ≡ self.now.place.spacing }
    {
        self.place.spacing
    }

    /// Makes room for reads of this many bytes.
    pub(crate) fn make_room(&mut self, alloc: Global, size: usize) -> Result<(), AllocError>
        requires some { 0 < size }
        requires most { size ≤ 2 ^ 24 }
        ensures { self.new ≡ self.old }
    {
        if size > self.buffer.len() {
            self.buffer = vec![in alloc; 0u8; size]?;
        }
        Ok(())
    }
}

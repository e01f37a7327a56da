// Made by tools/twins.py from src/outputs/blake2xb.rt.
//! Outputs of BLAKE2Xs.

ghost use Rattle.std.specs.Prelude.{◌≡◌, ◌≢◌, ◌↔◌, ◌+◌, ◌<◌, ◌≤◌, take, drop};
ghost use Rattle.std.specs.Prelude.{false, IsErr, IsTrue, IfOk, OnOk, IsOkUnless};
ghost use Rattle.std.specs.Io.KnownBytes.{Appends};
ghost use Rattle.std.specs.Result.{IsErrOf};
ghost use Rattle.blake2.specs.Family.{blake2s};
ghost use Rattle.blake2.specs.MacArguments.{key_count};
ghost use Rattle.blake2_digest.specs.States.{Fresh, Updated};
ghost use Rattle.blake2_xof.specs.Blake2xs.{HasSqueezed, IsAbsorbing, IsReady, output_length_of};
ghost use Rattle.blake2_xof.specs.Blake2xs.{meaning};
ghost use Rattle.blake2_xof.specs.Blake2xs.{output_now};
ghost use Rattle.blake2_xof.specs.Xof.{unknown_length};
ghost use Rattle.b2_commands.specs.declared.fault.Fault.TheVariants.{ReadFailed, TooLong};
ghost use Rattle.b2_commands.specs.declared.fault.Fault.TheVariants.{WriteFailed};
ghost use Rattle.b2_commands.specs.PrintedLines.{output_text, piece_text};
ghost use Rattle.b2_commands.specs.TaskEnds.{EndsByPrinting};
ghost use Rattle.b2_commands.specs.ReadOptions.{given_options};
ghost use Rattle.b2_commands.specs.Tasks.{IsRefusedByFamily, output_with};

use crate::arguments::Options;
use crate::fault::Fault;
use blake2::digest::Update;
use blake2::streams::{Sink, Source, absorb_stream, write_whole};
use blake2_xof::blake2xs::State;
use std::marker::Model;

// The number of bytes of the output that are printed at a time.
const PIECE_BYTES: usize = 4096;

/// Prints the output of `size` bytes for all that the source returns, under the options: the bytes
/// if `raw` is true, and otherwise a line of digits. The number is at least 1 and is known in
/// advance. Neither device may have failed before. The errors are those of `xof`.
pub(crate) fn print_output<S: Source, K: Sink>(
    size: u64,
    raw: bool,
    options: &Options,
    source: &mut S,
    sink: &mut K,
) -> Result<(), Fault>
    requires some { 1 ≤ size }
    requires known { size < unknown_length blake2s }
    requires source { S.failed source.old ≡ false }
    requires sink { K.failed sink.old ≡ false }
    ensures length { IsErrOf result Fault.WrongLength
        ↔ IsRefusedByFamily blake2s (given_options options.now) }
    ensures read { IsErrOf result Fault.ReadFailed ↔ IsTrue (S.failed source.new) }
    ensures write { IsErrOf result Fault.WriteFailed ↔ IsTrue (K.failed sink.new) }
    ensures memory { result ≢ Err Fault.NoMemory }
    ensures ends { EndsByPrinting
        (λ message. output_text raw (output_with blake2s size (given_options options.now) message))
        (key_count blake2s (given_options options.now).key) result (S.left source.old)
        (K.held sink.old) (K.held sink.new) }
{
    let state = init_output(size, options)?;
    let mut absorbing = Absorbing { state };
    absorb_stream(source, &mut absorbing)?;
    print_next(&mut absorbing.into_state(), size, raw, sink)
}

// Returns a state that has absorbed no message, with an output of `size` bytes under the options.
// The number is at least 1 and is known in advance. The error is `Fault::WrongLength`, exactly if
// BLAKE2Xs does not accept a length of the options.
fn init_output(size: u64, options: &Options) -> Result<State, Fault>
    requires some { 1 ≤ size }
    requires known { size < unknown_length blake2s }
    ensures length { IsErr result ↔ IsRefusedByFamily blake2s (given_options options.now) }
    ensures fault { IsOkUnless result Fault.WrongLength }
    ensures absorbing { IfOk result (λ s. IsAbsorbing s) }
    ensures xof_length { IfOk result (λ s. s.reader.xof_length ≡ size) }
    ensures fresh { IfOk result (λ s. Fresh meaning
        (λ _ message. output_with blake2s size (given_options options.now) message)
        (key_count blake2s (given_options options.now).key) s) }
{
    if options.has_empty_key() {
        return Err(Fault::WrongLength);
    }
    match State::init(size, options.key_bytes(), options.salt(), options.persona()) {
        Ok(state) => Ok(state),
        Err(_) => Err(Fault::WrongLength),
    }
}

// A state that absorbs bytes, as what a stream is passed to.
#[derive(Drop)]
struct Absorbing {
    state: State,
}

impl Model for Absorbing {
    ghost use Rattle.blake2_xof.specs.declared.blake2xs.State.{State as Held};
    ghost use Rattle.blake2_xof.specs.Blake2xs.{IsAbsorbing};

    ghost Value = { Held };

    ghost view = { λ absorbing. absorbing.state };

    ghost invariant = { λ absorbing. IsAbsorbing absorbing.state };
}

impl Absorbing {
    // Returns the state.
    fn into_state(self) -> State
        ensures same { result ≡ self }
        ensures absorbing { IsAbsorbing result }
    {
        let Absorbing { state } = self;
        state
    }
}

impl Update for Absorbing {
    ghost meaning = { meaning };

    fn update(&mut self, input: &[u8]) {
        self.state.update(input);
    }

    fn counted(&self) -> u64 {
        self.state.counted()
    }
}

/// Prints the next `count` bytes of the output: as they are if `raw` is true, and otherwise as a
/// line, with two lower-case hexadecimal digits for each. The state must be ready and have that
/// many left, and the sink must not have failed before. The error is `Fault::WriteFailed`, if a
/// write fails.
pub(crate) fn print_next<K: Sink>(
    state: &mut State,
    count: u64,
    raw: bool,
    sink: &mut K,
) -> Result<(), Fault>
    requires ready { IsReady state.old }
    requires room { state.old.reader.position + count ≤ output_length_of state.old.reader }
    requires sink { K.failed sink.old ≡ false }
    ensures write { IsErrOf result Fault.WriteFailed ↔ IsTrue (K.failed sink.new) }
    ensures fault { IsOkUnless result Fault.WriteFailed }
    ensures bytes { OnOk result (Appends (K.held sink.old) (K.held sink.new)
        (output_text raw (take count (drop state.old.reader.position (output_now state.old))))) }
{
    let mut left = count;
    'printing: while left > 0 {
        let size = left.min(PIECE_BYTES as u64);
        print_piece(state, size as usize, raw, sink)?;
        left -= size;
    }
    if raw {
        return Ok(());
    }
    write_whole(sink, b"\n").map_err(|_| Fault::WriteFailed)
}

// Prints the next `size` bytes of the output, at most `PIECE_BYTES`: as they are if `raw` is true,
// and otherwise as two lower-case hexadecimal digits each. The state must be ready and have that
// many left, and the sink must not have failed before. The error is `Fault::WriteFailed`, if a
// write fails.
fn print_piece<K: Sink>(
    state: &mut State,
    size: usize,
    raw: bool,
    sink: &mut K,
) -> Result<(), Fault>
    requires ready { IsReady state.old }
    requires piece { size ≤ PIECE_BYTES }
    requires room { state.old.reader.position + size ≤ output_length_of state.old.reader }
    requires sink { K.failed sink.old ≡ false }
    ensures ready { IsReady state.new }
    ensures squeezed { HasSqueezed state.old size state.new }
    ensures write { IsErrOf result Fault.WriteFailed ↔ IsTrue (K.failed sink.new) }
    ensures fault { IsOkUnless result Fault.WriteFailed }
    ensures bytes { OnOk result (Appends (K.held sink.old) (K.held sink.new)
        (piece_text raw (take size (drop state.old.reader.position (output_now state.old))))) }
{
    let mut piece = [0u8; PIECE_BYTES];
    let mut digits = [0u8; 2 * PIECE_BYTES];
    let bytes = &mut piece[..size];
    state.squeeze(bytes);
    if raw {
        return write_whole(sink, bytes).map_err(|_| Fault::WriteFailed);
    }
    let text = &mut digits[..2 * size];
    hex::encode_to_slice(bytes, text).unwrap();
    write_whole(sink, text).map_err(|_| Fault::WriteFailed)
}

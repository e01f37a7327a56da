//! `b2 xof` and `b2 derive`: outputs of BLAKE2X.

ghost use Rattle.std.specs.Prelude.{◌≡◌, ◌↔◌, ◌<◌, ◌≤◌, false, length, IsTrue, OnOk, IsOkUnless};
ghost use Rattle.std.specs.Io.KnownBytes.{Appends};
ghost use Rattle.std.specs.Result.{IsErrOf};
ghost use Rattle.blake2.specs.Family.{blake2b};
ghost use Rattle.blake2_xof.specs.Xof.{derived_key, unknown_length};
ghost use Rattle.b2_commands.specs.PrintedLines.{output_text};
ghost use Rattle.b2_commands.specs.TaskEnds.{EndsTask};
ghost use Rattle.b2_commands.specs.ReadTasks.{derivation_task, xof_task_value};

mod blake2xb;
mod blake2xs;

use crate::fault::Fault;
use crate::input::fill;
use crate::output_arguments::{Derivation, Extended};
use crate::witness_arguments::Family;
use blake2::streams::{Sink, Source};
use blake2_xof::blake2xb::State;

// The number of bytes of the longest key.
const KEY_BYTES: usize = 64;

/// Prints the output for all that the source returns: its bytes if it is raw, and otherwise a line
/// of two digits for each byte. Neither device may have failed before. The error is a `Fault`:
/// `WrongLength` if the family does not accept a length of the options; `ReadFailed` if a read
/// returns an error; `TooLong` if the input, with the key's block if there is a key, has 2^64 bytes
/// or more; `WriteFailed` if a write fails. If it is not `WriteFailed`, nothing was printed.
pub(crate) fn xof<S: Source, K: Sink>(
    output: &Extended,
    source: &mut S,
    sink: &mut K,
) -> Result<(), Fault>
    requires source { S.failed source.old ≡ false }
    requires sink { K.failed sink.old ≡ false }
    ensures { EndsTask (xof_task_value output.now) result (S.left source.old)
        (S.failed source.new) (K.failed sink.new) (K.held sink.old) (K.held sink.new) }
{
    let (size, raw, options) = (output.length, output.raw, &output.options);
    match output.family {
        Family::Blake2b => blake2xb::print_output(size, raw, options, source, sink),
        Family::Blake2s => blake2xs::print_output(size, raw, options, source, sink),
    }
}

/// Prints the key that is derived for the context from a key, which is all that the source
/// returns: its bytes if it is raw, and otherwise a line of two digits for each byte. Neither
/// device may have failed before. The error is a `Fault`: `WrongLength` if the source returns no
/// byte or more than 64; `ReadFailed` if a read returns an error; `WriteFailed` if a write fails.
/// If it is not `WriteFailed`, nothing was printed.
pub(crate) fn derive<S: Source, K: Sink>(
    derivation: &Derivation,
    source: &mut S,
    sink: &mut K,
) -> Result<(), Fault>
    requires source { S.failed source.old ≡ false }
    requires sink { K.failed sink.old ≡ false }
    ensures { EndsTask (derivation_task derivation.now) result (S.left source.old)
        (S.failed source.new) (K.failed sink.new) (K.held sink.old) (K.held sink.new) }
{
    // A byte more than a key has shows that the input is too long.
    let mut room = [0u8; KEY_BYTES + 1];
    let filled = fill(source, &mut room)?;
    if filled == 0 || filled > KEY_BYTES {
        return Err(Fault::WrongLength);
    }
    let key = &room[..filled];
    let context = derivation.context.as_slice();
    print_derived(derivation.length, derivation.raw, key, context, sink)
}

// Prints the key of `size` bytes that is derived from a key, of 1 to 64 bytes, for the context: its
// bytes if `raw` is true, and otherwise a line of digits. The number is at least 1 and is known in
// advance. The sink must not have failed before. The error is `Fault::WriteFailed`, if a write
// fails.
fn print_derived<K: Sink>(
    size: u64,
    raw: bool,
    key: &[u8],
    context: &[u8],
    sink: &mut K,
) -> Result<(), Fault>
    requires some { 1 ≤ size }
    requires known { size < unknown_length blake2b }
    requires some_key { 1 ≤ length key.now }
    requires fits { length key.now ≤ 64 }
    requires sink { K.failed sink.old ≡ false }
    ensures write { IsErrOf result Fault.WriteFailed ↔ IsTrue (K.failed sink.new) }
    ensures fault { IsOkUnless result Fault.WriteFailed }
    ensures bytes { OnOk result (Appends (K.held sink.old) (K.held sink.new)
        (output_text raw (derived_key blake2b key.now context.now size))) }
{
    let mut state = State::init(size, key, b"", b"").unwrap();
    state.update(context);
    blake2xb::print_next(&mut state, size, raw, sink)
}

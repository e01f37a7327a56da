//! `b2 script`: the digests that the input's calls return.

ghost use Rattle.std.specs.Prelude.{◌≡◌, ◌≢◌, ◌≤◌, ◌↔◌, ℕ, Bool, List, false, IsTrue, OnOk};
ghost use Rattle.std.specs.Prelude.{IsOkUnless, length, map, take};
ghost use Rattle.std.specs.List.{flat_map};
ghost use Rattle.std.specs.Result.{IsErrOf};
ghost use Rattle.std.specs.Io.KnownBytes.{Appends};
ghost use Rattle.blake2.specs.States.{Fresh};
ghost use Rattle.blake2.specs.Streams.{line_of};
ghost use Rattle.blake2_state.specs.Runs.{meaning, padded_digest};
ghost use Rattle.b2_commands.specs.ReadScripts.{LineNumberFitsUsize};
ghost use Rattle.b2_commands.specs.Scripts.{fault_of_calls, script_digests};
ghost use Rattle.b2_commands.specs.TaskEnds.{EndsByPrintingDigests};

use crate::fault::Fault;
use crate::input::read_all;
use crate::print::print_bytes;
use crate::script_lines::{calls_of, read_script};
use blake2::calls::{ReplayFault, replay};
use blake2::streams::{Sink, Source};
use blake2_state::runs::Run;
use std::alloc::Global;

/// Prints the digests that the calls in the source's lines return, a line each: the first `size`
/// bytes, at most 64, of what the run returns. The state in slot 0 is the run, which has absorbed
/// nothing. All lines are read before the first call, and the script and its digests are held in
/// memory. Neither device may have failed before.
///
/// The error is a `Fault`: `ReadFailed` if a read returns an error; `WrongLine` if a line is not
/// a call; `NoSuchSlot` if a call names a slot that is absent or has ended; `LineTooLong` if an
/// update would bring its slot's count to 2^64 bytes or more; `NoMemory` if an allocation fails;
/// `WriteFailed` if a write fails. If it is not `WriteFailed`, nothing was printed.
pub(crate) fn script<S: Source, K: Sink>(
    alloc: Global,
    run: Run,
    size: usize,
    source: &mut S,
    sink: &mut K,
) -> Result<(), Fault>
    requires size { size ≤ 64 }
    requires source { S.failed source.old ≡ false }
    requires sink { K.failed sink.old ≡ false }
    ensures length { result ≢ Err Fault.WrongLength }
    ensures read { IsErrOf result Fault.ReadFailed ↔ IsTrue (S.failed source.new) }
    ensures write { IsErrOf result Fault.WriteFailed ↔ IsTrue (K.failed sink.new) }
    ensures ends { (digest : Bool → List ℕ → List ℕ) (n : ℕ)
        → Fresh meaning (padded_digest digest) n run
        → ((y : List ℕ) → length (digest false y) ≡ size)
        → EndsByPrintingDigests (script_digests (digest false) n) result (S.left source.old)
        (K.held sink.old) (K.held sink.new) }
{
    let text = read_all(alloc, source)?;
    let script = read_script(alloc, text.as_slice())?;
    let calls = calls_of(alloc, script.as_slice())?;
    match replay(alloc, run, calls.as_slice()) {
        Ok(digests) => print_lines(digests.as_slice(), size, sink),
        Err(fault) => Err(fault_of(fault)),
    }
}

// Returns the program's error for an error of a list of calls. Call i, from 0, is in line i + 1,
// which must fit a usize.
fn fault_of(fault: ReplayFault) -> Fault
    requires { LineNumberFitsUsize fault }
    ensures { result ≡ fault_of_calls fault }
{
    match fault {
        ReplayFault::NoSuchSlot(place) => Fault::NoSuchSlot(place + 1),
        ReplayFault::TooLong(place) => Fault::LineTooLong(place + 1),
        ReplayFault::Memory => Fault::NoMemory,
    }
}

// Prints the first `size` bytes, at most 64, of each digest as a line. The sink must not have
// failed before. The error is `Fault::WriteFailed`, if a write fails.
fn print_lines<K: Sink>(digests: &[[u8; 64]], size: usize, sink: &mut K) -> Result<(), Fault>
    requires size { size ≤ 64 }
    requires sink { K.failed sink.old ≡ false }
    ensures write { IsErrOf result Fault.WriteFailed ↔ IsTrue (K.failed sink.new) }
    ensures fault { IsOkUnless result Fault.WriteFailed }
    ensures lines { OnOk result (Appends (K.held sink.old) (K.held sink.new)
        (flat_map line_of (map (take size) digests.now))) }
{
    for digest in digests {
        print_bytes(&digest[..size], sink)?;
    }
    Ok(())
}

//! The lines of a script, read as calls.

ghost use Rattle.std.specs.Prelude.{◌≡◌, map, IfOk, IfErr, ok_or};
ghost use Rattle.b2_commands.specs.declared.fault.Fault.TheVariants.{WrongLine};
ghost use Rattle.b2_commands.specs.Scripts.{slot_value, call_of_numbered_line, script_calls};
ghost use Rattle.b2_commands.specs.Scripts.{update_of_fields};
ghost use Rattle.b2_commands.specs.ReadScripts.{call_value, without_address, IsScriptReadFault};

use crate::arguments::message_of;
use crate::fault::Fault;
use crate::numbers::number_of;
use blake2::calls::Call;
use std::alloc::{AllocError, Global};
use text_lines::{split_line, split_once};

/// A call of a script, which owns the bytes of an update. Slots are numbered from 0.
#[derive(Drop)]
pub(crate) enum ScriptCall {
    /// `u SLOT HEX`: the slot's state absorbs these bytes.
    Update(usize, Vec<u8>),
    /// `c SLOT`: a copy of the slot's state becomes the next slot.
    Clone(usize),
    /// `r SLOT`: the slot's state goes back to its start, and has then absorbed no message.
    Reset(usize),
    /// `f SLOT`: the slot's state returns its digest, and the slot ends.
    Finalize(usize),
    /// `d SLOT`: the slot's state returns its digest, and is reset.
    FinalizeReset(usize),
}

impl ScriptCall {
    // Returns the call in the line of this number, whose fields have one space between them. The
    // error is a `Fault`: `WrongLine` with this number if the line is not a call, `NoMemory` if
    // an allocation for the bytes of HEX fails.
    fn from_line(alloc: Global, number: usize, line: &[u8]) -> Result<ScriptCall, Fault>
        ensures call { IfOk result
            (λ call. call_of_numbered_line number line.now ≡ Ok (call_value call)) }
        ensures fault { IfErr result
            (λ fault. IsScriptReadFault fault (call_of_numbered_line number line.now)) }
    {
        let wrong = Fault::WrongLine(number);
        let Some((name, fields)) = split_once(line, b' ') else {
            return Err(wrong);
        };
        if let [b'u'] = name {
            return update_of(alloc, number, fields);
        }
        let Some(slot) = slot_of(fields) else {
            return Err(wrong);
        };
        match name {
            [b'c'] => Ok(ScriptCall::Clone(slot)),
            [b'r'] => Ok(ScriptCall::Reset(slot)),
            [b'f'] => Ok(ScriptCall::Finalize(slot)),
            [b'd'] => Ok(ScriptCall::FinalizeReset(slot)),
            _ => Err(wrong),
        }
    }

    // Returns the call, which borrows the bytes of an update.
    fn as_call(&self) -> Call<'_>
        ensures { without_address result ≡ call_value self.now }
    {
        match self {
            ScriptCall::Update(slot, bytes) => Call::Update(*slot, bytes.as_slice()),
            ScriptCall::Clone(slot) => Call::Clone(*slot),
            ScriptCall::Reset(slot) => Call::Reset(*slot),
            ScriptCall::Finalize(slot) => Call::Finalize(*slot),
            ScriptCall::FinalizeReset(slot) => Call::FinalizeReset(*slot),
        }
    }
}

// Returns the update with the fields SLOT and HEX, which are in the line of this number. The
// error is a `Fault`: `WrongLine` with this number if the fields are wrong, `NoMemory` if an
// allocation for the bytes of HEX fails.
fn update_of(alloc: Global, number: usize, fields: &[u8]) -> Result<ScriptCall, Fault>
    ensures call { IfOk result
        (λ call. ok_or (update_of_fields fields.now) (WrongLine number) ≡ Ok (call_value call)) }
    ensures fault { IfErr result
        (λ fault. IsScriptReadFault fault
        (ok_or (update_of_fields fields.now) (WrongLine number))) }
{
    let wrong = Fault::WrongLine(number);
    let Some((slot, digits)) = split_once(fields, b' ') else {
        return Err(wrong);
    };
    let Some(slot) = slot_of(slot) else {
        return Err(wrong);
    };
    match message_of(alloc, digits) {
        Ok(bytes) => Ok(ScriptCall::Update(slot, bytes)),
        Err(Fault::NoMemory) => Err(Fault::NoMemory),
        Err(_) => Err(wrong),
    }
}

/// Returns the calls of all lines of a script, in their order. Each line ends with a newline,
/// which the last line may lack. The error is a `Fault`: `WrongLine` with the number of the first
/// wrong line, counted from 1, or `NoMemory` if an allocation fails.
pub(crate) fn read_script(alloc: Global, text: &[u8]) -> Result<Vec<ScriptCall>, Fault>
    ensures calls { IfOk result
        (λ script. script_calls text.now ≡ Ok (map call_value script.items)) }
    ensures fault { IfErr result (λ fault. IsScriptReadFault fault (script_calls text.now)) }
{
    let mut script = Vec::new(alloc);
    let mut rest = text;
    'lines: while !rest.is_empty() {
        let (line, after) = split_line(rest);
        let call = ScriptCall::from_line(alloc, script.len() + 1, line)?;
        script.push(call).map_err(|_| Fault::NoMemory)?;
        rest = after;
    }
    Ok(script)
}

/// Returns the calls of a script in their order. They borrow its bytes. The error is
/// `AllocError`, if an allocation fails.
pub(crate) fn calls_of(alloc: Global, script: &[ScriptCall]) -> Result<Vec<Call<'_>>, AllocError>
    ensures { IfOk result (λ calls. map without_address calls.items ≡ map call_value script.now) }
{
    let mut calls = Vec::new(alloc);
    for call in script {
        calls.push(call.as_call())?;
    }
    Ok(calls)
}

// Returns the slot that a field names, in 1 to 9 decimal digits without a leading zero, or `None`
// if the field is anything else.
fn slot_of(digits: &[u8]) -> Option<usize>
    ensures { result ≡ slot_value digits.now }
{
    number_of(digits, 9)
}

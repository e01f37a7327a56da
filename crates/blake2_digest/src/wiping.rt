//! Zeros that a compiler keeps.
//!
//! A contract describes values, and a compiler may remove what is written to a value that nothing
//! reads afterwards. So no contract here promises that memory is zero: docs/WIPING.md of the
//! repository says what was seen in the machine code, and how to look again.

ghost use Rattle.std.specs.Prelude.{◌<◌, ◌^◌};

use std::hint;

// How many bytes of the stack are overwritten, below the frame of the caller.
const SCRUBBED_BYTES: usize = 4096;

/// Reads the bytes in a separate call, and pauses the processor once if one is not zero. It
/// changes nothing. What was written to the bytes before the call has to be in memory then, even
/// if nothing else reads them, so it follows the overwriting of a secret.
#[inline(never)]
pub fn settle<const N: usize>(bytes: &[u8; N]) {
    let mut bits = 0;
    for byte in bytes {
        bits |= *byte;
    }
    if bits != 0 {
        hint::spin_loop();
    }
}

// Returns the result of the call, which has a separate frame.
#[inline(never)]
fn in_own_frame<R, F: FnOnce() -> R>(call: F) -> R
    requires { F.pre call }
    ensures { F.post call result }
{
    call()
}

/// Writes `N` bytes of zeros, fewer than 2^63, over the stack below the caller's frame, on which
/// calls that have returned left copies of secrets.
#[inline(never)]
pub fn scrub_stack<const N: usize>()
    requires { N < 2 ^ 63 }
{
    let zeros = [0; N];
    settle(&zeros);
}

/// Returns the result of the call, whose frames on the stack are then overwritten with 4,096
/// bytes of zeros. Copies of a key that calls left there, such as those of a MAC that is moved,
/// are gone.
///
/// What the call reached further down the stack stays, as do the registers, the result itself,
/// and all that the call refers to: a state in a frame above needs its own `wipe`. A MAC of this
/// library needs less than 4,096 bytes of stack, as built by LLVM.
pub fn scrubbed<R, F: FnOnce() -> R>(call: F) -> R
    requires { F.pre call }
    ensures { F.post call result }
{
    let result = in_own_frame(call);
    scrub_stack::<SCRUBBED_BYTES>();
    result
}

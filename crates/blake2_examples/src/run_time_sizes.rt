//! Callers with sizes that are known at run time.

ghost use Rattle.std.specs.Prelude.{◌≡◌, ◌+◌, ◌^◌, ◌<◌, ◌↔◌, ◌⊎◌, [], length, None, OnOk, OnErr};
ghost use Rattle.std.specs.Prelude.{IsErr};
ghost use Rattle.blake2_simd.specs.Family.{blake2s};
ghost use Rattle.blake2.specs.States.{digest_of};

use blake2_digest::InvalidLength;
use blake2_state::StateParameters;
use blake2_state::blake2s::State;

/// Fills `out`, of 1 to 32 bytes, with the digest of the message. The error is `InvalidLength`,
/// exactly for another length. `out` then stays as it is.
pub fn fill(out: &mut [u8], message: &[u8]) -> Result<(), InvalidLength>
    requires { length message.now < 2 ^ 64 }
    ensures refused { IsErr result ↔ ((length out.old ≡ 0) ⊎ (32 < length out.old)) }
    ensures filled { OnOk result
        (out.new ≡ digest_of blake2s (length out.old) [] [] None message.now) }
    ensures same { OnErr result (out.new ≡ out.old) }
{
    let mut state = State::init_salt_personal(&StateParameters::keyed(out.len(), &[]))?;
    state.update(message);
    state.write_digest(out);
    Ok(())
}

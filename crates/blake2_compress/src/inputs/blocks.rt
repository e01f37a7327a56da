//! The blocks of an input's data (RFC 7693, 3.3).

ghost use Rattle.std.specs.Prelude.{◌≡◌, ◌+◌, ◌<◌, ◌≤◌, ◌*◌, ◌-◌, length, take, drop};
ghost use Rattle.std.specs.Prelude.{slice_index_or, []};
ghost use Rattle.blake2_simd.specs.Family.{Family, block_bytes};
ghost use Rattle.blake2_compress.specs.Hash;
ghost use Rattle.blake2_compress.specs.Hash.{input_data, blocks};
ghost use Rattle.blake2_compress.specs.Inputs.{Accepts};
ghost use Rattle.blake2_compress.specs.Views.{input_of, given_parameters, key_of};
ghost use Rattle.blake2_compress.specs.Run;

use super::Input;
use crate::params::Parameters;
use blake2_simd::padded;

/// Returns the number of bytes of an input's data: those of the message, and B for a key. The
/// family must accept the input.
pub fn counted<const B: usize>(input: &Input<'_>) -> u64
    ghost f: { Family }
    requires family { block_bytes f ≡ B }
    requires accepted { Accepts f (input_of input.now) }
    ensures { result ≡ length (input_data f (input_of input.now)) }
{
    let message = input.message.len() as u64;
    match input.key {
        None => message,
        Some(_) => B as u64 + message,
    }
}

// The length of the key, 0 without one.
pub(crate) fn key_size(key: &Option<&[u8]>) -> usize
    ensures { result ≡ Hash.key_size (key_of key.now) }
{
    match *key {
        None => 0,
        Some(key) => key.len(),
    }
}

/// Returns what the parameter block of an input names, for a digest of `output_size` bytes (RFC
/// 7693, 2.5).
pub fn input_parameters<'a>(input: &Input<'a>, output_size: usize) -> Parameters<'a>
    ensures { given_parameters result ≡ Hash.input_parameters output_size (input_of input.now) }
{
    Parameters {
        output_size,
        key_size: key_size(&input.key),
        salt: input.salt,
        persona: input.persona,
        tree: input.tree,
    }
}

/// Returns the number of blocks of an input's data, at least 1. The family must accept the input.
pub fn step_count<const B: usize>(input: &Input<'_>) -> u64
    ghost f: { Family }
    requires family { block_bytes f ≡ B }
    requires accepted { Accepts f (input_of input.now) }
    ensures { result ≡ Run.step_count f (input_of input.now) }
{
    counted::<B>(input).saturating_sub(1) / B as u64 + 1
}

// The block of the message from byte `from` on.
fn message_block<const B: usize>(message: &[u8], from: usize) -> [u8; B]
    requires { from ≤ length message.now }
    ensures { result ≡ Hash.padded B (take B (drop from message.now)) }
{
    let rest = &message[from..];
    padded(&rest[..rest.len().min(B)])
}

/// Returns block `i` of an input's data, counted from 0: B bytes, with zeros after the end of the
/// data. The family must accept the input, and `i` must be below the number of blocks.
pub fn block_at<const B: usize>(input: &Input<'_>, i: usize) -> [u8; B]
    ghost f: { Family }
    requires family { block_bytes f ≡ B }
    requires accepted { Accepts f (input_of input.now) }
    requires within { i < Run.step_count f (input_of input.now) }
    ensures { result ≡ slice_index_or (blocks f (input_data f (input_of input.now))) i [] }
{
    match input.key {
        None => message_block(input.message, i * B),
        Some(key) => {
            if i == 0 {
                padded(key)
            } else {
                message_block(input.message, (i - 1) * B)
            }
        },
    }
}

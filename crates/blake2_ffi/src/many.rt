//! What both families share for several messages.

ghost use Rattle.std.specs.Prelude.{◌≡◌, ◌≤◌, ◌<◌, ◌^◌, ◌*◌, ◌+◌, ◌++◌, ◌↔◌, length, take, drop};
ghost use Rattle.std.specs.Prelude.{IsTrue};
ghost use Rattle.std.specs.List.{All, flat_map};

use blake2_state::many::Text;

/// Writes the first `size` bytes, at most `N`, of each digest at the beginning of `out`, one
/// after the other. `out` must have room for them, and what is after them stays as it is.
pub(crate) fn write_digests<const N: usize>(out: &mut [u8], size: usize, digests: &[[u8; N]])
    requires size { size ≤ N }
    requires room { length digests.now * size ≤ length out.old }
    ensures { out.new ≡ flat_map (take size) digests.now
        ++ drop (length digests.now * size) out.old }
{
    for i in 0..digests.len() {
        let place = &mut out[i * size..i * size + size];
        if size == N {
            place.copy_from_slice(&digests[i]);
        } else {
            place.copy_from_slice(&digests[i][..size]);
        }
    }
}

/// Returns whether each message can be counted after `counted` bytes: the sum is below 2^64.
pub(crate) fn are_counted(counted: u64, texts: &[Text<'_>]) -> bool
    ensures { IsTrue result
        ↔ All (λ t. counted + length t.bytes.now < 2 ^ 64) texts.now }
{
    texts
        .iter()
        .all(|text| text.bytes.len() as u64 <= u64::MAX - counted)
}

/// Returns whether `room` is `count` times `size`.
pub(crate) fn is_room_for(room: usize, count: usize, size: usize) -> bool
    ensures { IsTrue result ↔ room ≡ count * size }
{
    room as u128 == count as u128 * size as u128
}

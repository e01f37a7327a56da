//! What the buffer passes on and what it keeps, on a core that counts.

ghost use Rattle.std.specs.Prelude.{◌+◌, ◌*◌, ◌^◌, ◌<◌, ◌≤◌, length};
ghost use Rattle.std.proofs.Common.{arith, length-append};

use blake2::digest::{Duplicate, LazyBuffer, Reset, UpdateCore, Wipe};
use std::marker::Model;

// A core that counts the blocks of 64 bytes that it absorbs.
struct Counter {
    blocks: u64,
}

impl Model for Counter {
    ghost use Rattle.std.specs.Prelude.{ℕ, ◌*◌, ◌^◌, ◌<◌};

    ghost Value = { ℕ };

    ghost view = { λ core. 64 * core.blocks };

    ghost invariant = { λ core. 64 * core.blocks < 2 ^ 64 };
}

impl UpdateCore<64> for Counter {
    ghost absorb = { λ count blocks. count + 64 * length blocks };

    ghost count = { λ count. count };

    fn update_blocks(&mut self, blocks: &[[u8; 64]]) {
        self.blocks += blocks.len() as u64;
    }

    fn counted(&self) -> u64 {
        64 * self.blocks
    }

    ghost absorb_join = { λ count xs ys. Prim.omega (arith, length-append xs ys) };

    ghost absorb_nothing = { λ count. Prim.omega arith };

    ghost count_grows = { λ count xs. Prim.omega arith };
}

// The number of blocks that are passed on, and of bytes that stay, if `pending` bytes are
// followed by this input.
fn blocks_passed_and_bytes_kept(pending: &[u8], input: &[u8]) -> (u64, usize)
    requires pending { length pending.now ≤ 64 }
    requires input { length input.now ≤ 128 }
{
    let mut core = Counter { blocks: 0 };
    let mut buffer = LazyBuffer::<64>::new(pending);
    buffer.digest_blocks(input, &mut core);
    let Counter { blocks } = core;
    (blocks, buffer.get_pos())
}

#[test]
fn last_full_block_is_kept_for_later(rt: HostRuntime) {
    let bytes = [42; 128];
    assert!(rt; blocks_passed_and_bytes_kept(&bytes[..64], &bytes[..0]) == (0, 64));
    assert!(rt; blocks_passed_and_bytes_kept(&bytes[..64], &bytes[..1]) == (1, 1));
    assert!(rt; blocks_passed_and_bytes_kept(&bytes[..64], &bytes) == (2, 64));
    assert!(rt; blocks_passed_and_bytes_kept(&bytes[..0], &bytes[..64]) == (0, 64));
    assert!(rt; blocks_passed_and_bytes_kept(&bytes[..0], &bytes[..65]) == (1, 1));
}

#[test]
fn copies_reset_and_wipe_of_a_buffer(rt: HostRuntime) {
    let mut buffer = LazyBuffer::<4>::new(b"abc");
    let mut copy = buffer.clone().expect(&rt, "a clone");
    let mut twin = buffer.duplicate();
    buffer.reset();
    assert!(rt; buffer.pad_with_zeros() == [0; 4]);
    assert!(rt; copy.pad_with_zeros() == *b"abc\0");
    assert!(rt; copy.get_pos() == 0);
    twin.wipe();
    assert!(rt; twin.get_pos() == 3);
    assert!(rt; twin.pad_with_zeros() == [0; 4]);
    assert!(rt; LazyBuffer::<4>::default().get_pos() == 0);
}

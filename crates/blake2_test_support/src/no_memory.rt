//! Memory that is refused, for tests of several crates.

ghost use Rattle.std.specs.Prelude.{◌≤◌};

use std::alloc::{AllocError, Global};

/// How many bytes a hoard leaves to the tests of the libraries.
pub const SPARE_BYTES: usize = 65_536;

/// How often these try: each time with 16 bytes more than before, and first with none.
pub const TRIES: usize = 512;

/// Allocates all memory of the process except a number of bytes that lie together, in blocks that
/// halve, down to the smallest.
///
/// A process has 2^47 bytes of addresses, and a machine with a GiB of memory grants blocks of half
/// of that, so that 300,000 blocks are enough; there is room for them from the start. The turns
/// are more than the blocks and the sizes together, so that the smallest size ends the loop.
pub fn allocate_all_memory_but(
    alloc: Global,
    spare_bytes: usize,
) -> Result<Vec<Vec<u8>>, AllocError> {
    let mut blocks = Vec::with_capacity(alloc, 300_000)?;
    let spare: Vec<u8> = Vec::with_capacity(alloc, spare_bytes)?;
    let mut size = 1usize << 46;
    for _ in 0..400_000 {
        if size < 16 {
            break;
        }
        match Vec::with_capacity(alloc, size) {
            Ok(block) => blocks.push(block)?,
            Err(_) => size /= 2,
        }
    }
    drop(spare);
    Ok(blocks)
}

/// Allocates the spare bytes that a hoard left, except a number of them.
pub fn allocate_spare_bytes_but(alloc: Global, left: usize) -> Result<Vec<u8>, AllocError>
    requires { left ≤ 65536 }
{
    Vec::with_capacity(alloc, SPARE_BYTES - left)
}

/// Whether requests for a byte of memory, and for sixteen, are refused.
pub fn are_small_allocations_refused(alloc: Global) -> bool {
    let one: Result<Vec<u8>, AllocError> = Vec::with_capacity(alloc, 1);
    let sixteen: Result<Vec<u8>, AllocError> = Vec::with_capacity(alloc, 16);
    one.is_err() && sixteen.is_err()
}

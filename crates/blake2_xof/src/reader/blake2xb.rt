//! The output of BLAKE2Xb.

ghost use Rattle.std.specs.Prelude.{◌≡◌, ℕ, ◌+◌, ◌-◌, ◌*◌, ◌%◌, ◌^◌, ◌<◌, ◌≤◌, ◌↔◌, [], ◌++◌};
ghost use Rattle.std.specs.Prelude.{IsTrue, length, take, drop, slice_index_or};
ghost use Rattle.blake2_simd.specs.Family.{blake2b};
ghost use Rattle.blake2_simd.specs.Lanes.{in_lane};
ghost use Rattle.blake2_simd.specs.Rows.{chaining_words};
ghost use Rattle.blake2_compress.specs.Hash;
ghost use Rattle.blake2_compress.specs.Hash.{padded as filled, start};
ghost use Rattle.blake2_xof.specs.Blake2xb.{HasRead, IsReadable, output_length_of, wiped_reader};
ghost use Rattle.blake2_xof.specs.Blake2xb.{output_of};
ghost use Rattle.blake2_xof.specs.Blake2xb.{settings_of};
ghost use Rattle.blake2_xof.specs.Xof.{block_parameters, block_size, output_block, output_length};
ghost use Rattle.blake2_xof.specs.Xof.{unknown_length};

use crate::lanes::blake2xb::last_of_four;
use blake2_compress::compress::Flags;
use blake2_compress::compress::blake2b::{compress, to_bytes, to_words};
use blake2_compress::many::blake2b as many;
use blake2_compress::params::blake2b::start_of;
use blake2_digest::padded;
use blake2_simd::rows::u64x4;

/// The XOF length that says that the length of the output is not known in advance.
pub const UNKNOWN_LENGTH: u64 = 0xffff_ffff;

// The number of bytes of the output with this XOF length.
#[inline(always)]
fn output_length(xof_length: u64) -> u64
    ensures { result ≡ output_length blake2b xof_length }
{
    if xof_length == UNKNOWN_LENGTH {
        64 << 32
    } else {
        xof_length
    }
}

/// The output of BLAKE2Xb as plain numbers, which is read in pieces. All values of the fields are
/// readers, and none is unsafe. A reader returns bytes if it is ready ([`Reader::is_ready`]).
#[repr(C)]
#[derive(Drop)]
pub struct Reader {
    /// The root hash.
    pub root: [u8; 64],
    /// The salt and the persona, each padded with zeros to 16 bytes.
    pub texts: [u8; 32],
    /// The XOF length: that of the output, 1 to 2^32 - 2, or `UNKNOWN_LENGTH`.
    pub xof_length: u64,
    /// The number of bytes that were read.
    pub position: u64,
}

impl Reader {
    // A reader of the output with this salt and persona, before its root hash is known.
    pub(crate) fn new(xof_length: u64, salt: &[u8], persona: &[u8]) -> Self
        requires salt { length salt.now ≤ 16 }
        requires persona { length persona.now ≤ 16 }
        ensures xof_length { result.xof_length ≡ xof_length }
        ensures position { result.position ≡ 0 }
        ensures salt { take 16 result.texts ≡ filled 16 salt.now }
        ensures persona { drop 16 result.texts ≡ filled 16 persona.now }
    {
        let mut texts = [0; 32];
        texts[..16].copy_from_slice(&padded::<16>(salt));
        texts[16..].copy_from_slice(&padded::<16>(persona));
        Reader {
            root: [0; 64],
            texts,
            xof_length,
            position: 0,
        }
    }

    /// Returns the zeroed reader, from which nothing can be read.
    pub fn zeros() -> Self
        ensures { result ≡ wiped_reader }
    {
        Reader {
            root: [0; 64],
            texts: [0; 32],
            xof_length: 0,
            position: 0,
        }
    }

    /// Returns whether bytes can be read: the length is one of BLAKE2Xb's, and the position is
    /// within the output.
    pub fn is_ready(&self) -> bool
        ensures { IsTrue result ↔ IsReadable self.now }
    {
        self.xof_length >= 1
            && self.xof_length <= UNKNOWN_LENGTH
            && self.position <= output_length(self.xof_length)
    }

    /// Returns how many bytes are left to read.
    pub fn left(&self) -> u64
        requires { IsReadable self.now }
        ensures { result ≡ output_length_of self.now - self.now.position }
    {
        output_length(self.xof_length) - self.position
    }

    // The number of bytes of block `i`.
    #[inline(always)]
    fn block_size(&self, i: u64) -> u64
        requires { i < 2 ^ 32 }
        ensures size { result ≡ block_size blake2b self.now.xof_length i }
        ensures short { result ≤ 64 }
    {
        output_length(self.xof_length)
            .saturating_sub(64 * i)
            .min(64)
    }

    // The parameter block of block `i`.
    fn parameter_block(&self, i: u64) -> [u8; 64]
        requires ready { IsReadable self.now }
        requires block { i < 2 ^ 32 }
        ensures { result
            ≡ Hash.parameter_block blake2b (block_parameters blake2b (settings_of self.now) i) }
    {
        let offset = i + self.xof_length * 0x1_0000_0000;
        let mut block = [0; 64];
        block[0] = self.block_size(i) as u8;
        block[4] = 64;
        block[8..16].copy_from_slice(&offset.to_le_bytes());
        block[17] = 64;
        block[32..].copy_from_slice(&self.texts);
        block
    }

    // The words that block `i` starts from.
    fn block_start_rows(&self, i: u64) -> [u64x4; 2]
        requires ready { IsReadable self.now }
        requires block { i < 2 ^ 32 }
        ensures { chaining_words result
            ≡ start blake2b (block_parameters blake2b (settings_of self.now) i) }
    {
        start_of(&self.parameter_block(i))
    }

    // The last chaining words of block `i`, which begin with it.
    fn block(&self, i: u64) -> [u8; 64]
        requires ready { IsReadable self.now }
        requires block { i < 2 ^ 32 }
        ensures { take (block_size blake2b self.now.xof_length i) result
            ≡ output_block blake2b (settings_of self.now) self.now.root i }
    {
        let mut h = self.block_start_rows(i);
        let block = padded::<128>(&self.root);
        compress(&mut h, &block, 64, Flags::last_block(false));
        to_bytes(&h)
    }

    // The rows of the words that blocks `i` to `i + 3` start from.
    #[inline(always)]
    fn four_rows(&self, i: u64) -> [u64x4; 8]
        requires ready { IsReadable self.now }
        requires blocks { i + 3 < 2 ^ 32 }
        ensures { (j : ℕ) → j < 4 → in_lane j result
            ≡ start blake2b (block_parameters blake2b (settings_of self.now) (i + j)) }
    {
        many::interleave(&[
            to_words(&self.block_start_rows(i)),
            to_words(&self.block_start_rows(i + 1)),
            to_words(&self.block_start_rows(i + 2)),
            to_words(&self.block_start_rows(i + 3)),
        ])
    }

    // Reads four blocks at the beginning of `out`, in parallel.
    fn read_four_blocks(&mut self, out: &mut [u8])
        requires ready { IsReadable self.old }
        requires aligned { self.old.position % 64 ≡ 0 }
        requires long { 256 ≤ length out.old }
        requires room { self.old.position + length out.old ≤ output_length_of self.old }
        ensures ready { IsReadable self.new }
        ensures read { HasRead self.old 256 self.new }
        ensures output { out.new ≡ take 256 (drop self.old.position (output_of self.old))
            ++ drop 256 out.old }
    {
        let rows = self.four_rows(self.position / 64);
        let blocks = last_of_four(&rows, &padded::<128>(&self.root), 64);
        out[..256].copy_from_slice(blocks.as_flattened());
        self.position += 256;
    }

    // Reads bytes of one block at the beginning of `out`, at least one. Returns how many.
    fn read_from_block(&mut self, out: &mut [u8]) -> usize
        requires ready { IsReadable self.old }
        requires some { 0 < length out.old }
        requires room { self.old.position + length out.old ≤ output_length_of self.old }
        ensures some { 0 < result }
        ensures within { result ≤ length out.old }
        ensures ready { IsReadable self.new }
        ensures read { HasRead self.old result self.new }
        ensures output { out.new ≡ take result (drop self.old.position (output_of self.old))
            ++ drop result out.old }
    {
        let block = self.block(self.position / 64);
        let from = (self.position % 64) as usize;
        let count = out.len().min(64 - from);
        out[..count].copy_from_slice(&block[from..from + count]);
        self.position += count as u64;
        count
    }

    // Reads bytes at the beginning of `out`, at least one, in the way that is faster on this
    // processor. Returns how many.
    fn read_some(&mut self, out: &mut [u8]) -> usize
        requires ready { IsReadable self.old }
        requires some { 0 < length out.old }
        requires room { self.old.position + length out.old ≤ output_length_of self.old }
        ensures some { 0 < result }
        ensures within { result ≤ length out.old }
        ensures ready { IsReadable self.new }
        ensures read { HasRead self.old result self.new }
        ensures output { out.new ≡ take result (drop self.old.position (output_of self.old))
            ++ drop result out.old }
    {
        if many::best_lane_count() >= 4 && out.len() >= 256 && self.position % 64 == 0 {
            self.read_four_blocks(out);
            return 256;
        }
        self.read_from_block(out)
    }

    /// Reads the next bytes of the output into `out`. No more than `left` returns may be read.
    pub fn read(&mut self, out: &mut [u8])
        requires ready { IsReadable self.old }
        requires room { self.old.position + length out.old ≤ output_length_of self.old }
        ensures ready { IsReadable self.new }
        ensures read { HasRead self.old (length out.old) self.new }
        ensures output { out.new
            ≡ take (length out.old) (drop self.old.position (output_of self.old)) }
    {
        let mut done = 0;
        while done < out.len() {
            done += self.read_some(&mut out[done..]);
        }
    }
}

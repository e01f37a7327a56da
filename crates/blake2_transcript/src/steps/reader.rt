//! Whether entries are those of a run, and the key and the message of one, for blocks of any
//! length.

ghost use Rattle.std.specs.Prelude.{◌≡◌, ◌+◌, ◌<◌, ◌≤◌, ◌*◌, ◌^◌, ◌↔◌, length, map, take, IsTrue};
ghost use Rattle.std.specs.Prelude.{IfOk, slice_index, EachIndex};
ghost use Rattle.blake2_simd.specs.Family.{Family, block_bytes, salt_bytes};
ghost use Rattle.blake2_compress.specs.Hash.{Fits};
ghost use Rattle.blake2_compress.specs.Views.{given_parameters};
ghost use Rattle.blake2_transcript.specs.StepViews.{entry_of, key_bytes_of, input_of_reading};
ghost use Rattle.blake2_transcript.specs.Reader.{AreInnerEntries, AreWholeBlocks, EndsRun, HasKey};
ghost use Rattle.blake2_transcript.specs.Reader.{IsInnerEntry};
ghost use Rattle.blake2_transcript.specs.Reader.{IsRun, HasWholeBlock, IsZeroFrom, described_count};
ghost use Rattle.blake2_transcript.specs.Reader.{described_data};
ghost use Rattle.blake2_transcript.specs.Reader.{described_input, described_key, described_message};
ghost use Rattle.blake2_transcript.specs.Transcript.{joined_blocks};

use super::{Entry, Reading};
use blake2_compress::params::Parameters;
use blake2_simd::padded;
use std::alloc::{AllocError, Global};

// Whether each byte is zero.
fn is_zero(bytes: &[u8]) -> bool
    ensures { IsTrue result ↔ EachIndex bytes.now (λ i. slice_index bytes.now i ≡ 0) }
{
    bytes.iter().all(|byte| *byte == 0)
}

// Whether the block is zero from byte `from` on.
fn is_zero_from<const B: usize>(block: &[u8; B], from: usize) -> bool
    requires { from ≤ B }
    ensures zero { IsTrue result ↔ IsZeroFrom from block.now }
    ensures whole { length block.now ≡ B }
{
    let bytes = &block[..];
    is_zero(&bytes[from..])
}

// Whether the entry, at index i, is one that others follow.
fn is_inner<const B: usize>(entry: Entry<B>, i: u64) -> bool
    ghost f: { Family }
    requires family { block_bytes f ≡ B }
    requires fits { (i + 1) * B < 2 ^ 64 }
    ensures inner { IsTrue result ↔ IsInnerEntry f i (entry_of entry.entry) }
    ensures whole { HasWholeBlock f (entry_of entry.entry) }
{
    !entry.last && !entry.last_node && entry.counter == (i + 1) * B as u64
}

// Whether each entry is one that others follow.
fn are_inner<const B: usize>(entries: &[Entry<B>]) -> bool
    ghost f: { Family }
    requires family { block_bytes f ≡ B }
    ensures inner { IsTrue result ↔ AreInnerEntries f (map entry_of entries.now) }
    ensures whole { IsTrue result → AreWholeBlocks f (map entry_of entries.now) }
{
    for (i, entry) in entries.iter().enumerate() {
        if !is_inner(*entry, i as u64) {
            return false;
        }
    }
    true
}

// Whether the entry is the last, after `before` others.
fn ends_run<const B: usize>(entry: Entry<B>, before: usize) -> bool
    ghost f: { Family }
    requires family { block_bytes f ≡ B }
    ensures ends { IsTrue result ↔ EndsRun f before (entry_of entry.entry) }
    ensures whole { HasWholeBlock f (entry_of entry.entry) }
{
    entry.last && (entry.counter.saturating_sub(1) / B as u64) as usize == before
}

// Whether the entries are those of a run over some data.
pub(crate) fn is_run<const B: usize>(entries: &[Entry<B>]) -> bool
    ghost f: { Family }
    requires family { block_bytes f ≡ B }
    ensures run { IsTrue result ↔ IsRun f (map entry_of entries.now) }
    ensures whole { IsTrue result → AreWholeBlocks f (map entry_of entries.now) }
    ensures counter { IsTrue result → described_count (map entry_of entries.now) < 2 ^ 64 }
{
    let Some((last, before)) = entries.split_last() else {
        return false;
    };
    if !ends_run(*last, before.len()) {
        return false;
    }
    let counted_before = before.len() as u64 * B as u64;
    are_inner(before) && is_zero_from(&last.block, (last.counter - counted_before) as usize)
}

// Whether the data begins with the block of a key of `key_size` bytes.
pub(crate) fn has_key<const B: usize>(entries: &[Entry<B>], key_size: usize) -> bool
    ghost f: { Family }
    requires family { block_bytes f ≡ B }
    requires size { key_size ≤ B }
    ensures { IsTrue result ↔ HasKey f key_size (map entry_of entries.now) }
{
    let (Some(first), Some(last)) = (entries.first(), entries.last()) else {
        return false;
    };
    last.counter >= B as u64 && is_zero_from(&first.block, key_size)
}

// The bytes of the blocks, up to `length` bytes.
fn bytes_of_blocks<const B: usize>(
    alloc: Global,
    entries: &[Entry<B>],
    length: usize,
) -> Result<Vec<u8>, AllocError>
    ensures { IfOk result (λ v. v.items ≡ take length (joined_blocks (map entry_of entries.now))) }
{
    let mut bytes = Vec::with_capacity(alloc, length)?;
    for entry in entries {
        let block = &entry.block[..];
        let count = block.len().min(length - bytes.len());
        bytes.extend_from_slice(&block[..count])?;
    }
    Ok(bytes)
}

// The key, if its size is not 0, and the message.
fn key_and_message<const B: usize>(
    alloc: Global,
    entries: &[Entry<B>],
    key_size: usize,
) -> Result<(Option<Vec<u8>>, Vec<u8>), AllocError>
    ghost f: { Family }
    requires family { block_bytes f ≡ B }
    requires size { key_size ≤ B }
    requires run { IsRun f (map entry_of entries.now) }
    requires whole { AreWholeBlocks f (map entry_of entries.now) }
    requires key { 0 < key_size → HasKey f key_size (map entry_of entries.now) }
    ensures key { IfOk result
        (λ p. key_bytes_of p.0
        ≡ described_key key_size (described_data (map entry_of entries.now))) }
    ensures message { IfOk result
        (λ p. p.1.items
        ≡ described_message f key_size (described_data (map entry_of entries.now))) }
{
    let counted = entries[entries.len() - 1].counter as usize;
    if key_size == 0 {
        return Ok((None, bytes_of_blocks(alloc, entries, counted)?));
    }
    let key = entries[0].block[..key_size].to_vec(alloc)?;
    let message = bytes_of_blocks(alloc, &entries[1..], counted - B)?;
    Ok((Some(key), message))
}

// What the entries of a run are read as, under the parameters that its words name.
pub(crate) fn input_of_entries<const B: usize, const S: usize>(
    alloc: Global,
    told: &Parameters<'_>,
    entries: &[Entry<B>],
) -> Result<Reading<S>, AllocError>
    ghost f: { Family }
    requires block { block_bytes f ≡ B }
    requires salt { salt_bytes f ≡ S }
    requires fits { Fits f (given_parameters told.now) }
    requires key_size { told.now.key_size ≤ B }
    requires run { IsRun f (map entry_of entries.now) }
    requires whole { AreWholeBlocks f (map entry_of entries.now) }
    requires key { 0 < told.now.key_size → HasKey f told.now.key_size (map entry_of entries.now) }
    ensures size { IfOk result (λ x. x.output_size ≡ told.now.output_size) }
    ensures input { IfOk result (λ x. input_of_reading x
        ≡ described_input f (given_parameters told.now) (map entry_of entries.now)) }
{
    let (key, message) = key_and_message(alloc, entries, told.key_size)?;
    Ok(Reading {
        output_size: told.output_size,
        salt: padded(told.salt),
        persona: padded(told.persona),
        key,
        tree: told.tree,
        last_node: entries[entries.len() - 1].last_node,
        message,
    })
}

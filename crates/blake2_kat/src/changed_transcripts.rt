//! Long transcripts, and those with one change: the reader returns nothing, or an input that has
//! just the changed transcript. How many are read is what `tests/expected_values.py` finds, under
//! `forged`, and the digests of long ones are its, under `transcripts`.

ghost use Rattle.std.specs.Prelude.{◌≤◌};

use crate::checks::{check_digest_of, transcript};
use crate::families::Word;
use blake2::transcripts::{Entry, Transcript};
use blake2_test_support::inputs::{fill_with_counting_bytes, input, unkeyed};
use std::process::Abort;

// Whether the transcript is read under these words, with another entry at this index.
fn is_read_with_changed_entry<W: Word<B>, const B: usize>(
    rt: &(impl Abort + AllocGlobal),
    told: &Transcript<W, B>,
    words: [W; 8],
    place: usize,
    entry: Entry<B>,
) -> bool
    requires { B ≤ 128 }
{
    let mut changed = transcript(rt, words, told.entries.as_slice());
    if let Some(other) = changed.entries.get_mut(place) {
        *other = entry;
    }
    W::is_read(rt, &changed)
}

// Whether the transcript is read with two entries exchanged.
fn is_read_with_entries_swapped<W: Word<B>, const B: usize>(
    rt: &(impl Abort + AllocGlobal),
    told: &Transcript<W, B>,
    i: usize,
    j: usize,
) -> bool
    requires { B ≤ 128 }
{
    let mut changed = transcript(rt, told.words, told.entries.as_slice());
    let entries = changed.entries.as_mut_slice();
    if i < entries.len() && j < entries.len() {
        entries.swap(i, j);
    }
    W::is_read(rt, &changed)
}

// How many transcripts are read of those with one bit of a word turned: of the sizes that the
// first word begins with, and of the words of salt and persona. The words between are checked
// separately. A word has B / 2 bits, since a block has sixteen words.
fn count_read_with_flipped_word_bit<W: Word<B>, const B: usize>(
    rt: &(impl Abort + AllocGlobal),
    told: &Transcript<W, B>,
) -> (u32, u32)
    requires { B ≤ 128 }
{
    let mut sizes = 0u32;
    let mut texts = 0u32;
    let Some(first) = told.entries.first() else {
        return (0, 0);
    };
    for place in 0..8 {
        for bit in 0..B / 2 {
            let mut words = told.words;
            if let Some(word) = words.get_mut(place) {
                *word = word.with_bit_flipped(bit);
            }
            let is_read = is_read_with_changed_entry(rt, told, words, 0, *first);
            sizes = sizes.saturating_add(u32::from(is_read && place == 0 && bit < 16));
            texts = texts.saturating_add(u32::from(is_read && place >= 4));
        }
    }
    (sizes, texts)
}

// An entry with one bit turned: of its counter, then of one of its two flags, then of its block.
fn entry_with_flipped_bit<const B: usize>(entry: &Entry<B>, bit: usize) -> Entry<B> {
    let mut other = *entry;
    if bit < 64 {
        other.counter ^= 1u64.wrapping_shl(bit as u32);
    } else if bit == 64 {
        other.last = !entry.last;
    } else if bit == 65 {
        other.last_node = !entry.last_node;
    } else if let Some(byte) = other.block.get_mut((bit - 66) / 8) {
        *byte ^= 1u8.wrapping_shl(((bit - 66) % 8) as u32);
    }
    other
}

// How many transcripts are read of those with one bit of an entry turned: of a counter, of one of
// the two flags, and of a block.
fn count_read_with_flipped_entry_bit<W: Word<B>, const B: usize>(
    rt: &(impl Abort + AllocGlobal),
    told: &Transcript<W, B>,
) -> (u32, u32, u32)
    requires { B ≤ 128 }
{
    let (mut counters, mut flags, mut blocks) = (0u32, 0u32, 0u32);
    for (place, entry) in told.entries.iter().enumerate() {
        for bit in 0..66 + 8 * B {
            let other = entry_with_flipped_bit(entry, bit);
            let is_read = is_read_with_changed_entry(rt, told, told.words, place, other);
            counters = counters.saturating_add(u32::from(is_read && bit < 64));
            flags = flags.saturating_add(u32::from(is_read && 64 <= bit && bit < 66));
            blocks = blocks.saturating_add(u32::from(is_read && 66 <= bit));
        }
    }
    (counters, flags, blocks)
}

// Whether the transcript is read with these entries instead of its entries.
fn is_read_with_entries<W: Word<B>, const B: usize>(
    rt: &(impl Abort + AllocGlobal),
    told: &Transcript<W, B>,
    entries: &[Entry<B>],
) -> bool
    requires { B ≤ 128 }
{
    let changed = transcript(rt, told.words, entries);
    W::is_read(rt, &changed)
}

// Whether the transcript is read with one more entry after its entries.
fn is_read_with_entry_added<W: Word<B>, const B: usize>(
    rt: &(impl Abort + AllocGlobal),
    told: &Transcript<W, B>,
    more: Entry<B>,
) -> bool
    requires { B ≤ 128 }
{
    let mut longer = transcript(rt, told.words, told.entries.as_slice());
    longer.entries.push(more).expect(rt, "room for an entry");
    W::is_read(rt, &longer)
}

// Checks that no other list of the same entries is read: none that lacks its first or its last
// ones, none that has one of them twice, and none that has two of them exchanged.
fn check_no_other_entry_list_is_read<W: Word<B>, const B: usize>(
    rt: &(impl Abort + AllocGlobal),
    told: &Transcript<W, B>,
)
    requires { B ≤ 128 }
{
    let entries = told.entries.as_slice();
    for (i, first) in entries.iter().enumerate() {
        let is_beginning_read = is_read_with_entries(rt, told, &entries[..i]);
        assert!(rt; !is_beginning_read, "{i}");
        let is_end_read = is_read_with_entries(rt, told, &entries[i + 1..]);
        assert!(rt; !is_end_read, "{i}");
        assert!(rt; !is_read_with_entry_added(rt, told, *first), "{i}");
        for j in 0..i {
            assert!(rt; !is_read_with_entries_swapped(rt, told, i, j), "{i} {j}");
        }
    }
}

// Checks a transcript that is read and all its changes, and how many of these are read.
fn check_read_and_its_changes<W: Word<B>, const B: usize>(
    rt: &(impl Abort + AllocGlobal),
    told: &Transcript<W, B>,
    words: (u32, u32),
    entries: (u32, u32, u32),
)
    requires { B ≤ 128 }
{
    assert!(rt; W::is_read(rt, told));
    assert!(rt;
        count_read_with_flipped_word_bit(rt, told) == words,
        "{words:?}"
    );
    assert!(rt;
        count_read_with_flipped_entry_bit(rt, told) == entries,
        "{entries:?}"
    );
    check_no_other_entry_list_is_read(rt, told);
}

#[test]
fn changed_transcripts_of_blake2b_are_read(rt: HostRuntime) {
    let message = [0x2a; 200];
    let told = u64::transcript_of_accepted(&rt, &unkeyed(&message[..128]), 64);
    check_read_and_its_changes(&rt, &told, (1, 256), (0, 1, 1024));
    let told = u64::transcript_of_accepted(&rt, &unkeyed(&message[..129]), 64);
    check_read_and_its_changes(&rt, &told, (1, 256), (6, 1, 1032));
    let keyed = input(Some(&[1]), b"abc", b"0123456789abcdef", &message);
    let told = u64::transcript_of_accepted(&rt, &keyed, 64);
    check_read_and_its_changes(&rt, &told, (7, 256), (5, 1, 1608));
}

#[test]
fn changed_transcripts_of_blake2s_are_read(rt: HostRuntime) {
    let message = [0x2a; 100];
    let told = u32::transcript_of_accepted(&rt, &unkeyed(&message[..64]), 32);
    check_read_and_its_changes(&rt, &told, (1, 128), (0, 1, 512));
    let told = u32::transcript_of_accepted(&rt, &unkeyed(&message[..65]), 32);
    check_read_and_its_changes(&rt, &told, (1, 128), (5, 1, 520));
    let keyed = input(Some(&[1]), b"abc", b"01234567", &message);
    let told = u32::transcript_of_accepted(&rt, &keyed, 32);
    check_read_and_its_changes(&rt, &told, (6, 128), (4, 1, 808));
}

// Checks that a transcript is read, and the digest of all its entries: for each the counter, low
// byte first, the flag and the block.
fn check_long_transcript<W: Word<B>, const B: usize>(
    rt: &(impl Abort + AllocGlobal),
    told: &Transcript<W, B>,
    wanted: &str,
)
    requires { B ≤ 128 }
{
    assert!(rt; W::is_read(rt, told), "{wanted}");
    let mut bytes = Vec::new(rt.alloc());
    for entry in &told.entries {
        let counter = entry.counter.to_le_bytes();
        for piece in [counter.as_slice(), &[u8::from(entry.last)], &entry.block] {
            bytes
                .extend_from_slice(piece)
                .expect(rt, "room for entries");
        }
    }
    check_digest_of(rt, bytes.as_slice(), wanted);
}

#[test]
fn long_transcripts_of_blake2b_are_read(rt: HostRuntime) {
    let mut message = [0; 5000];
    fill_with_counting_bytes(&mut message);
    let told = u64::transcript_of_accepted(&rt, &input(None, b"abc", b"", &message), 64);
    let wanted = "627c8498d916e3c73578b3d3a0867789b206876e18b85c6df87fd17b6ef61cf2";
    check_long_transcript(&rt, &told, wanted);
    let told = u64::transcript_of_accepted(&rt, &input(Some(b"key"), b"abc", b"", &message), 64);
    let wanted = "39dfbca685e20c68df095466a71ddbe744b8709eceb51e17c600634eeeade99c";
    check_long_transcript(&rt, &told, wanted);
}

#[test]
fn long_transcripts_of_blake2s_are_read(rt: HostRuntime) {
    let mut message = [0; 5000];
    fill_with_counting_bytes(&mut message);
    let told = u32::transcript_of_accepted(&rt, &input(None, b"abc", b"", &message), 32);
    let wanted = "c41cdc40bb9aa198750f6166224cf6da97940a05281ff7770bc948b695cdf0ed";
    check_long_transcript(&rt, &told, wanted);
    let told = u32::transcript_of_accepted(&rt, &input(Some(b"key"), b"abc", b"", &message), 32);
    let wanted = "b3c7f5521bfe970ac92d42852d1a70abbce5df9be93269d4ed4797656fa93b21";
    check_long_transcript(&rt, &told, wanted);
}

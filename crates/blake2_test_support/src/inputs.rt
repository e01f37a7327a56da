//! A key, lengths, tree parameters, messages and pieces that several tests share; and inputs,
//! entries, steps and readings.

ghost use Rattle.std.specs.Prelude.{◌≡◌, ◌≤◌, [], length};

use blake2::calls::Call;
pub use blake2::digest::padded;
use blake2::transcripts::{Entry, Input, Reading, Step, Transcript, Tree};
use std::alloc::{AllocError, Global};

/// The bytes 0 to 31.
pub const KEY: [u8; 32] = [
    0, 1, 2, 3, 4, 5, 6, 7, 8, 9, 10, 11, 12, 13, 14, 15, 16, 17, 18, 19, 20, 21, 22, 23, 24, 25,
    26, 27, 28, 29, 30, 31,
];

/// The words of BLAKE2b for the output size 64, a key of one byte, the salt `abc` and the persona
/// `0123456789abcdef`.
pub const WORDS: [u64; 8] = [
    0x01010140,
    0,
    0,
    0,
    0x636261,
    0,
    0x3736353433323130,
    0x6665646362613938,
];

/// Calls that return the digest of `abc` twice, and then that of no bytes.
pub const CALLS: [Call<'static>; 7] = [
    Call::Update(0, b"ab"),
    Call::Clone(0),
    Call::Update(0, b"c"),
    Call::FinalizeReset(0),
    Call::Update(1, b"c"),
    Call::Finalize(1),
    Call::Finalize(0),
];

/// Lengths in bytes about the ends of blocks, and of two blocks.
pub const LENGTHS: [usize; 11] = [0, 1, 63, 64, 65, 127, 128, 129, 255, 256, 257];

/// A node's place: the eighth of its level, over leaves, in a tree of two levels.
pub fn non_root_tree_node() -> Tree {
    Tree {
        fanout: 3,
        depth: 2,
        leaf_length: 4096,
        node_offset: 7,
        node_depth: 1,
        inner_length: 32,
    }
}

/// Fills the bytes with 0 to 250, again and again.
pub fn fill_with_counting_bytes(bytes: &mut [u8]) {
    for (i, byte) in bytes.iter_mut().enumerate() {
        *byte = (i % 251) as u8;
    }
}

/// The number that a row begins with, and what is after it and a bar.
pub fn split_leading_number(row: &str) -> Option<(usize, &str)> {
    let (number, rest) = row.split_once('|')?;
    Some((number.parse().ok()?, rest))
}

/// Whether these digits, two for each byte, are the bytes in hexadecimal.
pub fn has_hex_digits(bytes: &[u8], digits: &str) -> bool {
    let mut decoded = [0u8; 128];
    match decoded.get_mut(..bytes.len()) {
        Some(room) => hex::decode_to_slice(digits, room).is_ok() && *room == *bytes,
        None => false,
    }
}

/// An input of these parts, of a hash that is the whole tree, with the last-node flag off.
pub fn input<'a>(
    key: Option<&'a [u8]>,
    salt: &'a [u8],
    persona: &'a [u8],
    message: &'a [u8],
) -> Input<'a>
    ensures salt { result.salt.now ≡ salt.now }
    ensures persona { result.persona.now ≡ persona.now }
{
    Input {
        salt,
        persona,
        key,
        tree: Tree::sequential(),
        last_node: false,
        message,
    }
}

/// An input without key, salt and persona.
pub fn unkeyed<'a>(message: &'a [u8]) -> Input<'a>
    ensures salt { result.salt.now ≡ [] }
    ensures persona { result.persona.now ≡ [] }
{
    input(None, b"", b"", message)
}

/// An entry whose block has zeros after these bytes, with the last-node flag off.
pub fn entry<const B: usize>(beginning: &[u8], counter: u64, last: bool) -> Entry<B>
    requires { length beginning.now ≤ B }
{
    Entry {
        block: padded(beginning),
        counter,
        last,
        last_node: false,
    }
}

/// A transcript of these words and entries. The error is `AllocError`, if an allocation fails.
pub fn transcript<W: Drop, const B: usize>(
    alloc: Global,
    words: [W; 8],
    entries: &[Entry<B>],
) -> Result<Transcript<W, B>, AllocError> {
    let entries = entries.to_vec(alloc)?;
    Ok(Transcript { words, entries })
}

/// A step whose block has zeros after these bytes, with the last-node flag off.
pub fn step<W: Drop, const B: usize>(
    chain: [W; 8],
    beginning: &[u8],
    counter: u64,
    last: bool,
) -> Step<W, B>
    requires { length beginning.now ≤ B }
{
    Step {
        chain,
        block: padded(beginning),
        counter,
        last,
        last_node: false,
    }
}

/// A last step of BLAKE2b, whose chaining words are the start words after the first of them: IV's
/// (RFC 7693, 2.6).
pub fn blake2b_last_step(first_word: u64, beginning: &[u8], counter: u64) -> Step<u64, 128>
    requires { length beginning.now ≤ 128 }
{
    let chain = [
        first_word,
        0xbb67ae8584caa73b,
        0x3c6ef372fe94f82b,
        0xa54ff53a5f1d36f1,
        0x510e527fade682d1,
        0x9b05688c2b3e6c1f,
        0x1f83d9abfb41bd6b,
        0x5be0cd19137e2179,
    ];
    step(chain, beginning, counter, true)
}

/// A last step of BLAKE2s, whose chaining words are the start words after the first of them.
pub fn blake2s_last_step(first_word: u32, beginning: &[u8], counter: u64) -> Step<u32, 64>
    requires { length beginning.now ≤ 64 }
{
    let chain = [
        first_word, 0xbb67ae85, 0x3c6ef372, 0xa54ff53a, 0x510e527f, 0x9b05688c, 0x1f83d9ab,
        0x5be0cd19,
    ];
    step(chain, beginning, counter, true)
}

/// What a transcript of this input and output size is read as. The error is `AllocError`, if an
/// allocation fails.
pub fn reading<const S: usize>(
    alloc: Global,
    input: &Input<'_>,
    output_size: usize,
) -> Result<Reading<S>, AllocError>
    requires salt { length input.now.salt.now ≤ S }
    requires persona { length input.now.persona.now ≤ S }
{
    let key = match input.key {
        Some(key) => Some(key.to_vec(alloc)?),
        None => None,
    };
    Ok(Reading {
        output_size,
        salt: padded(input.salt),
        persona: padded(input.persona),
        key,
        tree: input.tree,
        last_node: input.last_node,
        message: input.message.to_vec(alloc)?,
    })
}

/// The input that a reading names.
pub fn input_of_reading<'a, const S: usize>(read: &'a Reading<S>) -> Input<'a> {
    let key = match &read.key {
        Some(key) => Some(key.as_slice()),
        None => None,
    };
    Input {
        tree: read.tree,
        last_node: read.last_node,
        ..input(key, &read.salt, &read.persona, read.message.as_slice())
    }
}

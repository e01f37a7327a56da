//! What the tests share.

use std::process::Abort;

// A row: the length of the message, that of the key, and the digest.
fn parse_row(row: &str) -> Option<(usize, usize, &str)> {
    let (length, rest) = row.split_once(' ')?;
    let (key_length, digits) = rest.split_once(' ')?;
    Some((length.parse().ok()?, key_length.parse().ok()?, digits))
}

/// What a row says. The lengths fit the tests' buffers.
pub(crate) fn read<'a>(rt: &impl Abort, row: &'a str) -> (usize, usize, &'a str) {
    let (length, key_length, digits) = parse_row(row).expect(rt, row);
    assert!(rt; length <= 4096 && key_length <= 64, "{row}");
    (length, key_length, digits)
}

/// The message of the tests: byte i is 7·i modulo 251.
pub(crate) fn message() -> [u8; 4096] {
    let mut bytes = [0; 4096];
    for i in 0..4096usize {
        bytes[i] = (i * 7 % 251) as u8;
    }
    bytes
}

/// The first 1,000 bytes of that message.
pub(crate) fn thousand() -> [u8; 1000] {
    let mut bytes = [0; 1000];
    for i in 0..1000usize {
        bytes[i] = (i * 7 % 251) as u8;
    }
    bytes
}

/// The key of the tests: byte i is i + 1.
pub(crate) fn key() -> [u8; 64] {
    let mut bytes = [0; 64];
    for i in 0..64usize {
        bytes[i] = (i + 1) as u8;
    }
    bytes
}

/// The first 32 bytes of that key.
pub(crate) fn short_key() -> [u8; 32] {
    let mut bytes = [0; 32];
    for i in 0..32usize {
        bytes[i] = (i + 1) as u8;
    }
    bytes
}

/// Whether these digits, two for each byte, are the bytes in hexadecimal.
pub(crate) fn has_hex_digits(bytes: &[u8], digits: &str) -> bool {
    let mut decoded = [0u8; 64];
    match decoded.get_mut(..bytes.len()) {
        Some(room) => hex::decode_to_slice(digits, room).is_ok() && *room == *bytes,
        None => false,
    }
}

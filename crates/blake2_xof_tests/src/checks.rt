//! What the tests share.

use std::process::Abort;

// A row: the XOF length, the lengths of the message and of the key, and the output.
fn parse_row(row: &str) -> Option<(u64, usize, usize, &str)> {
    let (xof_length, rest) = row.split_once(' ')?;
    let (length, rest) = rest.split_once(' ')?;
    let (key_length, digits) = rest.split_once(' ')?;
    Some((
        xof_length.parse().ok()?,
        length.parse().ok()?,
        key_length.parse().ok()?,
        digits,
    ))
}

/// What a row says. The lengths fit the tests' buffers.
pub(crate) fn read<'a>(rt: &impl Abort, row: &'a str) -> (u64, usize, usize, &'a str) {
    let (xof_length, length, key_length, digits) = parse_row(row).expect(rt, row);
    assert!(rt; length <= 256 && key_length <= 64, "{row}");
    (xof_length, length, key_length, digits)
}

/// The message of the tests, whose beginning is the key: byte i is i.
pub(crate) fn message() -> [u8; 256] {
    let mut bytes = [0; 256];
    for i in 0..256usize {
        bytes[i] = i as u8;
    }
    bytes
}

/// Whether these digits, two for each byte, are the bytes in hexadecimal.
pub(crate) fn has_hex_digits(bytes: &[u8], digits: &str) -> bool {
    let mut decoded = [0u8; 512];
    match decoded.get_mut(..bytes.len()) {
        Some(room) => hex::decode_to_slice(digits, room).is_ok() && *room == *bytes,
        None => false,
    }
}

//! Several messages in parallel, without and with keys: inputs against the digests of Python's
//! hashlib, each of 16 bytes, one after the other in hexadecimal.

ghost use Rattle.std.specs.Prelude.{◌≤◌};

mod blake2b;
mod blake2b_eight;
mod blake2s;

use blake2::transcripts::Input;
use blake2_test_support::inputs::{fill_with_counting_bytes, input, split_leading_number, unkeyed};

// Bytes that count up from 0, and begin anew after 250.
fn counting_bytes() -> [u8; 4306] {
    let mut bytes = [0; 4306];
    fill_with_counting_bytes(&mut bytes);
    bytes
}

// The first n bytes of a message: they count up from its start, and begin anew after 250.
fn counting_message<'a>(bytes: &'a [u8; 4306], start: usize, n: usize) -> &'a [u8]
    requires start { start ≤ 210 }
    requires bytes { n ≤ 4096 }
{
    &bytes[start..start + n]
}

// Eight inputs, each of the first n bytes of its message, which are what a row says. Under keys,
// each key is a byte shorter than the one before. Every other node is the last of its level.
fn eight_inputs_of_kind<'a>(
    bytes: &'a [u8; 4306],
    n: usize,
    what: &str,
    key: &'a [u8],
) -> [Input<'a>; 8]
    requires { n ≤ 4096 }
{
    let mut inputs = [
        unkeyed(counting_message(bytes, 0, n)),
        input(None, b"salt", b"", counting_message(bytes, 30, n)),
        input(None, b"", b"persona", counting_message(bytes, 60, n)),
        input(
            None,
            b"01234567",
            b"76543210",
            counting_message(bytes, 90, n),
        ),
        input(None, b"s", b"p", counting_message(bytes, 120, n)),
        input(None, b"", b"two", counting_message(bytes, 150, n)),
        input(None, b"saltier", b"", counting_message(bytes, 180, n)),
        unkeyed(counting_message(bytes, 210, n)),
    ];
    for (j, input) in inputs.iter_mut().enumerate() {
        if what == "keyed" {
            input.key = key.get(j..);
        }
        input.last_node = what == "nodes" && j % 2 == 1;
    }
    inputs
}

// An input of these two.
fn input_with_key<'a>(key: &'a [u8], message: &'a [u8]) -> Input<'a> {
    input(Some(key), b"", b"", message)
}

// What a row says: what the inputs are, the length of their messages, and their digests.
fn read_row(row: &str) -> (&str, usize, &str) {
    let (what, rest) = row.split_once('|').unwrap_or((row, ""));
    let (n, wanted) = split_leading_number(rest).unwrap_or((usize::MAX, row));
    (what, n, wanted)
}

//! The witnesses of two inputs with equal digests. Start words are IV's (RFC 7693, 2.6) xored
//! with those of the parameter block (2.5). The chaining words after a first block come from a
//! plain program of the compression (3.2) in Python, whose digests are those of `hashlib`.

use crate::families::Word;
use blake2::transcripts::Input;
use blake2::{Blake2b, Digest};
use blake2_test_support::inputs::{
    blake2b_last_step, blake2s_last_step, input, padded, step, unkeyed,
};

// An input that has only a salt.
fn input_with_salt<'a>(salt: &'a [u8]) -> Input<'a> {
    input(None, salt, b"", b"")
}

// An input that has only a key.
fn input_with_key<'a>(key: &'a [u8]) -> Input<'a> {
    input(Some(key), b"", b"", b"")
}

#[test]
fn no_witness_of_equal_or_unequal_digests(rt: HostRuntime) {
    for (a, b) in [
        (unkeyed(b""), unkeyed(b"")),
        (unkeyed(b"a"), unkeyed(b"a")),
        (input_with_salt(b"a"), input_with_salt(b"a\0")),
    ] {
        let (length, salt) = (a.message.len(), a.salt.len());
        for output_size in [0, 64] {
            let found = u64::witness(&rt, &a, &b, output_size);
            assert!(rt; found == Ok(None), "BLAKE2b {length} {salt} {output_size}");
        }
        for output_size in [0, 32] {
            let found = u32::witness(&rt, &a, &b, output_size);
            assert!(rt; found == Ok(None), "BLAKE2s {length} {salt} {output_size}");
        }
    }
    let (a, b) = (unkeyed(b"abc"), unkeyed(b""));
    assert!(rt; u64::witness(&rt, &a, &b, 64) == Ok(None));
    assert!(rt; u32::witness(&rt, &a, &b, 32) == Ok(None));
}

#[test]
fn witness_of_key_and_of_its_block_as_input(rt: HostRuntime) {
    let block: [u8; 128] = padded(b"a");
    let found = u64::witness(&rt, &input_with_key(b"a"), &unkeyed(&block), 0);
    let x = blake2b_last_step(0x6a09e667f2bdc808, b"a", 128);
    let y = blake2b_last_step(0x6a09e667f2bdc908, b"a", 128);
    assert!(rt; found == Ok(Some((x, y))));
    let block: [u8; 64] = padded(b"a");
    let found = u32::witness(&rt, &input_with_key(b"a"), &unkeyed(&block), 0);
    let x = blake2s_last_step(0x6b08e767, b"a", 64);
    let y = blake2s_last_step(0x6b08e667, b"a", 64);
    assert!(rt; found == Ok(Some((x, y))));
}

#[test]
fn witness_of_different_numbers_of_steps(rt: HostRuntime) {
    let message = [0x2a; 129];
    let found = u64::witness(&rt, &unkeyed(&message[..128]), &unkeyed(&message), 0);
    let chain = [
        0x13673313fdf2b8ad,
        0xb2290069c00c8332,
        0xf1c7ba3e554d5ede,
        0x384f0de614d42172,
        0x5bd0fb2a674f5189,
        0xc4e5778b61ba5d4d,
        0x2f2ba951b4342179,
        0xa82e70ad2c8be8bd,
    ];
    let x = blake2b_last_step(0x6a09e667f2bdc908, &message[..128], 128);
    let y = step(chain, &message[..1], 129, true);
    assert!(rt; found == Ok(Some((x, y))));
}

// Two of the 257 messages of two bytes that are the numbers 0 to 256 that have equal digests of
// one byte.
fn messages_with_equal_1_byte_digests() -> Option<(u16, u16)> {
    let mut seen = [None; 256];
    for number in 0..257u16 {
        let digest = Blake2b::<1>::digest(&number.to_be_bytes());
        if let [byte] = digest.as_slice() {
            let place = *byte as usize;
            if let Some(other) = seen[place] {
                return Some((other, number));
            }
            seen[place] = Some(number);
        }
    }
    None
}

#[test]
fn witness_of_equal_1_byte_digests(rt: HostRuntime) {
    let Some((a, b)) = messages_with_equal_1_byte_digests() else {
        assert!(rt; false, "no equal digests");
        return;
    };
    assert!(rt; a != b);
    let (a, b) = (a.to_be_bytes(), b.to_be_bytes());
    let word = 0x6a09e667f2bdc909;
    let (x, y) = (
        blake2b_last_step(word, &a, 2),
        blake2b_last_step(word, &b, 2),
    );
    assert!(rt; u64::witness(&rt, &unkeyed(&a), &unkeyed(&b), 1) == Ok(Some((x, y))));
}

//! The lengths of keys, salts and personas that are accepted, and those that are refused. The
//! expected digests of the outputs are those of `tests/expected_values.py`, under `lengths`.

use crate::checks::update_checked;
use blake2::digest::{FixedOutput, InvalidLength, KeyInit};
use blake2::{Blake2b256, Blake2bMac512, Blake2bVarCore, Blake2sMac256, Blake2sVarCore, Digest};
use blake2_test_support::inputs::{fill_with_counting_bytes, has_hex_digits, input};
use std::process::Abort;

// Checks one choice of parts: all functions agree on whether they are accepted, and their output
// is absorbed.
fn check_if_parts_are_accepted<M: FixedOutput<N> + Drop, const N: usize>(
    rt: &impl Abort,
    outputs: &mut Blake2b256,
    lengths: (Option<usize>, usize, usize),
    is_taken: bool,
    is_accepted: bool,
    mac: Result<M, InvalidLength>,
) {
    assert!(rt;
        is_accepted == is_taken && mac.is_ok() == is_taken,
        "{lengths:?}"
    );
    if let Ok(mac) = mac {
        update_checked(rt, outputs, mac.finalize_fixed().as_slice());
    }
}

#[test]
fn blake2b_accepts_exactly_right_lengths(rt: HostRuntime) {
    let mut bytes = [0; 129];
    fill_with_counting_bytes(&mut bytes);
    let mut outputs = Blake2b256::new();
    for (key_size, key_fits) in [
        (None, true),
        (Some(0), false),
        (Some(1), true),
        (Some(64), true),
        (Some(65), false),
        (Some(128), false),
        (Some(129), false),
    ] {
        let key = match key_size {
            Some(size) => bytes.get(..size),
            None => None,
        };
        if let Some(key) = key {
            assert!(rt;
                Blake2bMac512::new_from_slice(key).is_ok() == key_fits,
                "{key_size:?}"
            );
        }
        for (salt, salt_fits) in [(0, true), (16, true), (17, false), (32, false)] {
            for (persona, persona_fits) in [(0, true), (16, true), (17, false), (32, false)] {
                assert!(rt; salt <= 32 && persona <= 32);
                let lengths = (key_size, salt, persona);
                let (salt, persona) = (&bytes[..salt], &bytes[..persona]);
                check_if_parts_are_accepted(
                    &rt,
                    &mut outputs,
                    lengths,
                    key_fits && salt_fits && persona_fits,
                    Blake2bVarCore::accepts(&input(key, salt, persona, b"")),
                    Blake2bMac512::new_with_salt_and_personal(key, salt, persona),
                );
            }
        }
    }
    let wanted = "2bc28563443138e0cf3754d214c674c2e6da1f7ee80dc3c053aa22feb84ecde3";
    assert!(rt; has_hex_digits(&outputs.finalize(), wanted));
}

#[test]
fn blake2s_accepts_exactly_right_lengths(rt: HostRuntime) {
    let mut bytes = [0; 65];
    fill_with_counting_bytes(&mut bytes);
    let mut outputs = Blake2b256::new();
    for (key_size, key_fits) in [
        (None, true),
        (Some(0), false),
        (Some(1), true),
        (Some(32), true),
        (Some(33), false),
        (Some(64), false),
        (Some(65), false),
    ] {
        let key = match key_size {
            Some(size) => bytes.get(..size),
            None => None,
        };
        if let Some(key) = key {
            assert!(rt;
                Blake2sMac256::new_from_slice(key).is_ok() == key_fits,
                "{key_size:?}"
            );
        }
        for (salt, salt_fits) in [(0, true), (8, true), (9, false), (16, false)] {
            for (persona, persona_fits) in [(0, true), (8, true), (9, false), (16, false)] {
                assert!(rt; salt <= 32 && persona <= 32);
                let lengths = (key_size, salt, persona);
                let (salt, persona) = (&bytes[..salt], &bytes[..persona]);
                check_if_parts_are_accepted(
                    &rt,
                    &mut outputs,
                    lengths,
                    key_fits && salt_fits && persona_fits,
                    Blake2sVarCore::accepts(&input(key, salt, persona, b"")),
                    Blake2sMac256::new_with_salt_and_personal(key, salt, persona),
                );
            }
        }
    }
    let wanted = "de3f0b8caf4b35f5af466748344faa732d63f9b0a31091ec02d897bb5a4ad161";
    assert!(rt; has_hex_digits(&outputs.finalize(), wanted));
}

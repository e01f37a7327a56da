//! Checks that several tests of this crate share.

use blake2_test_support::inputs::has_hex_digits;
use std::process::Abort;

/// Checks that these digits are the bytes, as `has_hex_digits` returns.
pub(crate) fn check_digits(rt: &impl Abort, bytes: &[u8], digits: &str) {
    assert!(rt; has_hex_digits(bytes, digits), "not {digits}");
}

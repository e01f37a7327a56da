//! Numbers in decimal.

ghost use Rattle.std.specs.Prelude.{◌≡◌, ◌<◌, ◌++◌, drop, decimal, OnOk};

use std::alloc::AllocError;

/// The length in bytes of the longest number below 2^64.
pub const DECIMAL_BYTES: usize = 20;

/// Writes a number in decimal, without leading zeros, to the end of `out`. Returns the place of its
/// first digit. The bytes before it are undefined.
pub fn write_decimal(n: u64, out: &mut [u8; DECIMAL_BYTES]) -> usize
    ensures digits { drop result out.new ≡ decimal n }
    ensures within { result < DECIMAL_BYTES }
{
    let mut start = DECIMAL_BYTES;
    let mut rest = n;
    'digits: while rest >= 10 {
        start -= 1;
        out[start] = b'0' + (rest % 10) as u8;
        rest /= 10;
    }
    start -= 1;
    out[start] = b'0' + rest as u8;
    start
}

/// Appends a number in decimal, without leading zeros. The error is `AllocError`, if an allocation
/// fails.
pub fn push_decimal(line: &mut Vec<u8>, n: u64) -> Result<(), AllocError>
    ensures { OnOk result (line.new.items ≡ line.old.items ++ decimal n) }
{
    let mut digits = [0u8; DECIMAL_BYTES];
    let start = write_decimal(n, &mut digits);
    let digits = &digits[..];
    line.extend_from_slice(&digits[start..])
}

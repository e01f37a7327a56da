//! Cutting a line into parts.

ghost use Rattle.std.specs.Prelude.{◌≡◌, ◌≤◌, length};
ghost use Rattle.std.specs.Option.{option_map};
ghost use Rattle.std.specs.Char.{is_ascii_digit};
ghost use Rattle.hex.specs.Hex.{is_hex_digit};
ghost use Rattle.b2sum_lines.specs.ManifestLines.{is_blank, drop_while, split_at_last};
ghost use Rattle.b2sum_lines.specs.ManifestLines.{after_prefix};

// Returns whether the byte is a space or a tab.
fn is_blank(byte: u8) -> bool
    ensures { result ≡ is_blank byte }
{
    byte == b' ' || byte == b'\t'
}

// Returns whether the byte is a hexadecimal digit of either case.
fn is_digit(byte: u8) -> bool
    ensures { result ≡ is_hex_digit byte }
{
    matches!(byte, b'A'..=b'F' | b'a'..=b'f' | b'0'..=b'9')
}

/// Returns what follows the spaces and tabs at the front.
pub(crate) fn skip_blanks(text: &[u8]) -> &[u8]
    ensures { result.now ≡ drop_while is_blank text.now }
{
    for (i, byte) in text.iter().enumerate() {
        if !is_blank(*byte) {
            return &text[i..];
        }
    }
    &[]
}

/// Returns what follows the hexadecimal digits at the front.
pub(crate) fn skip_digits(text: &[u8]) -> &[u8]
    ensures rest { result.now ≡ drop_while is_hex_digit text.now }
    ensures shorter { length result.now ≤ length text.now }
{
    for (i, byte) in text.iter().enumerate() {
        if !is_digit(*byte) {
            return &text[i..];
        }
    }
    &[]
}

/// Returns what follows the decimal digits at the front.
pub(crate) fn skip_decimals(text: &[u8]) -> &[u8]
    ensures rest { result.now ≡ drop_while is_ascii_digit text.now }
    ensures shorter { length result.now ≤ length text.now }
{
    for (i, byte) in text.iter().enumerate() {
        if !byte.is_ascii_digit() {
            return &text[i..];
        }
    }
    &[]
}

/// Returns what is before the last such byte and what is after it, or `None` if there is none.
pub(crate) fn split_at_last(text: &[u8], byte: u8) -> Option<(&[u8], &[u8])>
    ensures { option_map (λ parts. (parts.0.now, parts.1.now)) result
        ≡ split_at_last byte text.now }
{
    let mut at = text.len();
    'searching: while at > 0 {
        at -= 1;
        if text[at] == byte {
            return Some((&text[..at], &text[at + 1..]));
        }
    }
    None
}

/// Returns what follows these bytes at the front of the text, or `None` if it begins otherwise.
pub(crate) fn after_prefix<'a>(bytes: &[u8], text: &'a [u8]) -> Option<&'a [u8]>
    ensures { option_map (λ rest. rest.now) result ≡ after_prefix bytes.now text.now }
{
    text.strip_prefix(bytes)
}

//! Cutting a text into lines, and a line into parts.

ghost use Rattle.std.specs.Prelude.{◌≡◌, ◌<◌, ◌∷◌, length};
ghost use Rattle.std.specs.Option.{option_map};
ghost use Rattle.text_lines.specs.Cuts.{cut_at, lines_of};

/// Returns the first line of `text`, without its newline, which the last line may lack, and what
/// comes after that. `text` must not be empty.
pub fn split_line(text: &[u8]) -> (&[u8], &[u8])
    requires { 0 < length text.now }
    ensures first { lines_of text.now ≡ result.0.now ∷ lines_of result.1.now }
    ensures shorter { length result.1.now < length text.now }
{
    split_once(text, b'\n').unwrap_or((text, &[]))
}

/// Returns what is before the first such byte and what is after it, or `None` if there is none.
pub fn split_once(text: &[u8], byte: u8) -> Option<(&[u8], &[u8])>
    ensures { option_map (λ parts. (parts.0.now, parts.1.now)) result ≡ cut_at byte text.now }
{
    let place = text.iter().position(|b| *b == byte)?;
    Some((&text[..place], &text[place + 1..]))
}

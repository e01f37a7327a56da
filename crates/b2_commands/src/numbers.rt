//! Decimal numbers, in the arguments of a command and in the lines of a script.

ghost use Rattle.std.specs.Prelude.{◌≡◌, ◌≤◌, length, if◌then◌else◌};
ghost use Rattle.std.specs.Char.{is_ascii_digit};
ghost use Rattle.std.specs.List.{list_all};
ghost use Rattle.std.specs.Str.Parse.{digits_value};
ghost use Rattle.b2_commands.specs.DecimalNumbers.{number_value};

/// Returns the number that 1 to `most` decimal digits write, without a leading zero except in `0`
/// itself, or `None` if `digits` is anything else. `most` is at most 18.
pub(crate) fn number_of(digits: &[u8], most: usize) -> Option<usize>
    requires { most ≤ 18 }
    ensures { result ≡ number_value most digits.now }
{
    if digits.is_empty() || digits.len() > most || digits.len() > 1 && digits[0] == b'0' {
        return None;
    }
    value_of(digits)
}

// Returns the value of at most 18 decimal digits, or `None` if a byte is not a digit.
fn value_of(digits: &[u8]) -> Option<usize>
    requires { length digits.now ≤ 18 }
    ensures { result ≡
        (if list_all is_ascii_digit digits.now then Some (digits_value 10 digits.now) else None) }
{
    let mut number = 0;
    for digit in digits {
        if !digit.is_ascii_digit() {
            return None;
        }
        number = 10 * number + usize::from(*digit - b'0');
    }
    Some(number)
}

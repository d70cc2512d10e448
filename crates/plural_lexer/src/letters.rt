//! Letters, digits, and the numbers that digits spell.

ghost use Rattle.std.specs.Prelude.{◌≡◌, ◌≤◌, length, true};
ghost use Rattle.std.specs.List.{list_all};
ghost use Rattle.std.specs.Option.{option_map};
ghost use Rattle.plural_lexer.specs.Letters as spec;

/// Whether a byte is a letter, A to Z or a to z.
pub fn is_letter(byte: u8) -> bool
    ensures { result ≡ spec.is_letter byte }
{
    (b'A' <= byte && byte <= b'Z') || (b'a' <= byte && byte <= b'z')
}

/// Whether a byte is a decimal digit.
pub fn is_digit(byte: u8) -> bool
    ensures { result ≡ spec.is_digit byte }
{
    b'0' <= byte && byte <= b'9'
}

/// Whether a name goes on with a byte: a letter, a digit or `_`.
pub fn is_name_byte(byte: u8) -> bool
    ensures { result ≡ spec.is_name_byte byte }
{
    is_letter(byte) || is_digit(byte) || byte == b'_'
}

fn are_digits(text: &[u8]) -> bool
    ensures { result ≡ list_all spec.is_digit text.now }
{
    for byte in text {
        if !is_digit(*byte) {
            return false;
        }
    }
    true
}

fn value_of(digits: &[u8]) -> u64
    requires few { length digits.now ≤ 18 }
    requires digits { list_all spec.is_digit digits.now ≡ true }
    ensures { result ≡ spec.digits_value digits.now }
{
    let mut value = 0;
    for digit in digits {
        value = 10 * value + u64::from(*digit - b'0');
    }
    value
}

/// The number that a text of 1 to `most` decimal digits spells, zeros in front allowed, or None for any
/// other text.
pub fn number_of(text: &[u8], most: usize) -> Option<u64>
    requires { most ≤ 18 }
    ensures { result ≡ spec.number_of most text.now }
{
    if 1 <= text.len() && text.len() <= most && are_digits(text) {
        Some(value_of(text))
    } else {
        None
    }
}

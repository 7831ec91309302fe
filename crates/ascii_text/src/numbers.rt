//! Numbers in decimal digits.

ghost use Rattle.std.specs.Prelude.{◌≡◌, ℕ, ◌<◌, ◌≤◌, MatchOption};
ghost use Rattle.std.specs.List.{list_all};
ghost use Rattle.std.specs.Char.{digit_value};
ghost use Rattle.std.specs.Str.Parse.{digits_value};
ghost use Rattle.ascii_text.specs.Bytes as class;
ghost use Rattle.ascii_text.specs.Numbers as number;

// Whether each byte is a digit.
fn are_digits(text: &[u8]) -> bool
    ensures { result ≡ list_all class.is_digit text.now }
{
    text.iter().all(|byte| byte.is_ascii_digit())
}

/// Whether these are digits alone, without a leading zero unless it is `0`.
pub fn is_plain_number(text: &[u8]) -> bool
    ensures { result ≡ number.is_plain_number text.now }
{
    match text {
        [] => false,
        [digit] => digit.is_ascii_digit(),
        [first, ..] => b'1' <= *first && are_digits(text),
    }
}

// What the byte counts as a digit: 36 where it is no digit or letter.
fn digit(byte: u8) -> u32
    ensures { result ≡ digit_value byte }
{
    char::from(byte).to_digit(36).unwrap_or(36)
}

/// The number that the digits write, and `None` exactly where it is above `most`.
pub fn number_up_to(digits: &[u8], most: u32) -> Option<u32>
    ensures { MatchOption result (most < digits_value 10 digits.now) (λ number. (number ≡ digits_value 10 digits.now) × (number ≤ most)) }
{
    let mut number: u64 = 0;
    for byte in digits {
        number = number * 10 + u64::from(digit(*byte));
        if number > u64::from(most) {
            return None;
        }
    }
    Some(number as u32)
}

/// The number below 2 ^ 32 that the text is the decimal spelling of, and `None` exactly where there is none.
pub fn plain_value(text: &[u8]) -> Option<u32>
    ensures { MatchOption result ((value : ℕ) → number.IsValue text.now value → ⊥) (number.IsValue text.now) }
{
    if !is_plain_number(text) {
        return None;
    }
    number_up_to(text, u32::MAX)
}

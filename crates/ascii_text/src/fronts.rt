//! How a text begins, and what is behind.

ghost use Rattle.std.specs.Prelude.{◌≡◌, ◌≤◌, length, take, drop, nat_eq};
ghost use Rattle.std.specs.List.{prefix_len};
ghost use Rattle.ascii_text.specs.Bytes as class;

use crate::{is_in_line, is_word_byte};

/// The first `count` bytes.
pub fn front(bytes: &[u8], count: usize) -> &[u8]
    requires { count ≤ length bytes.now }
    ensures { result.now ≡ take count bytes.now }
{
    &bytes[..count]
}

/// The bytes behind the first `count`.
pub fn skip(bytes: &[u8], count: usize) -> &[u8]
    requires { count ≤ length bytes.now }
    ensures { result.now ≡ drop count bytes.now }
{
    &bytes[count..]
}

/// Whether the first byte is this one.
pub fn begins_with(bytes: &[u8], wanted: u8) -> bool
    ensures { result ≡ class.begins (λ byte. nat_eq byte wanted) bytes.now }
{
    match bytes {
        [first, ..] => *first == wanted,
        [] => false,
    }
}

/// Whether the first byte is a digit.
pub fn begins_with_digit(bytes: &[u8]) -> bool
    ensures { result ≡ class.begins class.is_digit bytes.now }
{
    match bytes {
        [first, ..] => first.is_ascii_digit(),
        [] => false,
    }
}

/// How many letters, digits and `_` the text begins with.
pub fn word_len(bytes: &[u8]) -> usize
    ensures { result ≡ prefix_len class.is_word_byte bytes.now }
{
    bytes.iter().take_while(|byte| is_word_byte(**byte)).count()
}

/// How many digits the text begins with.
pub fn digits_len(bytes: &[u8]) -> usize
    ensures { result ≡ prefix_len class.is_digit bytes.now }
{
    bytes
        .iter()
        .take_while(|byte| byte.is_ascii_digit())
        .count()
}

/// How many bytes come before the first line feed, or before the end.
pub fn line_len(bytes: &[u8]) -> usize
    ensures { result ≡ prefix_len class.is_in_line bytes.now }
{
    bytes.iter().take_while(|byte| is_in_line(**byte)).count()
}

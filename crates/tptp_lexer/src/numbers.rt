//! How far a number goes, and whether it is plain.

ghost use Rattle.std.specs.Prelude.{◌≡◌};
ghost use Rattle.tptp_lexer.specs.Numbers as number;

use ascii_text::{begins_with_digit, digits_len, skip};

// Whether the byte is `+` or `-`.
fn is_sign(byte: u8) -> bool
    ensures { result ≡ number.is_sign byte }
{
    byte == b'+' || byte == b'-'
}

// Whether the byte is `e` or `E`.
fn is_exponent_mark(byte: u8) -> bool
    ensures { result ≡ number.is_exponent_mark byte }
{
    byte == b'e' || byte == b'E'
}

/// Whether the byte begins a number before these.
pub(crate) fn starts_number(first: u8, after: &[u8]) -> bool
    ensures { result ≡ number.starts_number first after.now }
{
    first.is_ascii_digit() || (is_sign(first) && begins_with_digit(after))
}

// The length of a mark and the digits behind it, or 0.
#[tactic(auto, using(crate::proofs::Lengths::lengths))]
fn marked_len(mark: u8, bytes: &[u8]) -> usize
    ensures { result ≡ number.marked_len mark bytes.now }
{
    if bytes.is_empty() || bytes[0] != mark {
        return 0;
    }
    let after = skip(bytes, 1);
    if begins_with_digit(after) {
        1 + digits_len(after)
    } else {
        0
    }
}

// The length of digits with a sign or without, or 0.
#[tactic(auto, using(crate::proofs::Lengths::lengths))]
fn signed_len(bytes: &[u8]) -> usize
    ensures { result ≡ number.signed_len bytes.now }
{
    if bytes.is_empty() {
        return 0;
    }
    let after = skip(bytes, 1);
    if starts_number(bytes[0], after) {
        1 + digits_len(after)
    } else {
        0
    }
}

// The length of an exponent, or 0.
#[tactic(auto, using(crate::proofs::Lengths::lengths))]
fn exponent_len(bytes: &[u8]) -> usize
    ensures { result ≡ number.exponent_len bytes.now }
{
    if bytes.is_empty() || !is_exponent_mark(bytes[0]) {
        return 0;
    }
    let signed = signed_len(skip(bytes, 1));
    if signed > 0 { 1 + signed } else { 0 }
}

// The length of what follows the first digits.
#[tactic(auto, using(crate::proofs::Lengths::lengths), unfolding(crate::specs::Numbers::number_tail_len))]
fn number_tail_len(bytes: &[u8]) -> usize
    ensures { result ≡ number.number_tail_len bytes.now }
{
    let quotient = marked_len(b'/', bytes);
    if quotient > 0 {
        return quotient;
    }
    let fraction = marked_len(b'.', bytes);
    fraction + exponent_len(skip(bytes, fraction))
}

/// The length of a number behind its first byte.
#[tactic(auto, using(crate::proofs::Lengths::lengths), unfolding(crate::specs::Numbers::number_rest_len))]
pub(crate) fn number_rest_len(after: &[u8]) -> usize
    ensures { result ≡ number.number_rest_len after.now }
{
    let digits = digits_len(after);
    digits + number_tail_len(skip(after, digits))
}

//! Names of symbols: one at the front of a text, without its quotes and escapes.

ghost use Rattle.std.specs.Prelude.{◌≡◌, ℕ, ◌≤◌, ◌⊎◌, ◌∷◌, List, IfOk, MatchOption, Some, None, drop, length, true, nat_eq, ◌&&◌};
ghost use Rattle.std.specs.List.{list_all};
ghost use Rattle.mg_word.specs.Facts as facts;
ghost use Rattle.mg_word.specs.Spelling as spelling;
ghost use Rattle.term_text.specs.Names.{IsNameAt, IsOnlyName, IsQuotedAt, IsOnlyQuoted};
ghost use Rattle.term_text.specs.Names as names;

use ascii_text::{digits_len, front, is_plain_number, is_printable, is_word_byte, skip, word_len};
use mg_word::{Kind, NoMemory};

// Whether no name goes on here.
fn ends_name(bytes: &[u8]) -> bool
    ensures { result ≡ names.ends_name bytes.now }
{
    match bytes {
        [] => true,
        [first, ..] => !is_word_byte(*first),
    }
}

// Whether the name is written without quotes.
fn is_lower_word(name: &[u8]) -> bool
    ensures { result ≡ spelling.is_lower_word name.now }
{
    match name {
        [] => false,
        [first, ..] => first.is_ascii_lowercase() && word_len(name) == name.len(),
    }
}

// The byte that the text within quotes begins with, and how many bytes it is written as.
fn next_byte(bytes: &[u8], quote: u8) -> Option<(u8, usize)>
    requires known { (quote ≡ 34) ⊎ (quote ≡ 39) }
    ensures { MatchOption result (names.NoByte quote bytes.now) (λ found. names.IsByteAt quote bytes.now found.0 (drop found.1 bytes.now) × (1 ≤ found.1) × (found.1 ≤ length bytes.now)) }
{
    let [first, ..] = bytes else {
        return None;
    };
    if *first == quote {
        return None;
    }
    if *first != b'\\' {
        if is_printable(*first) {
            return Some((*first, 1));
        }
        return None;
    }
    let [_, second, ..] = bytes else {
        return None;
    };
    if *second == quote || *second == b'\\' {
        return Some((*second, 2));
    }
    None
}

// The name behind an opening quote, and what is behind the closing one.
fn take_quoted<'a>(
    bytes: &'a [u8],
    quote: u8,
    name: &mut Vec<u8>,
) -> Result<Option<&'a [u8]>, NoMemory>
    requires { (quote ≡ 34) ⊎ (quote ≡ 39) }
    ensures { IfOk result (λ found. MatchOption found
        ((n r : List ℕ) → IsQuotedAt quote bytes.now n r → ⊥)
        (λ rest. IsOnlyQuoted quote bytes.now name.new.items rest.now)) }
{
    name.clear();
    let mut rest = bytes;
    while let [first, ..] = rest {
        if *first == quote {
            return Ok(Some(skip(rest, 1)));
        }
        let Some((byte, count)) = next_byte(rest, quote) else {
            return Ok(None);
        };
        name.push(byte)?;
        rest = skip(rest, count);
    }
    Ok(None)
}

// A bare word at the front of a text that begins with a lower-case letter.
fn take_word<'a>(bytes: &'a [u8], name: &mut Vec<u8>) -> Result<&'a [u8], NoMemory>
    requires { spelling.begins_lower bytes.now ≡ true }
    ensures { IfOk result (λ rest. IsOnlyName bytes.now Kind.Word name.new.items rest.now) }
{
    let count = word_len(bytes);
    name.clear();
    name.extend_from_slice(front(bytes, count))?;
    Ok(skip(bytes, count))
}

// Whether a name that stands between such quotes is to be written without them.
fn may_be_bare(quote: u8, name: &[u8]) -> bool
    ensures { result ≡ (nat_eq quote 39 && spelling.is_lower_word name.now) }
{
    quote == b'\'' && is_lower_word(name)
}

// A plain number at the front of a text that begins with a digit.
fn take_integer<'a>(bytes: &'a [u8], name: &mut Vec<u8>) -> Result<Option<&'a [u8]>, NoMemory>
    requires { names.begins_digit bytes.now ≡ true }
    ensures { IfOk result (λ found. MatchOption found
        (names.NoName bytes.now)
        (λ rest. IsOnlyName bytes.now Kind.Integer name.new.items rest.now)) }
{
    let count = digits_len(bytes);
    let digits = front(bytes, count);
    let rest = skip(bytes, count);
    if !is_plain_number(digits) {
        return Ok(None);
    }
    if !ends_name(rest) {
        return Ok(None);
    }
    name.clear();
    name.extend_from_slice(digits)?;
    Ok(Some(rest))
}

// A name between those quotes, at the front of a text that begins with one.
fn take_between<'a>(
    bytes: &'a [u8],
    quote: u8,
    name: &mut Vec<u8>,
) -> Result<Option<&'a [u8]>, NoMemory>
    requires known { (quote ≡ 34) ⊎ (quote ≡ 39) }
    requires begins { (rest : List ℕ) × (bytes.now ≡ quote ∷ rest) }
    ensures { IfOk result (λ found. MatchOption found
        (names.NoName bytes.now)
        (λ rest. IsOnlyName bytes.now (names.quoted_kind quote) name.new.items rest.now)) }
{
    let Some(rest) = take_quoted(skip(bytes, 1), quote, name)? else {
        return Ok(None);
    };
    if !ends_name(rest) {
        return Ok(None);
    }
    if may_be_bare(quote, name) {
        return Ok(None);
    }
    Ok(Some(rest))
}

/// The kind of the name at the front of the text, and what is behind it. The name itself is left in the buffer.
pub fn take_name<'a>(
    bytes: &'a [u8],
    name: &mut Vec<u8>,
) -> Result<Option<(Kind, &'a [u8])>, NoMemory>
    ensures { IfOk result (λ found. MatchOption found
        (names.NoName bytes.now)
        (λ found. IsOnlyName bytes.now found.0 name.new.items found.1.now)) }
{
    let [first, ..] = bytes else {
        return Ok(None);
    };
    if first.is_ascii_lowercase() {
        return Ok(Some((Kind::Word, take_word(bytes, name)?)));
    }
    if first.is_ascii_digit() {
        return Ok(of_kind(Kind::Integer, take_integer(bytes, name)?));
    }
    if *first == b'\'' {
        return Ok(of_kind(Kind::Word, take_between(bytes, b'\'', name)?));
    }
    if *first == b'"' {
        return Ok(of_kind(Kind::Distinct, take_between(bytes, b'"', name)?));
    }
    Ok(None)
}

// What is behind a name, with its kind.
fn of_kind(kind: Kind, rest: Option<&[u8]>) -> Option<(Kind, &[u8])>
    ensures { MatchOption result (rest.entry ≡ None) (λ found. (found.0 ≡ kind) × (rest.entry ≡ Some found.1)) }
{
    match rest {
        None => None,
        Some(rest) => Some((kind, rest)),
    }
}

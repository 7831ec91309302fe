//! The one spelling of words and literals, appended to a buffer without recursion.

ghost use Rattle.std.specs.Prelude.{◌≡◌, ℕ, ◌++◌, [], ◌∷◌, ◌<◌, reverse, length, IfOk, OnOk, IfSome, IsTrue, slice_get};
ghost use Rattle.std.specs.List.{flat_map, list_all};
ghost use Rattle.mg_word.specs.Words.{fits, pattern_fits};
ghost use Rattle.mg_word.specs.Spelling as spelling;

use crate::{Item, Kind, Lit, NoMemory, PatLit, Pattern, Symbols, Text, Word};
use ascii_text::is_word_byte;
use std::alloc::Global;

// Whether the name begins with a lower-case letter.
fn begins_lower(name: &[u8]) -> bool
    ensures { result ≡ spelling.begins_lower name.now }
{
    match name {
        [] => false,
        [first, ..] => first.is_ascii_lowercase(),
    }
}

// Whether each byte may stand in a bare word.
fn are_word_bytes(name: &[u8]) -> bool
    ensures { result ≡ list_all spelling.is_word_byte name.now }
{
    name.iter().all(|byte| is_word_byte(*byte))
}

// Whether the name is printed without quotes.
fn is_lower_word(name: &[u8]) -> bool
    ensures { result ≡ spelling.is_lower_word name.now }
{
    begins_lower(name) && are_word_bytes(name)
}

// Appends a byte as it stands between such quotes.
fn push_escaped(into: &mut Vec<u8>, quote: u8, byte: u8) -> Result<(), NoMemory>
    ensures { OnOk result (into.new.items ≡ into.old.items ++ spelling.escaped quote byte) }
{
    if byte == quote || byte == b'\\' {
        into.push(b'\\')?;
        into.push(byte)?;
        return Ok(());
    }
    into.push(byte)?;
    Ok(())
}

// Appends the name between such quotes.
fn push_quoted(into: &mut Vec<u8>, quote: u8, name: &[u8]) -> Result<(), NoMemory>
    ensures { OnOk result (into.new.items ≡ into.old.items ++ spelling.quoted quote name.now) }
{
    into.push(quote)?;
    for byte in name {
        push_escaped(into, quote, *byte)?;
    }
    into.push(quote)?;
    Ok(())
}

/// Appends a name as its kind is written.
pub fn push_name(into: &mut Vec<u8>, kind: Kind, name: &[u8]) -> Result<(), NoMemory>
    ensures { OnOk result (into.new.items ≡ into.old.items ++ spelling.spelled_name kind name.now) }
{
    match kind {
        Kind::Word => {
            if is_lower_word(name) {
                into.extend_from_slice(name)?;
                return Ok(());
            }
            push_quoted(into, b'\'', name)
        }
        Kind::Integer => {
            into.extend_from_slice(name)?;
            Ok(())
        }
        Kind::Distinct => push_quoted(into, b'"', name),
    }
}

// Appends what stands behind a finished argument, and keeps the brackets that are open then.
fn push_closing(into: &mut Vec<u8>, brackets: &mut Vec<u32>) -> Result<(), NoMemory>
    ensures text { OnOk result (into.new.items ≡ into.old.items ++ spelling.closing (reverse brackets.old.items)) }
    ensures kept { OnOk result (reverse brackets.new.items ≡ spelling.still_open (reverse brackets.old.items)) }
{
    while let Some(more) = brackets.pop() {
        if more > 0 {
            into.push(b',')?;
            brackets.push(more - 1)?;
            return Ok(());
        }
        into.push(b')')?;
    }
    Ok(())
}

// Appends what stands behind a symbol with so many arguments, and keeps the brackets that are open then.
fn push_behind(into: &mut Vec<u8>, brackets: &mut Vec<u32>, arity: u32) -> Result<(), NoMemory>
    ensures text { OnOk result (into.new.items ≡ into.old.items ++ spelling.behind arity (reverse brackets.old.items)) }
    ensures kept { OnOk result (reverse brackets.new.items ≡ spelling.open_behind arity (reverse brackets.old.items)) }
{
    if arity == 0 {
        return push_closing(into, brackets);
    }
    into.push(b'(')?;
    brackets.push(arity - 1)?;
    Ok(())
}

// Appends a symbol's name and what stands behind it.
fn push_symbol(
    into: &mut Vec<u8>,
    brackets: &mut Vec<u32>,
    symbols: &Symbols,
    id: u32,
) -> Result<(), NoMemory>
    requires { id < length symbols.now }
    ensures text { OnOk result (IfSome (slice_get symbols.now id) (λ symbol. into.new.items ≡ into.old.items ++ (spelling.spelled_name symbol.kind symbol.name ++ spelling.behind symbol.arity (reverse brackets.old.items)))) }
    ensures kept { OnOk result (IfSome (slice_get symbols.now id) (λ symbol. reverse brackets.new.items ≡ spelling.open_behind symbol.arity (reverse brackets.old.items))) }
{
    push_name(into, symbols.kind(id), symbols.name(id).as_bytes())?;
    push_behind(into, brackets, symbols.arity(id))
}

/// Appends a word as it is spelled. After an error the buffer may hold a part of it.
pub fn push_word(into: &mut Vec<u8>, symbols: &Symbols, word: &Word) -> Result<(), NoMemory>
    requires { IsTrue (fits symbols.now word.now) }
    ensures { OnOk result (into.new.items ≡ into.old.items ++ spelling.spelled symbols.now word.now) }
{
    let mut brackets = Vec::new(*into.allocator());
    for id in word.as_slice() {
        push_symbol(into, &mut brackets, symbols, *id)?;
    }
    Ok(())
}

// Appends `~` where the atom is negated.
fn push_sign(into: &mut Vec<u8>, negative: bool) -> Result<(), NoMemory>
    ensures { OnOk result (into.new.items ≡ into.old.items ++ spelling.spelled_sign negative) }
{
    if negative {
        into.push(b'~')?;
    }
    Ok(())
}

/// Appends a literal as it is spelled. After an error the buffer may hold a part of it.
pub fn push_lit(into: &mut Vec<u8>, symbols: &Symbols, lit: &Lit) -> Result<(), NoMemory>
    requires { IsTrue (fits symbols.now lit.now.word) }
    ensures { OnOk result (into.new.items ≡ into.old.items ++ spelling.spelled_lit symbols.now lit.now) }
{
    push_sign(into, lit.negative)?;
    push_word(into, symbols, &lit.word)
}

/// The spelling of a word.
pub fn word_text(alloc: Global, symbols: &Symbols, word: &Word) -> Result<Text, NoMemory>
    requires { IsTrue (fits symbols.now word.now) }
    ensures { IfOk result (λ text. text ≡ spelling.spelled symbols.now word.now) }
{
    let mut bytes = Vec::new(alloc);
    push_word(&mut bytes, symbols, word)?;
    Ok(Text::new(bytes))
}

/// The spelling of a literal.
pub fn lit_text(alloc: Global, symbols: &Symbols, lit: &Lit) -> Result<Text, NoMemory>
    requires { IsTrue (fits symbols.now lit.now.word) }
    ensures { IfOk result (λ text. text ≡ spelling.spelled_lit symbols.now lit.now) }
{
    let mut bytes = Vec::new(alloc);
    push_lit(&mut bytes, symbols, lit)?;
    Ok(Text::new(bytes))
}

// Appends a variable: `X` and its number counted from 1.
fn push_variable(into: &mut Vec<u8>, variable: u32) -> Result<(), NoMemory>
    ensures { OnOk result (into.new.items ≡ into.old.items ++ (spelling.variable_piece variable).text) }
{
    let number = (u64::from(variable) + 1).to_string(*into.allocator())?;
    into.push(b'X')?;
    into.extend_from_slice(number.as_bytes())?;
    Ok(())
}

// Appends an item and what stands behind it.
fn push_item(
    into: &mut Vec<u8>,
    brackets: &mut Vec<u32>,
    symbols: &Symbols,
    item: Item,
) -> Result<(), NoMemory>
    requires { IsTrue (spelling.is_known_item symbols.now item) }
    ensures text { OnOk result (IfSome (spelling.item_piece symbols.now item) (λ piece. into.new.items ≡ into.old.items ++ (piece.text ++ spelling.behind piece.arity (reverse brackets.old.items)))) }
    ensures kept { OnOk result (IfSome (spelling.item_piece symbols.now item) (λ piece. reverse brackets.new.items ≡ spelling.open_behind piece.arity (reverse brackets.old.items))) }
{
    match item {
        Item::Sym(id) => push_symbol(into, brackets, symbols, id),
        Item::Var(variable) => {
            push_variable(into, variable)?;
            push_behind(into, brackets, 0)
        }
    }
}

// Appends a pattern as it is spelled.
fn push_pattern(into: &mut Vec<u8>, symbols: &Symbols, pattern: &Pattern) -> Result<(), NoMemory>
    requires { (variables : ℕ) × IsTrue (pattern_fits symbols.now variables pattern.now) }
    ensures { OnOk result (into.new.items ≡ into.old.items ++ spelling.spelled_pattern symbols.now pattern.now) }
{
    let mut brackets = Vec::new(*into.allocator());
    for item in pattern.as_slice() {
        push_item(into, &mut brackets, symbols, *item)?;
    }
    Ok(())
}

/// Appends a literal with its variables printed as `X1`, `X2`, .. as it is spelled. After an error the
/// buffer may hold a part of it.
pub fn push_pattern_lit(into: &mut Vec<u8>, symbols: &Symbols, lit: &PatLit) -> Result<(), NoMemory>
    requires { (variables : ℕ) × IsTrue (pattern_fits symbols.now variables lit.now.pattern) }
    ensures { OnOk result (into.new.items ≡ into.old.items ++ spelling.spelled_pattern_lit symbols.now lit.now) }
{
    push_sign(into, lit.negative)?;
    push_pattern(into, symbols, &lit.pattern)
}

//! Terms: one at the front of a text, without recursion on its depth.

ghost use Rattle.std.specs.Prelude.{◌≡◌, ℕ, ◌≤◌, ◌<◌, [], ◌∷◌, ◌++◌, if◌then◌else◌, List, IfOk, OnOk, MatchBool, MatchOption, length, drop, slice_get, slice_set, slice_index_or, Some};
ghost use Rattle.mg_word.specs.Table.{Symbol};
ghost use Rattle.term_text.specs.Terms as terms;
ghost use Rattle.term_text.specs.OwnTerms.{AreNumbers, IsSymbolOf, HasUnknown, AllKnown};
ghost use Rattle.term_text.specs.Words.{most_symbols};

use crate::names::take_name;
use ascii_text::skip;
use mg_word::{Kind, NoMemory, Symbols};
use std::alloc::Global;

/// The most symbols of a term.
pub const MOST_SYMBOLS: usize = 65_536;

/// A symbol of a term as it was met.
#[derive(Clone, Copy, Debug, PartialEq, Eq)]
pub struct Raw {
    /// Where its name begins in the text of the term.
    pub start: usize,
    /// How many arguments it has. This stands still at its end.
    pub arity: u64,
}

/// Buffers that are used again for each term.
#[derive(Debug, Drop)]
pub struct Buffers {
    pub raws: Vec<Raw>,
    pub opens: Vec<usize>,
    pub name: Vec<u8>,
    pub numbers: Vec<u32>,
}

impl Buffers {
    /// Empty buffers.
    pub fn new(alloc: Global) -> Buffers {
        Buffers {
            raws: Vec::new(alloc),
            opens: Vec::new(alloc),
            name: Vec::new(alloc),
            numbers: Vec::new(alloc),
        }
    }
}

// Whether a term may end here.
fn ends_term(bytes: &[u8]) -> bool
    ensures { result ≡ terms.ends_term bytes.now }
{
    match bytes {
        [] => true,
        [first, ..] => *first == b',' || *first == b']',
    }
}

// Behind a finished argument: whether another one follows, and where the text goes on.
fn close(
    bytes: &[u8],
    start: usize,
    raws: &mut Vec<Raw>,
    opens: &mut Vec<usize>,
) -> Result<Option<(bool, usize)>, NoMemory>
    requires within { start ≤ length bytes.now }
    requires after { terms.AfterArgument bytes.now raws.old.items opens.old.items (drop start bytes.now) }
    ensures { IfOk result (λ found. MatchOption found (terms.NoTerm bytes.now) (λ found. (start ≤ found.1) × (found.1 ≤ length bytes.now) × MatchBool found.0
        (terms.AtArgument bytes.now raws.new.items opens.new.items (drop found.1 bytes.now))
        (terms.IsRawTerm bytes.now raws.new.items (drop found.1 bytes.now)))) }
{
    let mut at = start;
    while let Some(level) = opens.pop() {
        raise(raws, level);
        if at >= bytes.len() {
            return Ok(None);
        }
        let byte = bytes[at];
        at += 1;
        if byte == b',' {
            opens.push(level)?;
            return Ok(Some((true, at)));
        }
        if byte != b')' {
            return Ok(None);
        }
    }
    if !ends_term(skip(bytes, at)) {
        return Ok(None);
    }
    Ok(Some((false, at)))
}

// Counts an argument more of the symbol with that index.
fn raise(raws: &mut Vec<Raw>, index: usize)
    requires { index < length raws.old.items }
    ensures { raws.new.items ≡ slice_set raws.old.items index (terms.raised_raw (slice_index_or raws.old.items index terms.no_raw)) }
{
    let raw = raws[index];
    raws[index] = Raw {
        start: raw.start,
        arity: raw.arity.saturating_add(1),
    };
}

/// Where the term at the front of the text ends. Its symbols are left in the buffer.
pub fn take_term(
    bytes: &[u8],
    raws: &mut Vec<Raw>,
    opens: &mut Vec<usize>,
    name: &mut Vec<u8>,
) -> Result<Option<usize>, NoMemory>
    ensures { IfOk result (λ found. MatchOption found (terms.NoTerm bytes.now) (λ end. (end ≤ length bytes.now) × terms.IsRawTerm bytes.now raws.new.items (drop end bytes.now))) }
{
    raws.clear();
    opens.clear();
    let mut at = 0;
    loop {
        let Some((kind, behind)) = take_name(skip(bytes, at), name)? else {
            return Ok(None);
        };
        raws.push(Raw {
            start: at,
            arity: 0,
        })?;
        at = bytes.len() - behind.len();
        if opens_bracket(kind, behind) {
            opens.push(raws.len() - 1)?;
            at += 1;
            continue;
        }
        let Some((more, after)) = close(bytes, at, raws, opens)? else {
            return Ok(None);
        };
        if !more {
            return Ok(Some(after));
        }
        at = after;
    }
}

// Whether the bracket of a name of that kind is opened here.
fn opens_bracket(kind: Kind, bytes: &[u8]) -> bool
    ensures { MatchBool result ((kind ≡ Kind.Word) × ((rest : List ℕ) × (bytes.now ≡ 40 ∷ rest))) ((kind ≡ Kind.Word) → (rest : List ℕ) → bytes.now ≡ 40 ∷ rest → ⊥) }
{
    match bytes {
        [] => false,
        [first, ..] => kind == Kind::Word && *first == b'(',
    }
}

// The number of a symbol, if the table has it.
fn number_of(
    bytes: &[u8],
    raw: &Raw,
    symbols: &Symbols,
    name: &mut Vec<u8>,
) -> Result<Option<u32>, NoMemory>
    requires { raw.now.start ≤ length bytes.now }
    ensures { IfOk result (λ found. (symbol : Symbol) → terms.IsRaw bytes.now raw.now symbol
        → MatchOption found (IsSymbolOf symbols.now symbol → ⊥) (λ number. IsSymbolOf symbols.now symbol × (slice_get symbols.now number ≡ Some symbol))) }
{
    let Some((kind, _)) = take_name(skip(bytes, raw.start), name)? else {
        return Ok(None);
    };
    let Ok(arity) = u32::try_from(raw.arity) else {
        return Ok(None);
    };
    let Ok(text) = str::from_utf8(name) else {
        return Ok(None);
    };
    symbols.find(text, arity, kind)
}

// Adds the number, where it is to be kept.
fn push_if(numbers: &mut Vec<u32>, is_kept: bool, number: u32) -> Result<(), NoMemory>
    ensures { OnOk result (numbers.new.items ≡ (if is_kept then numbers.old.items ++ number ∷ [] else numbers.old.items)) }
{
    if is_kept {
        numbers.push(number)?;
    }
    Ok(())
}

/// Whether all symbols of the term are in the table. If it has not too many, its word is left in the buffer.
pub fn look_up(
    bytes: &[u8],
    raws: &[Raw],
    symbols: &Symbols,
    name: &mut Vec<u8>,
    numbers: &mut Vec<u32>,
) -> Result<bool, NoMemory>
    requires { (term : List Symbol) × terms.AreRaws bytes.now raws.now term }
    ensures { IfOk result (λ known. (term : List Symbol) → terms.AreRaws bytes.now raws.now term → MatchBool known
        (AllKnown symbols.now term × (length term ≤ most_symbols → AreNumbers symbols.now numbers.new.items term))
        (HasUnknown symbols.now term)) }
{
    numbers.clear();
    let is_light = raws.len() <= MOST_SYMBOLS;
    for raw in raws {
        let Some(number) = number_of(bytes, raw, symbols, name)? else {
            return Ok(false);
        };
        push_if(numbers, is_light, number)?;
    }
    Ok(true)
}

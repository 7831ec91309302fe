//! Literals, and lists of them between square brackets.

ghost use Rattle.std.specs.Prelude.{◌≡◌, ℕ, ◌≤◌, List, IfOk, OnOk, MatchOption, ◌++◌, ◌∷◌, [], length, drop, true, false};
ghost use Rattle.mg_word.specs.Table.{Symbol};
ghost use Rattle.mg_word.specs.Sets.{is_rising as rising};
ghost use Rattle.mg_word.specs.Spelling.{spelled_sign};
ghost use Rattle.term_text.specs.Fronts.{begins_with};
ghost use Rattle.term_text.specs.Lists as lists;
ghost use Rattle.term_text.specs.Lits.{RawLit, raw_text, IsOwnLit};

use crate::found::{FoundTerm, find_term};
use crate::fronts::starts;
use crate::lists::ends_list;
use crate::terms::{Buffers, take_term};
use ascii_text::skip;
use mg_word::{Lit, NoMemory, Symbols};
use std::alloc::Global;

/// A literal that was read.
#[derive(Debug, Drop)]
pub enum FoundLit {
    /// A symbol of it is not in the table.
    Unknown,
    /// It has too many symbols.
    Heavy,
    /// The literal.
    Lit(Lit),
}

/// The literals of a list, unless a symbol is not in the table or one has too many symbols.
#[derive(Debug, Drop)]
pub struct LitList {
    pub lits: Vec<Lit>,
    pub has_unknown: bool,
    pub has_heavy: bool,
}

// Whether a sign is at the front, and what is behind it.
fn take_sign(bytes: &[u8]) -> (bool, &[u8])
    ensures text { spelled_sign result.0 ++ result.1.now ≡ bytes.now }
    ensures short { length result.1.now ≤ length bytes.now }
    ensures positive { result.0 ≡ false → begins_with (126 ∷ []) bytes.now ≡ false }
{
    if starts(bytes, b"~") {
        return (true, skip(bytes, 1));
    }
    (false, bytes)
}

// What is found of a literal, by that of its atom.
fn signed(negative: bool, found: FoundTerm) -> FoundLit
    ensures { (table : List Symbol) (raw : RawLit) → negative ≡ raw.negative → lists.IsFoundTerm table raw.atom found → lists.IsFoundLit table raw result }
{
    match found {
        FoundTerm::Unknown => FoundLit::Unknown,
        FoundTerm::Heavy => FoundLit::Heavy,
        FoundTerm::Word(word) => FoundLit::Lit(Lit { negative, word }),
    }
}

/// The literal that the text is, if it is one.
pub fn read_lit(
    alloc: Global,
    bytes: &[u8],
    symbols: &Symbols,
    buffers: &mut Buffers,
) -> Result<Option<FoundLit>, NoMemory>
    ensures { IfOk result (λ found. MatchOption found (lists.NoLit bytes.now) (lists.IsLitRead symbols.now bytes.now)) }
{
    let (negative, atom) = take_sign(bytes);
    let taken = take_term(
        atom,
        &mut buffers.raws,
        &mut buffers.opens,
        &mut buffers.name,
    )?;
    let Some(end) = taken else {
        return Ok(None);
    };
    if end < atom.len() {
        return Ok(None);
    }
    let found = find_term(alloc, atom, symbols, buffers)?;
    Ok(Some(signed(negative, found)))
}

// Adds what was found of a literal.
fn add_lit(list: &mut LitList, found: FoundLit) -> Result<(), NoMemory>
    ensures { OnOk result ((table : List Symbol) (raw : RawLit) (have : List RawLit) → lists.IsFoundLit table raw found
        → lists.IsLitVerdict table have list.old.lits.items list.old.has_unknown list.old.has_heavy
        → lists.IsLitVerdict table (have ++ raw ∷ []) list.new.lits.items list.new.has_unknown list.new.has_heavy) }
{
    match found {
        FoundLit::Unknown => {
            list.has_unknown = true;
            Ok(())
        }
        FoundLit::Heavy => {
            list.has_heavy = true;
            Ok(())
        }
        FoundLit::Lit(lit) => {
            list.lits.push(lit)?;
            Ok(())
        }
    }
}

/// The list of literals behind its opening bracket, if that is all of the text.
pub fn read_lits(
    alloc: Global,
    bytes: &[u8],
    symbols: &Symbols,
    buffers: &mut Buffers,
) -> Result<Option<LitList>, NoMemory>
    ensures { IfOk result (λ found. MatchOption found (lists.NoList raw_text IsOwnLit bytes.now)
        (λ list. lists.AreLitsRead symbols.now bytes.now list.lits.items list.has_unknown list.has_heavy)) }
{
    let mut list = LitList {
        lits: Vec::new(alloc),
        has_unknown: false,
        has_heavy: false,
    };
    if ends_list(bytes) {
        return Ok(Some(list));
    }
    let mut rest = bytes;
    loop {
        let (negative, atom) = take_sign(rest);
        let taken = take_term(
            atom,
            &mut buffers.raws,
            &mut buffers.opens,
            &mut buffers.name,
        )?;
        let Some(end) = taken else {
            return Ok(None);
        };
        let found = find_term(alloc, atom, symbols, buffers)?;
        add_lit(&mut list, signed(negative, found))?;
        let behind = skip(atom, end);
        if ends_list(behind) {
            return Ok(Some(list));
        }
        if !starts(behind, b",") {
            return Ok(None);
        }
        rest = skip(behind, 1);
    }
}

/// Whether each literal stands before the next, so that none stands twice.
pub fn is_rising(lits: &[Lit]) -> bool
    ensures { result ≡ rising lits.now }
{
    let mut rest = lits;
    while let [first, second, ..] = rest {
        if !first.cmp(second).is_lt() {
            return false;
        }
        rest = &rest[1..];
    }
    true
}

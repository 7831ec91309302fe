//! Lists of terms between square brackets.

ghost use Rattle.std.specs.Prelude.{◌≡◌, ℕ, ◌≤◌, List, IfOk, OnOk, MatchBool, MatchOption, ◌++◌, ◌∷◌, []};
ghost use Rattle.mg_word.specs.Table.{Symbol};
ghost use Rattle.term_text.specs.Lists as lists;
ghost use Rattle.term_text.specs.OwnTerms.{IsOwnTerm};
ghost use Rattle.mg_word.specs.Spelling.{spelled_symbols};

use crate::found::{FoundTerm, find_term};
use crate::fronts::starts;
use crate::terms::{Buffers, take_term};
use ascii_text::skip;
use mg_word::{Items, NoMemory, Symbols, Word};
use std::alloc::Global;

/// The terms of a list: their words, unless a symbol is not in the table or a term has too many symbols.
#[derive(Debug, Drop)]
pub struct TermList {
    pub words: Items<Word>,
    pub has_unknown: bool,
    pub has_heavy: bool,
}

/// Whether the closing bracket is all that is left.
pub fn ends_list(bytes: &[u8]) -> bool
    ensures { MatchBool result (bytes.now ≡ 93 ∷ []) (bytes.now ≡ 93 ∷ [] → ⊥) }
{
    match bytes {
        [byte] => *byte == b']',
        _ => false,
    }
}

// Adds what was found of a term.
fn add_term(list: &mut TermList, found: FoundTerm) -> Result<(), NoMemory>
    ensures { OnOk result ((table term : List Symbol) (have : List (List Symbol)) → lists.IsFoundTerm table term found
        → lists.IsVerdict table have list.old.words list.old.has_unknown list.old.has_heavy
        → lists.IsVerdict table (have ++ term ∷ []) list.new.words list.new.has_unknown list.new.has_heavy) }
{
    match found {
        FoundTerm::Unknown => {
            list.has_unknown = true;
            Ok(())
        }
        FoundTerm::Heavy => {
            list.has_heavy = true;
            Ok(())
        }
        FoundTerm::Word(word) => {
            list.words.push(word)?;
            Ok(())
        }
    }
}

/// The list behind its opening bracket, if that is all of the text.
pub fn read_list(
    alloc: Global,
    bytes: &[u8],
    symbols: &Symbols,
    buffers: &mut Buffers,
) -> Result<Option<TermList>, NoMemory>
    ensures { IfOk result (λ found. MatchOption found (lists.NoList spelled_symbols IsOwnTerm bytes.now)
        (λ list. lists.IsListRead symbols.now bytes.now list.words list.has_unknown list.has_heavy)) }
{
    let mut list = TermList {
        words: Items::empty(alloc),
        has_unknown: false,
        has_heavy: false,
    };
    if ends_list(bytes) {
        return Ok(Some(list));
    }
    let mut rest = bytes;
    loop {
        let taken = take_term(
            rest,
            &mut buffers.raws,
            &mut buffers.opens,
            &mut buffers.name,
        )?;
        let Some(end) = taken else {
            return Ok(None);
        };
        let found = find_term(alloc, rest, symbols, buffers)?;
        add_term(&mut list, found)?;
        let behind = skip(rest, end);
        if ends_list(behind) {
            return Ok(Some(list));
        }
        if !starts(behind, b",") {
            return Ok(None);
        }
        rest = skip(behind, 1);
    }
}

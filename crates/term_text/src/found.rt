//! Terms that are looked up in a table.

ghost use Rattle.std.specs.Prelude.{◌≡◌, List, IfOk};
ghost use Rattle.mg_word.specs.Table.{Symbol};
ghost use Rattle.term_text.specs.Lists.{IsFoundTerm};
ghost use Rattle.term_text.specs.Terms.{AreRaws};

use crate::terms::{Buffers, MOST_SYMBOLS, look_up};
use mg_word::{NoMemory, Symbols, Word};
use std::alloc::Global;

/// A term that was looked up.
#[derive(Debug, Drop)]
pub enum FoundTerm {
    /// A symbol of it is not in the table.
    Unknown,
    /// It has too many symbols.
    Heavy,
    /// Its word.
    Word(Word),
}

/// What is found of the term whose symbols are in the buffer.
pub fn find_term(
    alloc: Global,
    bytes: &[u8],
    symbols: &Symbols,
    buffers: &mut Buffers,
) -> Result<FoundTerm, NoMemory>
    requires { (term : List Symbol) × AreRaws bytes.now buffers.old.raws.items term }
    ensures { IfOk result (λ found. (term : List Symbol) → AreRaws bytes.now buffers.old.raws.items term → IsFoundTerm symbols.now term found) }
{
    let known = look_up(
        bytes,
        &buffers.raws,
        symbols,
        &mut buffers.name,
        &mut buffers.numbers,
    )?;
    if !known {
        return Ok(FoundTerm::Unknown);
    }
    if buffers.raws.len() > MOST_SYMBOLS {
        return Ok(FoundTerm::Heavy);
    }
    let numbers = Vec::from_slice(alloc, &buffers.numbers)?;
    Ok(FoundTerm::Word(Word::new(numbers)))
}

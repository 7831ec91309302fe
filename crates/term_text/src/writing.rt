//! Numbers and lists, appended in their one spelling.

ghost use Rattle.std.specs.Prelude.{◌≡◌, ◌++◌, All, OnOk, map};
ghost use Rattle.std.specs.Fmt.{decimal};
ghost use Rattle.mg_word.specs.Spelling.{spelled, spelled_lit};
ghost use Rattle.term_text.specs.Brackets.{comma_before, listed};
ghost use Rattle.term_text.specs.Words.{IsWordOf, AreLitsOf};

use mg_word::{Lit, NoMemory, Symbols, Word, push_lit, push_word};

/// Appends the number in decimal digits. After an error the buffer is as before.
pub fn push_number(into: &mut Vec<u8>, number: u64) -> Result<(), NoMemory>
    ensures { OnOk result (into.new.items ≡ into.old.items ++ decimal number) }
{
    let digits = number.to_string(*into.allocator())?;
    into.extend_from_slice(digits.as_bytes())?;
    Ok(())
}

// Appends what stands before the item with that index: a comma before each but the first.
fn push_comma(into: &mut Vec<u8>, index: usize) -> Result<(), NoMemory>
    ensures { OnOk result (into.new.items ≡ into.old.items ++ comma_before index) }
{
    if index > 0 {
        into.push(b',')?;
    }
    Ok(())
}

/// Appends the list of these terms. After an error the buffer may hold a part of it.
pub fn push_terms(into: &mut Vec<u8>, symbols: &Symbols, terms: &[Word]) -> Result<(), NoMemory>
    requires { All (IsWordOf symbols.now) terms.now }
    ensures { OnOk result (into.new.items ≡ into.old.items ++ listed (map (spelled symbols.now) terms.now)) }
{
    into.push(b'[')?;
    for (i, term) in terms.iter().enumerate() {
        push_comma(into, i)?;
        push_word(into, symbols, term)?;
    }
    into.push(b']')?;
    Ok(())
}

/// Appends the list of these literals. After an error the buffer may hold a part of it.
pub fn push_lits(into: &mut Vec<u8>, symbols: &Symbols, lits: &[Lit]) -> Result<(), NoMemory>
    requires { AreLitsOf symbols.now lits.now }
    ensures { OnOk result (into.new.items ≡ into.old.items ++ listed (map (spelled_lit symbols.now) lits.now)) }
{
    into.push(b'[')?;
    for (i, lit) in lits.iter().enumerate() {
        push_comma(into, i)?;
        push_lit(into, symbols, lit)?;
    }
    into.push(b']')?;
    Ok(())
}

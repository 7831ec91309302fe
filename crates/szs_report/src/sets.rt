//! The literals of a set in a line.

ghost use Rattle.std.specs.Prelude.{◌≡◌, ◌++◌, [], ◌∷◌, IfOk, OnOk, IsTrue};
ghost use Rattle.mg_meaning.specs.Instances.{are_literals};
ghost use Rattle.szs_report.specs.Outputs.{lits_line, set_line, set_text, space_before};

use crate::report::joined;
use mg_word::{Lit, LitSet, NoMemory, Symbols, push_lit};
use std::alloc::Global;

// Appends the literals of a set.
fn push_set(into: &mut Vec<u8>, symbols: &Symbols, set: &[Lit]) -> Result<(), NoMemory>
    requires { IsTrue (are_literals symbols.now set.now) }
    ensures { OnOk result (into.new.items ≡ into.old.items ++ set_text symbols.now set.now) }
{
    let mut separator = b"".as_slice();
    for lit in set {
        into.extend_from_slice(separator)?;
        push_lit(into, symbols, lit)?;
        separator = b", ".as_slice();
    }
    Ok(())
}

// The space before the literals of a set, where it has some.
fn space(set: &[Lit]) -> &'static [u8]
    ensures { result.now ≡ space_before set.now }
{
    if set.is_empty() { b"" } else { b" " }
}

/// The line of the set with that number.
pub(crate) fn set_line(
    alloc: Global,
    symbols: &Symbols,
    number: usize,
    set: &LitSet,
) -> Result<Vec<u8>, NoMemory>
    requires { IsTrue (are_literals symbols.now set.now) }
    ensures { IfOk result (λ text. text.items ≡ set_line symbols.now number set.now) }
{
    let number = format!(in alloc; "{number}")?;
    let mut lits = Vec::new(alloc);
    push_set(&mut lits, symbols, set.as_slice())?;
    let space = space(set.as_slice());
    joined(
        alloc,
        &[b"model ", number.as_bytes(), b":", space, &lits, b"\n"],
    )
}

/// The line of these words and the literals of a set.
pub(crate) fn lits_line(
    alloc: Global,
    symbols: &Symbols,
    words: &str,
    set: &LitSet,
) -> Result<Vec<u8>, NoMemory>
    requires { IsTrue (are_literals symbols.now set.now) }
    ensures { IfOk result (λ text. text.items ≡ lits_line symbols.now words.now set.now) }
{
    let mut text = Vec::from_slice(alloc, words.as_bytes())?;
    push_set(&mut text, symbols, set.as_slice())?;
    text.push(b'\n')?;
    Ok(text)
}

//! The line of a form in a report.

ghost use Rattle.std.specs.Prelude.{◌≡◌, ◌≤◌, ◌<◌, ◌++◌, ◌∷◌, [], All, length, map, codes, IfOk, OnOk, Some};
ghost use Rattle.mg_word.specs.Spelling.{spelled_pattern_lit, spelled_name};
ghost use Rattle.clause_form.specs.Lines.{IsSpelled, joined, premises_part, conclusions_part, line_head, line_of};

use mg_word::{Name, NoMemory, PatLit, Problem, Symbols, Text, push_name, push_pattern_lit};
use std::alloc::Global;

// Appends the literals with that separator between them.
fn push_joined(
    into: &mut Vec<u8>,
    symbols: &Symbols,
    separator: &[u8],
    first: &PatLit,
    others: &[PatLit],
) -> Result<(), NoMemory>
    requires first { IsSpelled symbols.now first.now }
    requires others { All (IsSpelled symbols.now) others.now }
    ensures { OnOk result (into.new.items ≡ into.old.items ++ joined separator.now (map (spelled_pattern_lit symbols.now) (first.now ∷ others.now))) }
{
    push_pattern_lit(into, symbols, first)?;
    for other in others {
        into.extend_from_slice(separator)?;
        push_pattern_lit(into, symbols, other)?;
    }
    Ok(())
}

// Appends the premises, and a space where there are some.
fn push_premises(into: &mut Vec<u8>, symbols: &Symbols, premises: &[PatLit]) -> Result<(), NoMemory>
    requires { All (IsSpelled symbols.now) premises.now }
    ensures { OnOk result (into.new.items ≡ into.old.items ++ premises_part (map (spelled_pattern_lit symbols.now) premises.now)) }
{
    let [first, others @ ..] = premises else {
        return Ok(());
    };
    push_joined(into, symbols, b", ", first, others)?;
    into.push(b' ')?;
    Ok(())
}

// Appends the conclusions, after a space where there are some.
fn push_conclusions(
    into: &mut Vec<u8>,
    symbols: &Symbols,
    conclusions: &[PatLit],
) -> Result<(), NoMemory>
    requires { All (IsSpelled symbols.now) conclusions.now }
    ensures { OnOk result (into.new.items ≡ into.old.items ++ conclusions_part (map (spelled_pattern_lit symbols.now) conclusions.now)) }
{
    let [first, others @ ..] = conclusions else {
        return Ok(());
    };
    into.push(b' ')?;
    push_joined(into, symbols, b"; ", first, others)
}

// Appends what stands before the premises: the form's number and its clause's name.
fn push_head(into: &mut Vec<u8>, number: u32, name: &Name) -> Result<(), NoMemory>
    ensures { OnOk result (into.new.items ≡ into.old.items ++ line_head number (spelled_name name.now.kind name.now.text)) }
{
    let digits = number.to_string(*into.allocator())?;
    into.extend_from_slice(b"form ")?;
    into.extend_from_slice(digits.as_bytes())?;
    into.push(b' ')?;
    push_name(into, name.kind, name.text.as_slice())?;
    into.extend_from_slice(b": ")?;
    Ok(())
}

/// The line of the form with that number, from 1, without its newline: its number, its clause's name, its premises and
/// its conclusions.
pub fn form_text(alloc: Global, problem: &Problem, form: u32) -> Result<Text, NoMemory>
    requires above { 0 < form }
    requires within { form ≤ length problem.now.forms }
    ensures { IfOk result (λ text. line_of problem.now form ≡ Some text) }
{
    let arrow = &problem.forms.as_slice()[form as usize - 1];
    let clause = &problem.clauses.as_slice()[arrow.clause as usize];
    let mut bytes = Vec::new(alloc);
    push_head(&mut bytes, form, &clause.name)?;
    push_premises(&mut bytes, &problem.symbols, arrow.premises.as_slice())?;
    bytes.extend_from_slice(b"->")?;
    push_conclusions(&mut bytes, &problem.symbols, arrow.conclusions.as_slice())?;
    Ok(Text::new(bytes))
}

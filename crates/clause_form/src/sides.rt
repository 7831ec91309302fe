//! The premises and conclusions of one form, literal by literal.

ghost use Rattle.std.specs.Prelude.{◌≡◌, ◌++◌, ◌+◌, ◌<◌, ◌≤◌, ◌^◌, [], ◌∷◌, length, IfOk, OnOk, not};
ghost use Rattle.mg_word.specs.Forms as forms;
ghost use Rattle.mg_word.specs.Facts.{most_parts};

use mg_word::{Clause, ClauseLit, Form, Items, NoMemory, PatLit};
use std::alloc::Global;

// A literal with that sign and a copy of the pattern.
fn signed(lit: &PatLit, negative: bool) -> Result<PatLit, NoMemory>
    ensures { IfOk result (λ copied. copied ≡ record { negative = negative; pattern = lit.now.pattern }) }
{
    Ok(PatLit {
        negative,
        pattern: lit.pattern.copy()?,
    })
}

// Whether the literal at that position is a conclusion.
fn is_chosen(chosen: &[u32], position: u32) -> bool
    ensures { result ≡ forms.is_among chosen.now position }
{
    chosen.iter().any(|other| *other == position)
}

// Adds the literal to its side of the plain form.
fn push_plain(
    premises: &mut Vec<PatLit>,
    conclusions: &mut Vec<PatLit>,
    literal: &ClauseLit,
) -> Result<(), NoMemory>
    ensures premises { OnOk result (premises.new.items ≡ premises.old.items ++ forms.premises_of (literal.now ∷ [])) }
    ensures conclusions { OnOk result (conclusions.new.items ≡ conclusions.old.items ++ forms.conclusions_of (literal.now ∷ [])) }
{
    match literal {
        ClauseLit::True | ClauseLit::False => Ok(()),
        ClauseLit::Lit(lit) => {
            if lit.negative {
                premises.push(signed(lit, false)?)?;
                return Ok(());
            }
            conclusions.push(lit.copy()?)?;
            Ok(())
        }
    }
}

// Adds the literal at that position to its side of the form with these conclusions.
fn push_further(
    premises: &mut Vec<PatLit>,
    conclusions: &mut Vec<PatLit>,
    chosen: &[u32],
    position: u32,
    literal: &ClauseLit,
) -> Result<(), NoMemory>
    ensures premises { OnOk result (premises.new.items ≡ premises.old.items ++ forms.others_from position chosen.now (literal.now ∷ [])) }
    ensures conclusions { OnOk result (conclusions.new.items ≡ conclusions.old.items ++ forms.chosen_from position chosen.now (literal.now ∷ [])) }
{
    match literal {
        ClauseLit::True | ClauseLit::False => Ok(()),
        ClauseLit::Lit(lit) => {
            if is_chosen(chosen, position) {
                let copied = lit.copy()?;
                conclusions.push(copied)?;
                return Ok(());
            }
            premises.push(signed(lit, !lit.negative)?)?;
            Ok(())
        }
    }
}

/// The plain form of the clause with that index.
pub fn plain_form_of(alloc: Global, index: u32, clause: &Clause) -> Result<Form, NoMemory>
    requires { length clause.now.variables ≤ most_parts }
    ensures { IfOk result (λ form. form ≡ forms.plain_form index clause.now) }
{
    let mut premises = Vec::new(alloc);
    let mut conclusions = Vec::new(alloc);
    let literals = clause.literals.as_slice();
    for literal in literals {
        push_plain(&mut premises, &mut conclusions, literal)?;
    }
    Ok(Form {
        clause: index,
        variables: clause.variables.as_slice().len() as u32,
        premises: Items::new(premises),
        conclusions: Items::new(conclusions),
    })
}

/// The further form of the clause with that index whose conclusions are the literals at these positions.
pub fn further_form_of(
    alloc: Global,
    index: u32,
    clause: &Clause,
    chosen: &[u32],
) -> Result<Form, NoMemory>
    requires variables { length clause.now.variables ≤ most_parts }
    requires literals { length clause.now.literals ≤ most_parts }
    ensures { IfOk result (λ form. form ≡ forms.further_form index clause.now chosen.now) }
{
    let mut premises = Vec::new(alloc);
    let mut conclusions = Vec::new(alloc);
    let literals = clause.literals.as_slice();
    for (at, literal) in literals.iter().enumerate() {
        let position = at as u32 + 1;
        push_further(&mut premises, &mut conclusions, chosen, position, literal)?;
    }
    Ok(Form {
        clause: index,
        variables: clause.variables.as_slice().len() as u32,
        premises: Items::new(premises),
        conclusions: Items::new(conclusions),
    })
}

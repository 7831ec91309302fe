//! The forms of clauses, one after another, up to the first fault.

ghost use Rattle.std.specs.Prelude.{◌≡◌, ◌++◌, ◌+◌, ◌<◌, ◌≤◌, [], ◌∷◌, length, IfOk, OnOk, IfErr, MatchResult, MatchOption, true, All};
ghost use Rattle.std.specs.List.{list_all};
ghost use Rattle.mg_word.specs.Forms as forms;
ghost use Rattle.mg_word.specs.Facts.{most_parts, most_forms};
ghost use Rattle.clause_form.specs.Faults.{is_light, is_light_clause, is_faultless, IsFirstHeavy, Stands};
ghost use Rattle.clause_form.specs.Building.{IsRefused, RefusesForm, RefusesClause, IsPushed, HasFewParts};

use crate::FormFault;
use crate::sides::{further_form_of, plain_form_of};
use crate::variables::free_variable;
use mg_word::{Clause, ClauseLit, Form, Items, MOST_FORMS, MOST_ITEMS};
use std::alloc::Global;

// Whether the literal has at most 4,096 symbols and variables.
fn is_light_literal(literal: &ClauseLit) -> bool
    ensures { result ≡ is_light literal.now }
{
    match literal {
        ClauseLit::True | ClauseLit::False => true,
        ClauseLit::Lit(lit) => lit.pattern.as_slice().len() <= MOST_ITEMS,
    }
}

// The position of the first literal that is too heavy.
fn heavy_position(literals: &[ClauseLit]) -> Option<u32>
    requires { length literals.now ≤ most_parts }
    ensures { MatchOption result (list_all is_light literals.now ≡ true) (IsFirstHeavy literals.now) }
{
    for (at, literal) in literals.iter().enumerate() {
        if !is_light_literal(literal) {
            return Some(at as u32 + 1);
        }
    }
    None
}

// Whether the literal is `$true` or `~$false`.
fn is_true(literal: &ClauseLit) -> bool
    ensures { result ≡ forms.is_always_true (literal.now ∷ []) }
{
    match literal {
        ClauseLit::True => true,
        ClauseLit::False | ClauseLit::Lit(_) => false,
    }
}

// Whether the clause has a literal that is always true.
fn has_true(literals: &[ClauseLit]) -> bool
    ensures { result ≡ forms.is_always_true literals.now }
{
    for literal in literals {
        if is_true(literal) {
            return true;
        }
    }
    false
}

// Adds a form behind the others, unless it is one too many or not restricted.
fn push_form(others: &mut Vec<Form>, form: Form) -> Result<(), FormFault>
    requires { length others.old.items ≤ most_forms }
    ensures { MatchResult result (λ _. (others.new.items ≡ others.old.items ++ form ∷ []) × (length others.old.items < most_forms) × (forms.is_restricted form ≡ true)) (IsRefused (length others.old.items) form) }
{
    let clause = form.clause;
    if others.len() == MOST_FORMS {
        return Err(FormFault::TooManyForms { clause });
    }
    if let Some(variable) = free_variable(&form) {
        return Err(FormFault::NotRestricted {
            clause,
            form: others.len() as u32 + 1,
            variable,
        });
    }
    match others.push(form) {
        Ok(()) => Ok(()),
        Err(_) => Err(FormFault::NoMemory),
    }
}

// Adds the forms of the clause with that index behind the others, up to the first fault.
fn push_forms(
    alloc: Global,
    others: &mut Vec<Form>,
    index: u32,
    clause: &Clause,
) -> Result<(), FormFault>
    requires room { length others.old.items ≤ most_forms }
    requires literals { length clause.now.literals ≤ most_parts }
    requires variables { length clause.now.variables ≤ most_parts }
    ensures { MatchResult result
        (λ _. IsPushed others.old.items others.new.items index clause.now)
        (RefusesClause (length others.old.items) index clause.now) }
{
    let literals = clause.literals.as_slice();
    if let Some(literal) = heavy_position(literals) {
        return Err(FormFault::TooHeavy {
            clause: index,
            literal,
        });
    }
    if has_true(literals) {
        return Ok(());
    }
    push_form(others, plain_form_of(alloc, index, clause)?)?;
    for chosen in clause.conclude.as_slice() {
        let form = further_form_of(alloc, index, clause, chosen.as_slice())?;
        match push_form(others, form) {
            Ok(()) => {}
            Err(fault) => return Err(fault),
        }
    }
    Ok(())
}

/// The forms of the clauses, up to the first fault.
pub fn all_forms(alloc: Global, clauses: &[Clause]) -> Result<Vec<Form>, FormFault>
    requires few { length clauses.now ≤ most_parts }
    requires sizes { All HasFewParts clauses.now }
    ensures { MatchResult result
        (λ built. (built.items ≡ forms.forms_of clauses.now) × (is_faultless clauses.now ≡ true))
        (Stands clauses.now) }
{
    let mut built = Vec::new(alloc);
    for (index, clause) in clauses.iter().enumerate() {
        match push_forms(alloc, &mut built, index as u32, clause) {
            Ok(()) => {}
            Err(fault) => return Err(fault),
        }
    }
    Ok(built)
}

//! Instances: patterns, literals and forms with each variable replaced by its term.

ghost use Rattle.std.specs.Prelude.{◌≡◌, ◌<◌, ◌≤◌, IfOk, Some, length, slice_get};
ghost use Rattle.mg_word.specs.Words.{instance_of, lit_instance, lit_instances, form_instance, numbered};

use crate::{Form, Inst, Item, Items, Lit, NoMemory, PatLit, Pattern, Problem, Subst, Word};
use std::alloc::Global;

/// The pattern with each variable replaced by its term; a variable that has none stands for nothing.
pub fn instance(alloc: Global, pattern: &Pattern, subst: &Subst) -> Result<Word, NoMemory>
    ensures { IfOk result (λ word. word ≡ instance_of subst.now pattern.now) }
{
    let items = pattern.as_slice();
    let terms = subst.as_slice();
    let mut symbols = Vec::with_capacity(alloc, items.len())?;
    for item in items {
        match *item {
            Item::Sym(symbol) => symbols.push(symbol)?,
            Item::Var(variable) => {
                if let Some(term) = terms.get(variable as usize) {
                    symbols.extend_from_slice(term.as_slice())?;
                }
            }
        }
    }
    Ok(Word::new(symbols))
}

/// The literal with each variable replaced by its term.
pub fn instance_of_lit(alloc: Global, lit: &PatLit, subst: &Subst) -> Result<Lit, NoMemory>
    ensures { IfOk result (λ made. made ≡ lit_instance subst.now lit.now) }
{
    Ok(Lit {
        negative: lit.negative,
        word: instance(alloc, &lit.pattern, subst)?,
    })
}

/// The literals, each with its variables replaced by their terms.
pub fn instances_of_lits(
    alloc: Global,
    lits: &[PatLit],
    subst: &Subst,
) -> Result<Vec<Lit>, NoMemory>
    ensures { IfOk result (λ made. made.items ≡ lit_instances subst.now lits.now) }
{
    let mut made = Vec::with_capacity(alloc, lits.len())?;
    for lit in lits {
        made.push(instance_of_lit(alloc, lit, subst)?)?;
    }
    Ok(made)
}

/// The instance of a form under these terms, with this number.
pub fn instance_of_form(
    alloc: Global,
    form: &Form,
    number: u32,
    subst: Subst,
) -> Result<Inst, NoMemory>
    ensures { IfOk result (λ made. made ≡ form_instance number subst form.now) }
{
    let premises = instances_of_lits(alloc, form.premises.as_slice(), &subst)?;
    let conclusions = instances_of_lits(alloc, form.conclusions.as_slice(), &subst)?;
    Ok(Inst {
        form: number,
        subst,
        premises: Items::new(premises),
        conclusions: Items::new(conclusions),
    })
}

/// The instance of the problem's form with this number, counted from 1.
pub fn inst_of(alloc: Global, problem: &Problem, form: u32, subst: Subst) -> Result<Inst, NoMemory>
    requires { (0 < form) × (form ≤ length problem.now.forms) }
    ensures { IfOk result (λ made. (at : _) × (numbered problem.now.forms form ≡ Some at) × (made ≡ form_instance form subst at)) }
{
    let forms = problem.forms.as_slice();
    instance_of_form(alloc, &forms[(form - 1) as usize], form, subst)
}

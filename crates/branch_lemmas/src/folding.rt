//! The lemma of a closed node.

ghost use Rattle.std.specs.Prelude.{◌≡◌, [], ◌∷◌, ◌++◌, IfOk, OnOk, length, List, All, Contains};
ghost use Rattle.mg_word.specs.declared.form.Inst.{Inst};
ghost use Rattle.mg_meaning.specs.Excluding.{ExcludesBy};
ghost use Rattle.mg_meaning.specs.Folding.{without, folded, rejecting};
ghost use Rattle.branch_lemmas.specs.Leaves.{lemma_of};

use crate::Lemma;
use case_split::Closure;
use mg_meaning::holds_lit;
use mg_word::{Inst, Lit, LitSet, NoMemory, complement};
use std::alloc::Global;

// Adds copies of the literals that are not among those taken.
#[tactic(auto, using(std::proofs::lemmas::List::Elements::filter_more))]
fn push_without(into: &mut Vec<Lit>, taken: &[Lit], lits: &[Lit]) -> Result<(), NoMemory>
    ensures { OnOk result (into.new.items ≡ into.old.items ++ without taken.now lits.now) }
{
    for lit in lits {
        if !holds_lit(taken, lit) {
            into.push(lit.copy()?)?;
        }
    }
    Ok(())
}

// Copies of the premises.
fn premises_of(alloc: Global, inst: &Inst) -> Result<Vec<Lit>, NoMemory>
    ensures { IfOk result (λ lits. lits.items ≡ inst.now.premises) }
{
    let premises = inst.premises.as_slice();
    let mut lits = Vec::with_capacity(alloc, premises.len())?;
    for premise in premises {
        lits.push(premise.copy()?)?;
    }
    Ok(lits)
}

/// The lemma of a node that an instance without conclusions rejects: its premises inside, nothing outside.
pub fn leaf_lemma(alloc: Global, inst: &Inst) -> Result<Lemma, NoMemory>
    requires { inst.now.conclusions ≡ [] }
    ensures { IfOk result (λ lemma. lemma ≡ rejecting inst.now) }
{
    Ok(Lemma {
        inside: LitSet::from_lits(premises_of(alloc, inst)?)?,
        outside: LitSet::empty(alloc),
    })
}

// The set of one literal.
fn singleton(alloc: Global, lit: Lit) -> Result<LitSet, NoMemory>
    ensures { IfOk result (λ set. set ≡ lit ∷ []) }
{
    LitSet::empty(alloc).with(lit)
}

/// The lemma of a child that is closed at once: of a clash, the literal and its complement inside; of a barred literal,
/// the literal inside and outside.
pub fn closure_lemma(alloc: Global, closure: &Closure) -> Result<Lemma, NoMemory>
    ensures { IfOk result (λ lemma. lemma ≡ lemma_of closure.now) }
{
    match closure {
        Closure::Clash(lit) => Ok(Lemma {
            inside: singleton(alloc, complement(lit.copy()?))?.with(lit.copy()?)?,
            outside: LitSet::empty(alloc),
        }),
        Closure::Barred(lit) => Ok(Lemma {
            inside: singleton(alloc, lit.copy()?)?,
            outside: singleton(alloc, lit.copy()?)?,
        }),
    }
}

// The premises, with each child's inside without the child's own conclusion.
fn folded_inside(alloc: Global, inst: &Inst, lemmas: &[Lemma]) -> Result<LitSet, NoMemory>
    requires { length lemmas.now ≡ length inst.now.conclusions }
    ensures { IfOk result (λ set. set ≡ (folded inst.now lemmas.now).inside) }
{
    let conclusions = inst.conclusions.as_slice();
    let mut inside = premises_of(alloc, inst)?;
    for (index, lemma) in lemmas.iter().enumerate() {
        push_without(
            &mut inside,
            &conclusions[index..index + 1],
            lemma.inside.as_slice(),
        )?;
    }
    LitSet::from_lits(inside)
}

// Each child's outside without the conclusions before the child's own.
fn folded_outside(alloc: Global, inst: &Inst, lemmas: &[Lemma]) -> Result<LitSet, NoMemory>
    requires { length lemmas.now ≡ length inst.now.conclusions }
    ensures { IfOk result (λ set. set ≡ (folded inst.now lemmas.now).outside) }
{
    let conclusions = inst.conclusions.as_slice();
    let mut outside = Vec::new(alloc);
    for (index, lemma) in lemmas.iter().enumerate() {
        push_without(
            &mut outside,
            &conclusions[..index],
            lemma.outside.as_slice(),
        )?;
    }
    LitSet::from_lits(outside)
}

/// The lemma of a node that an instance split, from those of its children, one for each conclusion.
pub fn fold(alloc: Global, inst: &Inst, lemmas: &[Lemma]) -> Result<Lemma, NoMemory>
    requires { length lemmas.now ≡ length inst.now.conclusions }
    ensures { IfOk result (λ lemma. lemma ≡ folded inst.now lemmas.now) }
{
    Ok(Lemma {
        inside: folded_inside(alloc, inst, lemmas)?,
        outside: folded_outside(alloc, inst, lemmas)?,
    })
}

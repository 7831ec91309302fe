//! The lemmas of closed branches, worked by hand.

use crate::literals::{P, Q, R, inst_of, lit_of, lits_of, set_of};
use branch_lemmas::{Lemma, LemmaIndex, closure_lemma, fold, leaf_lemma};
use case_split::Closure;
use mg_word::{Inst, NoMemory};
use std::alloc::Global;
use std::test::Fail;

fn lemma_of(
    alloc: Global,
    inside: &[(bool, u32)],
    outside: &[(bool, u32)],
) -> Result<Lemma, NoMemory> {
    Ok(Lemma {
        inside: set_of(alloc, inside)?,
        outside: set_of(alloc, outside)?,
    })
}

// Whether the two lemmas are the same.
fn are_same(one: &Lemma, other: &Lemma) -> bool {
    one.inside.as_slice() == other.inside.as_slice()
        && one.outside.as_slice() == other.outside.as_slice()
}

// The lemma of a node that this instance split, by those of its children.
fn folded(alloc: Global, inst: &Inst, lemmas: &[Lemma]) -> Result<Lemma, Fail> {
    if lemmas.len() != inst.conclusions.as_slice().len() {
        return Err(Fail::from("not one lemma for each child"));
    }
    Ok(fold(alloc, inst, lemmas)?)
}

// The lemma of a node that this instance rejected.
fn rejected(alloc: Global, inst: &Inst) -> Result<Lemma, Fail> {
    if !inst.conclusions.as_slice().is_empty() {
        return Err(Fail::from("an instance that rejects has no conclusion"));
    }
    Ok(leaf_lemma(alloc, inst)?)
}

// q -> p, where p is barred: a set with q and without p is none.
#[test]
fn fold_of_a_barred_literal(rt: HostRuntime) -> Result<(), Fail> {
    let alloc = rt.alloc();
    let inst = inst_of(alloc, &[Q], &[P])?;
    let barred = closure_lemma(alloc, &Closure::Barred(lit_of(alloc, P)?))?;
    assert!(rt; are_same(&barred, &lemma_of(alloc, &[P], &[P])?));
    let lemma = folded(alloc, &inst, &[barred])?;
    assert!(rt; are_same(&lemma, &lemma_of(alloc, &[Q], &[P])?));
    Ok(())
}

// p|q, where the first child was rejected by p -> and the second bars r: the outside comes from the second.
#[test]
fn outside_of_a_later_child(rt: HostRuntime) -> Result<(), Fail> {
    let alloc = rt.alloc();
    let inst = inst_of(alloc, &[], &[P, Q])?;
    let first = rejected(alloc, &inst_of(alloc, &[P], &[])?)?;
    let second = lemma_of(alloc, &[Q], &[P, R])?;
    let lemma = folded(alloc, &inst, &[first, second])?;
    assert!(rt; are_same(&lemma, &lemma_of(alloc, &[], &[R])?));
    Ok(())
}

fn add(index: &mut LemmaIndex, lemma: Lemma) -> Result<(), Fail> {
    if index.len() >= 3 {
        return Err(Fail::from("more lemmas than are tried"));
    }
    index.add(lemma)?;
    Ok(())
}

// The first lemma wants q outside, the second and the third do not: of two that apply the lesser number is answered.
#[test]
fn least_number_that_applies(rt: HostRuntime) -> Result<(), Fail> {
    let alloc = rt.alloc();
    let mut index = LemmaIndex::new(alloc)?;
    for outside in [Q, P, P] {
        add(&mut index, lemma_of(alloc, &[R], &[outside])?)?;
    }
    assert_eq!(rt; index.len(), 3);
    let held = lits_of(alloc, &[Q, R])?;
    let barred = set_of(alloc, &[P])?;
    assert_eq!(rt; index.first_match(held.as_slice(), &barred), Some(2));
    assert_eq!(rt; index.first_match(&[], &barred), None);
    assert!(rt; index.get(0).is_none() && index.get(3).is_some() && index.get(4).is_none());
    Ok(())
}

#[test]
fn several_at_once(rt: HostRuntime) -> Result<(), Fail> {
    let alloc = rt.alloc();
    let first = closure_lemma(alloc, &Closure::Clash(lit_of(alloc, P)?))?;
    let second = closure_lemma(alloc, &Closure::Barred(lit_of(alloc, Q)?))?;
    let lemmas = vec![in alloc; first, second]?;
    let mut index = LemmaIndex::new(alloc)?;
    assert_eq!(rt; index.len(), 0);
    assert_eq!(rt; lemmas.len(), 2);
    index.add_all(lemmas)?;
    assert_eq!(rt; index.len(), 2);
    Ok(())
}

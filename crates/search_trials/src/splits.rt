//! The cases of splits, worked by hand.

use crate::literals::{NOT_Q, P, Q, inst_of, lit_of, lits_of};
use case_split::{Child, Closure, child_barred, children};
use mg_word::{Inst, Lit, LitSet, NoMemory};
use std::test::Fail;

// The second of two children, where the first is open.
fn second(made: &[Child]) -> Option<&Closure> {
    match made {
        [first, second] if first.at_once.is_none() => second.at_once.as_ref(),
        _ => None,
    }
}

// p|p on the empty branch: the second child bars p, which it takes.
#[test]
fn literal_that_stands_twice_is_barred(rt: HostRuntime) -> Result<(), Fail> {
    let alloc = rt.alloc();
    let inst = inst_of(alloc, &[], &[P, P])?;
    let p = lit_of(alloc, P)?;
    let made = children(alloc, &inst, &[], &LitSet::empty(alloc))?;
    assert!(rt; matches!(second(&made), Some(Closure::Barred(lit)) if *lit == p));
    Ok(())
}

// How many literals the second child bars where its parent bars none.
fn barred_count(inst: &Inst, none: &LitSet) -> Result<Option<usize>, NoMemory> {
    if inst.conclusions.as_slice().is_empty() {
        return Ok(None);
    }
    let barred = child_barred(inst, 1, none)?;
    Ok(Some(barred.as_slice().len()))
}

// p|q where ~q is held: the second child clashes, and bars p.
#[test]
fn clash_is_told(rt: HostRuntime) -> Result<(), Fail> {
    let alloc = rt.alloc();
    let inst = inst_of(alloc, &[], &[P, Q])?;
    let q = lit_of(alloc, Q)?;
    let held = lits_of(alloc, &[NOT_Q])?;
    let none = LitSet::empty(alloc);
    let made = children(alloc, &inst, &held, &none)?;
    assert!(rt; matches!(second(&made), Some(Closure::Clash(lit)) if *lit == q));
    assert_eq!(rt; barred_count(&inst, &none)?, Some(1));
    Ok(())
}

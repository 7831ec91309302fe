//! Matches, violated instances and satisfying sets, on small cases whose answers were worked by hand.

use mg_meaning::{form_matches, is_minimal, is_satisfying, least_violated, violated_instances};
use mg_word::{Inst, Kind, Lit, Problem, Word};
use small_problems::problem_of;
use std::alloc::Global;
use std::test::Fail;

// p(X), q(Y) -> s(X,Y), and a clause that is true where p(a) is held.
const PAIRING: &str = "cnf(c1,axiom,~p(X)|~q(Y)|s(X,Y)). cnf(c2,axiom,p(a)|p(b)|q(c)).";

fn symbol(problem: &Problem, name: &str, arity: u32) -> Result<u32, Fail> {
    match problem.symbols.find(name, arity, Kind::Word)? {
        Some(number) => Ok(number),
        None => Err(Fail::from("no such symbol")),
    }
}

// p(a), p(b), q(c)
fn three_lits(alloc: Global, problem: &Problem) -> Result<Vec<Lit>, Fail> {
    let mut lits = Vec::new(alloc);
    for (predicate, constant) in [("p", "a"), ("p", "b"), ("q", "c")] {
        let predicate = symbol(problem, predicate, 1)?;
        let constant = symbol(problem, constant, 0)?;
        lits.push(Lit {
            negative: false,
            word: Word::new(vec![in alloc; predicate, constant]?),
        })?;
    }
    Ok(lits)
}

// How many matches both premises of the first form have.
fn matched(alloc: Global, problem: &Problem, lits: &[Lit]) -> Result<usize, Fail> {
    match problem.forms.as_slice().first() {
        Some(form) if form.premises.as_slice().len() == 2 => {
            Ok(form_matches(alloc, &problem.symbols, form, 2, lits)?.len())
        }
        _ => Err(Fail::from("no form of two premises")),
    }
}

#[test]
fn matches_of_both_premises(rt: HostRuntime) -> Result<(), Fail> {
    let alloc = rt.alloc();
    let problem = problem_of(alloc, PAIRING)?;
    let lits = three_lits(alloc, &problem)?;
    assert_eq!(rt; matched(alloc, &problem, lits.as_slice())?, 2);
    Ok(())
}

// Whether it is the instance of the first form with these two constants.
fn is_pair(inst: &Inst, first: u32, second: u32) -> bool {
    match inst.subst.as_slice() {
        [x, y] => {
            inst.form == 1
                && x.as_slice() == [first].as_slice()
                && y.as_slice() == [second].as_slice()
        }
        _ => false,
    }
}

// Whether the least violated instance is the one of the first form with a and c.
fn is_least(alloc: Global, problem: &Problem, lits: &[Lit]) -> Result<bool, Fail> {
    let a = symbol(problem, "a", 0)?;
    let c = symbol(problem, "c", 0)?;
    match least_violated(alloc, problem, lits)? {
        Some(inst) => Ok(is_pair(&inst, a, c)),
        None => Ok(false),
    }
}

#[test]
fn violated_instances_in_order(rt: HostRuntime) -> Result<(), Fail> {
    let alloc = rt.alloc();
    let problem = problem_of(alloc, PAIRING)?;
    let lits = three_lits(alloc, &problem)?;
    assert_eq!(rt;
        violated_instances(alloc, &problem, lits.as_slice())?.len(),
        2
    );
    assert!(rt; is_least(alloc, &problem, lits.as_slice())?);
    Ok(())
}

#[test]
fn the_empty_problem(rt: HostRuntime) -> Result<(), Fail> {
    let alloc = rt.alloc();
    let problem = problem_of(alloc, "")?;
    assert!(rt; is_satisfying(alloc, &problem, &[])?);
    assert!(rt; is_minimal(alloc, &problem, &[])?);
    assert!(rt; least_violated(alloc, &problem, &[])?.is_none());
    assert_eq!(rt; violated_instances(alloc, &problem, &[])?.len(), 0);
    Ok(())
}

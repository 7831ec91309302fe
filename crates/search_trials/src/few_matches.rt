//! Matches of two premises, worked by hand.

use crate::matching::{Step, Trial};
use ramified_match::Match;
use std::alloc::Global;
use std::test::Fail;

// q(a) alone is no match of p(X) and q(X), and p(a) then brings one.
const JOINED: [Step; 8] = [
    Step::Push("q", "a", 0),
    Step::Count(1, 1, 0),
    Step::Push("p", "a", 1),
    Step::Count(1, 1, 1),
    Step::Count(1, 2, 1),
    Step::PopTo(1),
    Step::Count(1, 1, 0),
    Step::Count(1, 2, 0),
];

// The premises p(X) and q(Y) have no variable in common; no premise before the first has one match, whatever is held.
const APART: [Step; 11] = [
    Step::Count(1, 0, 1),
    Step::Push("p", "a", 0),
    Step::Push("p", "b", 0),
    Step::Push("q", "a", 2),
    Step::Push("q", "b", 2),
    Step::Count(1, 2, 4),
    Step::PopTo(2),
    Step::Count(1, 1, 2),
    Step::Count(1, 2, 0),
    Step::Push("q", "b", 2),
    Step::Push("q", "a", 2),
];

// Whether the steps come to what they say, over the text's problem.
fn takes_all(alloc: Global, text: &str, steps: &[Step]) -> Result<bool, Fail> {
    let mut trial = Trial::new(alloc, text)?;
    trial.takes_all(alloc, steps)
}

#[test]
fn matches_come_and_go(rt: HostRuntime) -> Result<(), Fail> {
    let alloc = rt.alloc();
    let joined = "cnf(c1,axiom,~p(X)|~q(X)|r(X)). cnf(c2,axiom,r(a)).";
    assert!(rt; takes_all(alloc, joined, &JOINED)?);
    let apart = "cnf(c1,axiom,~p(X)|~q(Y)|s(X,Y)). cnf(c2,axiom,s(a,b)).";
    assert!(rt; takes_all(alloc, apart, &APART)?);
    Ok(())
}

// Whether it is one match, of that form, of one variable with this value.
fn is_one(brought: &[Match], form: u32, value: u32) -> bool {
    match brought {
        [one] => one.form == form
            && matches!(one.subst.as_slice(), [word] if word.as_slice() == [value].as_slice()),
        _ => false,
    }
}

// Whether p(a) brings the one match of the second form, in which X is a.
fn brings_a(alloc: Global, trial: &mut Trial) -> Result<bool, Fail> {
    let a = trial.symbol("a", 0)?;
    let p = trial.symbol("p", 1)?;
    let brought = trial.push(alloc, p, a)?;
    Ok(is_one(brought.as_slice(), 2, a))
}

#[test]
fn a_match_has_its_form_and_values(rt: HostRuntime) -> Result<(), Fail> {
    let alloc = rt.alloc();
    let mut trial = Trial::new(alloc, "cnf(c1,axiom,r(a)). cnf(c2,axiom,~p(X)|r(X)).")?;
    assert!(rt; brings_a(alloc, &mut trial)?);
    Ok(())
}

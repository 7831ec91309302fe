//! Which sets have a smaller one that satisfies, worked by hand.

use crate::literals::{NOT_P, NOT_Q, P, Q, R, set_of};
use mg_word::{LitSet, NoMemory, Problem};
use minimal_test::{Verdict, test};
use small_problems::problem_of;
use std::alloc::Global;
use std::test::Fail;

// The smaller set that the test finds, if there is one.
fn smaller(
    alloc: Global,
    problem: &Problem,
    signed: &[(bool, u32)],
) -> Result<Option<LitSet>, NoMemory> {
    let set = set_of(alloc, signed)?;
    match test(alloc, problem, &set)? {
        Verdict::Minimal => Ok(None),
        Verdict::Smaller(part) => Ok(Some(part)),
    }
}

// Whether none of these sets has a smaller one.
fn are_minimal(
    alloc: Global,
    problem: &Problem,
    sets: &[&[(bool, u32)]],
) -> Result<bool, NoMemory> {
    for signed in sets {
        if smaller(alloc, problem, signed)?.is_some() {
            return Ok(false);
        }
    }
    Ok(true)
}

// Whether this smaller set is found of that one.
fn finds(
    alloc: Global,
    problem: &Problem,
    signed: &[(bool, u32)],
    part: &[(bool, u32)],
) -> Result<bool, NoMemory> {
    let wanted = set_of(alloc, part)?;
    match smaller(alloc, problem, signed)? {
        None => Ok(false),
        Some(found) => Ok(found.as_slice() == wanted.as_slice()),
    }
}

// p or q holds, and q where p does. The last two sets hold a literal that is none of the problem's.
#[test]
fn smaller_of_two_clauses(rt: HostRuntime) -> Result<(), Fail> {
    let alloc = rt.alloc();
    let problem = problem_of(alloc, "cnf(c1,axiom,p|q). cnf(c2,axiom,~p|q).")?;
    let minimal = [
        [].as_slice(),
        [P].as_slice(),
        [Q].as_slice(),
        [(false, 7)].as_slice(),
    ];
    assert!(rt; are_minimal(alloc, &problem, &minimal)?);
    assert!(rt; finds(alloc, &problem, &[P, Q], &[Q])?);
    assert!(rt; finds(alloc, &problem, &[P, NOT_P, Q], &[Q])?);
    assert!(rt; finds(alloc, &problem, &[Q, (false, 7)], &[Q])?);
    Ok(())
}

// p or q holds, and r where either does.
#[test]
fn smaller_of_three_clauses(rt: HostRuntime) -> Result<(), Fail> {
    let alloc = rt.alloc();
    let text = "cnf(c1,axiom,p|q). cnf(c2,axiom,~p|r). cnf(c3,axiom,~q|r).";
    let problem = problem_of(alloc, text)?;
    let minimal = [[P, R].as_slice(), [Q, R].as_slice(), [P, Q].as_slice()];
    assert!(rt; are_minimal(alloc, &problem, &minimal)?);
    assert!(rt; finds(alloc, &problem, &[P, Q, R], &[Q, R])?);
    Ok(())
}

// p holds, and of p and q not both; the item asks for the constraint ~q where p is.
#[test]
fn smaller_with_a_constraint(rt: HostRuntime) -> Result<(), Fail> {
    let alloc = rt.alloc();
    let text = "cnf(c1,axiom,p). cnf(c2,axiom,~p|~q,unknown,[conclude([2])]).";
    let problem = problem_of(alloc, text)?;
    let minimal = [
        [P, NOT_Q].as_slice(),
        [P, Q].as_slice(),
        [Q, NOT_Q].as_slice(),
    ];
    assert!(rt; are_minimal(alloc, &problem, &minimal)?);
    assert!(rt; finds(alloc, &problem, &[P, Q, NOT_Q], &[P, NOT_Q])?);
    Ok(())
}

// q does not do without p, and one of them holds: the trial without p fails.
#[test]
fn smaller_after_a_failed_trial(rt: HostRuntime) -> Result<(), Fail> {
    let alloc = rt.alloc();
    let problem = problem_of(alloc, "cnf(c1,axiom,p|q). cnf(c2,axiom,~q|p).")?;
    assert!(rt; are_minimal(alloc, &problem, &[[P].as_slice()])?);
    assert!(rt; finds(alloc, &problem, &[P, Q], &[P])?);
    Ok(())
}

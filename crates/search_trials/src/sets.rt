//! Which sets satisfy a problem, worked by hand.

use crate::literals::{NOT_P, NOT_Q, P, Q, set_of};
use clause_form::satisfies;
use small_problems::problem_of;
use std::test::Fail;

// p or q holds, and q where p does.
#[test]
fn sets_of_two_clauses(rt: HostRuntime) -> Result<(), Fail> {
    let alloc = rt.alloc();
    let problem = problem_of(alloc, "cnf(c1,axiom,p|q). cnf(c2,axiom,~p|q).")?;
    for (signed, answer) in [
        ([P, Q].as_slice(), true),
        ([Q].as_slice(), true),
        ([P].as_slice(), false),
        ([].as_slice(), false),
        ([P, Q, NOT_P].as_slice(), false),
        ([Q, NOT_P].as_slice(), true),
    ] {
        let set = set_of(alloc, signed)?;
        assert_eq!(rt; satisfies(alloc, &problem, &set)?, answer);
    }
    Ok(())
}

// p holds, and of p and q not both; the item asks for the constraint ~q where p is.
#[test]
fn sets_with_a_constraint(rt: HostRuntime) -> Result<(), Fail> {
    let alloc = rt.alloc();
    let text = "cnf(c1,axiom,p). cnf(c2,axiom,~p|~q,unknown,[conclude([2])]).";
    let problem = problem_of(alloc, text)?;
    for (signed, answer) in [
        ([P].as_slice(), false),
        ([P, NOT_Q].as_slice(), true),
        ([P, Q].as_slice(), false),
        ([NOT_Q].as_slice(), false),
        ([P, Q, NOT_Q].as_slice(), false),
    ] {
        let set = set_of(alloc, signed)?;
        assert_eq!(rt; satisfies(alloc, &problem, &set)?, answer);
    }
    Ok(())
}

//! Rows for each public call on forms, with answers by hand.

use clause_form::{FormFault, form_text, free_variable, satisfies};
use mg_word::{Form, Item, Items, LitSet, NoMemory, PatLit, Pattern};
use small_problems::{NoProblem, problem_of};
use std::alloc::Global;
use std::test::Fail;

fn variable_lit(alloc: Global, negative: bool, variable: u32) -> Result<PatLit, NoMemory> {
    Ok(PatLit {
        negative,
        pattern: Pattern::new(vec![in alloc; Item::Var(variable)]?),
    })
}

// Two literals of one variable each, of which one is negative.
fn two_lits(alloc: Global, negative: bool, variables: [u32; 2]) -> Result<Items<PatLit>, NoMemory> {
    let lits = vec![in alloc;
        variable_lit(alloc, negative, variables[0])?,
        variable_lit(alloc, !negative, variables[1])?,
    ]?;
    Ok(Items::new(lits))
}

fn form_of(alloc: Global, premises: [u32; 2], conclusions: [u32; 2]) -> Result<Form, NoMemory> {
    Ok(Form {
        clause: 0,
        variables: 3,
        premises: two_lits(alloc, false, premises)?,
        conclusions: two_lits(alloc, true, conclusions)?,
    })
}

#[test]
fn the_least_free_variable_is_named(rt: HostRuntime) -> Result<(), Fail> {
    // premises, conclusions, the least free variable
    for (premises, conclusions, wanted) in [
        ([0, 1], [1, 0], None),
        ([0, 1], [2, 1], Some(2)),
        ([1, 1], [2, 0], Some(0)),
        ([7, 2], [9, 8], Some(8)),
    ] {
        let form = form_of(rt.alloc(), premises, conclusions)?;
        assert_eq!(rt; free_variable(&form), wanted);
    }
    Ok(())
}

#[test]
fn one_negative_literal_makes_a_form(rt: HostRuntime) -> Result<(), Fail> {
    let alloc = rt.alloc();
    let problem = problem_of(alloc, "cnf(c,axiom,~p(X)).")?;
    assert_eq!(rt; problem.forms.as_slice().len(), 1);
    let line = form_text(alloc, &problem, 1)?;
    assert!(rt; line.as_slice() == b"form 1 c: p(X1) ->".as_slice());
    assert!(rt; satisfies(alloc, &problem, &LitSet::empty(alloc))?);
    Ok(())
}

#[test]
fn one_positive_literal_is_not_restricted(rt: HostRuntime) -> Result<(), Fail> {
    let wanted = FormFault::NotRestricted {
        clause: 0,
        form: 1,
        variable: 0,
    };
    match problem_of(rt.alloc(), "cnf(c,axiom,p(X)).") {
        Err(NoProblem::Unformed(fault)) => assert!(rt; fault == wanted),
        _ => assert!(rt; false, "no such fault"),
    }
    Ok(())
}

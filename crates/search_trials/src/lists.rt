//! The lists of all minimal sets of small problems, worked by hand.

ghost use Rattle.std.specs.Prelude.{◌≤◌};
ghost use Rattle.tree_board.specs.declared.board.TheConstants.{MOST_BUDGET};

use crate::literals::{NOT_R, P, Q, R, set_of};
use clause_form::forms_of;
use mg_word::{NoMemory, Problem};
use model_lister::{Listing, list_models};
use sample_maker::sample;
use small_problems::problem_of;
use std::alloc::Global;
use std::sync::Arc;
use std::test::Fail;
use tree_board::{Limit, Limits};

fn listed(alloc: Global, problem: Problem, budget: u32) -> Result<Listing, NoMemory>
    requires { budget ≤ MOST_BUDGET }
{
    let problem = Arc::new(alloc, problem)?;
    list_models(alloc, problem, Limits { budget, weight: 64 })
}

// Whether the listing has these sets, each of signs and symbols.
fn has_sets(alloc: Global, listing: &Listing, sets: &[&[(bool, u32)]]) -> Result<bool, NoMemory> {
    if listing.sets.len() != sets.len() {
        return Ok(false);
    }
    for (set, signed) in listing.sets.iter().zip(sets) {
        let wanted = set_of(alloc, signed)?;
        if set.as_slice() != wanted.as_slice() {
            return Ok(false);
        }
    }
    Ok(true)
}

// Whether these are all minimal sets of the problem of the text.
fn lists(alloc: Global, text: &str, sets: &[&[(bool, u32)]]) -> Result<bool, Fail> {
    let listing = listed(alloc, problem_of(alloc, text)?, 100)?;
    Ok(listing.gave_up.is_none() && has_sets(alloc, &listing, sets)?)
}

// The search finds p, q and q alone.
#[test]
fn a_found_set_is_not_minimal(rt: HostRuntime) -> Result<(), Fail> {
    let alloc = rt.alloc();
    let text = "cnf(c1,axiom,p|q). cnf(c2,axiom,~p|q).";
    assert!(rt; lists(alloc, text, &[&[Q]])?);
    Ok(())
}

#[test]
fn two_sets_stand_in_order(rt: HostRuntime) -> Result<(), Fail> {
    let alloc = rt.alloc();
    let text = "cnf(c1,axiom,p|q). cnf(c2,axiom,~p|r). cnf(c3,axiom,~q|r).";
    assert!(rt; lists(alloc, text, &[&[P, R], &[Q, R]])?);
    assert!(rt; lists(alloc, "cnf(c1,axiom,p|p).", &[&[P]])?);
    Ok(())
}

#[test]
fn no_clause_has_the_empty_set(rt: HostRuntime) -> Result<(), Fail> {
    let alloc = rt.alloc();
    assert!(rt; lists(alloc, "", &[&[]])?);
    assert!(rt; lists(alloc, "cnf(c1,axiom,$false).", &[])?);
    Ok(())
}

// Where p and q hold, the item asks for the constraint ~r.
#[test]
fn a_constraint_is_listed(rt: HostRuntime) -> Result<(), Fail> {
    let alloc = rt.alloc();
    let text = "cnf(c1,axiom,p). cnf(c2,axiom,q). cnf(c3,axiom,~p|~q|~r,unknown,[conclude([3])]).";
    assert!(rt; lists(alloc, text, &[&[P, Q, NOT_R]])?);
    Ok(())
}

// With p there is no end: p, s(a), s(f(a)), and so on.
#[test]
fn the_budget_cuts_the_list_off(rt: HostRuntime) -> Result<(), Fail> {
    let alloc = rt.alloc();
    let text = "cnf(c1,axiom,p|q). cnf(c2,axiom,~p|s(a)). cnf(c3,axiom,~s(X)|s(f(X))).";
    let listing = listed(alloc, problem_of(alloc, text)?, 50)?;
    assert!(rt; matches!(listing.gave_up, Some(Limit::Budget)));
    assert_eq!(rt; listing.sets.len(), 1);
    Ok(())
}

// How many minimal sets the sample of the size has.
fn sample_count(alloc: Global, size: u32) -> Result<Option<usize>, Fail> {
    let input = sample(alloc, size)?;
    let listing = listed(alloc, forms_of(alloc, &input)?, 100)?;
    match listing.gave_up {
        None => Ok(Some(listing.sets.len())),
        Some(_) => Ok(None),
    }
}

#[test]
fn samples_are_counted_by_fibonacci_numbers(rt: HostRuntime) -> Result<(), Fail> {
    let alloc = rt.alloc();
    for (size, count) in [(1, 2), (2, 3), (3, 5), (4, 8), (5, 13)] {
        assert_eq!(rt; sample_count(alloc, size)?, Some(count));
    }
    Ok(())
}

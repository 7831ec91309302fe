//! The places of literals in a set, and the literals of places.

ghost use Rattle.std.specs.Prelude.{◌≡◌, [], ◌∷◌, ◌++◌, true, if◌then◌else◌, IfOk, OnOk, IsTrue};
ghost use Rattle.std.specs.Option.{option_to_list};
ghost use Rattle.mg_word.specs.Sets.{is_rising};
ghost use Rattle.minimal_test.specs.Choices.{is_on, chosen_of};
ghost use Rattle.minimal_test.specs.Places.{place_of, places_of, rule_of, chosen_from};

use crate::rule::Rule;
use crate::side::{Side, side_at};
use mg_word::{Items, Lit, NoMemory};
use std::alloc::Global;

// The place of the literal in the set, where it is in it.
fn place_of(set: &[Lit], lit: &Lit) -> Option<usize>
    requires { IsTrue (is_rising set.now) }
    ensures { result ≡ place_of set.now lit.now }
{
    match set.binary_search(lit) {
        Ok(place) => Some(place),
        Err(_) => None,
    }
}

// Adds the place, if there is one.
fn push_some(place: Option<usize>, places: &mut Vec<usize>) -> Result<(), NoMemory>
    ensures { OnOk result (places.new.items ≡ places.old.items ++ option_to_list place) }
{
    if let Some(place) = place {
        places.push(place)?;
    }
    Ok(())
}

// The places of those literals that are in the set.
fn places_of(alloc: Global, set: &[Lit], lits: &[Lit]) -> Result<Items<usize>, NoMemory>
    requires { IsTrue (is_rising set.now) }
    ensures { IfOk result (λ places. places ≡ places_of set.now lits.now) }
{
    let mut places = Vec::new(alloc);
    for lit in lits {
        push_some(place_of(set, lit), &mut places)?;
    }
    Ok(Items::new(places))
}

/// The rule that where all of the premises are in, one of the conclusions is, so far as they are in the set.
pub fn rule_of(
    alloc: Global,
    set: &[Lit],
    premises: &[Lit],
    conclusions: &[Lit],
) -> Result<Rule, NoMemory>
    requires { IsTrue (is_rising set.now) }
    ensures { IfOk result (λ rule. rule ≡ rule_of set.now premises.now conclusions.now) }
{
    Ok(Rule {
        premises: places_of(alloc, set, premises)?,
        conclusions: places_of(alloc, set, conclusions)?,
    })
}

// Adds the literal, where its place is in.
fn push_in(side: Side, lit: &Lit, lits: &mut Vec<Lit>) -> Result<(), NoMemory>
    ensures { OnOk result (lits.new.items ≡ lits.old.items ++ (if is_on true side then lit.now ∷ [] else [])) }
{
    if let Side::In = side {
        lits.push(lit.copy()?)?;
    }
    Ok(())
}

/// The literals whose places are in.
pub fn lits_in(alloc: Global, sides: &[Side], set: &[Lit]) -> Result<Vec<Lit>, NoMemory>
    ensures { IfOk result (λ lits. lits.items ≡ chosen_from (chosen_of sides.now) 0 set.now) }
{
    let mut lits = Vec::new(alloc);
    for (place, lit) in set.iter().enumerate() {
        push_in(side_at(sides, place), lit, &mut lits)?;
    }
    Ok(lits)
}

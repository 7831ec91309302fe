//! The search for a choice that keeps rules: the least open place is tried out, and put in where that fails.

ghost use Rattle.std.specs.Prelude.{◌≤◌, IfOk, MatchOption, IsTrue, length, replicate};
ghost use Rattle.minimal_test.specs.Choices.{keeps, chosen_of};
ghost use Rattle.minimal_test.specs.Paths.{IsDead, Leads};
ghost use Rattle.minimal_test.specs.Rounds.{IsRound};
ghost use Rattle.minimal_test.specs.Settled.{IsBegun, IsReached};
ghost use Rattle.minimal_test.specs.Uses.{AreUses};

use crate::path::{Path, Step};
use crate::propagation::{propagate, settle_all};
use crate::rule::Rule;
use crate::side::{Side, first_open};
use crate::starts::Starts;
use crate::uses::Uses;
use mg_word::NoMemory;
use std::alloc::Global;

/// What a round of the search came to.
#[derive(Clone, Copy, Debug)]
pub enum Round {
    /// The sides are a choice that keeps the rules.
    Found,
    /// No choice does.
    Exhausted,
    /// Neither yet.
    Further,
}

// Looks at each rule once. False where no choice keeps them.
fn begin(rules: &[Rule], starts: &mut Starts, path: &mut Path) -> Result<bool, NoMemory>
    requires handed { path.old.handed ≤ length path.old.trail.items }
    requires reached { (start : _) × Leads rules.now start path.old.trail.items path.old.sides.items }
    ensures { IfOk result (λ going. (start : _) → Leads rules.now start path.old.trail.items path.old.sides.items → IsBegun rules.now start path.new going) }
{
    if settle_all(rules, starts, path)? {
        return Ok(true);
    }
    path.flip()
}

// One round.
fn advance(
    rules: &[Rule],
    uses: &Uses,
    starts: &mut Starts,
    path: &mut Path,
) -> Result<Round, NoMemory>
    requires { (start : _) × IsReached rules.now start path.old × AreUses rules.now (length start) uses.now }
    ensures { IfOk result (IsRound rules.now path.old path.new) }
{
    if propagate(rules, uses, starts, path)? {
        let Some(place) = first_open(path.sides.as_slice()) else {
            return Ok(Round::Found);
        };
        path.put(Step {
            place,
            is_in: false,
            is_tried: true,
        })?;
        return Ok(Round::Further);
    }
    if path.flip()? {
        Ok(Round::Further)
    } else {
        Ok(Round::Exhausted)
    }
}

/// The sides of so many places under a choice that keeps the rules, and nothing where no choice does.
pub fn solve(alloc: Global, rules: &[Rule], count: usize) -> Result<Option<Vec<Side>>, NoMemory>
    ensures { IfOk result (λ found. MatchOption found (IsDead rules.now (replicate count Side.Open)) (λ sides. IsTrue (keeps (chosen_of sides.items) rules.now))) }
{
    let uses = Uses::new(alloc, rules, count)?;
    let mut starts = Starts::new(alloc, rules.len())?;
    let mut path = Path::new(alloc, count)?;
    if !begin(rules, &mut starts, &mut path)? {
        return Ok(None);
    }
    loop {
        match advance(rules, &uses, &mut starts, &mut path)? {
            Round::Found => return Ok(Some(path.sides)),
            Round::Exhausted => return Ok(None),
            Round::Further => {}
        }
    }
}

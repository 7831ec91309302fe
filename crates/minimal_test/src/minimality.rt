//! The test of a set.

ghost use Rattle.std.specs.Prelude.{IfOk};
ghost use Rattle.mg_word.specs.Facts.{IsProblem};
ghost use Rattle.minimal_test.specs.Choices.{AskTheSame};
ghost use Rattle.minimal_test.specs.Places.{rules_of};
ghost use Rattle.minimal_test.specs.Verdicts.{IsRight};

use crate::Verdict;
use crate::listing::rules_of;
use crate::places::lits_in;
use crate::rule::Rule;
use crate::search::solve;
use mg_word::{LitSet, NoMemory, Problem};
use std::alloc::Global;

/// The verdict on a set, by rules that ask the same of its parts as the problem does.
pub fn verdict_of(alloc: Global, rules: &[Rule], set: &LitSet) -> Result<Verdict, NoMemory>
    ensures { IfOk result (λ verdict. (problem : _) → IsProblem problem → AskTheSame rules.now (rules_of problem.symbols problem.forms set.now) → IsRight problem set.now verdict) }
{
    let lits = set.as_slice();
    match solve(alloc, rules, lits.len())? {
        None => Ok(Verdict::Minimal),
        Some(sides) => {
            let part = lits_in(alloc, sides.as_slice(), lits)?;
            let smaller = LitSet::from_lits(part)?;
            Ok(Verdict::Smaller(smaller))
        }
    }
}

/// Minimal exactly where no proper part of the set satisfies the problem, and otherwise a proper part that does. The
/// set itself may or may not satisfy it.
pub fn test(alloc: Global, problem: &Problem, set: &LitSet) -> Result<Verdict, NoMemory>
    ensures { IfOk result (IsRight problem.now set.now) }
{
    let rules = rules_of(alloc, &problem.symbols, problem.forms.as_slice(), set)?;
    verdict_of(alloc, rules.as_slice(), set)
}

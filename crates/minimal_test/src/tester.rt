//! Tests of sets of one problem, one after another.

ghost use Rattle.std.specs.Prelude.{◌≡◌, IfOk};
ghost use Rattle.std.specs.Arc.{arc_value};
ghost use Rattle.minimal_test.specs.Verdicts.{IsRight};

use crate::Verdict;
use crate::full_rules::rules_held;
use crate::holding::Holding;
use crate::minimality::{test, verdict_of};
use mg_word::{LitSet, NoMemory, Problem};
use std::alloc::Global;
use std::marker::Model;
use std::sync::Arc;

/// Tests sets of one problem. Sets that begin alike are tested faster one after another: what is known of the matches of
/// their common front is kept.
#[derive(Drop)]
pub struct Tester {
    alloc: Global,
    holding: Holding,
}

impl Model for Tester {
    ghost use Rattle.mg_word.specs.Facts.{ProblemData};

    ghost Value = { ProblemData };

    ghost view = { λ tester. tester.holding.problem };
}

impl Tester {
    /// A test of sets of this problem.
    pub fn new(alloc: Global, problem: Arc<Problem>) -> Result<Tester, NoMemory>
        ensures { IfOk result (λ tester. tester ≡ arc_value problem) }
    {
        let holding = Holding::new(alloc, problem)?;
        Ok(Tester { alloc, holding })
    }

    /// Minimal exactly where no proper part of the set satisfies the problem, and otherwise a proper part that does. The
    /// set itself may or may not satisfy it.
    pub fn test(&mut self, set: &LitSet) -> Result<Verdict, NoMemory>
        ensures problem { self.new ≡ self.old }
        ensures verdict { IfOk result (IsRight self.old set.now) }
    {
        let all = self.holding.hold(set.as_slice())?;
        let stacks = self.holding.stacks();
        let problem: &Problem = stacks.problem();
        // The facts of its type are then known.
        let _symbols = &problem.symbols;
        if !all {
            return test(self.alloc, problem, set);
        }
        let rules = rules_held(self.alloc, stacks, set)?;
        verdict_of(self.alloc, rules.as_slice(), set)
    }
}

//! What a problem asks of the parts of a set whose literals stacks hold, by the matches that they hold.

ghost use Rattle.std.specs.Prelude.{◌≡◌, ◌<◌, [], ◌∷◌, ◌++◌, All, IfOk, IsTrue, OnOk, length, map};
ghost use Rattle.std.specs.List.{flat_map};
ghost use Rattle.mg_word.specs.Sets.{is_rising};
ghost use Rattle.term_store.specs.Terms.{word_at};
ghost use Rattle.ramified_match.specs.Stacks.{IsFull};
ghost use Rattle.minimal_test.specs.Choices.{AskTheSame};
ghost use Rattle.minimal_test.specs.Places.{rule_of, rules_of};
ghost use Rattle.minimal_test.specs.FullRules.{full_rule, held_rules};

use crate::listing::{push_clashes, rule_under};
use crate::places::rule_of;
use crate::rule::Rule;
use mg_word::{LitSet, NoMemory, Subst};
use ramified_match::{Full, Stacks};
use std::alloc::Global;
use term_store::TermStore;

// The words of the terms with these numbers.
fn words_at(alloc: Global, terms: &TermStore, numbers: &[u32]) -> Result<Subst, NoMemory>
    requires { All (λ number. number < length terms.now) numbers.now }
    ensures { IfOk result (λ subst. subst ≡ map (word_at terms.now) numbers.now) }
{
    let mut words = Vec::with_capacity(alloc, numbers.len())?;
    for number in numbers {
        words.push(terms.word_of(*number as usize)?)?;
    }
    Ok(Subst::new(words))
}

// The rule of the instance of a full match.
fn full_rule(alloc: Global, stacks: &Stacks, set: &LitSet, full: &Full) -> Result<Rule, NoMemory>
    requires { IsFull stacks.now full.now }
    ensures { IfOk result (λ rule. full_rule stacks.now set.now full.now ≡ rule ∷ []) }
{
    let subst = words_at(alloc, stacks.terms(), full.values.as_slice())?;
    let forms = stacks.problem().forms.as_slice();
    rule_under(alloc, set, &forms[full.form as usize - 1], &subst)
}

// Adds the rules of the instances of these full matches.
fn push_full(
    alloc: Global,
    stacks: &Stacks,
    set: &LitSet,
    matches: &[Full],
    rules: &mut Vec<Rule>,
) -> Result<(), NoMemory>
    requires { All (IsFull stacks.now) matches.now }
    ensures { OnOk result (rules.new.items ≡ rules.old.items ++ flat_map (full_rule stacks.now set.now) matches.now) }
{
    for full in matches {
        rules.push(full_rule(alloc, stacks, set, full)?)?;
    }
    Ok(())
}

/// What is asked of a proper part of the set, whose literals the stacks hold, that satisfies their problem.
pub fn rules_held(alloc: Global, stacks: &Stacks, set: &LitSet) -> Result<Vec<Rule>, NoMemory>
    requires { stacks.now.lits ≡ set.now }
    ensures { IfOk result (λ rules. AskTheSame rules.items (rules_of stacks.now.problem.symbols stacks.now.problem.forms set.now)) }
{
    let mut rules = Vec::new(alloc);
    push_clashes(alloc, set, &mut rules)?;
    push_full(alloc, stacks, set, stacks.full(), &mut rules)?;
    rules.push(rule_of(alloc, set.as_slice(), set.as_slice(), &[])?)?;
    Ok(rules)
}

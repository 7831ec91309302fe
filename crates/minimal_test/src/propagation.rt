//! Propagation: what is forced is put on its side, until nothing is forced or a rule is a conflict.

ghost use Rattle.std.specs.Prelude.{◌≤◌, IfOk, OnOk, MatchBool, IsTrue, length, List};
ghost use Rattle.minimal_test.specs.Findings.{has_conflict, AreClosed};
ghost use Rattle.minimal_test.specs.Paths.{Extends};
ghost use Rattle.minimal_test.specs.Settled.{AreAwaited, IsHandedOn, IsLooked, IsReached};
ghost use Rattle.minimal_test.specs.Uses.{AreUses};
ghost use Rattle.minimal_test.specs.declared.side.Side.{Side};

use crate::finding::{Finding, look};
use crate::path::{Path, Step};
use crate::rule::Rule;
use crate::starts::Starts;
use crate::uses::Uses;
use mg_word::NoMemory;

// Looks at the rule of that number, and puts the place that it forces. False where it is a conflict.
fn look_at(
    rules: &[Rule],
    number: usize,
    starts: &mut Starts,
    path: &mut Path,
) -> Result<bool, NoMemory>
    requires { path.old.handed ≤ length path.old.trail.items }
    ensures extends { OnOk result (Extends rules.now path.old path.new) }
    ensures looked { IfOk result (λ kept. MatchBool kept (IsLooked rules.now number path.old path.new) (IsTrue (has_conflict path.new.sides.items rules.now))) }
{
    if number >= rules.len() {
        return Ok(true);
    }
    let mut start = starts.at(number);
    let finding = look(&rules[number], path.sides.as_slice(), &mut start);
    starts.set(number, start);
    match finding {
        Finding::Broken => Ok(false),
        Finding::Forced(place, is_in) => {
            path.put(Step {
                place,
                is_in,
                is_tried: false,
            })?;
            Ok(true)
        }
        Finding::Quiet => Ok(true),
    }
}

/// Looks at each rule once, and puts what they force. False where one is a conflict.
pub fn settle_all(rules: &[Rule], starts: &mut Starts, path: &mut Path) -> Result<bool, NoMemory>
    requires { path.old.handed ≤ length path.old.trail.items }
    ensures extends { OnOk result (Extends rules.now path.old path.new) }
    ensures handed_on { IfOk result (IsHandedOn rules.now path.old path.new) }
{
    for number in 0..rules.len() {
        if !look_at(rules, number, starts, path)? {
            return Ok(false);
        }
    }
    Ok(true)
}

// Looks at the rules of those numbers, and puts what they force. False where one is a conflict.
fn hand_on(
    rules: &[Rule],
    numbers: &[usize],
    starts: &mut Starts,
    path: &mut Path,
) -> Result<bool, NoMemory>
    requires handed { path.old.handed ≤ length path.old.trail.items }
    requires awaited { AreAwaited rules.now numbers.now path.old }
    ensures extends { OnOk result (Extends rules.now path.old path.new) }
    ensures handed_on { IfOk result (IsHandedOn rules.now path.old path.new) }
{
    for number in numbers {
        if !look_at(rules, *number, starts, path)? {
            return Ok(false);
        }
    }
    Ok(true)
}

/// Goes on to the closure of the sides under the rules, or to a conflict: whether it is the closure.
pub fn propagate(
    rules: &[Rule],
    uses: &Uses,
    starts: &mut Starts,
    path: &mut Path,
) -> Result<bool, NoMemory>
    requires { (start : List Side) × IsReached rules.now start path.old × AreUses rules.now (length start) uses.now }
    ensures extends { OnOk result (Extends rules.now path.old path.new) }
    ensures closed { IfOk result (λ settled. MatchBool settled (AreClosed path.new.sides.items rules.now) (IsTrue (has_conflict path.new.sides.items rules.now))) }
    ensures handed { IfOk result (λ settled. IsTrue settled → path.new.handed ≤ length path.new.trail.items) }
{
    while let Some(place) = path.next_place() {
        if !hand_on(rules, uses.at(place), starts, path)? {
            return Ok(false);
        }
    }
    Ok(true)
}

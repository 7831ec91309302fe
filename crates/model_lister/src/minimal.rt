//! Which of the found sets are minimal.

ghost use Rattle.std.specs.Prelude.{◌≡◌, All, IfOk, filter};
ghost use Rattle.mg_word.specs.Facts.{IsProblem};
ghost use Rattle.mg_meaning.specs.Deciding.{is_least};
ghost use Rattle.mg_meaning.specs.Satisfaction.{Satisfies};
ghost use Rattle.tree_board.specs.Leaves.{ListsMinimalFound};
ghost use Rattle.tree_board.specs.Searches.{board_of, setting_of};

use mg_word::{LitSet, NoMemory, Problem};
use minimal_test::{Tester, Verdict};
use std::alloc::Global;
use std::sync::Arc;
use tree_board::Board;

// Whether the set, which satisfies the tester's problem, is minimal.
fn is_minimal(tester: &mut Tester, set: &LitSet) -> Result<bool, NoMemory>
    requires problem { IsProblem tester.old }
    requires satisfies { Satisfies set.now tester.old }
    ensures same { tester.new ≡ tester.old }
    ensures answer { IfOk result (λ answer. answer ≡ is_least tester.old set.now) }
{
    match tester.test(set)? {
        Verdict::Minimal => Ok(true),
        Verdict::Smaller(_) => Ok(false),
    }
}

// The minimal ones among these sets, in their order. The others are dropped.
fn minimal_among(
    alloc: Global,
    mut tester: Tester,
    sets: Vec<LitSet>,
) -> Result<Vec<LitSet>, NoMemory>
    requires problem { IsProblem tester }
    requires satisfy { All (λ set. Satisfies set tester) sets.items }
    ensures { IfOk result (λ kept. kept.items ≡ filter (is_least tester) sets.items) }
{
    let mut kept = Vec::new(alloc);
    for set in sets {
        if is_minimal(&mut tester, &set)? {
            kept.push(set)?;
        }
    }
    Ok(kept)
}

// A tester of the board's problem.
fn tester_of(alloc: Global, board: &Board) -> Result<Tester, NoMemory>
    ensures { IfOk result (λ tester. tester ≡ board.now.problem) }
{
    Tester::new(alloc, Arc::try_clone(board.problem())?)
}

/// The found sets of the board that are minimal, in the order of sets.
pub fn minimal_found(alloc: Global, board: &Board) -> Result<Vec<LitSet>, NoMemory>
    ensures { IfOk result (λ sets. ListsMinimalFound (setting_of board.now) (board_of board.now) sets.items) }
{
    // It is lawful, and the problem has the facts of its type.
    let _journal = board.journal();
    let problem: &Problem = board.problem();
    let _symbols = &problem.symbols;
    let tester = tester_of(alloc, board)?;
    let found = board.leaves(alloc)?;
    minimal_among(alloc, tester, found)
}

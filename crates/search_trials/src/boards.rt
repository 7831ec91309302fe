//! Boards of problems that are read.

ghost use Rattle.std.specs.Prelude.{◌<◌, ◌≤◌};
ghost use Rattle.tree_board.specs.declared.board.TheConstants.{MOST_BUDGET, MOST_WEIGHT};

use small_problems::problem_of;
use std::alloc::Global;
use std::sync::Arc;
use std::test::Fail;
use tree_board::{Board, Limits, Mode};

/// The board of the text's problem, whose root is open.
pub fn board_of(
    alloc: Global,
    text: &str,
    mode: Mode,
    budget: u32,
    weight: u32,
) -> Result<Board, Fail>
    requires budget { budget ≤ MOST_BUDGET }
    requires some_weight { 0 < weight }
    requires weight { weight ≤ MOST_WEIGHT }
{
    let problem = Arc::new(alloc, problem_of(alloc, text)?)?;
    Ok(Board::new(alloc, problem, mode, Limits { budget, weight })?)
}

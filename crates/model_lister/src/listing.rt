//! The search for all minimal sets of a problem by one worker.

ghost use Rattle.std.specs.Prelude.{◌≡◌, ◌<◌, ◌≤◌, IfOk};
ghost use Rattle.std.specs.Arc.{arc_value};
ghost use Rattle.model_lister.specs.Ends.{end_of};
ghost use Rattle.model_lister.specs.Runs.{IsRun, limit_in};
ghost use Rattle.model_lister.specs.Listings.{IsListing};

use crate::minimal::minimal_found;
use mg_word::{LitSet, NoMemory, Problem};
use std::alloc::Global;
use std::sync::Arc;
use tree_board::{Board, BoardState, Limit, Limits, MOST_BUDGET, MOST_WEIGHT, Mode, finish_alone};

/// What a search has listed.
#[derive(Drop)]
pub struct Listing {
    /// The search at its end.
    pub board: Board,
    /// The minimal sets that it found, in order.
    pub sets: Vec<LitSet>,
    /// The limit that stopped it, where the list may lack some.
    pub gave_up: Option<Limit>,
}

// The search for all minimal sets of the problem, gone on to its end by one worker.
fn searched(alloc: Global, problem: Arc<Problem>, limits: Limits) -> Result<Board, NoMemory>
    requires budget { limits.budget ≤ MOST_BUDGET }
    requires some_weight { 0 < limits.weight }
    requires weight { limits.weight ≤ MOST_WEIGHT }
    ensures { IfOk result (IsRun (arc_value problem) limits) }
{
    // The facts of its type are then known.
    let held: &Problem = &problem;
    let _symbols = &held.symbols;
    let board = Board::new(alloc, problem, Mode::List, limits)?;
    finish_alone(alloc, board)
}

// The limit that blocks the board, if one does.
fn limit_of(board: &Board) -> Option<Limit>
    ensures { result ≡ limit_in (end_of board.now) }
{
    match board.state() {
        BoardState::Blocked(limit) => Some(limit),
        BoardState::Closed | BoardState::Model(_) | BoardState::Complete | BoardState::Running =>
            None,
    }
}

/// The minimal sets of the problem, all of them unless a limit stops the search: one worker goes on with it to its end,
/// and each set that he found is tested.
pub fn list_models(
    alloc: Global,
    problem: Arc<Problem>,
    limits: Limits,
) -> Result<Listing, NoMemory>
    requires budget { limits.budget ≤ MOST_BUDGET }
    requires some_weight { 0 < limits.weight }
    requires weight { limits.weight ≤ MOST_WEIGHT }
    ensures { IfOk result (IsListing (arc_value problem) limits) }
{
    let board = searched(alloc, problem, limits)?;
    let sets = minimal_found(alloc, &board)?;
    let gave_up = limit_of(&board);
    Ok(Listing {
        board,
        sets,
        gave_up,
    })
}

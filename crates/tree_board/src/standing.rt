//! How a board stands, by its tally.

ghost use Rattle.std.specs.Prelude.{◌≡◌, nat_lt};
ghost use Rattle.tree_board.specs.CellStanding.{is_root_closed};
ghost use Rattle.tree_board.specs.Standing.{standing_by};
ghost use Rattle.tree_board.specs.Tallies.{model_in};

use crate::cell::Cell;
use crate::tally::Tally;
use crate::{BoardState, Limit, Mode};

pub fn is_root_closed(cells: &[Cell]) -> bool
    ensures { result ≡ is_root_closed cells.now }
{
    match cells {
        [root, ..] => root.is_closed,
        [] => false,
    }
}

// In mode Refute, the least found node.
fn model(mode: Mode, least_found: Option<u32>) -> Option<u32>
    ensures { result ≡ model_in mode least_found }
{
    match mode {
        Mode::Refute => least_found,
        Mode::List => None,
    }
}

/// How a board with this tally stands, by whether its root is closed and its budget spent.
pub fn standing(is_closed: bool, tally: Tally, mode: Mode, is_spent: bool) -> BoardState
    ensures { result ≡ standing_by is_closed (model_in mode tally.least_found) (nat_lt 0 tally.opens) is_spent tally.has_heavy }
{
    if is_closed {
        return BoardState::Closed;
    }
    if let Some(node) = model(mode, tally.least_found) {
        return BoardState::Model(node);
    }
    match (tally.opens > 0, is_spent) {
        (true, true) => BoardState::Blocked(Limit::Budget),
        (true, false) => BoardState::Running,
        (false, _) if tally.has_heavy => BoardState::Blocked(Limit::Weight),
        (false, _) => BoardState::Complete,
    }
}

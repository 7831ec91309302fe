//! The document of a closed board: its refutation as trees.
#![tactic(auto)]

ghost use Rattle.std.specs.Prelude.{◌≡◌, ◌↔◌, false, IfOk, Err};
ghost use Rattle.tree_board.specs.Boards.{is_closed};
ghost use Rattle.tree_board.specs.Searches.{board_of};
ghost use Rattle.tree_checker.specs.Docs.{IsWellFormed, Accepts};
ghost use Rattle.board_tree.specs.Documents.{doc_of};
ghost use Rattle.board_tree.specs.Refuted.{IsRefuted};
ghost use Rattle.board_tree.specs.declared.TreeRefusal.TheVariants.{NotClosed};

mod blocks;
mod laws;
mod lines;
mod names;

use blocks::blocks_of;
pub use laws::{closed_board_is_accepted, closed_board_is_well_formed};
use lines::lines_of;
use mg_word::{NoMemory, Problem};
use names::names_of;
use std::alloc::Global;
use tree_board::{Board, BoardState};
use tree_checker::Doc;

/// Why there is no document.
#[derive(Clone, Copy, Debug, PartialEq, Eq)]
pub enum TreeRefusal {
    /// The root of the board is not closed.
    NotClosed,
    /// Memory ran out.
    NoMemory,
}

impl From<NoMemory> for TreeRefusal {
    ghost use Rattle.std.specs.Prelude.{◌≡◌};
    ghost use Rattle.board_tree.specs.declared.TreeRefusal.TheVariants.{NoMemory as OutOfMemory};

    ghost from_gives = { λ _ refusal. refusal ≡ OutOfMemory };

    fn from(_: NoMemory) -> Self {
        TreeRefusal::NoMemory
    }
}

// The document of a board whose root is closed.
fn document(alloc: Global, board: &Board) -> Result<Doc, NoMemory>
    requires { IsRefuted board.now }
    ensures document { IfOk result (λ doc. doc ≡ doc_of (board_of board.now)) }
    ensures well_formed { IfOk result (IsWellFormed board.now.problem) }
    ensures accepted { IfOk result (Accepts board.now.problem) }
{
    let names = names_of(alloc, board)?;
    Ok(Doc {
        lemmas: blocks_of(alloc, names.as_slice(), board)?,
        root: lines_of(alloc, names.as_slice(), board, 0)?,
    })
}

/// The document of a board whose root is closed: a block for each lemma that settled some node, and the root's tree.
pub fn tree_of(alloc: Global, board: &Board) -> Result<Doc, TreeRefusal>
    ensures refused { result ≡ Err NotClosed ↔ is_closed (board_of board.now) 0 ≡ false }
    ensures document { IfOk result (λ doc. doc ≡ doc_of (board_of board.now)) }
    ensures well_formed { IfOk result (IsWellFormed board.now.problem) }
    ensures accepted { IfOk result (Accepts board.now.problem) }
{
    if !matches!(board.state(), BoardState::Closed) {
        return Err(TreeRefusal::NotClosed);
    }
    let problem: &Problem = board.problem();
    let _forms = &problem.forms;
    let _limits = board.limits();
    let _journal = board.journal();
    Ok(document(alloc, board)?)
}

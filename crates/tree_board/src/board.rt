//! The board: the search tree that its journal leaves.

ghost use Rattle.std.specs.Prelude.{◌≡◌, ◌<◌, ◌≤◌, [], IfOk, Some, length, option_map, slice_get};
ghost use Rattle.std.specs.Arc.{arc_value};
ghost use Rattle.std.specs.Option.{option_copied};
ghost use Rattle.mg_word.specs.Words.{numbered};
ghost use Rattle.tree_board.specs.Boards.{count, opening, pair_at};
ghost use Rattle.tree_board.specs.Kinds.{kind_of};
ghost use Rattle.tree_board.specs.Lawful.{AreLawful};
ghost use Rattle.tree_board.specs.Readers.{instance_of, first_child_of, lemma_by, lemma_node_at, lits_of, closure_at, own_number, shown};
ghost use Rattle.tree_board.specs.Standing.{state_of};

use crate::cell::{
    self, Cell, Settled, first_child_at, instance_at, kind_at, lemma_at, literal_at, own_lemma_at,
    parent_at,
};
use crate::standing::{is_root_closed, standing};
use crate::tally::Tally;
use crate::{BoardState, Event, Limits, Mode, NodeKind};
use branch_lemmas::{Lemma, LemmaIndex};
use case_split::Closure;
use mg_word::{Inst, Lit, NoMemory, Problem};
use std::alloc::Global;
use std::marker::Model;
use std::sync::Arc;

/// The most extensions that a board may be allowed.
pub const MOST_BUDGET: u32 = 1_000_000;

/// The greatest weight limit.
pub const MOST_WEIGHT: u32 = 4_096;

/// A search: contracts see its problem, mode and limits, and its journal, which leaves the board.
#[derive(Drop)]
pub struct Board {
    pub(crate) problem: Arc<Problem>,
    pub(crate) mode: Mode,
    pub(crate) limits: Limits,
    pub(crate) cells: Vec<Cell>,
    pub(crate) journal: Vec<Event>,
    pub(crate) closures: Vec<Closure>,
    pub(crate) lemmas: LemmaIndex,
    pub(crate) lemma_nodes: Vec<u32>,
    pub(crate) tally: Tally,
}

impl Model for Board {
    ghost use Rattle.std.specs.Arc.{arc_value};
    ghost use Rattle.tree_board.specs.Searches.{Search};

    ghost Value = { Search };

    ghost view = { λ board. record { problem = arc_value board.problem; mode = board.mode; limits = board.limits; journal = board.journal.items } };

    ghost use Rattle.tree_board.specs.Keeping.{IsKeeping};

    ghost invariant = { λ board. IsKeeping (record { problem = arc_value board.problem; mode = board.mode; limits = board.limits; journal = board.journal.items }) board.cells.items board.closures.items board.lemmas board.lemma_nodes.items board.tally };
}

// The number at that place, counted from 1.
fn number_at(numbers: &[u32], place: u32) -> Option<u32>
    ensures { result ≡ numbered numbers.now place }
{
    let index = place.checked_sub(1)?;
    numbers.get(index as usize).copied()
}

impl Board {
    ghost use Rattle.tree_board.specs.Searches.{setting_of, board_of};

    /// The root alone, open.
    pub fn new(
        alloc: Global,
        problem: Arc<Problem>,
        mode: Mode,
        limits: Limits,
    ) -> Result<Board, NoMemory>
        requires budget { limits.budget ≤ MOST_BUDGET }
        requires some_weight { 0 < limits.weight }
        requires weight { limits.weight ≤ MOST_WEIGHT }
        ensures { IfOk result (λ board. board ≡ record { problem = arc_value problem; mode = mode; limits = limits; journal = [] }) }
    {
        let held: &Problem = &problem;
        let _forms = &held.forms;
        let mut cells = Vec::new(alloc);
        cells.push(Cell {
            parent: 0,
            settled: Settled::Open,
            is_closed: false,
            lemma: None,
            own_lemma: None,
        })?;
        Ok(Board {
            problem,
            mode,
            limits,
            cells,
            journal: Vec::new(alloc),
            closures: Vec::new(alloc),
            lemmas: LemmaIndex::new(alloc)?,
            lemma_nodes: Vec::new(alloc),
            tally: Tally {
                extensions: 0,
                opens: 1,
                has_heavy: false,
                least_found: None,
            },
        })
    }

    /// The problem.
    pub fn problem(&self) -> &Arc<Problem>
        ensures { arc_value result.now ≡ self.now.problem }
    {
        &self.problem
    }

    /// What the search is after.
    pub fn mode(&self) -> Mode
        ensures { result ≡ self.now.mode }
    {
        self.mode
    }

    /// How far it may go.
    pub fn limits(&self) -> Limits
        ensures same { result ≡ self.now.limits }
        ensures budget { self.now.limits.budget ≤ MOST_BUDGET }
        ensures weight { self.now.limits.weight ≤ MOST_WEIGHT }
    {
        self.limits
    }

    /// All events so far, in order: each was lawful in its turn.
    pub fn journal(&self) -> &[Event]
        ensures same { result.now ≡ self.now.journal }
        ensures lawful { AreLawful (setting_of self.now) opening self.now.journal }
    {
        self.journal.as_slice()
    }

    /// The number of extensions.
    pub fn count(&self) -> u32
        ensures { result ≡ count (board_of self.now) }
    {
        self.tally.extensions
    }

    /// The number of nodes.
    pub fn nodes(&self) -> u32
        ensures { result ≡ length (board_of self.now).nodes }
    {
        self.cells.len() as u32
    }

    /// How the board stands.
    pub fn state(&self) -> BoardState
        ensures { result ≡ state_of (setting_of self.now) (board_of self.now) }
    {
        let is_closed = is_root_closed(self.cells.as_slice());
        let is_spent = self.limits.budget <= self.tally.extensions;
        standing(is_closed, self.tally, self.mode, is_spent)
    }

    /// How the node with this number stands, if there is one.
    pub fn node_state(&self, node: u32) -> Option<NodeKind>
        ensures { result ≡ option_map kind_of (slice_get (board_of self.now).nodes node) }
    {
        kind_at(self.cells.as_slice(), node)
    }

    // The literals of the node with this number, which is there.
    pub(crate) fn lits_at(&self, alloc: Global, node: u32) -> Result<Vec<Lit>, NoMemory>
        requires { node < length (board_of self.now).nodes }
        ensures { IfOk result (λ lits. lits_of (board_of self.now).nodes node ≡ Some lits.items) }
    {
        let cells = self.cells.as_slice();
        let journal = self.journal.as_slice();
        let mut lits = Vec::new(alloc);
        let mut at = node;
        'up: while let Some(lit) = literal_at(cells, journal, at) {
            lits.push(lit.copy()?)?;
            at = parent_at(cells, at);
        }
        lits.reverse();
        Ok(lits)
    }

    /// The literals of the node with this number in path order, if there is one.
    pub fn lits(&self, alloc: Global, node: u32) -> Result<Option<Vec<Lit>>, NoMemory>
        ensures { IfOk result (λ lits. option_map (λ own. own.items) lits ≡ lits_of (board_of self.now).nodes node) }
    {
        if node >= self.nodes() {
            return Ok(None);
        }
        Ok(Some(self.lits_at(alloc, node)?))
    }

    /// The instance that split or rejected the node with this number, or was too heavy there.
    pub fn instance(&self, node: u32) -> Option<&Inst>
        ensures { option_copied result ≡ shown instance_of (board_of self.now).nodes node }
    {
        instance_at(self.cells.as_slice(), self.journal.as_slice(), node)
    }

    /// The number of the first child of a split node. The others have the next numbers, one for each conclusion.
    pub fn first_child(&self, node: u32) -> Option<u32>
        ensures { result ≡ shown first_child_of (board_of self.now).nodes node }
    {
        first_child_at(self.cells.as_slice(), node)
    }

    /// Why the node with this number was closed at once, if it was.
    pub fn closed_at_once(&self, node: u32) -> Option<&Closure>
        ensures { option_copied result ≡ shown closure_at (board_of self.now).nodes node }
    {
        cell::closure_at(self.cells.as_slice(), self.closures.as_slice(), node)
    }

    /// The number of the lemma that settled the node with this number, if one did.
    pub fn settled_by(&self, node: u32) -> Option<u32>
        ensures { result ≡ shown lemma_by (board_of self.now).nodes node }
    {
        lemma_at(self.cells.as_slice(), node)
    }

    /// The number of the kept lemma of the node with this number, if one of it is kept.
    pub fn own_lemma(&self, node: u32) -> Option<u32>
        ensures { result ≡ own_number (board_of self.now).kept node }
    {
        own_lemma_at(self.cells.as_slice(), node)
    }

    /// The kept lemma with this number, if there is one. They are numbered from 1.
    pub fn lemma(&self, number: u32) -> Option<&Lemma>
        ensures { option_copied result ≡ pair_at (board_of self.now).kept number }
    {
        self.lemmas.get(number)
    }

    /// The node whose lemma is the kept one with this number, if there is one.
    pub fn lemma_node(&self, number: u32) -> Option<u32>
        ensures { result ≡ lemma_node_at (board_of self.now).kept number }
    {
        number_at(self.lemma_nodes.as_slice(), number)
    }
}

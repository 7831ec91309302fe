//! Open nodes that a kept lemma or a found set settles.

ghost use Rattle.std.specs.Prelude.{◌≡◌, ◌<◌, IfOk, Some, length, option_map, slice_get};
ghost use Rattle.std.specs.List.{position};
ghost use Rattle.mg_word.specs.Sets.{is_proper_part};
ghost use Rattle.tree_board.specs.CellStanding.{is_found_set};
ghost use Rattle.tree_board.specs.Claims.{IsQuickAt};
ghost use Rattle.tree_board.specs.PathReads.{HasAllSets, event_by};
ghost use Rattle.tree_board.specs.Paths.{LeadsTo};
ghost use Rattle.tree_board.specs.Quick.{IsOpenWith, covers_lits, cover_in};
ghost use Rattle.tree_board.specs.Searches.{setting_of, board_of};
ghost use Rattle.tree_board.specs.Settling.{IsOpenAt, IsSettling};
ghost use Rattle.tree_board.specs.Workers.{IsKnown};

use crate::cell::Cell;
use crate::path::Path;
use crate::{Board, Event, Mode};
use key_watch::Owner;
use mg_meaning::is_part_of;
use mg_word::{Lit, LitSet, NoMemory};
use std::alloc::Global;

/// What settles an open node at once: a kept lemma, or a found set.
#[derive(Clone, Copy, Debug)]
pub enum Quick {
    ByLemma(u32),
    Covered(u32),
}

// The event by which a lemma or a found set settles the node.
fn event_of(node: u32, owner: Option<Owner>) -> Option<Event>
    ensures { result ≡ option_map (event_by node) owner }
{
    match owner {
        Some(Owner::Lemma(lemma)) => Some(Event::ByLemma { node, lemma }),
        Some(Owner::Found(by)) => Some(Event::Covered { node, by }),
        None => None,
    }
}

// Whether the cell with this number, which is there, is that of a found node.
pub(crate) fn is_found_at(cells: &[Cell], node: u32) -> bool
    requires { node < length cells.now }
    ensures { option_map (λ cell. is_found_set cell.settled) (slice_get cells.now node) ≡ Some result }
{
    cells[node as usize].settled.is_found()
}

// Whether the first list is a proper part of the second.
fn is_proper(part: &[Lit], whole: &[Lit]) -> bool
    ensures { result ≡ is_proper_part part.now whole.now }
{
    is_part_of(part, whole) && !is_part_of(whole, part)
}

impl Board {
    // Whether the node with this number is found and its set a proper part of the literals.
    fn covers(&self, alloc: Global, node: u32, lits: &[Lit]) -> Result<bool, NoMemory>
        requires { node < length (board_of self.now).nodes }
        ensures { IfOk result (λ covers. option_map (covers_lits lits.now) (slice_get (board_of self.now).nodes node) ≡ Some covers) }
    {
        if !is_found_at(self.cells.as_slice(), node) {
            return Ok(false);
        }
        let set = self.lits_at(alloc, node)?;
        Ok(is_proper(set.as_slice(), lits))
    }

    // The least found node whose set is a proper part of the literals.
    fn first_cover(&self, alloc: Global, lits: &[Lit]) -> Result<Option<u32>, NoMemory>
        ensures { IfOk result (λ cover. cover ≡ position (covers_lits lits.now) (board_of self.now).nodes) }
    {
        for node in 0..self.nodes() {
            if self.covers(alloc, node, lits)? {
                return Ok(Some(node));
            }
        }
        Ok(None)
    }

    // The same in mode List; in mode Refute there is none.
    fn cover_of(&self, alloc: Global, lits: &[Lit]) -> Result<Option<u32>, NoMemory>
        ensures { IfOk result (λ cover. cover ≡ cover_in self.now.mode (board_of self.now).nodes lits.now) }
    {
        match self.mode {
            Mode::Refute => Ok(None),
            Mode::List => self.first_cover(alloc, lits),
        }
    }

    // What settles the open node with these literals and this barred set at once: the least kept lemma that applies, or else
    // the least found node that covers it.
    pub(crate) fn quick_at(
        &self,
        alloc: Global,
        node: u32,
        lits: &[Lit],
        barred: &LitSet,
    ) -> Result<Option<Quick>, NoMemory>
        requires { IsOpenWith (board_of self.now) node lits.now barred.now }
        ensures { IfOk result (IsQuickAt self.now node) }
    {
        if let Some(lemma) = self.lemmas.first_match(lits, barred) {
            return Ok(Some(Quick::ByLemma(lemma)));
        }
        match self.cover_of(alloc, lits)? {
            Some(by) => Ok(Some(Quick::Covered(by))),
            None => Ok(None),
        }
    }

    /// The event by which the least kept lemma that applies, or else in mode List the least found set that is a proper part
    /// of the literals, settles the open node to which the path leads, if one does.
    pub(crate) fn settling(&self, path: &Path) -> Option<Event>
        requires known { IsKnown (setting_of self.now) (board_of self.now) }
        requires opened { IsOpenAt (board_of self.now) path.now.node }
        requires leads { LeadsTo self.now path.now }
        requires sets { HasAllSets self.now path.now.watch.sets }
        ensures { IsSettling (setting_of self.now) (board_of self.now) path.now.node result }
    {
        event_of(path.node, path.watch.least())
    }
}

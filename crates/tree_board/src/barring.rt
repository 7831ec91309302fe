//! What a node bars, by the events of the nodes above.

ghost use Rattle.std.specs.Prelude.{◌≡◌, ◌<◌, ◌++◌, IfOk, OnOk, Some, length, option_map, slice_get};
ghost use Rattle.tree_board.specs.Barring.{earlier_in};

use crate::cell::{Cell, first_child_at, instance_at, parent_at};
use crate::{Board, Event};
use mg_word::{Lit, LitSet, NoMemory};
use std::alloc::Global;

/// The conclusions of the parent's instance before that of the node with this number.
pub fn earlier_at<'a>(cells: &[Cell], journal: &'a [Event], parent: u32, node: u32) -> &'a [Lit]
    ensures { result.now ≡ earlier_in cells.now journal.now parent node }
{
    let (Some(inst), Some(first)) = (
        instance_at(cells, journal, parent),
        first_child_at(cells, parent),
    ) else {
        return &[];
    };
    let conclusions = inst.conclusions.as_slice();
    let count = node.saturating_sub(first) as usize;
    &conclusions[..count.min(conclusions.len())]
}

// Adds copies of the literals.
fn push_copies(into: &mut Vec<Lit>, lits: &[Lit]) -> Result<(), NoMemory>
    ensures { OnOk result (into.new.items ≡ into.old.items ++ lits.now) }
{
    for lit in lits {
        into.push(lit.copy()?)?;
    }
    Ok(())
}

impl Board {
    ghost use Rattle.tree_board.specs.Searches.{board_of};

    // The barred set of the node with this number, which is there.
    pub(crate) fn barred_at(&self, alloc: Global, node: u32) -> Result<LitSet, NoMemory>
        requires { node < length (board_of self.now).nodes }
        ensures { IfOk result (λ set. option_map (λ node. node.barred) (slice_get (board_of self.now).nodes node) ≡ Some set) }
    {
        let cells = self.cells.as_slice();
        let journal = self.journal.as_slice();
        let mut barred = Vec::new(alloc);
        let mut at = node;
        'up: while at != 0 {
            let parent = parent_at(cells, at);
            push_copies(&mut barred, earlier_at(cells, journal, parent, at))?;
            at = parent;
        }
        LitSet::from_lits(barred)
    }
}

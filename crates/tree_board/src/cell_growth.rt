//! An event's move and the closings that follow, of the cells and the kept lemmas.

ghost use Rattle.std.specs.Prelude.{◌≡◌, ◌<◌, ◌++◌, OnOk, OnErr, length};
ghost use Rattle.tree_board.specs.CellClimbs.{StandGrown, Grow};

use crate::Event;
use crate::cell::{Cell, Settled};
use crate::cell_climb::climb;
use crate::cell_moves::{Children, replaced, settle};
use branch_lemmas::{Lemma, LemmaIndex};
use case_split::Closure;
use mg_word::NoMemory;
use std::alloc::Global;

/// What an event does to its node.
#[derive(Debug, Drop)]
pub struct Change {
    pub node: u32,
    pub settled: Settled,
    pub lemma: Option<Lemma>,
    pub children: Children,
}

/// Settles the node, adds its children, and closes what can be closed then. After want of memory all is as before.
pub fn grow(
    alloc: Global,
    cells: &mut Vec<Cell>,
    closures: &mut Vec<Closure>,
    journal: &[Event],
    lemmas: &mut LemmaIndex,
    lemma_nodes: &mut Vec<u32>,
    change: Change,
) -> Result<(), NoMemory>
    requires there { change.node < length cells.old.items }
    requires some { StandGrown journal.now change.node cells.old.items change.settled change.lemma change.children.cells.items lemmas.old lemma_nodes.old.items }
    ensures ok { OnOk result (Grow journal.now change.node cells.old.items change.settled change.lemma change.children.cells.items lemmas.old lemma_nodes.old.items cells.new.items lemmas.new lemma_nodes.new.items) }
    ensures closures { OnOk result (closures.new.items ≡ closures.old.items ++ change.children.closures.items) }
    ensures cells_err { OnErr result (cells.new.items ≡ cells.old.items) }
    ensures closures_err { OnErr result (closures.new.items ≡ closures.old.items) }
    ensures lemmas_err { OnErr result (lemmas.new ≡ lemmas.old) }
    ensures nodes_err { OnErr result (lemma_nodes.new.items ≡ lemma_nodes.old.items) }
{
    let Change {
        node,
        settled,
        lemma,
        children,
    } = change;
    let Children {
        cells: mut more,
        closures: mut reasons,
    } = children;
    let size = cells.len();
    closures.reserve(reasons.len())?;
    cells.append(&mut more)?;
    let before = settle(cells, node, settled, lemma);
    if climb(alloc, cells, journal, lemmas, lemma_nodes, node).is_err() {
        let _ = replaced(cells, node, before);
        cells.truncate(size);
        return Err(NoMemory);
    }
    let _ = closures.append(&mut reasons);
    Ok(())
}

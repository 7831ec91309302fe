//! What the board keeps of each node: no literals, which the events of the nodes above give.

ghost use Rattle.std.specs.Prelude.{◌≡◌, ◌<◌, ◌^◌, Some, length, option_map, option_and_then, slice_get};
ghost use Rattle.std.specs.Option.{option_copied};
ghost use Rattle.tree_board.specs.Readers.{event_of_cell, first_child_of_cell, lemma_of_cell, closure_of_cell, kind_of_cell, cell_shows, instance_shown, case_in, literal_in, sibling_in};
ghost use Rattle.tree_board.specs.CellStanding.{is_open_yet, is_found_set};

use crate::{Event, NodeKind};
use branch_lemmas::Lemma;
use case_split::Closure;
use mg_word::{Inst, Lit};

/// What settled a node, with places in lists of the board in place of instances and closures.
#[derive(Clone, Copy, Debug)]
pub enum Settled {
    Open,
    Split { event: u32, first_child: u32 },
    Rejected { event: u32 },
    ByLemma { lemma: u32 },
    AtOnce { closure: u32 },
    Found,
    Covered { by: u32 },
    Heavy { event: u32 },
}

/// A node.
#[derive(Debug, Drop)]
pub struct Cell {
    /// The number of its parent, and 0 for the root.
    pub parent: u32,
    pub settled: Settled,
    pub is_closed: bool,
    /// Its lemma, where it is closed.
    pub lemma: Option<Lemma>,
    /// The number of its own lemma, where that is kept.
    pub own_lemma: Option<u32>,
}

impl Settled {
    pub fn is_open(self) -> bool
        ensures { result ≡ is_open_yet self }
    {
        matches!(self, Settled::Open)
    }

    pub fn is_found(self) -> bool
        ensures { result ≡ is_found_set self }
    {
        matches!(self, Settled::Found)
    }

    /// The place in the journal of the event that has the node's instance.
    pub fn event(self) -> Option<u32>
        ensures { result ≡ event_of_cell self }
    {
        match self {
            Settled::Split { event, .. } | Settled::Rejected { event } | Settled::Heavy { event } =>
                Some(event),
            _ => None,
        }
    }

    pub fn first_child(self) -> Option<u32>
        ensures { result ≡ first_child_of_cell self }
    {
        match self {
            Settled::Split { first_child, .. } => Some(first_child),
            _ => None,
        }
    }

    pub fn lemma(self) -> Option<u32>
        ensures { result ≡ lemma_of_cell self }
    {
        match self {
            Settled::ByLemma { lemma } => Some(lemma),
            _ => None,
        }
    }

    pub fn closure(self) -> Option<u32>
        ensures { result ≡ closure_of_cell self }
    {
        match self {
            Settled::AtOnce { closure } => Some(closure),
            _ => None,
        }
    }
}

impl Cell {
    /// How the node stands.
    pub fn kind(&self) -> NodeKind
        ensures { result ≡ kind_of_cell self.now.is_closed self.now.settled }
    {
        if self.is_closed {
            return NodeKind::Closed;
        }
        match self.settled {
            Settled::Open => NodeKind::Open,
            Settled::Split { .. } => NodeKind::Split,
            Settled::Found => NodeKind::Found,
            Settled::Covered { .. } => NodeKind::Covered,
            Settled::Heavy { .. } => NodeKind::Heavy,
            _ => NodeKind::Closed,
        }
    }
}

/// How the node with this number stands.
pub fn kind_at(cells: &[Cell], node: u32) -> Option<NodeKind>
    ensures { result ≡ option_map (λ cell. kind_of_cell cell.is_closed cell.settled) (slice_get cells.now node) }
{
    let cell = cells.get(node as usize)?;
    Some(cell.kind())
}

/// The instance of the node with this number.
pub fn instance_at<'a>(cells: &[Cell], journal: &'a [Event], node: u32) -> Option<&'a Inst>
    ensures { option_copied result ≡ instance_shown cells.now journal.now node }
{
    let cell = cells.get(node as usize)?;
    let event = cell.settled.event()?;
    journal.get(event as usize)?.inst()
}

/// The number of the first child of the node with this number.
pub fn first_child_at(cells: &[Cell], node: u32) -> Option<u32>
    ensures { result ≡ cell_shows first_child_of_cell cells.now node }
{
    let cell = cells.get(node as usize)?;
    cell.settled.first_child()
}

/// The lemma that settled the node with this number.
pub fn lemma_at(cells: &[Cell], node: u32) -> Option<u32>
    ensures { result ≡ cell_shows lemma_of_cell cells.now node }
{
    let cell = cells.get(node as usize)?;
    cell.settled.lemma()
}

/// Why the node with this number was closed at once.
pub fn closure_at<'a>(cells: &[Cell], closures: &'a [Closure], node: u32) -> Option<&'a Closure>
    ensures { option_copied result ≡ option_and_then (slice_get closures.now) (cell_shows closure_of_cell cells.now node) }
{
    let cell = cells.get(node as usize)?;
    closures.get(cell.settled.closure()? as usize)
}

/// The number of the kept lemma of the node with this number.
pub fn own_lemma_at(cells: &[Cell], node: u32) -> Option<u32>
    ensures { result ≡ option_and_then (λ cell. cell.own_lemma) (slice_get cells.now node) }
{
    cells.get(node as usize)?.own_lemma
}

/// The number of the parent of the node with this number.
pub fn parent_at(cells: &[Cell], node: u32) -> u32
    requires { node < length cells.now }
    ensures { option_map (λ cell. cell.parent) (slice_get cells.now node) ≡ Some result }
{
    cells[node as usize].parent
}

// The conclusion that the child with this number has, where the first child has that one.
fn case_at(inst: &Inst, first: u32, node: u32) -> Option<&Lit>
    ensures { option_copied result ≡ case_in inst.now first node }
{
    let place = node.checked_sub(first)?;
    inst.conclusions.as_slice().get(place as usize)
}

/// The last literal of the node with this number, which the event of its parent gives. The root has none.
pub fn literal_at<'a>(cells: &[Cell], journal: &'a [Event], node: u32) -> Option<&'a Lit>
    ensures { option_copied result ≡ literal_in cells.now journal.now node }
{
    if node == 0 {
        return None;
    }
    let parent = cells.get(node as usize)?.parent;
    let first = first_child_at(cells, parent)?;
    let inst = instance_at(cells, journal, parent)?;
    case_at(inst, first, node)
}

/// The number of the next sibling of the node with this number: the next node, if it has the same parent.
pub fn sibling_at(cells: &[Cell], node: u32) -> Option<u32>
    requires there { node < length cells.now }
    requires size { length cells.now < 2 ^ 32 }
    ensures { result ≡ sibling_in cells.now node }
{
    let next = node + 1;
    let sibling = cells.get(next as usize)?;
    if sibling.parent != cells[node as usize].parent {
        return None;
    }
    Some(next)
}

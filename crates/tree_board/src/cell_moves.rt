//! An event's move, of the cells.

ghost use Rattle.std.specs.Prelude.{◌≡◌, ◌∷◌, ◌++◌, ◌+◌, ◌-◌, ◌<◌, ◌≤◌, ◌^◌, [], IfOk, OnOk, Some, length, slice_get, slice_set};
ghost use Rattle.tree_board.specs.CellMoves.{settled_as, settled_cell, born_cell, cells_by, with_closure, closures_by};

use crate::Event;
use crate::cell::{Cell, Settled};
use branch_lemmas::{Lemma, closure_lemma};
use case_split::Closure;
use mg_word::NoMemory;
use std::alloc::Global;
use std::mem;

/// What settles the event's node, where the journal has so many events and the board so many nodes.
pub fn settled_as(event: &Event, events: u32, nodes: u32) -> Settled
    ensures { result ≡ settled_as events nodes event.now }
{
    match event {
        Event::Extend { .. } => Settled::Split {
            event: events,
            first_child: nodes,
        },
        Event::Reject { .. } => Settled::Rejected { event: events },
        Event::ByLemma { lemma, .. } => Settled::ByLemma { lemma: *lemma },
        Event::Saturated { .. } => Settled::Found,
        Event::Covered { by, .. } => Settled::Covered { by: *by },
        Event::Heavy { .. } => Settled::Heavy { event: events },
    }
}

/// Puts this cell in place of the one with the number, and answers that one.
pub fn replaced(cells: &mut Vec<Cell>, node: u32, cell: Cell) -> Cell
    requires { node < length cells.old.items }
    ensures was { slice_get cells.old.items node ≡ Some result }
    ensures now { cells.new.items ≡ slice_set cells.old.items node cell }
{
    mem::replace(&mut cells[node as usize], cell)
}

/// Settles the cell with this number, and closes it where there is a lemma. Answers the cell as it was.
pub fn settle(cells: &mut Vec<Cell>, node: u32, settled: Settled, lemma: Option<Lemma>) -> Cell
    requires { node < length cells.old.items }
    ensures was { slice_get cells.old.items node ≡ Some result }
    ensures now { cells.new.items ≡ slice_set cells.old.items node (settled_cell settled lemma result) }
{
    let parent = cells[node as usize].parent;
    let own_lemma = cells[node as usize].own_lemma;
    let cell = Cell {
        parent,
        settled,
        is_closed: lemma.is_some(),
        lemma,
        own_lemma,
    };
    replaced(cells, node, cell)
}

// The cell of a child. Its reason to be closed at once goes to that place.
fn born_cell(
    alloc: Global,
    parent: u32,
    place: u32,
    at_once: &Option<Closure>,
) -> Result<Cell, NoMemory>
    ensures { IfOk result (λ cell. cell ≡ born_cell parent place at_once.now) }
{
    match at_once {
        None => Ok(Cell {
            parent,
            settled: Settled::Open,
            is_closed: false,
            lemma: None,
            own_lemma: None,
        }),
        Some(closure) => Ok(Cell {
            parent,
            settled: Settled::AtOnce { closure: place },
            is_closed: true,
            lemma: Some(closure_lemma(alloc, closure)?),
            own_lemma: None,
        }),
    }
}

fn push_reason(closures: &mut Vec<Closure>, at_once: Option<Closure>) -> Result<(), NoMemory>
    ensures { OnOk result (closures.new.items ≡ closures.old.items ++ with_closure at_once []) }
{
    if let Some(closure) = at_once {
        closures.push(closure)?;
    }
    Ok(())
}

/// The cells of children, and the reasons of those that are closed at once.
#[derive(Debug, Drop)]
pub struct Children {
    pub cells: Vec<Cell>,
    pub closures: Vec<Closure>,
}

impl Children {
    /// The number of those that are open: the others have a reason each.
    pub fn opens(&self) -> u32
        requires reasons { length self.now.closures.items ≤ length self.now.cells.items }
        requires size { length self.now.cells.items < 2 ^ 32 }
        ensures { result ≡ length self.now.cells.items - length self.now.closures.items }
    {
        (self.cells.len() - self.closures.len()) as u32
    }
}

/// The cells of children that are closed at once for these reasons, which go to places from there on.
pub fn born(
    alloc: Global,
    parent: u32,
    first: u32,
    reasons: Vec<Option<Closure>>,
) -> Result<Children, NoMemory>
    requires { first + length reasons.items < 2 ^ 32 }
    ensures cells { IfOk result (λ children. children.cells.items ≡ cells_by parent first reasons.items) }
    ensures closures { IfOk result (λ children. children.closures.items ≡ closures_by reasons.items) }
{
    let mut cells = Vec::with_capacity(alloc, reasons.len())?;
    let mut closures = Vec::new(alloc);
    'reasons: for reason in reasons {
        let place = first + closures.len() as u32;
        cells.push(born_cell(alloc, parent, place, &reason)?)?;
        push_reason(&mut closures, reason)?;
    }
    Ok(Children { cells, closures })
}

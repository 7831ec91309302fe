//! Closings upwards, of the cells and the kept lemmas.

ghost use Rattle.std.specs.Prelude.{◌≡◌, ◌<◌, ◌^◌, ◌≤◌, ◌+◌, ◌++◌, IfOk, OnOk, OnErr, Some, length, option_and_then, option_map, slice_get, slice_set};
ghost use Rattle.tree_board.specs.CellClimbs.{unclosed_first, lemmas_from, due_cell, closed_cell, number_if, with_if, Closes, AreFew, restored, next_up, StandsOn, ClimbsOn, StandSomewhere, Climbs};
ghost use Rattle.tree_board.specs.Settings.{small};
ghost use Rattle.std.specs.Option.{option_copied};

use crate::Event;
use crate::cell::{Cell, instance_at};
use crate::cell_moves::replaced;
use branch_lemmas::{Lemma, LemmaIndex, MOST_LEMMAS, MOST_LITERALS, fold};
use mg_word::{Inst, NoMemory};
use std::alloc::Global;

/// A copy of a lemma.
pub fn copied(lemma: &Lemma) -> Result<Lemma, NoMemory>
    ensures { IfOk result (λ copy. copy ≡ lemma.now) }
{
    Ok(Lemma {
        inside: lemma.inside.copy()?,
        outside: lemma.outside.copy()?,
    })
}

/// The number of the first child of the node with this number, if it is split and not closed.
pub fn unclosed_first(cells: &[Cell], node: u32) -> Option<u32>
    ensures { result ≡ option_and_then unclosed_first (slice_get cells.now node) }
{
    let cell = cells.get(node as usize)?;
    if cell.is_closed {
        return None;
    }
    cell.settled.first_child()
}

// The lemma of the cell at this index.
fn lemma_at(cells: &[Cell], index: usize) -> Option<&Lemma>
    ensures { option_copied result ≡ option_and_then (λ cell. cell.lemma) (slice_get cells.now index) }
{
    cells.get(index)?.lemma.as_ref()
}

// The lemmas of the children for the instance's conclusions, numbered from there, where each has one.
fn lemmas_from(
    alloc: Global,
    cells: &[Cell],
    first: u32,
    inst: &Inst,
) -> Result<Option<Vec<Lemma>>, NoMemory>
    ensures { IfOk result (λ lemmas. option_map (λ all. all.items) lemmas ≡ lemmas_from cells.now first inst.now.conclusions) }
{
    let mut lemmas = Vec::new(alloc);
    let size = inst.conclusions.as_slice().len();
    'children: for index in 0..size {
        match lemma_at(cells, first as usize + index) {
            Some(lemma) => lemmas.push(copied(lemma)?)?,
            None => return Ok(None),
        }
    }
    Ok(Some(lemmas))
}

// The lemma of the node with this number, if it can be closed.
fn due(
    alloc: Global,
    cells: &[Cell],
    journal: &[Event],
    node: u32,
) -> Result<Option<Lemma>, NoMemory>
    ensures { IfOk result (λ lemma. lemma ≡ due_cell cells.now journal.now node) }
{
    let Some(first) = unclosed_first(cells, node) else {
        return Ok(None);
    };
    let Some(inst) = instance_at(cells, journal, node) else {
        return Ok(None);
    };
    match lemmas_from(alloc, cells, first, inst)? {
        Some(lemmas) => Ok(Some(fold(alloc, inst, lemmas.as_slice())?)),
        None => Ok(None),
    }
}

// Whether the lemma of the node with this number is kept, where so many are.
fn is_kept(count: usize, node: u32, lemma: &Lemma) -> bool
    ensures { result ≡ small count node lemma.now }
{
    let inside = lemma.inside.as_slice().len();
    let outside = lemma.outside.as_slice().len();
    node != 0 && inside + outside <= MOST_LITERALS && count < MOST_LEMMAS as usize
}

/// A cell as it was before it was closed.
#[derive(Debug, Drop)]
pub struct Before {
    pub node: u32,
    pub cell: Cell,
}

/// What a climb has closed, and the lemmas that are to be kept, with their nodes.
#[derive(Debug, Drop)]
pub struct Trail {
    pub before: Vec<Before>,
    pub lemmas: Vec<Lemma>,
    pub nodes: Vec<u32>,
}

// Keeps the lemma of the node with this number if it is small, where so many are kept, and answers its number then.
fn keep(
    count: usize,
    lemmas: &mut Vec<Lemma>,
    nodes: &mut Vec<u32>,
    node: u32,
    lemma: &Lemma,
) -> Result<Option<u32>, NoMemory>
    ensures number { IfOk result (λ number. number ≡ number_if (small count node lemma.now) count) }
    ensures lemmas { OnOk result (lemmas.new.items ≡ with_if (small count node lemma.now) lemmas.old.items lemma.now) }
    ensures nodes { OnOk result (nodes.new.items ≡ with_if (small count node lemma.now) nodes.old.items node) }
{
    if !is_kept(count, node, lemma) {
        return Ok(None);
    }
    lemmas.push(copied(lemma)?)?;
    nodes.push(node)?;
    Ok(Some(count as u32 + 1))
}

// Closes the cell with this number, with its lemma and the number under which that is kept. Answers the cell as it was.
fn close_cell(cells: &mut Vec<Cell>, node: u32, lemma: Lemma, number: Option<u32>) -> Cell
    requires { node < length cells.old.items }
    ensures was { slice_get cells.old.items node ≡ Some result }
    ensures now { cells.new.items ≡ slice_set cells.old.items node (closed_cell lemma number result) }
{
    let parent = cells[node as usize].parent;
    let settled = cells[node as usize].settled;
    let cell = Cell {
        parent,
        settled,
        is_closed: true,
        lemma: Some(lemma),
        own_lemma: number,
    };
    replaced(cells, node, cell)
}

// Closes the node with this number if it can be closed, where so many lemmas were kept before the climb.
fn close(
    alloc: Global,
    cells: &mut Vec<Cell>,
    journal: &[Event],
    count: usize,
    trail: &mut Trail,
    node: u32,
) -> Result<(), NoMemory>
    requires there { node < length cells.old.items }
    requires size { count < 2 ^ 32 }
    requires few { AreFew count trail.old.lemmas.items }
    ensures ok { OnOk result (Closes journal.now node count cells.old.items trail.old.lemmas.items trail.old.nodes.items cells.new.items trail.new.lemmas.items trail.new.nodes.items) }
    ensures few { OnOk result (AreFew count trail.new.lemmas.items) }
    ensures cells { restored trail.new.before.items cells.new.items ≡ restored trail.old.before.items cells.old.items }
{
    let Some(lemma) = due(alloc, cells.as_slice(), journal, node)? else {
        return Ok(());
    };
    trail.before.reserve(1)?;
    let number = keep(
        count + trail.lemmas.len(),
        &mut trail.lemmas,
        &mut trail.nodes,
        node,
        &lemma,
    )?;
    let cell = close_cell(cells, node, lemma, number);
    trail.before.push_reserved(Before { node, cell });
    Ok(())
}

// The number of the parent of the node with this number, if that is closed and not the root.
fn next_up(cells: &[Cell], node: u32) -> Option<u32>
    ensures { result ≡ next_up cells.now node }
{
    let cell = cells.get(node as usize)?;
    if node == 0 || !cell.is_closed {
        return None;
    }
    Some(cell.parent)
}

// Closes what can be closed, from the node with this number upwards, where so many lemmas were kept before.
fn go_up(
    alloc: Global,
    cells: &mut Vec<Cell>,
    journal: &[Event],
    count: usize,
    trail: &mut Trail,
    start: u32,
) -> Result<(), NoMemory>
    requires some { StandsOn journal.now start count cells.old.items trail.old.lemmas.items trail.old.nodes.items }
    requires size { count < 2 ^ 32 }
    requires few { AreFew count trail.old.lemmas.items }
    ensures ok { OnOk result (ClimbsOn journal.now start count cells.old.items trail.old.lemmas.items trail.old.nodes.items cells.new.items trail.new.lemmas.items trail.new.nodes.items) }
    ensures few { OnOk result (AreFew count trail.new.lemmas.items) }
    ensures cells { restored trail.new.before.items cells.new.items ≡ restored trail.old.before.items cells.old.items }
{
    let mut at = start;
    'up: loop {
        close(alloc, cells, journal, count, trail, at)?;
        match next_up(cells.as_slice(), at) {
            Some(parent) => at = parent,
            None => return Ok(()),
        }
    }
}

fn put_back(cells: &mut Vec<Cell>, before: Before)
    ensures { cells.new.items ≡ slice_set cells.old.items before.node before.cell }
{
    let Before { node, cell } = before;
    if (node as usize) < cells.len() {
        let _ = replaced(cells, node, cell);
    }
}

// Puts back the cells that a climb replaced.
fn restore(cells: &mut Vec<Cell>, before: Vec<Before>)
    ensures { cells.new.items ≡ restored before.items cells.old.items }
{
    let mut rest = before;
    'back: while let Some(one) = rest.pop() {
        put_back(cells, one);
    }
}

// Adds these lemmas. After want of memory there are none of them.
fn add_all(lemmas: &mut LemmaIndex, more: Vec<Lemma>) -> Result<(), NoMemory>
    requires { AreFew (length lemmas.old) more.items }
    ensures ok { OnOk result (lemmas.new ≡ lemmas.old ++ more.items) }
    ensures err { OnErr result (lemmas.new ≡ lemmas.old) }
{
    if more.is_empty() {
        return Ok(());
    }
    lemmas.add_all(more)
}

// Keeps these lemmas, of these nodes. After want of memory all is as before.
fn install(
    lemmas: &mut LemmaIndex,
    lemma_nodes: &mut Vec<u32>,
    more: Vec<Lemma>,
    nodes: Vec<u32>,
) -> Result<(), NoMemory>
    requires { AreFew (length lemmas.old) more.items }
    ensures lemmas_ok { OnOk result (lemmas.new ≡ lemmas.old ++ more.items) }
    ensures nodes_ok { OnOk result (lemma_nodes.new.items ≡ lemma_nodes.old.items ++ nodes.items) }
    ensures lemmas_err { OnErr result (lemmas.new ≡ lemmas.old) }
    ensures nodes_err { OnErr result (lemma_nodes.new.items ≡ lemma_nodes.old.items) }
{
    let mut nodes = nodes;
    lemma_nodes.reserve(nodes.len())?;
    add_all(lemmas, more)?;
    let _ = lemma_nodes.append(&mut nodes);
    Ok(())
}

/// Closes what can be closed, from the node with this number upwards. After want of memory all is as before.
pub fn climb(
    alloc: Global,
    cells: &mut Vec<Cell>,
    journal: &[Event],
    lemmas: &mut LemmaIndex,
    lemma_nodes: &mut Vec<u32>,
    start: u32,
) -> Result<(), NoMemory>
    requires { StandSomewhere journal.now start cells.old.items lemmas.old lemma_nodes.old.items }
    ensures ok { OnOk result (Climbs journal.now start cells.old.items lemmas.old lemma_nodes.old.items cells.new.items lemmas.new lemma_nodes.new.items) }
    ensures cells { OnErr result (cells.new.items ≡ cells.old.items) }
    ensures lemmas { OnErr result (lemmas.new ≡ lemmas.old) }
    ensures nodes { OnErr result (lemma_nodes.new.items ≡ lemma_nodes.old.items) }
{
    let mut trail = Trail {
        before: Vec::new(alloc),
        lemmas: Vec::new(alloc),
        nodes: Vec::new(alloc),
    };
    let count = lemmas.len() as usize;
    let outcome = go_up(alloc, cells, journal, count, &mut trail, start);
    let Trail {
        before,
        lemmas: more,
        nodes,
    } = trail;
    if outcome.is_err() || install(lemmas, lemma_nodes, more, nodes).is_err() {
        restore(cells, before);
        return Err(NoMemory);
    }
    Ok(())
}

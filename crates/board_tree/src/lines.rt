//! The lines of a node's tree.

ghost use Rattle.std.specs.Prelude.{◌≡◌, ◌<◌, ◌^◌, ◌+◌, ◌++◌, ℕ, IfOk, OnOk, Some, length, reverse};
ghost use Rattle.std.specs.List.{range_with_len};
ghost use Rattle.tree_board.specs.Searches.{board_of};
ghost use Rattle.board_tree.specs.Lines.{closure_line, name_of, lines_within, lines_of};
ghost use Rattle.board_tree.specs.Refuted.{IsRefuted};
ghost use Rattle.board_tree.specs.Tables.{names_of};
ghost use Rattle.board_tree.specs.Writing.{line_at, kids_at, Writes};

use crate::names::name_in;
use case_split::Closure;
use mg_word::{Items, NoMemory};
use std::alloc::Global;
use tree_board::Board;
use tree_checker::TreeLine;

// The line of a node that was closed at once.
fn closure_line(closure: &Closure) -> Result<TreeLine, NoMemory>
    ensures { IfOk result (λ line. line ≡ closure_line closure.now) }
{
    match closure {
        Closure::Clash(lit) => Ok(TreeLine::Clash(lit.copy()?)),
        Closure::Barred(lit) => Ok(TreeLine::Barred(lit.copy()?)),
    }
}

// The line of a node in its own place.
fn line_at(names: &[Option<u32>], board: &Board, node: u32) -> Result<TreeLine, NoMemory>
    requires refuted { IsRefuted board.now }
    requires names { names.now ≡ names_of (board_of board.now) }
    requires there { node < length (board_of board.now).nodes }
    ensures { IfOk result (λ line. line_at (board_of board.now) node ≡ Some line) }
{
    if let Some(inst) = board.instance(node) {
        return Ok(TreeLine::Form {
            form: inst.form,
            subst: inst.subst.copy()?,
        });
    }
    if let Some(closure) = board.closed_at_once(node) {
        return closure_line(closure);
    }
    let Some(lemma) = board.settled_by(node) else {
        unreachable!()
    };
    let Some(new) = name_in(names, lemma) else {
        unreachable!()
    };
    Ok(TreeLine::By(new))
}

// The new number of the node's own lemma, if some node was settled by that.
fn name_at(names: &[Option<u32>], board: &Board, node: u32) -> Option<u32>
    requires refuted { IsRefuted board.now }
    requires names { names.now ≡ names_of (board_of board.now) }
    ensures { result ≡ name_of (board_of board.now) node }
{
    name_in(names, board.own_lemma(node)?)
}

// Adds so many numbers from the first on, the last one first.
fn push_down(waiting: &mut Vec<u32>, first: u32, count: u32) -> Result<(), NoMemory>
    requires { (k : ℕ) → k < count → first + k < 2 ^ 32 }
    ensures { OnOk result (waiting.new.items ≡ waiting.old.items ++ reverse (range_with_len first count)) }
{
    let mut left = count;
    'numbers: while left > 0 {
        left -= 1;
        waiting.push(first + left)?;
    }
    Ok(())
}

// Adds the node's children, the last one first.
fn push_kids(waiting: &mut Vec<u32>, board: &Board, node: u32) -> Result<(), NoMemory>
    requires refuted { IsRefuted board.now }
    requires there { node < length (board_of board.now).nodes }
    ensures { OnOk result (waiting.new.items ≡ waiting.old.items ++ reverse (kids_at (board_of board.now) node)) }
{
    let Some(first) = board.first_child(node) else {
        return Ok(());
    };
    let Some(inst) = board.instance(node) else {
        unreachable!()
    };
    push_down(waiting, first, inst.conclusions.len() as u32)
}

// Writes the line of a node in its own place, and lets its children wait.
fn write_in_place(
    written: &mut Vec<TreeLine>,
    waiting: &mut Vec<u32>,
    names: &[Option<u32>],
    board: &Board,
    node: u32,
) -> Result<(), NoMemory>
    requires refuted { IsRefuted board.now }
    requires names { names.now ≡ names_of (board_of board.now) }
    requires there { node < length (board_of board.now).nodes }
    ensures { OnOk result (Writes (board_of board.now) (lines_of (board_of board.now) node) written.old.items waiting.old.items written.new.items waiting.new.items) }
{
    written.push(line_at(names, board, node)?)?;
    push_kids(waiting, board, node)
}

// Writes a node within a tree: by its lemma, where that has a new number, or in its own place.
fn write_node(
    written: &mut Vec<TreeLine>,
    waiting: &mut Vec<u32>,
    names: &[Option<u32>],
    board: &Board,
    node: u32,
) -> Result<(), NoMemory>
    requires refuted { IsRefuted board.now }
    requires names { names.now ≡ names_of (board_of board.now) }
    requires there { node < length (board_of board.now).nodes }
    ensures { OnOk result (Writes (board_of board.now) (lines_within (board_of board.now) node) written.old.items waiting.old.items written.new.items waiting.new.items) }
{
    let Some(new) = name_at(names, board, node) else {
        return write_in_place(written, waiting, names, board, node);
    };
    written.push(TreeLine::By(new))?;
    Ok(())
}

/// The lines of the node's own tree.
pub fn lines_of(
    alloc: Global,
    names: &[Option<u32>],
    board: &Board,
    top: u32,
) -> Result<Items<TreeLine>, NoMemory>
    requires refuted { IsRefuted board.now }
    requires names { names.now ≡ names_of (board_of board.now) }
    requires there { top < length (board_of board.now).nodes }
    ensures { IfOk result (λ lines. lines ≡ lines_of (board_of board.now) top) }
{
    let mut written = Vec::new(alloc);
    let mut waiting = Vec::new(alloc);
    write_in_place(&mut written, &mut waiting, names, board, top)?;
    'nodes: while let Some(node) = waiting.pop() {
        write_node(&mut written, &mut waiting, names, board, node)?;
    }
    Ok(Items::new(written))
}

//! New numbers of the lemmas that some node was settled by.

ghost use Rattle.std.specs.Prelude.{◌≡◌, ◌<◌, ◌^◌, ◌+◌, suc, if◌then◌else◌, IfOk, Some, None, length};
ghost use Rattle.tree_board.specs.Searches.{board_of};
ghost use Rattle.tree_board.specs.Splits.{one_if};
ghost use Rattle.board_tree.specs.Refuted.{IsRefuted};
ghost use Rattle.board_tree.specs.Tables.{marks_from, with_mark, names_after, names_of, name_in};

use mg_word::NoMemory;
use std::alloc::Global;
use tree_board::Board;

// How many lemmas are kept.
fn kept_count(board: &Board) -> u32
    requires { IsRefuted board.now }
    ensures { result ≡ length (board_of board.now).kept }
{
    let mut count = 0;
    'lemmas: while board.lemma_node(count + 1).is_some() {
        count += 1;
    }
    count
}

// Marks the lemma with this number, if there is one.
fn mark(marks: &mut [bool], lemma: Option<u32>)
    ensures { marks.new ≡ with_mark marks.old lemma }
{
    let Some(number) = lemma else {
        return;
    };
    let Some(index) = number.checked_sub(1) else {
        return;
    };
    if (index as usize) < marks.len() {
        marks[index as usize] = true;
    }
}

// For each kept lemma whether some node was settled by it.
fn marks_of(alloc: Global, board: &Board) -> Result<Vec<bool>, NoMemory>
    requires { IsRefuted board.now }
    ensures { IfOk result (λ marks. marks.items ≡ marks_from (board_of board.now).nodes 1 (board_of board.now).kept) }
{
    let count = kept_count(board) as usize;
    let mut marks = vec![in alloc; false; count]?;
    for node in 0..board.nodes() {
        mark(marks.as_mut_slice(), board.settled_by(node));
    }
    Ok(marks)
}

// The next number, where the mark is set.
fn next_name(count: &mut u32, is_marked: bool) -> Option<u32>
    requires { count.old + 1 < 2 ^ 32 }
    ensures name { result ≡ (if is_marked then Some (suc count.old) else None) }
    ensures count { count.new ≡ one_if is_marked + count.old }
{
    if !is_marked {
        return None;
    }
    *count += 1;
    Some(*count)
}

// A number for each mark that is set.
fn number_marks(alloc: Global, marks: &[bool]) -> Result<Vec<Option<u32>>, NoMemory>
    requires { length marks.now < 2 ^ 32 }
    ensures { IfOk result (λ names. names.items ≡ names_after 0 marks.now) }
{
    let mut names = Vec::with_capacity(alloc, marks.len())?;
    let mut count = 0;
    for mark in marks {
        names.push(next_name(&mut count, *mark))?;
    }
    Ok(names)
}

/// For each kept lemma its new number, if some node was settled by it.
pub fn names_of(alloc: Global, board: &Board) -> Result<Vec<Option<u32>>, NoMemory>
    requires { IsRefuted board.now }
    ensures { IfOk result (λ names. names.items ≡ names_of (board_of board.now)) }
{
    let marks = marks_of(alloc, board)?;
    number_marks(alloc, marks.as_slice())
}

/// The new number of the lemma with this number.
pub fn name_in(names: &[Option<u32>], lemma: u32) -> Option<u32>
    ensures { result ≡ name_in names.now lemma }
{
    let index = lemma.checked_sub(1)?;
    names.get(index as usize).copied()?
}

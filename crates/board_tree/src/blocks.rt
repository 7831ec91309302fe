//! The blocks of the lemmas that have new numbers.

ghost use Rattle.std.specs.Prelude.{◌≡◌, IfOk, IsSome, Some, map, option_map};
ghost use Rattle.mg_word.specs.Words.{numbered};
ghost use Rattle.tree_board.specs.Searches.{board_of};
ghost use Rattle.board_tree.specs.Documents.{block_of};
ghost use Rattle.board_tree.specs.Refuted.{IsRefuted};
ghost use Rattle.board_tree.specs.Tables.{names_of};
ghost use Rattle.board_tree.specs.Used.{used_from};

use crate::lines::lines_of;
use mg_word::{Items, NoMemory};
use std::alloc::Global;
use tree_board::Board;
use tree_checker::LemmaBlock;

// The block of the kept lemma with this number.
fn block_of(
    alloc: Global,
    names: &[Option<u32>],
    board: &Board,
    number: u32,
) -> Result<LemmaBlock, NoMemory>
    requires refuted { IsRefuted board.now }
    requires names { names.now ≡ names_of (board_of board.now) }
    requires there { IsSome (numbered (board_of board.now).kept number) }
    ensures { IfOk result (λ block. option_map (block_of (board_of board.now)) (numbered (board_of board.now).kept number) ≡ Some block) }
{
    let Some(lemma) = board.lemma(number) else {
        unreachable!()
    };
    let Some(node) = board.lemma_node(number) else {
        unreachable!()
    };
    Ok(LemmaBlock {
        inside: lemma.inside.copy()?,
        outside: lemma.outside.copy()?,
        tree: lines_of(alloc, names, board, node)?,
    })
}

/// A block for each lemma that has a new number, in order.
pub fn blocks_of(
    alloc: Global,
    names: &[Option<u32>],
    board: &Board,
) -> Result<Items<LemmaBlock>, NoMemory>
    requires refuted { IsRefuted board.now }
    requires names { names.now ≡ names_of (board_of board.now) }
    ensures { IfOk result (λ blocks. blocks ≡ map (block_of (board_of board.now)) (used_from (board_of board.now).nodes 1 (board_of board.now).kept)) }
{
    let mut blocks = Vec::new(alloc);
    for (index, name) in names.iter().enumerate() {
        if name.is_some() {
            blocks.push(block_of(alloc, names, board, index as u32 + 1)?)?;
        }
    }
    Ok(Items::new(blocks))
}

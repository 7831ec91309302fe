//! The first three lines of blocks.

ghost use Rattle.std.specs.Prelude.{◌≡◌, ℕ, suc, ◌<◌, MatchResult};
ghost use Rattle.mg_word.specs.Facts.{ProblemData};
ghost use Rattle.proof_tree.specs.FirstFaults as first;
ghost use Rattle.proof_tree.specs.Reading.{IsSetText, IsNoSetText, IsSetOf, IsRefusedSet, IsStart};
ghost use Rattle.proof_tree.specs.Standing.{at_block};

use crate::line_fault::LineFault;
use ascii_text::plain_value;
use mg_word::{LitSet, Problem};
use std::alloc::Global;
use term_text::{Buffers, LitList, is_rising, read_lits, strip};
use tree_checker::DocKind;

/// What begins where a block or the root may begin.
#[derive(Clone, Copy, Debug, PartialEq, Eq)]
pub enum BlockStart {
    /// The root.
    Root,
    /// The next block.
    Lemma,
}

/// What the line begins, where the next block has that number.
pub fn read_start(line: &[u8], number: u64) -> Result<BlockStart, DocKind>
    ensures { MatchResult result (IsStart number line.now) (λ kind. (problem : ProblemData) (blocks : ℕ) → suc blocks ≡ number → first.LineFault problem (at_block blocks) line.now kind) }
{
    if line == b"root".as_slice() {
        return Ok(BlockStart::Root);
    }
    let Some(digits) = strip(line, b"lemma ") else {
        return Err(DocKind::Syntax);
    };
    let Some(found) = plain_value(digits) else {
        return Err(DocKind::Syntax);
    };
    if u64::from(found) != number {
        return Err(DocKind::Block);
    }
    Ok(BlockStart::Lemma)
}

// The set of these literals, where they are fine and rise.
fn set_of(list: LitList) -> Result<LitSet, LineFault>
    ensures { MatchResult result (IsSetOf list.lits.items list.has_unknown list.has_heavy) (IsRefusedSet list.lits.items list.has_unknown list.has_heavy) }
{
    if list.has_unknown {
        return Err(LineFault::Wrong(DocKind::Unknown));
    }
    if list.has_heavy {
        return Err(LineFault::Wrong(DocKind::Heavy));
    }
    if !is_rising(&list.lits) {
        return Err(LineFault::Wrong(DocKind::Order));
    }
    Ok(LitSet::from_lits(list.lits)?)
}

/// The set that stands behind the word and a bracket.
pub fn read_set(
    alloc: Global,
    problem: &Problem,
    line: &[u8],
    word: &[u8],
    buffers: &mut Buffers,
) -> Result<LitSet, LineFault>
    ensures { MatchResult result (IsSetText problem.now.symbols word.now line.now) (IsNoSetText problem.now.symbols word.now line.now) }
{
    let symbols = &problem.symbols;
    let Some(behind) = strip(line, word) else {
        return Err(LineFault::Wrong(DocKind::Syntax));
    };
    let Some(items) = strip(behind, b"[") else {
        return Err(LineFault::Wrong(DocKind::Syntax));
    };
    let Some(list) = read_lits(alloc, items, symbols, buffers)? else {
        return Err(LineFault::Wrong(DocKind::Syntax));
    };
    set_of(list)
}

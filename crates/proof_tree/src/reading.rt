//! The reading of documents, line by line.

ghost use Rattle.std.specs.Prelude.{◌≡◌, ◌≢◌, ℕ, ◌+◌, ◌<◌, ◌≤◌, ◌^◌, [], ◌∷◌, ◌++◌, MatchOption, MatchResult, IfOk, OnOk, IfErr, length, true, codes};
ghost use Rattle.mg_word.specs.Facts.{ProblemData};
ghost use Rattle.tree_checker.specs.Docs.{IsKnown};
ghost use Rattle.tree_checker.specs.Trees.{conclusions_at};
ghost use Rattle.proof_tree.specs.Bare.{bare};
ghost use Rattle.proof_tree.specs.DocText.{IsDocText, blocks_lines};
ghost use Rattle.proof_tree.specs.Standing.{Place, at_header, at_block, at_inside, in_root};
ghost use Rattle.proof_tree.specs.FirstFaults.{has_no_feed, BeginsWithLine, FaultAt, IsDocFault};
ghost use Rattle.proof_tree.specs.Reading.{IsFaultFrom, IsSetAt, IsTreeAt, BeginsWithSet, BeginsWithTree, BeginsWithBlock, BeginsWithBlocks};

use crate::blocks::{BlockStart, read_set, read_start};
use crate::line_fault::fault_at;
use crate::lines::{TextEnd, next_line};
use crate::nodes::read_node;
use mg_word::{Items, LitSet, NoMemory, Problem};
use std::alloc::Global;
use term_text::Buffers;
use tree_checker::{Doc, DocFault, DocKind, LemmaBlock, TreeLine};

// The next line, which has that number, and what is behind it.
fn wanted_line(bytes: &[u8], number: u64) -> Result<(&[u8], &[u8]), DocFault>
    ensures line { MatchResult result
        (λ found. BeginsWithLine (bare bytes.now) found.0.now (bare found.1.now))
        (λ fault. (fault ≡ DocFault.Line number DocKind.Early) × (has_no_feed (bare bytes.now) ≡ true)) }
    ensures shorter { IfOk result (λ found. length found.1.now < length bytes.now) }
{
    match next_line(bytes) {
        Ok(found) => Ok(found),
        Err(_) => Err(DocFault::Line {
            line: number,
            kind: DocKind::Early,
        }),
    }
}

// What is behind the header.
fn after_header(bytes: &[u8]) -> Result<&[u8], DocFault>
    ensures read { MatchResult result
        (λ rest. BeginsWithLine (bare bytes.now) (codes "mgtp tree 1") (bare rest.now))
        (λ fault. (problem : ProblemData) → IsFaultFrom problem at_header (bare bytes.now) 1 fault) }
    ensures shorter { IfOk result (λ rest. length rest.now < length bytes.now) }
{
    let (line, rest) = match wanted_line(bytes, 1) {
        Ok(found) => found,
        Err(fault) => return Err(fault),
    };
    if line != b"mgtp tree 1".as_slice() {
        return Err(DocFault::Line {
            line: 1,
            kind: DocKind::Header,
        });
    }
    Ok(rest)
}

// How many trees stand below the line.
fn children_of(problem: &Problem, line: &TreeLine) -> u128
    requires { IsKnown problem.now.forms line.now }
    ensures value { result ≡ length (conclusions_at problem.now.forms line.now) }
    ensures small { result < 2 ^ 63 }
{
    match line {
        TreeLine::Form { form, .. } => {
            problem.forms.as_slice()[(*form - 1) as usize]
                .conclusions
                .as_slice()
                .len() as u128
        }
        TreeLine::Clash(_) | TreeLine::Barred(_) | TreeLine::By(_) => 0,
    }
}

fn add_line(lines: &mut Vec<TreeLine>, line: TreeLine) -> Result<(), NoMemory>
    ensures { OnOk result (lines.new.items ≡ lines.old.items ++ line ∷ []) }
{
    lines.push(line)?;
    Ok(())
}

// The lines of the tree at the front of the text, and what is behind it.
fn read_tree<'a>(
    alloc: Global,
    problem: &Problem,
    bytes: &'a [u8],
    number: u64,
    buffers: &mut Buffers,
) -> Result<(Vec<TreeLine>, &'a [u8]), DocFault>
    requires { number + length bytes.now < 2 ^ 64 }
    ensures read { MatchResult result
        (λ found. BeginsWithTree problem.now (bare bytes.now) (bare found.1.now) found.0.items)
        (λ fault. (places : ℕ → Place) → IsTreeAt problem.now places → IsFaultFrom problem.now (places 1) (bare bytes.now) number fault) }
    ensures shorter { IfOk result (λ found. length found.0.items + length found.1.now ≤ length bytes.now) }
{
    let mut lines: Vec<TreeLine> = Vec::new(alloc);
    let mut rest = bytes;
    // A line brings fewer than 2^63 trees, and there are fewer than 2^63 lines.
    let mut open: u128 = 1;
    while open > 0 {
        let at = number + lines.len() as u64;
        let (text, after) = match wanted_line(rest, at) {
            Ok(found) => found,
            Err(fault) => return Err(fault),
        };
        let line = match read_node(alloc, problem, text, buffers) {
            Ok(line) => line,
            Err(fault) => return Err(fault_at(fault, at)),
        };
        open = open - 1 + children_of(problem, &line);
        add_line(&mut lines, line)?;
        rest = after;
    }
    Ok((lines, rest))
}

// The set that the next line names behind the word, and what is behind the line.
fn take_set<'a>(
    alloc: Global,
    problem: &Problem,
    bytes: &'a [u8],
    word: &[u8],
    number: u64,
    buffers: &mut Buffers,
) -> Result<(LitSet, &'a [u8]), DocFault>
    ensures read { MatchResult result
        (λ found. BeginsWithSet problem.now.symbols word.now (bare bytes.now) (bare found.1.now) found.0)
        (λ fault. (place : Place) → IsSetAt problem.now place word.now → IsFaultFrom problem.now place (bare bytes.now) number fault) }
    ensures shorter { IfOk result (λ found. length found.1.now < length bytes.now) }
{
    let (line, rest) = match wanted_line(bytes, number) {
        Ok(found) => found,
        Err(fault) => return Err(fault),
    };
    match read_set(alloc, problem, line, word, buffers) {
        Ok(set) => Ok((set, rest)),
        Err(fault) => Err(fault_at(fault, number)),
    }
}

// The block whose first line is read, and what is behind it.
fn read_block<'a>(
    alloc: Global,
    problem: &Problem,
    bytes: &'a [u8],
    number: u64,
    buffers: &mut Buffers,
) -> Result<(LemmaBlock, &'a [u8]), DocFault>
    requires { number + length bytes.now < 2 ^ 64 }
    ensures read { MatchResult result
        (λ found. BeginsWithBlock problem.now (bare bytes.now) (bare found.1.now) found.0)
        (λ fault. (blocks : ℕ) → IsFaultFrom problem.now (at_inside blocks) (bare bytes.now) number fault) }
    ensures shorter { IfOk result (λ found. length found.0.tree + 2 + length found.1.now ≤ length bytes.now) }
{
    let (inside, rest) = match take_set(alloc, problem, bytes, b"inside ", number, buffers) {
        Ok(found) => found,
        Err(fault) => return Err(fault),
    };
    let (outside, rest) = match take_set(alloc, problem, rest, b"outside ", number + 1, buffers) {
        Ok(found) => found,
        Err(fault) => return Err(fault),
    };
    match read_tree(alloc, problem, rest, number + 2, buffers) {
        Ok((tree, rest)) => Ok((
            LemmaBlock {
                inside,
                outside,
                tree: Items::new(tree),
            },
            rest,
        )),
        Err(fault) => Err(fault),
    }
}

fn add_block(blocks: &mut Vec<LemmaBlock>, block: LemmaBlock) -> Result<(), NoMemory>
    ensures { OnOk result (blocks.new.items ≡ blocks.old.items ++ block ∷ []) }
{
    blocks.push(block)?;
    Ok(())
}

// The blocks behind the header, the number of the line behind `root`, and what that line begins.
fn read_blocks<'a>(
    alloc: Global,
    problem: &Problem,
    bytes: &'a [u8],
    buffers: &mut Buffers,
) -> Result<(Vec<LemmaBlock>, u64, &'a [u8]), DocFault>
    requires { 2 + length bytes.now < 2 ^ 64 }
    ensures read { MatchResult result
        (λ found. BeginsWithBlocks problem.now (bare bytes.now) (codes "root" ++ 10 ∷ bare found.2.now) found.0.items × (found.1 ≡ length (blocks_lines 1 found.0.items) + 3))
        (IsFaultFrom problem.now (at_block 0) (bare bytes.now) 2) }
    ensures shorter { IfOk result (λ found. found.1 + length found.2.now ≤ 2 + length bytes.now) }
{
    let mut blocks: Vec<LemmaBlock> = Vec::new(alloc);
    let mut rest = bytes;
    let mut number: u64 = 2;
    loop {
        let (line, after) = match wanted_line(rest, number) {
            Ok(found) => found,
            Err(fault) => return Err(fault),
        };
        match read_start(line, blocks.len() as u64 + 1) {
            Ok(BlockStart::Root) => return Ok((blocks, number + 1, after)),
            Ok(BlockStart::Lemma) => {}
            Err(kind) => return Err(DocFault::Line { line: number, kind }),
        }
        let (block, behind) = match read_block(alloc, problem, after, number + 1, buffers) {
            Ok(found) => found,
            Err(fault) => return Err(fault),
        };
        number += 3 + block.tree.len() as u64;
        add_block(&mut blocks, block)?;
        rest = behind;
    }
}

// What is wrong with the text behind the root's tree, if it goes on.
fn end_fault(bytes: &[u8]) -> Option<DocKind>
    ensures { MatchOption result (bare bytes.now ≡ []) (λ kind. (problem : ProblemData) → FaultAt problem (in_root 0) (bare bytes.now) kind) }
{
    match next_line(bytes) {
        Ok(_) => Some(DocKind::Rest),
        Err(TextEnd::Whole) => None,
        Err(TextEnd::Unended) => Some(DocKind::Early),
    }
}

/// The document that the text is, without the lines that begin with `%`.
///
/// # Errors
///
/// `Line` names the first line that has a fault, and the first kind that stands at it. `NoMemory`: memory ran out.
pub fn read_doc(alloc: Global, bytes: &[u8], problem: &Problem) -> Result<Doc, DocFault>
    ensures read { MatchResult result (λ doc. IsDocText problem.now doc bytes.now) (IsDocFault problem.now bytes.now) }
    ensures only { IfOk result (λ doc. (other : Doc) → IsDocText problem.now other bytes.now → other ≡ doc) }
    ensures exact { IfErr result (λ fault. fault ≢ DocFault.NoMemory → (doc : Doc) → IsDocText problem.now doc bytes.now → ⊥) }
{
    let _count = problem.symbols.len();
    let mut buffers = Buffers::new(alloc);
    let rest = match after_header(bytes) {
        Ok(rest) => rest,
        Err(fault) => return Err(fault),
    };
    let (lemmas, number, rest) = match read_blocks(alloc, problem, rest, &mut buffers) {
        Ok(found) => found,
        Err(fault) => return Err(fault),
    };
    let (root, rest) = match read_tree(alloc, problem, rest, number, &mut buffers) {
        Ok(found) => found,
        Err(fault) => return Err(fault),
    };
    if let Some(kind) = end_fault(rest) {
        return Err(DocFault::Line {
            line: number + root.len() as u64,
            kind,
        });
    }
    Ok(Doc {
        lemmas: Items::new(lemmas),
        root: Items::new(root),
    })
}

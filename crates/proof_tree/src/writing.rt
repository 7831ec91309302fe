//! The writing of documents, line by line.

ghost use Rattle.std.specs.Prelude.{◌≡◌, ◌+◌, ◌∷◌, [], ◌++◌, All, OnOk, IfOk, map};
ghost use Rattle.mg_word.specs.Table.{Symbol};
ghost use Rattle.tree_checker.specs.Docs.{LineFits, IsBlock, IsWellFormed};
ghost use Rattle.mg_word.specs.Facts.{ProblemData};
ghost use Rattle.mg_word.specs.Spelling.{spelled};
ghost use Rattle.proof_tree.specs.DocLines.{line_text, ended};
ghost use Rattle.proof_tree.specs.DocText.{tree_line, block_lines, blocks_lines, doc_text, text_of};

use mg_word::{NoMemory, Problem, Symbols, push_lit};
use std::alloc::Global;
use term_text::{push_lits, push_number, push_terms};
use tree_checker::{Doc, LemmaBlock, TreeLine};

// Appends a line of a tree, without its line feed.
fn push_text(into: &mut Vec<u8>, symbols: &Symbols, line: &TreeLine) -> Result<(), NoMemory>
    requires { LineFits symbols.now line.now }
    ensures { OnOk result (into.new.items ≡ into.old.items ++ line_text (spelled symbols.now) (tree_line line.now)) }
{
    match line {
        TreeLine::Form { form, subst } => {
            into.extend_from_slice(b"form ")?;
            push_number(into, u64::from(*form))?;
            into.push(b' ')?;
            push_terms(into, symbols, subst.as_slice())
        }
        TreeLine::Clash(lit) => {
            into.extend_from_slice(b"clash ")?;
            push_lit(into, symbols, lit)
        }
        TreeLine::Barred(lit) => {
            into.extend_from_slice(b"barred ")?;
            push_lit(into, symbols, lit)
        }
        TreeLine::By(number) => {
            into.extend_from_slice(b"by ")?;
            push_number(into, u64::from(*number))
        }
    }
}

// Appends a line of a tree.
fn push_line(into: &mut Vec<u8>, symbols: &Symbols, line: &TreeLine) -> Result<(), NoMemory>
    requires { LineFits symbols.now line.now }
    ensures { OnOk result (into.new.items ≡ into.old.items ++ (line_text (spelled symbols.now) (tree_line line.now) ++ 10 ∷ [])) }
{
    push_text(into, symbols, line)?;
    into.push(b'\n')?;
    Ok(())
}

// Appends the lines of a tree.
fn push_tree(into: &mut Vec<u8>, symbols: &Symbols, lines: &[TreeLine]) -> Result<(), NoMemory>
    requires { All (LineFits symbols.now) lines.now }
    ensures { OnOk result (into.new.items ≡ into.old.items ++ ended (map (λ line. line_text (spelled symbols.now) (tree_line line)) lines.now)) }
{
    for line in lines {
        push_line(into, symbols, line)?;
    }
    Ok(())
}

// Appends the lines of the block with that number.
fn push_block(
    into: &mut Vec<u8>,
    problem: &Problem,
    number: u64,
    block: &LemmaBlock,
) -> Result<(), NoMemory>
    requires { IsBlock problem.now block.now }
    ensures { OnOk result (into.new.items ≡ into.old.items ++ text_of problem.now (block_lines number block.now)) }
{
    into.extend_from_slice(b"lemma ")?;
    push_number(into, number)?;
    into.extend_from_slice(b"\ninside ")?;
    push_lits(into, &problem.symbols, block.inside.as_slice())?;
    into.extend_from_slice(b"\noutside ")?;
    push_lits(into, &problem.symbols, block.outside.as_slice())?;
    into.push(b'\n')?;
    push_tree(into, &problem.symbols, block.tree.as_slice())?;
    Ok(())
}

// Appends the lines of the blocks, which are numbered from 1.
fn push_blocks(into: &mut Vec<u8>, problem: &Problem, blocks: &[LemmaBlock]) -> Result<(), NoMemory>
    requires { All (IsBlock problem.now) blocks.now }
    ensures { OnOk result (into.new.items ≡ into.old.items ++ text_of problem.now (blocks_lines 1 blocks.now)) }
{
    for (i, block) in blocks.iter().enumerate() {
        push_block(into, problem, i as u64 + 1, block)?;
    }
    Ok(())
}

/// The text of a well-formed document.
pub fn write_doc(alloc: Global, doc: &Doc, problem: &Problem) -> Result<Vec<u8>, NoMemory>
    requires { IsWellFormed problem.now doc.now }
    ensures { IfOk result (λ text. text.items ≡ doc_text problem.now doc.now) }
{
    let mut text = Vec::new(alloc);
    text.extend_from_slice(b"mgtp tree 1\n")?;
    push_blocks(&mut text, problem, doc.lemmas.as_slice())?;
    text.extend_from_slice(b"root\n")?;
    push_tree(&mut text, &problem.symbols, doc.root.as_slice())?;
    Ok(text)
}

//! The check of a document: each tree in one walk over its lines.

ghost use Rattle.std.specs.Prelude.{◌≡◌, ◌≢◌, ◌<◌, ◌≤◌, ◌+◌, ◌^◌, All, length, take, MatchResult, IfErr, OnOk};
ghost use Rattle.mg_meaning.specs.Refuting.{Refutes};
ghost use Rattle.tree_checker.specs.Trees.{IsTree};
ghost use Rattle.tree_checker.specs.Closing.{Closes};
ghost use Rattle.tree_checker.specs.Docs.{IsKnown, IsWellFormed, Accepts, Rejects, RejectsAt, lemmas_of};
ghost use Rattle.tree_checker.specs.Faults.{rejected};
ghost use Rattle.tree_checker.specs.Instances.{instances_of};

use crate::line::{LineFault, check_line};
use crate::walk::Walk;
use crate::{Doc, LemmaBlock, Reject, TreeLine};
use mg_word::{Form, Lit, Problem};
use std::alloc::Global;

/// The lines before all blocks: the header.
const HEADER_LINES: u64 = 1;
/// The lines of a block before its tree: its number, its inside and its outside.
const BLOCK_LINES: u64 = 3;
/// The lines of the root before its tree: the word `root`.
const ROOT_LINES: u64 = 1;

fn reject_line(fault: LineFault, line: u64) -> Reject
    ensures { result ≡ rejected line fault }
{
    match fault {
        LineFault::Broken(why) => Reject::Line { line, why },
        LineFault::NoMemory => Reject::NoMemory,
    }
}

// Whether the lines are a tree that closes the branch: else the first that breaks a rule, where the first line of all
// has that number.
fn check_tree(
    alloc: Global,
    forms: &[Form],
    blocks: &[LemmaBlock],
    held: &[Lit],
    barred: &[Lit],
    lines: &[TreeLine],
    first: u64,
) -> Result<(), Reject>
    requires known { All (IsKnown forms.now) lines.now }
    requires tree { IsTree forms.now lines.now }
    requires short { length lines.now + first < 2 ^ 64 }
    ensures { MatchResult result
        (λ _. Closes forms.now (lemmas_of blocks.now) (record { held = held.now; barred = barred.now }) lines.now)
        (RejectsAt forms.now (lemmas_of blocks.now) (record { held = held.now; barred = barred.now }) lines.now first) }
{
    let mut walk = Walk::at(alloc, held, barred)?;
    for (at, line) in lines.iter().enumerate() {
        match check_line(alloc, forms, blocks, &mut walk, line) {
            Ok(()) => {}
            Err(fault) => return Err(reject_line(fault, first + at as u64)),
        }
    }
    Ok(())
}

// The blocks before that one.
fn before(blocks: &[LemmaBlock], j: usize) -> &[LemmaBlock]
    requires { j ≤ length blocks.now }
    ensures { result.now ≡ take j blocks.now }
{
    &blocks[..j]
}

/// Whether each tree of a well-formed document closes: those of the blocks, each from its own sets and with the
/// blocks before it, and then the root's.
///
/// # Errors
///
/// `Line` names the first line that breaks a rule, in the text that the document is written as, and the first rule
/// that it breaks. `NoMemory`: memory ran out.
pub fn check_doc(alloc: Global, problem: &Problem, doc: &Doc) -> Result<(), Reject>
    requires { IsWellFormed problem.now doc.now }
    ensures verdict { MatchResult result (λ _. Accepts problem.now doc.now) (Rejects problem.now doc.now) }
    ensures exact { IfErr result (λ reject. reject ≢ Reject.NoMemory → Accepts problem.now doc.now → ⊥) }
    ensures refuted { OnOk result (Refutes (instances_of problem.now doc.now) problem.now) }
{
    let forms = problem.forms.as_slice();
    let blocks = doc.lemmas.as_slice();
    let mut done = HEADER_LINES;
    for (j, block) in blocks.iter().enumerate() {
        let held = block.inside.as_slice();
        let barred = block.outside.as_slice();
        let lines = block.tree.as_slice();
        match check_tree(
            alloc,
            forms,
            before(blocks, j),
            held,
            barred,
            lines,
            done + BLOCK_LINES + 1,
        ) {
            Ok(()) => {}
            Err(reject) => return Err(reject),
        }
        done += BLOCK_LINES + lines.len() as u64;
    }
    check_tree(
        alloc,
        forms,
        blocks,
        &[],
        &[],
        doc.root.as_slice(),
        done + ROOT_LINES + 1,
    )
}

//! The command `check`: whether a tree is a proof that a problem is unsatisfiable.

ghost use Rattle.std.specs.Prelude.{◌≡◌, Some, IfOk, MatchResult};
ghost use Rattle.std.specs.Option.{option_map};
ghost use Rattle.mg_outside.specs.Counting.{CallEnds};
ghost use Rattle.command_words.specs.Asking.{Check};
ghost use Rattle.command_line.specs.Checks.{IsChecked, IsJudged, check_printout, check_status};
ghost use Rattle.command_line.specs.Refusals.{IsRefusal, result_read, seen};
ghost use Rattle.command_line.specs.Replies.{Replies};
ghost use Rattle.command_line.specs.Sources.{OfFile};

use crate::printout::Printout;
use crate::problem::problem_of;
use crate::refusal::{Refusal, print_refusal};
use crate::status::Status;
use mg_outside::{Files, ReadAnswer};
use mg_word::{NoMemory, Problem};
use proof_tree::read_doc;
use std::alloc::Global;
use szs_report::{CheckAnswer, report_check, szs_name};
use tree_checker::{DocFault, Reject, check_doc};

// Whether the text is that of a document that is accepted. The text makes room before its document is checked.
fn judge(alloc: Global, problem: &Problem, text: Vec<u8>) -> Result<CheckAnswer, NoMemory>
    ensures { IfOk result (IsJudged problem.now text.items) }
{
    let read = read_doc(alloc, &text, problem);
    drop(text);
    let doc = match read {
        Ok(doc) => doc,
        Err(DocFault::Line { line, kind }) => return Ok(CheckAnswer::Unread { line, kind }),
        Err(DocFault::NoMemory) => return Err(NoMemory),
    };
    match check_doc(alloc, problem, &doc) {
        Ok(()) => Ok(CheckAnswer::Accepted),
        Err(Reject::Line { line, why }) => Ok(CheckAnswer::Rejected { line, why }),
        Err(Reject::NoMemory) => Err(NoMemory),
    }
}

// Whether the tree in the one file is a proof that the problem in the other is unsatisfiable.
fn answer<'a, F: Files>(
    alloc: Global,
    files: &mut F,
    file: &str,
    tree: &'a str,
    root: Option<&str>,
) -> Result<CheckAnswer, Refusal<'a>>
    ensures same { F.table files.new ≡ F.table files.old }
    ensures counted { CallEnds (result_read result) (F.counts files.old) (F.counts files.new) }
    ensures cause { MatchResult result
        (IsChecked (F.table files.old) (OfFile file.now (option_map (λ folder. folder.now) root.entry)) tree.now)
        (λ refusal. IsRefusal (Check file.now tree.now (option_map (λ folder. folder.now) root.entry)) (F.table files.old) (seen refusal)) }
{
    let problem = match problem_of(alloc, files, file, root) {
        Ok(problem) => problem,
        Err(refusal) => return Err(refusal),
    };
    let mut text = Vec::new(alloc);
    match files.read(tree, u64::MAX, &mut text) {
        ReadAnswer::Done => match judge(alloc, &problem, text) {
            Ok(answer) => Ok(answer),
            Err(_) => Err(Refusal::MemoryOut),
        },
        ReadAnswer::Absent => Err(Refusal::TreeAbsent(tree)),
        ReadAnswer::TooLong => unreachable!(),
        ReadAnswer::Failed => Err(Refusal::TreeFailed(tree)),
        ReadAnswer::NoMemory => Err(Refusal::MemoryOut),
    }
}

// The status of an answer whose lines were put.
fn status_of(answer: CheckAnswer) -> Status
    ensures { result ≡ check_status answer }
{
    match answer {
        CheckAnswer::Accepted => Status::Done,
        CheckAnswer::Rejected { .. } | CheckAnswer::Unread { .. } => Status::Rejected,
    }
}

// What is printed of an answer, on the problem of this name.
fn print(alloc: Global, name: &str, answer: CheckAnswer) -> Result<Printout, NoMemory>
    ensures { IfOk result (λ printout. printout ≡ check_printout name.now answer) }
{
    let report = report_check(alloc, name, answer)?;
    Ok(Printout::of_output(alloc, report, status_of(answer)))
}

/// Checks the tree in the one file for the problem in the other, and answers what is to be printed.
pub fn run_check<F: Files>(
    alloc: Global,
    files: &mut F,
    file: &str,
    tree: &str,
    root: Option<&str>,
) -> Result<Printout, NoMemory>
    ensures same { F.table files.new ≡ F.table files.old }
    ensures replies { Replies (Some (Check file.now tree.now (option_map (λ folder. folder.now) root.entry))) (F.table files.old) (F.counts files.old) (F.counts files.new) result }
{
    let name = szs_name(file);
    match answer(alloc, files, file, tree, root) {
        Ok(answer) => print(alloc, name, answer),
        Err(refusal) => print_refusal(alloc, name, &refusal),
    }
}

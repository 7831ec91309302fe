//! The command `prove`: the search for a proof that a problem is unsatisfiable, or for a set that satisfies it.

ghost use Rattle.std.specs.Prelude.{◌≡◌, Some, IfOk};
ghost use Rattle.mg_word.specs.Facts.{IsProblem};
ghost use Rattle.command_words.specs.Asking.{Prove};
ghost use Rattle.command_words.specs.Requests.{search_seen};
ghost use Rattle.model_lister.specs.Ends.{end_of};
ghost use Rattle.command_line.specs.Outcomes.{proved_by};
ghost use Rattle.command_line.specs.Proves.{HasLines, finding_lines, finding_status, prove_printout};
ghost use Rattle.command_line.specs.Replies.{Replies};
ghost use Rattle.command_line.specs.Searched.{AreAllowed, EndsWith, IsAtEnd, IsFound, IsRefuted, IsRun, IsSatisfied};
ghost use Rattle.command_line.specs.Wanted.{search_limits};

use crate::finding::Finding;
use crate::printout::Printout;
use crate::problem::problem_of;
use crate::refusal::print_refusal;
use crate::status::Status;
use crate::wanted::search_limits;
use board_tree::{TreeRefusal, tree_of};
use command_words::Search;
use mg_outside::Files;
use mg_word::{LitSet, NoMemory, Problem};
use proof_tree::write_doc;
use std::alloc::Global;
use std::sync::Arc;
use szs_report::{ProveAnswer, Report, report_prove, szs_name};
use tree_board::{Board, BoardState, Limits, Mode, finish_alone};
use tree_checker::Doc;

// The search for the problem, gone on to its end by one worker.
fn searched(alloc: Global, problem: Problem, limits: Limits) -> Result<Board, NoMemory>
    requires real { IsProblem problem }
    requires allowed { AreAllowed limits }
    ensures { IfOk result (IsRun problem limits) }
{
    let problem = Arc::new(alloc, problem)?;
    let board = Board::new(alloc, problem, Mode::Refute, limits)?;
    finish_alone(alloc, board)
}

// The document of a board whose root is closed.
fn proof_of(alloc: Global, board: &Board) -> Result<Doc, NoMemory>
    requires ended { IsAtEnd board.now }
    requires closed { end_of board.now ≡ BoardState.Closed }
    ensures { IfOk result (IsRefuted board.now) }
{
    match tree_of(alloc, board) {
        Ok(doc) => Ok(doc),
        Err(TreeRefusal::NotClosed) => unreachable!(),
        Err(TreeRefusal::NoMemory) => Err(NoMemory),
    }
}

// The set of the node that the board has for a model.
fn model_of(alloc: Global, board: &Board, node: u32) -> Result<LitSet, NoMemory>
    requires ended { IsAtEnd board.now }
    requires model { end_of board.now ≡ BoardState.Model node }
    ensures { IfOk result (IsSatisfied board.now) }
{
    match board.lits(alloc, node)? {
        Some(lits) => LitSet::from_lits(lits),
        None => unreachable!(),
    }
}

// What the search ends with.
fn finding_of(alloc: Global, board: &Board) -> Result<Finding, NoMemory>
    requires { IsAtEnd board.now }
    ensures { IfOk result (EndsWith board.now) }
{
    match board.state() {
        BoardState::Closed => Ok(Finding::Unsatisfiable(proof_of(alloc, board)?)),
        BoardState::Model(node) => Ok(Finding::Satisfiable(model_of(alloc, board, node)?)),
        BoardState::Blocked(limit) => Ok(Finding::GaveUp(limit)),
        BoardState::Complete | BoardState::Running => unreachable!(),
    }
}

/// A search at its end, and what it ends with.
#[derive(Drop)]
struct Outcome {
    board: Board,
    finding: Finding,
}

// The search for the problem, and what it ends with.
fn find(alloc: Global, problem: Problem, limits: Limits) -> Result<Outcome, NoMemory>
    requires real { IsProblem problem }
    requires allowed { AreAllowed limits }
    ensures run { IfOk result (λ outcome. IsRun problem limits outcome.board) }
    ensures found { IfOk result (λ outcome. IsFound outcome.board outcome.finding) }
{
    let board = searched(alloc, problem, limits)?;
    let finding = finding_of(alloc, &board)?;
    Ok(Outcome { board, finding })
}

// The report of what a search for the problem of this name ends with.
fn report(
    alloc: Global,
    problem: &Problem,
    name: &str,
    limits: Limits,
    finding: &Finding,
) -> Result<Report, NoMemory>
    requires { HasLines problem.now finding.now }
    ensures { IfOk result (λ report. report ≡ finding_lines problem.now name.now limits finding.now) }
{
    match finding {
        Finding::Unsatisfiable(doc) => {
            let text = write_doc(alloc, doc, problem)?;
            let answer = ProveAnswer::Unsatisfiable(&text);
            report_prove(alloc, problem, name, answer, limits)
        }
        Finding::Satisfiable(set) => {
            report_prove(alloc, problem, name, ProveAnswer::Satisfiable(set), limits)
        }
        Finding::GaveUp(limit) => {
            report_prove(alloc, problem, name, ProveAnswer::GaveUp(*limit), limits)
        }
    }
}

// The status of a finding whose lines were put.
fn status_of(finding: &Finding) -> Status
    ensures { result ≡ finding_status finding.now }
{
    match finding {
        Finding::Unsatisfiable(_) | Finding::Satisfiable(_) => Status::Done,
        Finding::GaveUp(_) => Status::Rejected,
    }
}

// What is printed of the search for the problem of this name.
fn print(alloc: Global, name: &str, limits: Limits, outcome: &Outcome) -> Result<Printout, NoMemory>
    requires { HasLines outcome.now.board.problem outcome.now.finding }
    ensures { IfOk result (λ printout. printout ≡ prove_printout name.now limits (proved_by outcome.now)) }
{
    let finding = &outcome.finding;
    let report = report(alloc, outcome.board.problem(), name, limits, finding)?;
    Ok(Printout::of_output(alloc, report, status_of(finding)))
}

/// Searches for a proof that the problem in the file is unsatisfiable, or for a set that satisfies it, and answers what is
/// to be printed.
pub fn run_prove<F: Files>(
    alloc: Global,
    files: &mut F,
    search: &Search<'_>,
) -> Result<Printout, NoMemory>
    requires { AreAllowed (search_limits (search_seen search.now)) }
    ensures same { F.table files.new ≡ F.table files.old }
    ensures replies { Replies (Some (Prove (search_seen search.now))) (F.table files.old) (F.counts files.old) (F.counts files.new) result }
{
    let name = szs_name(search.file);
    let limits = search_limits(search);
    match problem_of(alloc, files, search.file, search.root) {
        Ok(problem) => {
            let outcome = find(alloc, problem, limits)?;
            print(alloc, name, limits, &outcome)
        }
        Err(refusal) => print_refusal(alloc, name, &refusal),
    }
}

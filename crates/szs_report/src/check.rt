//! The report of a check.

ghost use Rattle.std.specs.Prelude.{◌≡◌, [], ◌∷◌, IfOk};
ghost use Rattle.szs_report.specs.Lines.{why_words, kind_words, rejected_line, accepted_lines};
ghost use Rattle.szs_report.specs.CheckLines.{check_lines};

use crate::Report;
use crate::lines::add_status;
use mg_word::NoMemory;
use std::alloc::Global;
use tree_checker::{DocKind, Why};

/// What a check answers.
#[derive(Clone, Copy, Debug, PartialEq, Eq)]
pub enum CheckAnswer {
    /// The tree is accepted.
    Accepted,
    /// The line breaks a rule.
    Rejected { line: u64, why: Why },
    /// The line is not one of a document.
    Unread { line: u64, kind: DocKind },
}

// The rule that a line breaks, in words.
fn why_words(why: Why) -> &'static str
    ensures { result.now ≡ why_words why }
{
    match why {
        Why::Premise => "premise",
        Why::NoClash => "no clash",
        Why::NotBarred => "not barred",
        Why::LemmaNumber => "lemma number",
        Why::LemmaInside => "lemma inside",
        Why::LemmaOutside => "lemma outside",
        Why::Substitution => "substitution",
    }
}

// What is wrong with a line, in words.
fn kind_words(kind: DocKind) -> &'static str
    ensures { result.now ≡ kind_words kind }
{
    match kind {
        DocKind::Header => "no tree header",
        DocKind::Syntax => "line not understood",
        DocKind::Block => "lemma number not in order",
        DocKind::FormNumber => "no such form",
        DocKind::Unknown => "unknown symbol",
        DocKind::Heavy => "term too heavy",
        DocKind::Order => "literals not in order",
        DocKind::Early => "early end",
        DocKind::Rest => "line after the end",
    }
}

// The report of a tree that is not accepted.
fn report_rejected(alloc: Global, line: u64, words: &str) -> Result<Report, NoMemory>
    ensures { IfOk result (λ report. report ≡ rejected_line line words.now ∷ []) }
{
    let line = format!(in alloc; "{line}")?;
    let mut report = Report::new(alloc);
    report.add(&[
        b"% Tree rejected at line ",
        line.as_bytes(),
        b": ",
        words.as_bytes(),
        b"\n",
    ])?;
    Ok(report)
}

// The report of a tree that is accepted.
fn report_accepted(alloc: Global, name: &str) -> Result<Report, NoMemory>
    ensures { IfOk result (λ report. report ≡ accepted_lines name.now) }
{
    let mut report = Report::new(alloc);
    add_status(&mut report, "Unsatisfiable", name)?;
    report.add(&[b"% Tree accepted\n"])?;
    Ok(report)
}

/// The report of a check of the problem of this name.
pub fn report_check(alloc: Global, name: &str, answer: CheckAnswer) -> Result<Report, NoMemory>
    ensures { IfOk result (λ report. report ≡ check_lines name.now answer) }
{
    match answer {
        CheckAnswer::Accepted => report_accepted(alloc, name),
        CheckAnswer::Rejected { line, why } => report_rejected(alloc, line, why_words(why)),
        CheckAnswer::Unread { line, kind } => report_rejected(alloc, line, kind_words(kind)),
    }
}

//! The report of what a search for a proof or a set ends with.

ghost use Rattle.std.specs.Prelude.{◌≡◌, IfOk};
ghost use Rattle.szs_report.specs.ProveLines.{IsShowable, gave_up_lines, output_lines, shown_lines};

use crate::Report;
use crate::lines::{add_end, add_reason, add_start, add_status};
use crate::sets::set_line;
use mg_word::{LitSet, NoMemory, Problem};
use std::alloc::Global;
use tree_board::{Limit, Limits};

/// What is to be shown of a search.
pub enum ProveAnswer<'a> {
    /// The text of a proof.
    Unsatisfiable(&'a [u8]),
    /// A set that satisfies the problem.
    Satisfiable(&'a LitSet),
    /// The limit that stopped the search.
    GaveUp(Limit),
}

// The report of a text of whole lines, as an output of that kind.
fn report_output(
    alloc: Global,
    value: &str,
    kind: &str,
    name: &str,
    text: &[u8],
) -> Result<Report, NoMemory>
    ensures { IfOk result (λ report. report ≡ output_lines value.now kind.now name.now text.now) }
{
    let mut report = Report::new(alloc);
    add_status(&mut report, value, name)?;
    add_start(&mut report, kind, name)?;
    report.add(&[text])?;
    add_end(&mut report, kind, name)?;
    Ok(report)
}

// The report of a search that the limit stopped.
fn report_gave_up(
    alloc: Global,
    name: &str,
    limits: Limits,
    limit: Limit,
) -> Result<Report, NoMemory>
    ensures { IfOk result (λ report. report ≡ gave_up_lines name.now limits limit) }
{
    let mut report = Report::new(alloc);
    add_status(&mut report, "GaveUp", name)?;
    add_reason(alloc, &mut report, limits, limit)?;
    Ok(report)
}

/// The report of what is to be shown of a search for the problem of this name, within these limits.
pub fn report_prove(
    alloc: Global,
    problem: &Problem,
    name: &str,
    answer: ProveAnswer<'_>,
    limits: Limits,
) -> Result<Report, NoMemory>
    requires { IsShowable problem.now.symbols answer }
    ensures { IfOk result (λ report. report ≡ shown_lines problem.now.symbols name.now limits answer.entry) }
{
    match answer {
        ProveAnswer::Unsatisfiable(text) => {
            report_output(alloc, "Unsatisfiable", "Proof", name, text)
        }
        ProveAnswer::Satisfiable(set) => {
            let text = set_line(alloc, &problem.symbols, 1, set)?;
            report_output(alloc, "Satisfiable", "Model", name, &text)
        }
        ProveAnswer::GaveUp(limit) => report_gave_up(alloc, name, limits, limit),
    }
}

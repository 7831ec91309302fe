//! The lines that several reports have.

ghost use Rattle.std.specs.Prelude.{◌≡◌, ◌++◌, [], ◌∷◌, OnOk, decimal};
ghost use Rattle.szs_report.specs.Lines.{line_of, status_line};
ghost use Rattle.szs_report.specs.Outputs.{end_line, reason_line, start_line};

use crate::Report;
use mg_word::NoMemory;
use std::alloc::Global;
use tree_board::{Limit, Limits};

/// Adds the line of a status value.
pub(crate) fn add_status(report: &mut Report, value: &str, name: &str) -> Result<(), NoMemory>
    ensures { OnOk result (report.new ≡ report.old ++ status_line value.now name.now ∷ []) }
{
    report.add(&[
        b"% SZS status ",
        value.as_bytes(),
        b" for ",
        name.as_bytes(),
        b"\n",
    ])
}

/// Adds the line before an output of that kind.
pub(crate) fn add_start(report: &mut Report, kind: &str, name: &str) -> Result<(), NoMemory>
    ensures { OnOk result (report.new ≡ report.old ++ start_line kind.now name.now ∷ []) }
{
    report.add(&[
        b"% SZS output start ",
        kind.as_bytes(),
        b" for ",
        name.as_bytes(),
        b"\n",
    ])
}

/// Adds the line behind an output of that kind.
pub(crate) fn add_end(report: &mut Report, kind: &str, name: &str) -> Result<(), NoMemory>
    ensures { OnOk result (report.new ≡ report.old ++ end_line kind.now name.now ∷ []) }
{
    report.add(&[
        b"% SZS output end ",
        kind.as_bytes(),
        b" for ",
        name.as_bytes(),
        b"\n",
    ])
}

/// Adds the line of these words and a number.
pub(crate) fn add_number(
    alloc: Global,
    report: &mut Report,
    words: &str,
    number: usize,
) -> Result<(), NoMemory>
    ensures { OnOk result (report.new ≡ report.old ++ line_of (words.now ∷ decimal number ∷ []) ∷ []) }
{
    let number = format!(in alloc; "{number}")?;
    report.add(&[words.as_bytes(), number.as_bytes(), b"\n"])
}

/// Adds which limit stopped a search.
pub(crate) fn add_reason(
    alloc: Global,
    report: &mut Report,
    limits: Limits,
    limit: Limit,
) -> Result<(), NoMemory>
    ensures { OnOk result (report.new ≡ report.old ++ reason_line limits limit ∷ []) }
{
    match limit {
        Limit::Budget => add_number(alloc, report, "% Reason: budget ", limits.budget as usize),
        Limit::Weight => add_number(alloc, report, "% Reason: weight ", limits.weight as usize),
    }
}

//! The report of a problem's forms.

ghost use Rattle.std.specs.Prelude.{◌≡◌, IfOk, OnOk};
ghost use Rattle.szs_report.specs.FormLines.{forms_lines};

use crate::Report;
use clause_form::form_text;
use mg_word::{NoMemory, Problem};
use std::alloc::Global;

/// The report of the problem's forms, a line each, and how many they are.
pub fn report_forms(alloc: Global, problem: &Problem) -> Result<Report, NoMemory>
    ensures { IfOk result (λ report. report ≡ forms_lines problem.now) }
{
    let mut report = Report::new(alloc);
    let count = problem.forms.as_slice().len();
    for index in 0..count {
        let text = form_text(alloc, problem, index as u32 + 1)?;
        report.add(&[text.as_slice(), b"\n"])?;
    }
    let count = format!(in alloc; "{count}")?;
    report.add(&[b"% Forms: ", count.as_bytes(), b"\n"])?;
    Ok(report)
}

//! The command `forms`: the forms of a problem.

ghost use Rattle.std.specs.Prelude.{◌≡◌, Some, IfOk};
ghost use Rattle.std.specs.Option.{option_map};
ghost use Rattle.command_words.specs.Asking.{Forms};
ghost use Rattle.command_line.specs.Replies.{Replies, forms_printout};

use crate::printout::Printout;
use crate::problem::problem_of;
use crate::refusal::print_refusal;
use crate::status::Status;
use mg_outside::Files;
use mg_word::{NoMemory, Problem};
use std::alloc::Global;
use szs_report::{report_forms, szs_name};

// What is printed of the forms of a problem.
fn print(alloc: Global, problem: &Problem) -> Result<Printout, NoMemory>
    ensures { IfOk result (λ printout. printout ≡ forms_printout problem.now) }
{
    let report = report_forms(alloc, problem)?;
    Ok(Printout::of_output(alloc, report, Status::Done))
}

/// Answers what is to be printed of the forms of the problem in the file.
pub fn run_forms<F: Files>(
    alloc: Global,
    files: &mut F,
    file: &str,
    root: Option<&str>,
) -> Result<Printout, NoMemory>
    ensures same { F.table files.new ≡ F.table files.old }
    ensures replies { Replies (Some (Forms file.now (option_map (λ folder. folder.now) root.entry))) (F.table files.old) (F.counts files.old) (F.counts files.new) result }
{
    match problem_of(alloc, files, file, root) {
        Ok(problem) => print(alloc, &problem),
        Err(refusal) => print_refusal(alloc, szs_name(file), &refusal),
    }
}

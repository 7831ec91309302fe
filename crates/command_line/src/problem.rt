//! The problem that a command is about.

ghost use Rattle.std.specs.Prelude.{◌≡◌, MatchResult};
ghost use Rattle.std.specs.Option.{option_map};
ghost use Rattle.mg_outside.specs.Counting.{CallEnds};
ghost use Rattle.command_words.specs.Asking.{Request};
ghost use Rattle.command_line.specs.Problems.{IsProblemOf};
ghost use Rattle.command_line.specs.Refusals.{IsRefusal, result_read, seen};
ghost use Rattle.command_line.specs.Sources.{OfFile};
ghost use Rattle.command_line.specs.Wanted.{source_of};

use crate::refusal::Refusal;
use clause_form::{FormFault, forms_of};
use cnf_reader::{ReadFault, read_problem};
use mg_outside::Files;
use mg_word::Problem;
use std::alloc::Global;

/// The problem in the file, or why there is none, to whatever command. Its includes are looked for in
/// the folder too, where one is named.
pub fn problem_of<'a, F: Files>(
    alloc: Global,
    files: &mut F,
    file: &str,
    root: Option<&str>,
) -> Result<Problem, Refusal<'a>>
    ensures same { F.table files.new ≡ F.table files.old }
    ensures counted { CallEnds (result_read result) (F.counts files.old) (F.counts files.new) }
    ensures formed { MatchResult result
        (λ problem. IsProblemOf (F.table files.old) (OfFile file.now (option_map (λ folder. folder.now) root.entry)) problem)
        (λ refusal. (request : Request) → source_of request ≡ OfFile file.now (option_map (λ folder. folder.now) root.entry) → IsRefusal request (F.table files.old) (seen refusal)) }
{
    let input = match read_problem(alloc, files, file, root) {
        Ok(input) => input,
        Err(ReadFault::NoMemory) => return Err(Refusal::MemoryOut),
        Err(fault) => return Err(Refusal::Unread(fault)),
    };
    match forms_of(alloc, &input) {
        Ok(problem) => {
            // The facts of its type are then known.
            let _ = &problem.symbols;
            Ok(problem)
        }
        Err(FormFault::NoMemory) => Err(Refusal::MemoryOut),
        Err(fault) => Err(Refusal::Unformed { input, fault }),
    }
}

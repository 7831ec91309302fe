//! The command `sample`: the minimal sets of a sample problem, in short.

ghost use Rattle.std.specs.Prelude.{◌≡◌, ℕ, IfOk, MatchResult, Option, Some};
ghost use Rattle.mg_outside.specs.Counting.{Counts};
ghost use Rattle.mg_outside.specs.Reading.{Table};
ghost use Rattle.sample_maker.specs.Sample.{HasSample};
ghost use Rattle.command_words.specs.Asking.{Sample};
ghost use Rattle.command_line.specs.Listed.{HaveLines, listed_by, sample_printout};
ghost use Rattle.command_line.specs.Problems.{IsProblemOf};
ghost use Rattle.command_line.specs.Refusals.{IsRefusal, seen};
ghost use Rattle.command_line.specs.Replies.{Replies};
ghost use Rattle.command_line.specs.Searched.{AreAllowed};
ghost use Rattle.command_line.specs.Sources.{OfSample};
ghost use Rattle.command_line.specs.Wanted.{sample_limits};

use crate::models::{list, list_status};
use crate::printout::Printout;
use crate::refusal::{Refusal, print_refusal};
use clause_form::{FormFault, forms_of};
use mg_word::{Input, NoMemory, Problem};
use model_lister::Listing;
use sample_maker::{SampleFault, sample};
use std::alloc::Global;
use szs_report::{ModelsAnswer, report_sample, sample_name};
use tree_board::Limits;

// The greatest weight of an instance.
const SAMPLE_WEIGHT: u32 = 256;

// How far the search goes.
fn sample_limits(budget: u32) -> Limits
    ensures { result ≡ sample_limits budget }
{
    Limits {
        budget,
        weight: SAMPLE_WEIGHT,
    }
}

// The sample problem of the size.
fn problem_of<'a>(alloc: Global, size: u32) -> Result<Problem, Refusal<'a>>
    requires { HasSample size }
    ensures { (workers budget : ℕ) (told : Option Table) → MatchResult result
        (IsProblemOf told (OfSample size))
        (λ refusal. IsRefusal (Sample size workers budget) told (seen refusal)) }
{
    let input = match sample(alloc, size) {
        Ok(input) => input,
        Err(SampleFault::Range) => unreachable!(),
        Err(SampleFault::NoMemory) => return Err(Refusal::MemoryOut),
    };
    match forms_of(alloc, &input) {
        Ok(problem) => {
            // The facts of its type are then known.
            let _ = &problem.symbols;
            Ok(problem)
        }
        Err(FormFault::NoMemory) => Err(Refusal::MemoryOut),
        Err(fault) => Err(Refusal::Unformed { input, fault }),
    }
}

// What is printed of a listing for the sample problem of this name.
fn print(alloc: Global, name: &str, limits: Limits, listing: &Listing) -> Result<Printout, NoMemory>
    requires { HaveLines (listed_by listing.now) }
    ensures { IfOk result (λ printout. printout ≡ sample_printout name.now limits (listed_by listing.now)) }
{
    let answer = ModelsAnswer {
        sets: listing.sets.as_slice(),
        gave_up: listing.gave_up,
    };
    let report = report_sample(alloc, listing.board.problem(), name, answer, limits)?;
    Ok(Printout::of_output(alloc, report, list_status(listing.gave_up)))
}

/// Searches for the minimal sets of the sample problem of the size, and answers what is to be printed. No file is
/// read, whatever files are told and counted.
pub fn run_sample(alloc: Global, size: u32, budget: u32) -> Result<Printout, NoMemory>
    requires has { HasSample size }
    requires allowed { AreAllowed (sample_limits budget) }
    ensures { (workers : ℕ) (told : Option Table) (counts : Counts) → Replies (Some (Sample size workers budget)) told counts counts result }
{
    let name = sample_name(size);
    let limits = sample_limits(budget);
    match problem_of(alloc, size) {
        Ok(problem) => {
            let listing = list(alloc, problem, limits)?;
            print(alloc, name, limits, &listing)
        }
        Err(refusal) => print_refusal(alloc, name, &refusal),
    }
}

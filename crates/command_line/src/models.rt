//! The command `models`: the minimal sets that satisfy a problem.

ghost use Rattle.std.specs.Prelude.{◌≡◌, Some, IfOk};
ghost use Rattle.command_words.specs.Asking.{Models};
ghost use Rattle.command_words.specs.Requests.{search_seen};
ghost use Rattle.model_lister.specs.Listings.{IsListing};
ghost use Rattle.command_line.specs.Listed.{HaveLines, listed_by, listed_status, models_printout};
ghost use Rattle.command_line.specs.Replies.{Replies};
ghost use Rattle.command_line.specs.Searched.{AreAllowed};
ghost use Rattle.command_line.specs.Wanted.{search_limits};

use crate::printout::Printout;
use crate::problem::problem_of;
use crate::refusal::print_refusal;
use crate::status::Status;
use crate::wanted::search_limits;
use command_words::Search;
use mg_outside::Files;
use mg_word::{NoMemory, Problem};
use model_lister::{Listing, list_models};
use std::alloc::Global;
use std::sync::Arc;
use szs_report::{ModelsAnswer, report_models, szs_name};
use tree_board::{Limit, Limits};

/// The minimal sets that satisfy the problem, unless a limit stops the search for them.
pub fn list(alloc: Global, problem: Problem, limits: Limits) -> Result<Listing, NoMemory>
    requires { AreAllowed limits }
    ensures { IfOk result (IsListing problem limits) }
{
    let problem = Arc::new(alloc, problem)?;
    list_models(alloc, problem, limits)
}

/// The status of a list whose lines were put.
pub fn list_status(gave_up: Option<Limit>) -> Status
    ensures { result ≡ listed_status gave_up }
{
    match gave_up {
        None => Status::Done,
        Some(_) => Status::Rejected,
    }
}

// What is printed of a listing for the problem of this name.
fn print(alloc: Global, name: &str, limits: Limits, listing: &Listing) -> Result<Printout, NoMemory>
    requires { HaveLines (listed_by listing.now) }
    ensures { IfOk result (λ printout. printout ≡ models_printout name.now limits (listed_by listing.now)) }
{
    let answer = ModelsAnswer {
        sets: listing.sets.as_slice(),
        gave_up: listing.gave_up,
    };
    let report = report_models(alloc, listing.board.problem(), name, answer, limits)?;
    Ok(Printout::of_output(alloc, report, list_status(listing.gave_up)))
}

/// Searches for the minimal sets that satisfy the problem in the file, and answers what is to be printed.
pub fn run_models<F: Files>(
    alloc: Global,
    files: &mut F,
    search: &Search<'_>,
) -> Result<Printout, NoMemory>
    requires { AreAllowed (search_limits (search_seen search.now)) }
    ensures same { F.table files.new ≡ F.table files.old }
    ensures replies { Replies (Some (Models (search_seen search.now))) (F.table files.old) (F.counts files.old) (F.counts files.new) result }
{
    let name = szs_name(search.file);
    let limits = search_limits(search);
    match problem_of(alloc, files, search.file, search.root) {
        Ok(problem) => {
            let listing = list(alloc, problem, limits)?;
            print(alloc, name, limits, &listing)
        }
        Err(refusal) => print_refusal(alloc, name, &refusal),
    }
}

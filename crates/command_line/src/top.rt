//! The top call: from the words to the status.

ghost use Rattle.std.specs.Prelude.{◌≡◌, ℕ, List, IfOk, IfSome, MatchOption, map, string_bytes};
ghost use Rattle.std.specs.Option.{option_map};
ghost use Rattle.command_words.specs.Requests.{seen};
ghost use Rattle.command_line.specs.Replies.{Replies, Usage, printout_of};
ghost use Rattle.command_line.specs.Runs.{Runs, IsReplied, IsOnly, IsFailure, IsExact, outside_of};
ghost use Rattle.command_line.specs.Sources.{source_name};
ghost use Rattle.command_line.specs.Wanted.{AsksNone, AsksOne, IsPossible, source_of};

use crate::check::run_check;
use crate::forms::run_forms;
use crate::models::run_models;
use crate::printout::Printout;
use crate::prove::run_prove;
use crate::putting::put_result;
use crate::sample::run_sample;
use crate::status::Status;
use crate::wanted::asked_of_one;
use command_words::Request;
use mg_outside::{Files, Sink};
use mg_word::NoMemory;
use std::alloc::Global;
use szs_report::{Trouble, report_fault, sample_name, szs_name};

// The name of the problem that is asked for.
fn name_of<'a>(request: &Option<Request<'a>>) -> Option<&'a str>
    requires { IfSome request.now (λ wanted. IsPossible (seen wanted)) }
    ensures { option_map (λ name. name.now) result ≡ option_map (λ wanted. source_name (source_of (seen wanted))) request.now }
{
    match request {
        None => None,
        Some(Request::Prove(search)) => Some(szs_name(search.file)),
        Some(Request::Models(search)) => Some(szs_name(search.file)),
        Some(Request::Check { file, .. }) => Some(szs_name(file)),
        Some(Request::Forms { file, .. }) => Some(szs_name(file)),
        Some(Request::Sample { size, .. }) => Some(sample_name(*size)),
    }
}

// What is printed of words that ask for no command.
fn usage(alloc: Global) -> Result<Printout, NoMemory>
    ensures { IfOk result (λ printout. printout ≡ printout_of Usage) }
{
    let report = report_fault(alloc, "", Trouble::Usage)?;
    Ok(Printout::of_fault(report, Status::Refused))
}

// Does what is asked for, and answers what is to be printed: the usage where nothing is.
fn reply<F: Files>(
    alloc: Global,
    files: &mut F,
    request: &Option<Request<'_>>,
) -> Result<Printout, NoMemory>
    requires { IfSome request.now (λ wanted. IsPossible (seen wanted)) }
    ensures same { F.table files.new ≡ F.table files.old }
    ensures replies { Replies (option_map seen request.now) (F.table files.old) (F.counts files.old) (F.counts files.new) result }
{
    match request {
        None => usage(alloc),
        Some(Request::Prove(search)) => run_prove(alloc, files, search),
        Some(Request::Models(search)) => run_models(alloc, files, search),
        Some(Request::Check { file, tree, root }) => run_check(alloc, files, file, tree, *root),
        Some(Request::Forms { file, root }) => run_forms(alloc, files, file, *root),
        Some(Request::Sample { size, budget, .. }) => run_sample(alloc, *size, *budget),
    }
}

// Does what was read off the words, and answers the number of the exit status. Want of memory is put with the name of the
// problem, if one is asked for.
fn serve<F: Files, O: Sink, E: Sink>(
    alloc: Global,
    request: &Option<Request<'_>>,
    files: &mut F,
    out: &mut O,
    err: &mut E,
) -> u8
    requires { IfSome request.now (λ wanted. IsPossible (seen wanted)) }
    ensures same { F.table files.new ≡ F.table files.old }
    ensures replied { (words : List (List ℕ)) → MatchOption request.now (AsksNone words) (λ wanted. AsksOne words (seen wanted)) → IsReplied words
        (outside_of F.table F.counts O.seen E.seen files.old out.old err.old)
        (outside_of F.table F.counts O.seen E.seen files.new out.new err.new)
        result }
{
    let outcome = reply(alloc, files, request);
    put_result(name_of(request), &outcome, out, err).code()
}

/// Does what the words after the program's name ask for, and answers the number of the exit status. One
/// worker does it: words that ask for more get the usage.
pub fn run_alone<F: Files, O: Sink, E: Sink>(
    alloc: Global,
    words: &[String],
    files: &mut F,
    out: &mut O,
    err: &mut E,
) -> u8
    ensures same { F.table files.new ≡ F.table files.old }
    ensures runs { Runs (map string_bytes words.now)
        (outside_of F.table F.counts O.seen E.seen files.old out.old err.old)
        (outside_of F.table F.counts O.seen E.seen files.new out.new err.new)
        result }
    ensures only { IsOnly (map string_bytes words.now)
        (outside_of F.table F.counts O.seen E.seen files.old out.old err.old)
        (outside_of F.table F.counts O.seen E.seen files.new out.new err.new)
        result }
    ensures failure { IsFailure
        (outside_of F.table F.counts O.seen E.seen files.old out.old err.old)
        (outside_of F.table F.counts O.seen E.seen files.new out.new err.new)
        result }
    ensures exact { IsExact (map string_bytes words.now)
        (outside_of F.table F.counts O.seen E.seen files.old out.old err.old)
        (outside_of F.table F.counts O.seen E.seen files.new out.new err.new)
        result }
{
    let Ok(request) = asked_of_one(alloc, words) else {
        return put_result(None, &Err(NoMemory), out, err).code();
    };
    serve(alloc, &request, files, out, err)
}

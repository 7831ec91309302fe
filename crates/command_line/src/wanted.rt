//! What the words ask one worker for.

ghost use Rattle.std.specs.Prelude.{◌≡◌, IfOk, IfSome, MatchOption, map, string_bytes};
ghost use Rattle.command_words.specs.Requests.{search_seen, seen};
ghost use Rattle.command_line.specs.Wanted.{AsksNone, AsksOne, IsPossible, search_limits, workers_of};

use command_words::{Request, Search, request_of};
use mg_word::NoMemory;
use std::alloc::Global;
use tree_board::Limits;

// How many do the work of the command.
fn workers_of(request: &Request<'_>) -> u32
    ensures { result ≡ workers_of (seen request.now) }
{
    match request {
        Request::Prove(search) | Request::Models(search) => search.workers,
        Request::Sample { workers, .. } => *workers,
        Request::Check { .. } | Request::Forms { .. } => 1,
    }
}

/// What the words ask for, where one worker alone is to do it; `None` where they ask for nothing of
/// the kind.
pub fn asked_of_one(alloc: Global, words: &[String]) -> Result<Option<Request<'_>>, NoMemory>
    ensures asks { IfOk result (λ found. MatchOption found (AsksNone (map string_bytes words.now)) (λ request. AsksOne (map string_bytes words.now) (seen request))) }
    ensures possible { IfOk result (λ found. IfSome found (λ request. IsPossible (seen request))) }
{
    let Some(request) = request_of(alloc, words)? else {
        return Ok(None);
    };
    if workers_of(&request) == 1 {
        return Ok(Some(request));
    }
    Ok(None)
}

/// How far the search goes.
pub fn search_limits(search: &Search<'_>) -> Limits
    ensures { result ≡ search_limits (search_seen search.now) }
{
    Limits {
        budget: search.budget,
        weight: search.weight,
    }
}

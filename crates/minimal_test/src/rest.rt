//! What is left to decide of a list of places.

ghost use Rattle.std.specs.Prelude.{◌≡◌, ◌≤◌, ℕ, List, ◌++◌, length};
ghost use Rattle.minimal_test.specs.Rests.{IsRest, waiting, next_rest};

use crate::side::{Side, side_at};

/// What is left of places that are wanted on one side.
#[derive(Clone, Copy, Debug)]
pub enum Rest {
    /// All are on it.
    Done,
    /// All are on it but this one, which is open.
    Only(usize),
    /// Neither.
    Free,
}

// With an open place more.
fn waiting(rest: Rest, place: usize) -> Rest
    ensures { result ≡ waiting place rest }
{
    match rest {
        Rest::Done => Rest::Only(place),
        Rest::Only(other) => {
            if other == place {
                Rest::Only(other)
            } else {
                Rest::Free
            }
        }
        Rest::Free => Rest::Free,
    }
}

// With a place more, which is on that side.
fn next_rest(is_in: bool, place: usize, side: Side, rest: Rest) -> Rest
    ensures { result ≡ next_rest is_in place side rest }
{
    match (side, is_in) {
        (Side::Open, _) => waiting(rest, place),
        (Side::In, true) | (Side::Out, false) => rest,
        (Side::In, false) | (Side::Out, true) => Rest::Free,
    }
}

// With so many places more, one after another, up to the first after which neither is so: what is left, and how many of
// them were before that one.
fn rest_over(sides: &[Side], is_in: bool, places: &[usize], rest: Rest) -> (Rest, usize)
    ensures left { (before : List ℕ) → IsRest sides.now is_in before rest → IsRest sides.now is_in (before ++ places.now) result.0 }
    ensures within { result.1 ≤ length places.now }
{
    let mut left = rest;
    for (at, place) in places.iter().enumerate() {
        left = next_rest(is_in, *place, side_at(sides, *place), left);
        if let Rest::Free = left {
            return (Rest::Free, at);
        }
    }
    (left, places.len())
}

/// What is left where the places are wanted in, or out. It goes round from the place with that index on, and leaves the index
/// of the place where it ended.
pub fn rest_of(sides: &[Side], is_in: bool, places: &[usize], start: &mut usize) -> Rest
    ensures { IsRest sides.now is_in places.now result }
{
    let middle = (*start).min(places.len());
    let (rest, past) = rest_over(sides, is_in, &places[middle..], Rest::Done);
    if let Rest::Free = rest {
        *start = middle + past;
        return Rest::Free;
    }
    let (rest, end) = rest_over(sides, is_in, &places[..middle], rest);
    *start = end;
    rest
}

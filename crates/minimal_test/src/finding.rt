//! What a rule comes to.

ghost use Rattle.std.specs.Prelude.{◌≡◌};
ghost use Rattle.minimal_test.specs.Findings.{IsFinding, finding_of};

use crate::rest::{Rest, rest_of};
use crate::rule::Rule;
use crate::side::Side;
use crate::starts::Start;

/// What a rule comes to under the sides so far.
#[derive(Clone, Copy, Debug)]
pub enum Finding {
    /// All premises are in, and all conclusions out.
    Broken,
    /// The open place has to be in, or out.
    Forced(usize, bool),
    /// Neither.
    Quiet,
}

// From what is left of the premises, which are wanted in, and of the conclusions, which are wanted out.
fn finding_of(premises: Rest, conclusions: Rest) -> Finding
    ensures { result ≡ finding_of premises conclusions }
{
    match (premises, conclusions) {
        (Rest::Done, Rest::Done) => Finding::Broken,
        (Rest::Done, Rest::Only(place)) => Finding::Forced(place, true),
        (Rest::Only(place), Rest::Done) => Finding::Forced(place, false),
        (Rest::Done, Rest::Free) => Finding::Quiet,
        (Rest::Only(_), Rest::Only(_)) => Finding::Quiet,
        (Rest::Only(_), Rest::Free) => Finding::Quiet,
        (Rest::Free, _) => Finding::Quiet,
    }
}

/// What the rule comes to, by a look that begins there; it leaves where the next one may begin.
pub fn look(rule: &Rule, sides: &[Side], start: &mut Start) -> Finding
    ensures { IsFinding sides.now rule.now result }
{
    let premises = rest_of(sides, true, rule.premises.as_slice(), &mut start.premises);
    if let Rest::Free = premises {
        return Finding::Quiet;
    }
    let conclusions = rest_of(
        sides,
        false,
        rule.conclusions.as_slice(),
        &mut start.conclusions,
    );
    finding_of(premises, conclusions)
}

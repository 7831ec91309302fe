//! Laws of the verdicts: each function states one as its contract and does nothing.

ghost use Rattle.minimal_test.specs.Laws.{VerdictsTellMinimality, VerdictsExclude};

/// Of a set that satisfies the problem the verdicts tell whether it is minimal.
pub fn verdicts_tell_minimality()
    ensures { VerdictsTellMinimality }
{}

/// No two verdicts of different kinds are right of one set.
pub fn verdicts_exclude()
    ensures { VerdictsExclude }
{}

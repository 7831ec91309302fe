//! A lemma: two sets of literals.

ghost use Rattle.std.specs.Prelude.{◌≡◌};
ghost use Rattle.mg_meaning.specs.Folding.{applies};

use mg_meaning::is_part_of;
use mg_word::{Lit, LitSet};
use std::marker::Model;

/// No satisfying set holds all of the inside and nothing of the outside. Contracts see a pair of `mg_meaning`.
#[derive(Debug, Drop)]
pub struct Lemma {
    pub inside: LitSet,
    pub outside: LitSet,
}

impl Model for Lemma {
    ghost use Rattle.mg_meaning.specs.Folding.{Pair};

    ghost Value = { Pair };

    ghost view = { λ lemma. record { inside = lemma.inside; outside = lemma.outside } };
}

impl Lemma {
    /// Whether the lemma closes a branch with these literals and this barred set.
    pub fn applies(&self, lits: &[Lit], barred: &LitSet) -> bool
        ensures { result ≡ applies self.now lits.now barred.now }
    {
        is_part_of(self.inside.as_slice(), lits) && self.outside.is_subset(barred)
    }
}

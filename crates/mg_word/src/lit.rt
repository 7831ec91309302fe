//! Literals: atoms with a sign, ground or with variables.

ghost use Rattle.std.specs.Prelude.{◌≡◌, ◌↔◌, IfOk, IsTrue};
ghost use Rattle.std.proofs.Common.{rules};
ghost use Rattle.std.specs.Cmp.{partial_order_from_total};
ghost use Rattle.std.specs.Cmp.Rules.{comparing};
ghost use Rattle.std.specs.Ordering.{as_partial_cmp, eq_by_cmp};
ghost use Rattle.mg_word.specs.Orders.{lit_cmp};
ghost use Rattle.mg_word.specs.OrderLaws.{lit_total};
ghost use Rattle.mg_word.specs.Words.{complement_of};

use crate::{NoMemory, Pattern, Word};
use std::cmp::Ordering;

/// A ground literal: an atom, or where `negative` its negation.
#[derive(Debug, Drop)]
pub struct Lit {
    pub negative: bool,
    pub word: Word,
}

/// A literal of a clause or form, with variables.
#[derive(Debug, Drop)]
pub struct PatLit {
    pub negative: bool,
    pub pattern: Pattern,
}

impl Lit {
    /// An equal literal.
    pub fn copy(&self) -> Result<Lit, NoMemory>
        ensures { IfOk result (λ lit. lit ≡ self.now) }
    {
        Ok(Lit {
            negative: self.negative,
            word: self.word.copy()?,
        })
    }
}

impl PatLit {
    /// An equal literal.
    pub fn copy(&self) -> Result<PatLit, NoMemory>
        ensures { IfOk result (λ lit. lit ≡ self.now) }
    {
        Ok(PatLit {
            negative: self.negative,
            pattern: self.pattern.copy()?,
        })
    }
}

impl PartialEq for Lit {
    ghost eq = { eq_by_cmp lit_cmp };

    ghost laws = { Prim.search (comparing, rules) };

    fn eq(&self, other: &Lit) -> bool {
        self.cmp(other).is_eq()
    }
}

impl Eq for Lit {
    ghost laws = { Prim.search (comparing, rules) };
}

/// By their words, then positive before negative.
impl Ord for Lit {
    ghost cmp = { lit_cmp };

    ghost total = { Prim.search (comparing, rules) };

    ghost matches_partial_cmp = { Prim.search (comparing, rules) };

    ghost matches_eq = { Prim.search (comparing, rules) };

    fn cmp(&self, other: &Lit) -> Ordering {
        self.word
            .cmp(&other.word)
            .then(self.negative.cmp(&other.negative))
    }
}

impl PartialOrd for Lit {
    ghost partial_cmp = { as_partial_cmp lit_cmp };

    ghost laws = { partial_order_from_total lit_total };

    fn partial_cmp(&self, other: &Lit) -> Option<Ordering> {
        Some(self.cmp(other))
    }
}

/// The same atom with the other sign.
pub fn complement(lit: Lit) -> Lit
    ensures { result ≡ complement_of lit }
{
    Lit {
        negative: !lit.negative,
        word: lit.word,
    }
}

/// Whether the two literals are one atom with both signs.
pub fn is_complement(a: &Lit, b: &Lit) -> bool
    ensures { IsTrue result ↔ (a.now ≡ complement_of b.now) }
{
    a.negative != b.negative && a.word == b.word
}

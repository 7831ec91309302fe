//! The orders of words, literals and lists of literals, and weights.

ghost use Rattle.std.specs.Prelude.{◌≡◌, ◌<◌, ◌^◌, length};
ghost use Rattle.mg_word.specs.Orders as orders;

use crate::{Lit, Word};
use std::cmp::Ordering;

/// Fewer symbols first, then by the first differing symbol.
pub fn word_cmp(a: &Word, b: &Word) -> Ordering
    ensures { result ≡ orders.word_cmp a.now b.now }
{
    a.cmp(b)
}

/// By their words, then positive before negative.
pub fn lit_cmp(a: &Lit, b: &Lit) -> Ordering
    ensures { result ≡ orders.lit_cmp a.now b.now }
{
    a.cmp(b)
}

/// Literal by literal, a prefix first.
pub fn lits_cmp(a: &[Lit], b: &[Lit]) -> Ordering
    ensures { result ≡ orders.lits_cmp a.now b.now }
{
    a.cmp(b)
}

/// How many symbols the literal has.
pub fn weight(lit: &Lit) -> u32
    requires { length lit.now.word < 2 ^ 32 }
    ensures { result ≡ length lit.now.word }
{
    lit.word.as_slice().len() as u32
}

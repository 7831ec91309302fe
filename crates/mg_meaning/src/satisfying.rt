//! Whether a set of literals satisfies a problem.

ghost use Rattle.std.specs.Prelude.{◌≡◌, ◌<◌, ◌^◌, ◌↔◌, IfOk, IsTrue, length};
ghost use Rattle.mg_word.specs.Sets.{same_lit, holds, is_clash_free};
ghost use Rattle.mg_word.specs.Words.{fits, complement_of};
ghost use Rattle.mg_meaning.specs.Instances.{are_literals};
ghost use Rattle.mg_meaning.specs.Satisfaction.{Satisfies};

use crate::instances::violated_instances;
use crate::matching::first_term_len;
use mg_word::{Lit, NoMemory, Problem, Symbols, is_complement};
use std::alloc::Global;

// Whether the one literal is the complement of the other.
fn is_opposite(held: &Lit, lit: &Lit) -> bool
    ensures { result ≡ same_lit held.now (complement_of lit.now) }
{
    is_complement(held, lit)
}

/// Whether the literal's complement is in the list.
pub fn clashes(lits: &[Lit], lit: &Lit) -> bool
    ensures { result ≡ holds lits.now (complement_of lit.now) }
{
    lits.iter().any(|held| is_opposite(held, lit))
}

// Whether no literal stands beside its complement.
fn is_without_clash(lits: &[Lit]) -> bool
    ensures { result ≡ is_clash_free lits.now }
{
    lits.iter().all(|lit| !clashes(lits, lit))
}

// Whether the word is one ground term or atom over the symbols.
fn word_fits(symbols: &Symbols, word: &[u32]) -> bool
    ensures { result ≡ fits symbols.now word.now }
{
    match first_term_len(symbols, word) {
        Some(size) => size == word.len(),
        None => false,
    }
}

// Whether each literal's atom is one over the symbols.
fn all_fit(symbols: &Symbols, lits: &[Lit]) -> bool
    ensures { result ≡ are_literals symbols.now lits.now }
{
    lits.iter()
        .all(|lit| word_fits(symbols, lit.word.as_slice()))
}

/// Whether the set satisfies the problem. The numbers of forms fit 32 bits.
pub fn is_satisfying(alloc: Global, problem: &Problem, set: &[Lit]) -> Result<bool, NoMemory>
    ensures { IfOk result (λ answer. IsTrue answer ↔ Satisfies set.now problem.now) }
{
    if !is_without_clash(set) || !all_fit(&problem.symbols, set) {
        return Ok(false);
    }
    let insts = violated_instances(alloc, problem, set)?;
    Ok(insts.is_empty())
}

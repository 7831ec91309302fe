//! Whether a set is minimal, by trying all its parts.

ghost use Rattle.std.specs.Prelude.{◌≡◌, ◌<◌, ◌^◌, ◌↔◌, ◌∷◌, false, All, IfOk, IsTrue, length};
ghost use Rattle.mg_word.specs.Sets.{is_proper_part};
ghost use Rattle.mg_meaning.specs.Minimality.{IsMinimal};
ghost use Rattle.mg_meaning.specs.Parts.{with_and_without, parts_of, IsSmaller};

use crate::lits::{copy_lits, is_part_of};
use crate::satisfying::is_satisfying;
use mg_word::{Items, Lit, NoMemory, Problem};
use std::alloc::Global;

// An equal list behind this literal.
fn copy_behind(alloc: Global, first: &Lit, lits: &[Lit]) -> Result<Items<Lit>, NoMemory>
    ensures { IfOk result (λ made. made ≡ first.now ∷ lits.now) }
{
    let mut made = Vec::new(alloc);
    made.push(first.copy()?)?;
    for lit in lits {
        made.push(lit.copy()?)?;
    }
    Ok(Items::new(made))
}

// Each part with the literal and without it.
fn doubled(alloc: Global, lit: &Lit, parts: &[Items<Lit>]) -> Result<Vec<Items<Lit>>, NoMemory>
    ensures { IfOk result (λ made. made.items ≡ with_and_without lit.now parts.now) }
{
    let mut made = Vec::new(alloc);
    for part in parts {
        made.push(copy_behind(alloc, lit, part.as_slice())?)?;
        made.push(copy_lits(alloc, part.as_slice())?)?;
    }
    Ok(made)
}

// All parts of the list.
fn all_parts(alloc: Global, lits: &[Lit]) -> Result<Vec<Items<Lit>>, NoMemory>
    ensures { IfOk result (λ made. made.items ≡ parts_of lits.now) }
{
    let mut parts = Vec::new(alloc);
    parts.push(Items::empty(alloc))?;
    let mut at = lits.len();
    while at > 0 {
        at -= 1;
        parts = doubled(alloc, &lits[at], parts.as_slice())?;
    }
    Ok(parts)
}

// Whether the first list is a proper part of the second.
fn is_proper(part: &[Lit], set: &[Lit]) -> bool
    ensures { result ≡ is_proper_part part.now set.now }
{
    is_part_of(part, set) && !is_part_of(set, part)
}

// Whether the part is a proper one that satisfies the problem.
fn is_smaller(alloc: Global, problem: &Problem, part: &[Lit], set: &[Lit]) -> Result<bool, NoMemory>
    ensures { IfOk result (λ answer. IsTrue answer ↔ IsSmaller problem.now set.now part.now) }
{
    if !is_proper(part, set) {
        return Ok(false);
    }
    is_satisfying(alloc, problem, part)
}

// Whether one of these is.
fn has_smaller(
    alloc: Global,
    problem: &Problem,
    parts: &[Items<Lit>],
    set: &[Lit],
) -> Result<bool, NoMemory>
    ensures found { IfOk result (λ answer. IsTrue answer → (part : _) × IsSmaller problem.now set.now part) }
    ensures none { IfOk result (λ answer. answer ≡ false → All (λ part. ¬ IsSmaller problem.now set.now part) parts.now) }
{
    for part in parts {
        if is_smaller(alloc, problem, part.as_slice(), set)? {
            return Ok(true);
        }
    }
    Ok(false)
}

/// Whether the set satisfies the problem and no proper part of it does. The numbers of forms fit 32 bits.
pub fn is_minimal(alloc: Global, problem: &Problem, set: &[Lit]) -> Result<bool, NoMemory>
    ensures { IfOk result (λ answer. IsTrue answer ↔ IsMinimal set.now problem.now) }
{
    if !is_satisfying(alloc, problem, set)? {
        return Ok(false);
    }
    let parts = all_parts(alloc, set)?;
    let smaller = has_smaller(alloc, problem, parts.as_slice(), set)?;
    Ok(!smaller)
}

//! Several literals at once on a trail.

ghost use Rattle.std.specs.Prelude.{◌≡◌, ◌++◌, IfOk, OnOk};
ghost use Rattle.mg_word.specs.Sets.{is_part};
ghost use Rattle.mg_word.specs.Words.{lit_instances};

use crate::trail::Trail;
use mg_word::{Lit, NoMemory, PatLit, Subst, instance_of_lit};
use std::alloc::Global;

/// Whether the trail has each of the literals.
pub fn holds_all(trail: &Trail<'_>, lits: &[Lit]) -> bool
    ensures { result ≡ is_part lits.now trail.now }
{
    for lit in lits {
        if !trail.holds(lit) {
            return false;
        }
    }
    true
}

/// Whether the trail has the instance of each of the literals. None is kept.
pub fn holds_instances(
    alloc: Global,
    trail: &Trail<'_>,
    lits: &[PatLit],
    subst: &Subst,
) -> Result<bool, NoMemory>
    ensures { IfOk result (λ all. all ≡ is_part (lit_instances subst.now lits.now) trail.now) }
{
    for lit in lits {
        if !trail.holds(&instance_of_lit(alloc, lit, subst)?) {
            return Ok(false);
        }
    }
    Ok(true)
}

/// Adds copies of the literals on top.
pub fn push_copies(trail: &mut Trail<'_>, lits: &[Lit]) -> Result<(), NoMemory>
    ensures { OnOk result (trail.new ≡ trail.old ++ lits.now) }
{
    for lit in lits {
        trail.push(lit.copy()?)?;
    }
    Ok(())
}

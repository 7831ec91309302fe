//! The children of a node that an instance splits.

ghost use Rattle.std.specs.Prelude.{◌≡◌, ◌≤◌, IfOk, length};
ghost use Rattle.case_split.specs.Splitting.{closure_of, children_of, barred_before};

use crate::{Child, Closure};
use mg_meaning::clashes;
use mg_word::{Inst, Lit, LitSet, NoMemory};
use std::alloc::Global;

// How the child of this conclusion is closed at once, if it is.
fn closure_at_once(
    lits: &[Lit],
    barred: &LitSet,
    conclusion: &Lit,
) -> Result<Option<Closure>, NoMemory>
    ensures { IfOk result (λ closure. closure ≡ closure_of lits.now barred.now conclusion.now) }
{
    if clashes(lits, conclusion) {
        return Ok(Some(Closure::Clash(conclusion.copy()?)));
    }
    if barred.contains(conclusion) {
        return Ok(Some(Closure::Barred(conclusion.copy()?)));
    }
    Ok(None)
}

/// The children of a node with these literals and this barred set: one for each conclusion of the instance, in order.
pub fn children(
    alloc: Global,
    inst: &Inst,
    lits: &[Lit],
    barred: &LitSet,
) -> Result<Vec<Child>, NoMemory>
    ensures { IfOk result (λ made. made.items ≡ children_of lits.now barred.now inst.now.conclusions) }
{
    let conclusions = inst.conclusions.as_slice();
    let mut made = Vec::with_capacity(alloc, conclusions.len())?;
    let mut before = barred.copy()?;
    for conclusion in conclusions {
        made.push(Child {
            lit: conclusion.copy()?,
            barred: before.copy()?,
            at_once: closure_at_once(lits, &before, conclusion)?,
        })?;
        before = before.with(conclusion.copy()?)?;
    }
    Ok(made)
}

/// What the child with this index, from 0, bars.
pub fn child_barred(inst: &Inst, index: usize, barred: &LitSet) -> Result<LitSet, NoMemory>
    requires { index ≤ length inst.now.conclusions }
    ensures { IfOk result (λ set. set ≡ barred_before barred.now inst.now.conclusions index) }
{
    let mut before = barred.copy()?;
    for conclusion in &inst.conclusions.as_slice()[..index] {
        before = before.with(conclusion.copy()?)?;
    }
    Ok(before)
}

//! The check of one line against the branch that it stands at.

ghost use Rattle.std.specs.Prelude.{◌≡◌, ◌≢◌, ◌↔◌, ◌++◌, [], IfOk, IsTrue, MatchResult};
ghost use Rattle.std.specs.Option.{option_map};
ghost use Rattle.mg_word.specs.Sets.{holds};
ghost use Rattle.mg_word.specs.Words.{complement_of, numbered};
ghost use Rattle.tree_checker.specs.Trees.{conclusions_at, split_by};
ghost use Rattle.tree_checker.specs.Closing.{IsFine};
ghost use Rattle.tree_checker.specs.Docs.{IsKnown, lemmas_of};
ghost use Rattle.tree_checker.specs.Walks.{next_of, after_next};
ghost use Rattle.tree_checker.specs.Faults.{Faults};
ghost use Rattle.tree_checker.specs.declared.doc.TreeLine.TheVariants.{Form as FormLine, Clash, Barred, By};

use crate::lits::{holds_all, holds_instances};
use crate::trail::Trail;
use crate::walk::Walk;
use crate::{LemmaBlock, TreeLine, Why};
use mg_word::{Form, Lit, NoMemory, Subst, complement, instances_of_lits};
use std::alloc::Global;

/// Why a line was not found to keep the rules.
#[derive(Clone, Copy, Debug, PartialEq, Eq)]
pub enum LineFault {
    /// The first rule that it breaks.
    Broken(Why),
    /// Memory ran out.
    NoMemory,
}

impl From<NoMemory> for LineFault {
    ghost use Rattle.std.specs.Prelude.{◌≡◌};
    ghost use Rattle.tree_checker.specs.declared.line.LineFault.TheVariants.{NoMemory as OutOfMemory};

    ghost from_gives = { λ _ fault. fault ≡ OutOfMemory };

    fn from(_: NoMemory) -> Self {
        LineFault::NoMemory
    }
}

// The item with the number, counted from 1.
fn item_numbered<T>(items: &[T], number: u32) -> Option<&T>
    ensures { option_map (λ item. item.now) result ≡ numbered items.now number }
{
    if number == 0 {
        return None;
    }
    items.get((number - 1) as usize)
}

// Whether the literal and its complement are there.
fn clashes(trail: &Trail<'_>, lit: &Lit) -> Result<bool, NoMemory>
    ensures { IfOk result (λ both. IsTrue both ↔ (IsTrue (holds trail.now lit.now) × IsTrue (holds trail.now (complement_of lit.now)))) }
{
    if !trail.holds(lit) {
        return Ok(false);
    }
    let opposite = complement(lit.copy()?);
    Ok(trail.holds(&opposite))
}

fn check_form(
    alloc: Global,
    forms: &[Form],
    walk: &mut Walk<'_>,
    number: u32,
    subst: &Subst,
) -> Result<(), LineFault>
    requires known { IsKnown forms.now (FormLine number subst.now) }
    requires open { walk.old ≢ [] }
    ensures { MatchResult result
        (λ _. IsFine forms.now [] (next_of walk.old) (FormLine number subst.now)
        × (walk.new ≡ split_by (next_of walk.old) (conclusions_at forms.now (FormLine number subst.now)) ++ after_next walk.old))
        (Faults forms.now [] (next_of walk.old) (FormLine number subst.now)) }
{
    let Some(form) = item_numbered(forms, number) else {
        unreachable!()
    };
    if subst.as_slice().len() != form.variables as usize {
        return Err(LineFault::Broken(Why::Substitution));
    }
    if !holds_instances(alloc, walk.held(), form.premises.as_slice(), subst)? {
        return Err(LineFault::Broken(Why::Premise));
    }
    let conclusions = instances_of_lits(alloc, form.conclusions.as_slice(), subst)?;
    walk.split(conclusions)?;
    Ok(())
}

fn check_clash(alloc: Global, walk: &mut Walk<'_>, lit: &Lit) -> Result<(), LineFault>
    requires { walk.old ≢ [] }
    ensures { MatchResult result
        (λ _. IsFine [] [] (next_of walk.old) (Clash lit.now) × (walk.new ≡ after_next walk.old))
        (Faults [] [] (next_of walk.old) (Clash lit.now)) }
{
    if !clashes(walk.held(), lit)? {
        return Err(LineFault::Broken(Why::NoClash));
    }
    walk.split(Vec::new(alloc))?;
    Ok(())
}

fn check_barred(alloc: Global, walk: &mut Walk<'_>, lit: &Lit) -> Result<(), LineFault>
    requires { walk.old ≢ [] }
    ensures { MatchResult result
        (λ _. IsFine [] [] (next_of walk.old) (Barred lit.now) × (walk.new ≡ after_next walk.old))
        (Faults [] [] (next_of walk.old) (Barred lit.now)) }
{
    if !walk.held().holds(lit) {
        return Err(LineFault::Broken(Why::NotBarred));
    }
    if !walk.barred().holds(lit) {
        return Err(LineFault::Broken(Why::NotBarred));
    }
    walk.split(Vec::new(alloc))?;
    Ok(())
}

fn check_by(
    alloc: Global,
    blocks: &[LemmaBlock],
    walk: &mut Walk<'_>,
    number: u32,
) -> Result<(), LineFault>
    requires { walk.old ≢ [] }
    ensures { MatchResult result
        (λ _. IsFine [] (lemmas_of blocks.now) (next_of walk.old) (By number) × (walk.new ≡ after_next walk.old))
        (Faults [] (lemmas_of blocks.now) (next_of walk.old) (By number)) }
{
    let Some(block) = item_numbered(blocks, number) else {
        return Err(LineFault::Broken(Why::LemmaNumber));
    };
    if !holds_all(walk.held(), block.inside.as_slice()) {
        return Err(LineFault::Broken(Why::LemmaInside));
    }
    if !holds_all(walk.barred(), block.outside.as_slice()) {
        return Err(LineFault::Broken(Why::LemmaOutside));
    }
    walk.split(Vec::new(alloc))?;
    Ok(())
}

/// Checks a line against the next branch, and puts the branches of its children in that one's stead. The blocks are
/// those that it may name.
pub fn check_line(
    alloc: Global,
    forms: &[Form],
    blocks: &[LemmaBlock],
    walk: &mut Walk<'_>,
    line: &TreeLine,
) -> Result<(), LineFault>
    requires known { IsKnown forms.now line.now }
    requires open { walk.old ≢ [] }
    ensures { MatchResult result
        (λ _. IsFine forms.now (lemmas_of blocks.now) (next_of walk.old) line.now
        × (walk.new ≡ split_by (next_of walk.old) (conclusions_at forms.now line.now) ++ after_next walk.old))
        (Faults forms.now (lemmas_of blocks.now) (next_of walk.old) line.now) }
{
    match line {
        TreeLine::Form { form, subst } => check_form(alloc, forms, walk, *form, subst),
        TreeLine::Clash(lit) => check_clash(alloc, walk, lit),
        TreeLine::Barred(lit) => check_barred(alloc, walk, lit),
        TreeLine::By(number) => check_by(alloc, blocks, walk, *number),
    }
}

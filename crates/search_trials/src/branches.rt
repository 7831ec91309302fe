//! Branches of the clauses `p(a)` and `~p(X) | p(f(X))`, with answers by hand.

ghost use Rattle.std.specs.Prelude.{◌≡◌, ◌∷◌, [], false, IfOk, IsTrue};
ghost use Rattle.std.specs.Bool.{OnTrue};
ghost use Rattle.mg_word.specs.Words.{fits};

use mg_word::{Inst, Lit, LitSet, NoMemory, Symbols, Word};
use model_extend::{Branch, Found, Mark, look, make_step};
use small_problems::problem_of;
use std::alloc::Global;
use std::sync::Arc;
use std::test::Fail;

// The symbols are in order: `a` is 0, `f` is 1 and `p` is 2.
const PROBLEM: &str = "cnf(c1,axiom,p(a)). cnf(c2,axiom,~p(X)|p(f(X))).";

// Whether the first of three symbols takes no argument, and the others one.
fn are_as_said(symbols: &Symbols) -> bool
    ensures first { OnTrue result (IsTrue (fits symbols.now (2 ∷ 0 ∷ []))) }
    ensures second { OnTrue result (IsTrue (fits symbols.now (2 ∷ 1 ∷ 0 ∷ []))) }
{
    symbols.len() == 3 && symbols.arity(0) == 0 && symbols.arity(1) == 1 && symbols.arity(2) == 1
}

fn atom(alloc: Global, symbols: &[u32]) -> Result<Lit, NoMemory>
    ensures { IfOk result (λ lit. lit ≡ record { negative = false; word = symbols.now }) }
{
    Ok(Lit {
        negative: false,
        word: Word::new(Vec::from_slice(alloc, symbols)?),
    })
}

// p(a)
fn first(alloc: Global) -> Result<Lit, NoMemory>
    ensures { IfOk result (λ lit. lit ≡ record { negative = false; word = 2 ∷ 0 ∷ [] }) }
{
    atom(alloc, &[2, 0])
}

// p(f(a))
fn second(alloc: Global) -> Result<Lit, NoMemory>
    ensures { IfOk result (λ lit. lit ≡ record { negative = false; word = 2 ∷ 1 ∷ 0 ∷ [] }) }
{
    atom(alloc, &[2, 1, 0])
}

// Pushes the atom of the problem, where it may be.
fn push(branch: &mut Branch, lit: &Lit) -> Result<(), Fail>
    requires { IsTrue (fits branch.old.problem.symbols lit.now.word) }
    ensures { branch.new.problem ≡ branch.old.problem }
{
    let is_new = !branch.contains(lit) && !branch.clashes(lit);
    let is_short = lit.word.as_slice().len() <= 65_536;
    if !is_new || !is_short || branch.mark().depth == u32::MAX {
        return Err(Fail::from("no literal that may be pushed"));
    }
    branch.push(lit)?;
    Ok(())
}

// Pushes both atoms.
fn push_both(branch: &mut Branch, first: &Lit, second: &Lit) -> Result<(), Fail>
    requires first { IsTrue (fits branch.old.problem.symbols first.now.word) }
    requires second { IsTrue (fits branch.old.problem.symbols second.now.word) }
{
    push(branch, first)?;
    push(branch, second)
}

// The branch of p(a) and p(f(a)), pushed.
fn pushed(alloc: Global) -> Result<Branch, Fail> {
    let problem = Arc::new(alloc, problem_of(alloc, PROBLEM)?)?;
    if !are_as_said(&problem.symbols) {
        return Err(Fail::from("other symbols"));
    }
    let mut branch = Branch::new(alloc, problem)?;
    push_both(&mut branch, &first(alloc)?, &second(alloc)?)?;
    Ok(branch)
}

// The same branch, moved to.
fn moved(alloc: Global) -> Result<Branch, Fail> {
    let pushed = pushed(alloc)?;
    let mut branch = Branch::new(alloc, pushed.problem().clone()?)?;
    branch.move_to(pushed.lits())?;
    Ok(branch)
}

// Whether it is the instance of the second form in which X is f(a).
fn is_third(inst: &Inst) -> bool {
    inst.form == 2
        && matches!(inst.subst.as_slice(), [value] if value.as_slice() == [1, 0].as_slice())
}

#[test]
fn the_limit_decides(rt: HostRuntime) -> Result<(), Fail> {
    let alloc = rt.alloc();
    let branch = moved(alloc)?;
    let below = look(&branch, 3)?;
    assert!(rt; matches!(&below, Found::Heavy(inst) if is_third(inst)));
    let within = look(&branch, 4)?;
    assert!(rt; matches!(&within, Found::Extend(inst) if is_third(inst)));
    Ok(())
}

#[test]
fn a_step_has_what_was_found(rt: HostRuntime) -> Result<(), Fail> {
    let alloc = rt.alloc();
    let branch = pushed(alloc)?;
    let step = make_step(&branch, LitSet::empty(alloc), 4)?;
    assert!(rt; matches!(step.found, Found::Extend(_)));
    assert_eq!(rt; step.lits.len(), 2);
    assert_eq!(rt; step.barred.as_slice().len(), 0);
    assert_eq!(rt; step.weight, 4);
    assert_eq!(rt; step.problem.forms.len(), 2);
    Ok(())
}

fn pop_to(branch: &mut Branch, depth: u32) -> Result<(), Fail> {
    if branch.mark().depth < depth {
        return Err(Fail::from("too few literals"));
    }
    branch.pop_to(Mark { depth });
    Ok(())
}

// Whether it holds the first of the two literals and not the second, and some instance is violated.
fn holds_first(alloc: Global, branch: &Branch) -> Result<bool, NoMemory> {
    let first = first(alloc)?;
    let second = second(alloc)?;
    Ok(
        branch.lits().len() == 1
            && branch.contains(&first)
            && !branch.contains(&second)
            && !branch.clashes(&first)
            && branch.least_violated()?.is_some(),
    )
}

#[test]
fn literals_come_and_go(rt: HostRuntime) -> Result<(), Fail> {
    let alloc = rt.alloc();
    let mut branch = moved(alloc)?;
    assert_eq!(rt; branch.mark().depth, 2);
    pop_to(&mut branch, 1)?;
    assert!(rt; holds_first(alloc, &branch)?);
    assert_eq!(rt; branch.problem().forms.len(), 2);
    Ok(())
}

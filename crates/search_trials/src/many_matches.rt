//! Many literals of three premises that never hold together.

use crate::matching::Trial;
use mg_word::NoMemory;
use std::alloc::Global;
use std::test::Fail;

// How many constants of each kind there are.
const COUNT: u32 = 3000;

// Adds the clause of one atom with all constants of this first letter.
fn push_clause(
    alloc: Global,
    text: &mut String,
    predicate: &str,
    letter: &str,
) -> Result<(), NoMemory> {
    let start = format!(in alloc; "cnf({predicate},axiom,{predicate}({letter}0")?;
    text.push_str(&start)?;
    for index in 1..COUNT {
        let constant = format!(in alloc; ",{letter}{index}")?;
        text.push_str(&constant)?;
    }
    text.push_str(")).\n")?;
    Ok(())
}

// Pushes the predicate with each constant of this first letter: how many matches they bring.
fn push_all(
    alloc: Global,
    trial: &mut Trial,
    predicate: &str,
    letter: &str,
) -> Result<usize, Fail> {
    let predicate = trial.symbol(predicate, 1)?;
    let mut brought: usize = 0;
    for index in 0..COUNT {
        let name = format!(in alloc; "{letter}{index}")?;
        let constant = trial.symbol(&name, 0)?;
        brought = brought.saturating_add(trial.push(alloc, predicate, constant)?.len());
    }
    Ok(brought)
}

fn text(alloc: Global) -> Result<String, NoMemory> {
    let mut text = String::new(alloc);
    text.push_str("cnf(c,axiom,~p(X)|~q(X)|~s(X)).\n")?;
    push_clause(alloc, &mut text, "t", "c")?;
    push_clause(alloc, &mut text, "u", "d")?;
    Ok(text)
}

// Whether no literal brings a match, and the first premise has as many as there are constants.
fn brings_none(alloc: Global, trial: &mut Trial) -> Result<bool, Fail> {
    for (predicate, letter) in [("p", "c"), ("q", "d"), ("s", "c")] {
        if push_all(alloc, trial, predicate, letter)? > 0 {
            return Ok(false);
        }
    }
    Ok(trial.count(1, 1)? == COUNT as usize && trial.count(1, 2)? == 0)
}

// The pairs of a p and a q agree on no value, and each s would have to look at all of them.
#[test]
fn no_pair_is_looked_at_again(rt: HostRuntime) -> Result<(), Fail> {
    let alloc = rt.alloc();
    let text = text(alloc)?;
    let mut trial = Trial::new(alloc, &text)?;
    assert!(rt; brings_none(alloc, &mut trial)?);
    Ok(())
}

//! Spelling, sets, orders and the sorting of symbols, on values worked by hand.

use crate::is_one_term;
use mg_word::{
    Kind, Lit, LitSet, NoMemory, Symbols, Word, lit_cmp, lit_text, lits_cmp, weight, word_cmp,
    word_text,
};
use std::alloc::Global;
use std::cmp::Ordering;
use std::test::Fail;

// Symbols that share names, and that are written bare, in single and in double quotes.
const SYMBOLS: [(&str, u32, Kind); 9] = [
    ("p", 2, Kind::Word),
    ("it's", 0, Kind::Word),
    ("f", 1, Kind::Word),
    ("7", 0, Kind::Integer),
    ("a\"b\\", 0, Kind::Distinct),
    ("Up", 0, Kind::Word),
    ("", 0, Kind::Word),
    ("f", 0, Kind::Distinct),
    ("f", 0, Kind::Word),
];

fn table(alloc: Global) -> Result<Symbols, NoMemory> {
    let mut symbols = Symbols::new(alloc)?;
    for (name, arity, kind) in SYMBOLS {
        if symbols.len() < 9 {
            symbols.intern(name, arity, kind)?;
        }
    }
    Ok(symbols)
}

fn word(alloc: Global, symbols: &[u32]) -> Result<Word, NoMemory> {
    Ok(Word::new(Vec::from_slice(alloc, symbols)?))
}

fn lit(alloc: Global, negative: bool, symbols: &[u32]) -> Result<Lit, NoMemory> {
    Ok(Lit {
        negative,
        word: word(alloc, symbols)?,
    })
}

// Whether the symbols are one term with this text.
fn is_spelled(
    alloc: Global,
    symbols: &Symbols,
    numbers: &[u32],
    text: &str,
) -> Result<bool, NoMemory> {
    let atom = word(alloc, numbers)?;
    if !is_one_term(symbols, atom.as_slice()) {
        return Ok(false);
    }
    Ok(word_text(alloc, symbols, &atom)?.as_slice() == text.as_bytes())
}

// Whether the symbols are one term, and its negation has this text.
fn is_negation_spelled(
    alloc: Global,
    symbols: &Symbols,
    numbers: &[u32],
    text: &str,
) -> Result<bool, NoMemory> {
    let negated = lit(alloc, true, numbers)?;
    if !is_one_term(symbols, negated.word.as_slice()) {
        return Ok(false);
    }
    Ok(lit_text(alloc, symbols, &negated)?.as_slice() == text.as_bytes())
}

#[test]
fn words_and_literals_are_spelled(rt: HostRuntime) -> Result<(), Fail> {
    let alloc = rt.alloc();
    let symbols = table(alloc)?;
    for (numbers, text) in [
        ([0u32, 2, 1, 3].as_slice(), "p(f('it\\'s'),7)"),
        ([0, 4, 2, 5].as_slice(), "p(\"a\\\"b\\\\\",f('Up'))"),
        ([6].as_slice(), "''"),
        ([0, 0, 7, 8, 2, 2, 3].as_slice(), "p(p(\"f\",f),f(f(7)))"),
    ] {
        assert!(rt; is_spelled(alloc, &symbols, numbers, text)?, "at {text}");
    }
    assert!(rt; is_negation_spelled(alloc, &symbols, &[2, 1], "~f('it\\'s')")?);
    Ok(())
}

#[test]
fn a_set_holds_each_literal_once(rt: HostRuntime) -> Result<(), Fail> {
    let alloc = rt.alloc();
    let mut lits = Vec::new(alloc);
    for (negative, numbers) in [
        (true, [1u32].as_slice()),
        (false, [2, 0].as_slice()),
        (false, [1].as_slice()),
        (true, [1].as_slice()),
        (false, [1].as_slice()),
    ] {
        lits.push(lit(alloc, negative, numbers)?)?;
    }
    let set = LitSet::from_lits(lits)?;
    assert_eq!(rt; set.as_slice().len(), 3);
    assert!(rt; set.contains(&lit(alloc, false, &[2, 0])?));
    assert!(rt; set.contains(&lit(alloc, true, &[1])?));
    assert!(rt; !set.contains(&lit(alloc, true, &[2, 0])?));
    let part = LitSet::empty(alloc).with(lit(alloc, true, &[1])?)?;
    assert!(rt; part.is_subset(&set));
    assert!(rt; !set.is_subset(&part));
    let more = part
        .with(lit(alloc, false, &[0])?)?
        .with(lit(alloc, true, &[1])?)?;
    assert_eq!(rt; more.as_slice().len(), 2);
    assert!(rt; more.contains(&lit(alloc, false, &[0])?));
    assert!(rt; !more.is_subset(&set));
    Ok(())
}

#[test]
fn fewer_symbols_come_first(rt: HostRuntime) -> Result<(), Fail> {
    let alloc = rt.alloc();
    for (one, other, order) in [
        ([5u32].as_slice(), [0u32, 0].as_slice(), Ordering::Less),
        ([3, 9].as_slice(), [3, 8].as_slice(), Ordering::Greater),
        ([1, 2].as_slice(), [1, 2].as_slice(), Ordering::Equal),
    ] {
        assert_eq!(rt; word_cmp(&word(alloc, one)?, &word(alloc, other)?), order);
    }
    let positive = lit(alloc, false, &[4, 1])?;
    let negative = lit(alloc, true, &[4, 1])?;
    let shorter = lit(alloc, true, &[9])?;
    assert_eq!(rt; lit_cmp(&positive, &negative), Ordering::Less);
    assert_eq!(rt; lit_cmp(&negative, &shorter), Ordering::Greater);
    assert_eq!(rt; lits_cmp(&[], &[shorter]), Ordering::Less);
    assert_eq!(rt; positive.word.as_slice().len(), 2);
    assert_eq!(rt; weight(&positive), 2);
    Ok(())
}

#[test]
fn symbols_are_sorted_and_found(rt: HostRuntime) -> Result<(), Fail> {
    let alloc = rt.alloc();
    let symbols = table(alloc)?;
    let (sorted, numbers) = symbols.sorted()?;
    assert!(rt; numbers.as_slice() == [8u32, 7, 6, 1, 3, 2, 0, 5, 4].as_slice());
    for ((name, arity, kind), number) in SYMBOLS.into_iter().zip([8u32, 7, 6, 1, 3, 2, 0, 5, 4]) {
        assert_eq!(rt; sorted.find(name, arity, kind)?, Some(number), "at {name}");
    }
    assert_eq!(rt; sorted.find("f", 2, Kind::Word)?, None);
    assert_eq!(rt; sorted.find("F", 1, Kind::Word)?, None);
    assert_eq!(rt; sorted.find("7", 0, Kind::Word)?, None);
    Ok(())
}

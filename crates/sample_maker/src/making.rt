//! The sample of a size.

ghost use Rattle.std.specs.Prelude.{◌≡◌, ◌≤◌, ◌++◌, Contains, length, ◌↔◌, ◌∷◌, [], ◌-◌, ◌*◌, IfOk, OnOk, IfErr, codes};
ghost use Rattle.sample_maker.specs.Sample as sample;

use crate::clauses::sample_clauses;
use crate::names::numbered;
use crate::{LEAST_SIZE, MOST_SIZE, SampleFault};
use mg_word::{Input, Items, Kind, NoMemory, Symbols, Text};
use std::alloc::Global;

// Adds the symbol of that letter and number, which is new.
fn push_symbol(alloc: Global, symbols: &mut Symbols, letter: &str, i: u32) -> Result<(), NoMemory>
    requires short { i ≤ MOST_SIZE }
    requires few { length symbols.old ≤ 2 * MOST_SIZE }
    requires new { ¬ Contains symbols.old (sample.symbol letter.now i) }
    ensures { OnOk result (symbols.new ≡ symbols.old ++ sample.symbol letter.now i ∷ []) }
{
    symbols.intern(numbered(alloc, letter, i)?.as_str(), 0, Kind::Word)?;
    Ok(())
}

// Adds `ai` and `bi` to the symbols up to them.
fn push_both(alloc: Global, symbols: &mut Symbols, i: u32) -> Result<(), NoMemory>
    requires low { 1 ≤ i }
    requires high { i ≤ MOST_SIZE }
    requires before { symbols.old ≡ sample.sample_symbols (i - 1) }
    ensures { OnOk result (symbols.new ≡ sample.sample_symbols i) }
{
    push_symbol(alloc, symbols, "a", i)?;
    push_symbol(alloc, symbols, "b", i)?;
    Ok(())
}

// The symbols `a01`, `b01`, `a02`, `b02` and so on.
fn sample_symbols(alloc: Global, size: u32) -> Result<Symbols, NoMemory>
    requires { size ≤ MOST_SIZE }
    ensures { IfOk result (λ symbols. symbols ≡ sample.sample_symbols size) }
{
    let mut symbols = Symbols::new(alloc)?;
    for i in 1..size + 1 {
        push_both(alloc, &mut symbols, i)?;
    }
    Ok(symbols)
}

// The names of the files: one, which is `sample`.
fn sample_files(alloc: Global) -> Result<Items<Text>, NoMemory>
    ensures { IfOk result (λ files. files ≡ codes "sample" ∷ []) }
{
    let name = Text::new(Vec::from_slice(alloc, b"sample")?);
    let names = vec![in alloc; name]?;
    Ok(Items::new(names))
}

/// The sample of a size: the clauses `ai|bi` for each `i` from 1 to the size, and then `~ai|~aj` for each `i` below
/// the size, where `j` is one more.
///
/// # Errors
///
/// `Range` where the size is 0 or over 20. `NoMemory`: memory ran out.
pub fn sample(alloc: Global, size: u32) -> Result<Input, SampleFault>
    ensures answer { IfOk result (λ input. input ≡ sample.sample_input size) }
    ensures numbers { IfOk result (λ input. sample.AreNumbered size input.symbols) }
    ensures lines { IfOk result (λ input. sample.AreOnLines input.clauses) }
    ensures within { IfOk result (λ _. ¬ sample.IsOutOfRange size) }
    ensures range { IfErr result (λ fault. (fault ≡ SampleFault.Range) ↔ sample.IsOutOfRange size) }
{
    if size < LEAST_SIZE || size > MOST_SIZE {
        return Err(SampleFault::Range);
    }
    let symbols = sample_symbols(alloc, size)?;
    // They are all different.
    prove_eq!(symbols.len(), 2 * size);
    let files = sample_files(alloc)?;
    let clauses = sample_clauses(alloc, size)?;
    Ok(Input {
        symbols,
        files,
        clauses,
    })
}

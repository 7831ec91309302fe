//! The clauses of a sample.

ghost use Rattle.std.specs.Prelude.{◌≡◌, ◌≤◌, ◌<◌, ◌∷◌, [], IfOk, OnOk, ◌+◌, ◌-◌, ◌++◌, map, string_bytes};
ghost use Rattle.sample_maker.specs.declared.limits.TheConstants.{MOST_SIZE};
ghost use Rattle.sample_maker.specs.Sample as sample;

use crate::names::numbered;
use mg_word::{Clause, ClauseLit, Item, Items, Kind, Name, NoMemory, PatLit, Pattern, Place, Text};
use std::alloc::Global;

// The number of `ai` among the symbols.
fn number_of_a(i: u32) -> u32
    requires low { 1 ≤ i }
    requires high { i ≤ MOST_SIZE }
    ensures { result ≡ sample.number_of_a i }
{
    2 * (i - 1)
}

// The literal of a symbol that has no arguments.
fn literal(alloc: Global, negative: bool, symbol: u32) -> Result<ClauseLit, NoMemory>
    ensures { IfOk result (λ literal. literal ≡ ClauseLit.Lit (record { negative = negative; pattern = Item.Sym symbol ∷ [] })) }
{
    let items = vec![in alloc; Item::Sym(symbol)]?;
    Ok(ClauseLit::Lit(PatLit {
        negative,
        pattern: Pattern::new(items),
    }))
}

// The clause of two literals, alone on its line.
fn clause_on(line: u32, name: String, literals: Vec<ClauseLit>) -> Clause
    ensures { result ≡ sample.clause_on line (string_bytes name) literals.items }
{
    let alloc = *literals.allocator();
    Clause {
        name: Name {
            kind: Kind::Word,
            text: Text::new(name.into_bytes()),
        },
        place: Place {
            file: 0,
            line,
            column: 1,
        },
        literals: Items::new(literals),
        variables: Items::empty(alloc),
        conclude: Items::empty(alloc),
    }
}

// `ai|bi`.
fn choice(alloc: Global, i: u32) -> Result<Clause, NoMemory>
    requires low { 1 ≤ i }
    requires high { i ≤ MOST_SIZE }
    ensures { IfOk result (λ clause. clause ≡ sample.choice i) }
{
    let a = number_of_a(i);
    let literals = vec![in alloc; literal(alloc, false, a)?, literal(alloc, false, a + 1)?]?;
    Ok(clause_on(i, numbered(alloc, "c", i)?, literals))
}

// `~ai|~aj`, where `j` is one more.
fn neighbours(alloc: Global, size: u32, i: u32) -> Result<Clause, NoMemory>
    requires low { 1 ≤ i }
    requires high { i < size }
    requires small { size ≤ MOST_SIZE }
    ensures { IfOk result (λ clause. clause ≡ sample.neighbours size i) }
{
    let this = literal(alloc, true, number_of_a(i))?;
    let next = literal(alloc, true, number_of_a(i + 1))?;
    let literals = vec![in alloc; this, next]?;
    Ok(clause_on(size + i, numbered(alloc, "d", i)?, literals))
}

// Adds the choices up to the size.
fn push_choices(alloc: Global, clauses: &mut Vec<Clause>, size: u32) -> Result<(), NoMemory>
    requires { size ≤ MOST_SIZE }
    ensures { OnOk result (clauses.new.items ≡ clauses.old.items ++ map sample.choice (sample.up_to size)) }
{
    for i in 1..size + 1 {
        clauses.push(choice(alloc, i)?)?;
    }
    Ok(())
}

// Adds neighbours for each number below the size.
fn push_neighbours(alloc: Global, clauses: &mut Vec<Clause>, size: u32) -> Result<(), NoMemory>
    requires low { 1 ≤ size }
    requires high { size ≤ MOST_SIZE }
    ensures { OnOk result (clauses.new.items ≡ clauses.old.items ++ map (sample.neighbours size) (sample.up_to (size - 1))) }
{
    for i in 1..size {
        clauses.push(neighbours(alloc, size, i)?)?;
    }
    Ok(())
}

/// The choices up to the size, and then neighbours for each number below it.
pub fn sample_clauses(alloc: Global, size: u32) -> Result<Items<Clause>, NoMemory>
    requires low { 1 ≤ size }
    requires high { size ≤ MOST_SIZE }
    ensures { IfOk result (λ clauses. clauses ≡ sample.sample_clauses size) }
{
    let mut clauses = Vec::new(alloc);
    push_choices(alloc, &mut clauses, size)?;
    push_neighbours(alloc, &mut clauses, size)?;
    Ok(Items::new(clauses))
}

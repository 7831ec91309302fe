//! Copies of clauses over new numbers of the symbols.

ghost use Rattle.std.specs.Prelude.{◌≡◌, IfOk, map};
ghost use Rattle.clause_form.specs.Renumbering.{item_renumbered, pattern_renumbered, lit_renumbered, literal_renumbered, clause_renumbered, renumbered};

use mg_word::{Clause, ClauseLit, Item, Items, Name, NoMemory, PatLit, Pattern, Text};
use std::alloc::Global;

fn renumbered_item(numbers: &[u32], item: Item) -> Item
    ensures { result ≡ item_renumbered numbers.now item }
{
    match item {
        Item::Sym(symbol) => Item::Sym(numbers.get(symbol as usize).copied().unwrap_or(0)),
        Item::Var(variable) => Item::Var(variable),
    }
}

fn renumbered_pattern(alloc: Global, numbers: &[u32], items: &[Item]) -> Result<Pattern, NoMemory>
    ensures { IfOk result (λ pattern. pattern ≡ pattern_renumbered numbers.now items.now) }
{
    let mut copied = Vec::with_capacity(alloc, items.len())?;
    for item in items {
        copied.push(renumbered_item(numbers, *item))?;
    }
    Ok(Pattern::new(copied))
}

fn renumbered_lit(alloc: Global, numbers: &[u32], lit: &PatLit) -> Result<PatLit, NoMemory>
    ensures { IfOk result (λ copied. copied ≡ lit_renumbered numbers.now lit.now) }
{
    Ok(PatLit {
        negative: lit.negative,
        pattern: renumbered_pattern(alloc, numbers, lit.pattern.as_slice())?,
    })
}

fn renumbered_literal(
    alloc: Global,
    numbers: &[u32],
    literal: &ClauseLit,
) -> Result<ClauseLit, NoMemory>
    ensures { IfOk result (λ copied. copied ≡ literal_renumbered numbers.now literal.now) }
{
    match literal {
        ClauseLit::True => Ok(ClauseLit::True),
        ClauseLit::False => Ok(ClauseLit::False),
        ClauseLit::Lit(lit) => Ok(ClauseLit::Lit(renumbered_lit(alloc, numbers, lit)?)),
    }
}

fn renumbered_literals(
    alloc: Global,
    numbers: &[u32],
    literals: &[ClauseLit],
) -> Result<Items<ClauseLit>, NoMemory>
    ensures { IfOk result (λ copied. copied ≡ map (literal_renumbered numbers.now) literals.now) }
{
    let mut copied = Vec::with_capacity(alloc, literals.len())?;
    for literal in literals {
        copied.push(renumbered_literal(alloc, numbers, literal)?)?;
    }
    Ok(Items::new(copied))
}

/// Copies of the texts.
pub fn copied_texts(alloc: Global, texts: &[Text]) -> Result<Items<Text>, NoMemory>
    ensures { IfOk result (λ copied. copied ≡ texts.now) }
{
    let mut copied = Vec::with_capacity(alloc, texts.len())?;
    for text in texts {
        copied.push(text.copy()?)?;
    }
    Ok(Items::new(copied))
}

// Copies of the lists of positions.
fn copied_choices(alloc: Global, choices: &[Items<u32>]) -> Result<Items<Items<u32>>, NoMemory>
    ensures { IfOk result (λ copied. copied ≡ choices.now) }
{
    let mut copied = Vec::with_capacity(alloc, choices.len())?;
    for chosen in choices {
        copied.push(Items::new(Vec::from_slice(alloc, chosen.as_slice())?))?;
    }
    Ok(Items::new(copied))
}

fn renumbered_clause(alloc: Global, numbers: &[u32], clause: &Clause) -> Result<Clause, NoMemory>
    ensures { IfOk result (λ copied. copied ≡ clause_renumbered numbers.now clause.now) }
{
    Ok(Clause {
        name: Name {
            kind: clause.name.kind,
            text: clause.name.text.copy()?,
        },
        place: clause.place,
        literals: renumbered_literals(alloc, numbers, clause.literals.as_slice())?,
        variables: copied_texts(alloc, clause.variables.as_slice())?,
        conclude: copied_choices(alloc, clause.conclude.as_slice())?,
    })
}

/// Copies of the clauses over the new numbers.
pub fn renumbered_clauses(
    alloc: Global,
    numbers: &[u32],
    clauses: &[Clause],
) -> Result<Items<Clause>, NoMemory>
    ensures { IfOk result (λ copied. copied ≡ renumbered numbers.now clauses.now) }
{
    let mut copied = Vec::with_capacity(alloc, clauses.len())?;
    for clause in clauses {
        copied.push(renumbered_clause(alloc, numbers, clause)?)?;
    }
    Ok(Items::new(copied))
}

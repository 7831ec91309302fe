//! The problem of an input: the one that its clauses make over the sorted symbols.

ghost use Rattle.std.specs.Prelude.{◌≡◌, ◌≢◌, MatchResult, IfOk, IfErr};
ghost use Rattle.mg_word.specs.Facts.{ProblemData};
ghost use Rattle.clause_form.specs.Faults.{Stands};
ghost use Rattle.clause_form.specs.Forming.{IsFormed};

use crate::FormFault;
use crate::forming::all_forms;
use crate::renumbering::{copied_texts, renumbered_clauses};
use mg_word::{Input, Items, Problem};
use std::alloc::Global;

/// The problem of an input: its symbols in order, its clauses over their new numbers, and the forms of these.
///
/// # Errors
///
/// The first fault of the clauses in order: in each, first a literal that is too heavy, then its forms in order, and at
/// a form first that it is one too many. `NoMemory`: memory ran out.
pub fn forms_of(alloc: Global, input: &Input) -> Result<Problem, FormFault>
    ensures answer { MatchResult result (IsFormed input.now) (Stands input.now.clauses) }
    ensures only { IfOk result (λ problem. (other : ProblemData) → IsFormed input.now other → other ≡ problem) }
    ensures exact { IfErr result (λ fault. fault ≢ FormFault.NoMemory → (problem : ProblemData) → IsFormed input.now problem → ⊥) }
{
    let (symbols, numbers) = input.symbols.sorted()?;
    // Each symbol has its new number.
    prove_eq!(numbers.len(), input.symbols.len() as usize);
    let clauses = renumbered_clauses(alloc, numbers.as_slice(), input.clauses.as_slice())?;
    let forms = match all_forms(alloc, clauses.as_slice()) {
        Ok(forms) => forms,
        Err(fault) => return Err(fault),
    };
    let files = copied_texts(alloc, input.files.as_slice())?;
    Ok(Problem {
        symbols,
        files,
        clauses,
        forms: Items::new(forms),
    })
}

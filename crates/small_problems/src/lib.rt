//! Problems from short texts, for trials of the crates that take a problem.
#![tactic(auto)]

ghost use Rattle.std.specs.Prelude.{◌≡◌, ◌∷◌, [], IfOk};
ghost use Rattle.small_problems.specs.OfTexts.{file_name, IsProblemOfText};

use clause_form::{FormFault, forms_of};
use cnf_reader::{ReadFault, read_problem};
use mg_outside::MemoryFiles;
use mg_word::{NoMemory, Problem, Text};
use std::alloc::Global;
use thiserror::Error;

/// Why a text has no problem.
#[derive(Debug, Drop, Error)]
pub enum NoProblem {
    /// It does not read as clauses.
    #[error("the text does not read as clauses")]
    Unread(ReadFault),
    /// Its clauses have no forms.
    #[error("the clauses have no forms")]
    Unformed(FormFault),
    /// Memory ran out.
    #[error("out of memory")]
    NoMemory,
}

impl From<NoMemory> for NoProblem {
    ghost use Rattle.std.specs.Prelude.{◌≡◌};
    ghost use Rattle.small_problems.specs.declared.NoProblem.TheVariants.{NoMemory as OutOfMemory};

    ghost from_gives = { λ _ fault. fault ≡ OutOfMemory };

    fn from(_: NoMemory) -> Self {
        NoProblem::NoMemory
    }
}

// The one file that has the text.
fn file_of(alloc: Global, text: &str) -> Result<MemoryFiles, NoMemory>
    ensures { IfOk result (λ made. made.files ≡ record { name = file_name; bytes = text.now } ∷ []) }
{
    let name = Text::new(Vec::from_slice(alloc, b"text")?);
    let bytes = Vec::from_slice(alloc, text.as_bytes())?;
    let mut listed = Vec::new(alloc);
    listed.push((name, bytes))?;
    MemoryFiles::new(listed, Vec::new(alloc))
}

/// The problem of the text, whose clauses are those of TPTP CNF.
///
/// # Errors
///
/// `Unread` and `Unformed` have the first fault of the text and of its clauses. `NoMemory`: memory ran out.
pub fn problem_of(alloc: Global, text: &str) -> Result<Problem, NoProblem>
    ensures { IfOk result (λ problem. IsProblemOfText text.now problem) }
{
    let mut files = file_of(alloc, text)?;
    let input = match read_problem(alloc, &mut files, "text", None) {
        Ok(input) => input,
        Err(fault) => return Err(NoProblem::Unread(fault)),
    };
    match forms_of(alloc, &input) {
        Ok(problem) => Ok(problem),
        Err(fault) => Err(NoProblem::Unformed(fault)),
    }
}

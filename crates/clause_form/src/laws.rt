//! Laws on problems and faults, each the contract of a function that does nothing.

ghost use Rattle.std.specs.Prelude.{◌≡◌, ◌≢◌, AllPairs, List};
ghost use Rattle.mg_word.specs.Facts.{InputData, ProblemData};
ghost use Rattle.mg_word.specs.declared.clause.Clause.{Clause};
ghost use Rattle.clause_form.specs.Faults.{Stands};
ghost use Rattle.clause_form.specs.Forming.{IsFormed};
ghost use Rattle.clause_form.specs.declared.fault.FormFault.{FormFault};
ghost use Rattle.clause_form.specs.declared.fault.FormFault.TheVariants.{NoMemory};

/// Clauses have at most one first fault.
pub fn one_fault()
    ensures { (clauses : List Clause) (a b : FormFault) → a ≢ NoMemory → b ≢ NoMemory → Stands clauses a → Stands clauses b → a ≡ b }
{}

/// An input whose symbols are all different has at most one problem.
pub fn one_problem()
    ensures { (input : InputData) → AllPairs (λ a b. a ≢ b) input.symbols → (a b : ProblemData) → IsFormed input a → IsFormed input b → a ≡ b }
{}

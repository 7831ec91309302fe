//! How the files of a problem read, as a relation with a constructor for each rule. The functions do nothing: their
//! clauses are the laws.
#![tactic(auto)]

ghost use Rattle.std.specs.Prelude.{◌≡◌, ◌↔◌, ℕ, List, Option, Result, Ok, Err};
ghost use Rattle.mg_outside.specs.Reading.{Table};
ghost use Rattle.mg_word.specs.Facts.{InputData};
ghost use Rattle.cnf_reader.specs.declared.fault.ReadFault.{ReadFault};
ghost use Rattle.cnf_reader.specs.declared.kept.Kept.{Kept};
ghost use Rattle.cnf_reader.specs.Names.{tries};
ghost use Rattle.cnf_reader.specs.Reading.{World, reading_of, Reads, StandsFirst, FailsFirst};
ghost use Rattle.reading_laws.specs.Rules.{AreTries, ReadsAs};
ghost use Rattle.reading_laws.specs.Outcomes.{ReadsByRules, StandsByRules, FailsByRules};

/// The rules determine what the files of a problem read as: something, and one thing only.
pub fn the_rules_leave_one_reading()
    ensures some { (world : World) (root : Option (List ℕ)) (name : List ℕ) → (result : Result Kept ReadFault) × ReadsAs world root name result }
    ensures one { (world : World) (root : Option (List ℕ)) (name : List ℕ) (result other : Result Kept ReadFault) → ReadsAs world root name result → ReadsAs world root name other → result ≡ other }
{}

/// What is read by the rules is what the definition by recursion gives; so the same inputs are read, and the same
/// faults stand first.
pub fn reading_goes_by_the_rules()
    ensures joined { (world : World) (root : Option (List ℕ)) (name : List ℕ) (result : Result Kept ReadFault) → ReadsAs world root name result ↔ (reading_of world root name ≡ result) }
    ensures inputs { (told : Option Table) (name : List ℕ) (root : Option (List ℕ)) (input : InputData) → Reads told name root input ↔ ReadsByRules told name root input }
    ensures faults { (told : Option Table) (name : List ℕ) (root : Option (List ℕ)) (fault : ReadFault) → StandsFirst told name root fault ↔ StandsByRules told name root fault }
    ensures failures { (told : Option Table) (name : List ℕ) (root : Option (List ℕ)) (fault : ReadFault) → FailsFirst told name root fault ↔ FailsByRules told name root fault }
{}

/// The names that are tried for an included file are those of their rules.
pub fn tries_go_by_their_rules()
    ensures { (root : Option (List ℕ)) (including file : List ℕ) (names : List (List ℕ)) → AreTries root including file names ↔ (names ≡ tries root including file) }
{}

//! That reading is a function of the files, that a statement, and so a file, is read as what it means, and that the numbers
//! of symbols stand for those that were read. The functions do nothing: each is called for what it ensures.

ghost use Rattle.std.specs.Prelude.{◌≡◌, ◌≢◌, ◌⊎◌, ◌↔◌, ℕ, ◌<◌, ◌≤◌, Bool, List, [], ◌∷◌, ◌++◌, AllPairs, Option, Some, Result, Ok, Err, nat_le};
ghost use Rattle.mg_word.specs.declared.clause.Name.{Name};
ghost use Rattle.cnf_grammar.specs.declared.state.State.{State};
ghost use Rattle.cnf_grammar.specs.Table.{start};
ghost use Rattle.cnf_grammar.specs.Meaning.{Item, ClauseLiteral, signed};
ghost use Rattle.mg_word.specs.Facts.{InputData};
ghost use Rattle.mg_word.specs.Table.{Symbol};
ghost use Rattle.mg_outside.specs.Reading.{Table};
ghost use Rattle.cnf_reader.specs.declared.fault.ReadFault.{ReadFault};
ghost use Rattle.cnf_reader.specs.declared.fault.ReadKind.{ReadKind};
ghost use Rattle.cnf_reader.specs.declared.kept.Kept.{Kept};
ghost use Rattle.cnf_reader.specs.declared.pending.Asked.{Asked};
ghost use Rattle.cnf_reader.specs.declared.pending.Pending.{Pending};
ghost use Rattle.cnf_reader.specs.declared.fault.ReadKind.TheVariants.{IncludeDepth, TooManyIncludes};
ghost use Rattle.cnf_reader.specs.Folders.{IsFolder};
ghost use Rattle.cnf_reader.specs.Names.{folder_of};
ghost use Rattle.cnf_reader.specs.Reading.{World, Source, Reads, StandsFirst, IsReadSome, most_bytes, most_levels, fault_at, include_in, read_source};
ghost use Rattle.cnf_reader.specs.Statements.{fresh, take};
ghost use Rattle.cnf_reader.specs.Meanings.{Written, shapes_of, TakesFront, TakesStatement, HoldsItsMeaning};
ghost use Rattle.cnf_reader.specs.Files.{IsReadAsSaid};
ghost use Rattle.cnf_reader.specs.Rows.{FaultAt};
ghost use Rattle.cnf_reader.specs.Stops.{Stop};
ghost use Rattle.cnf_reader.specs.Keeping.{with_literals, numbered_literals};
ghost use Rattle.cnf_reader.specs.Numbers.{LiteralsStandFor, GoesOnBy};

use cnf_grammar::{each_file_leaves_its_meaning, only_files_are_accepted};

/// Where files are told, a name and a root have exactly one input or exactly one first fault.
pub fn files_read_as_one_thing()
    ensures one { (told : Table) (name : List ℕ) (root : Option (List ℕ)) → IsReadSome told name root }
    ensures inputs { (told : Table) (name : List ℕ) (root : Option (List ℕ)) (input other : InputData) → Reads (Some told) name root input → Reads (Some told) name root other → input ≡ other }
    ensures faults { (told : Table) (name : List ℕ) (root : Option (List ℕ)) (fault other : ReadFault) → StandsFirst (Some told) name root fault → StandsFirst (Some told) name root other → fault ≡ other }
    ensures apart { (told : Table) (name : List ℕ) (root : Option (List ℕ)) (input : InputData) (fault : ReadFault) → Reads (Some told) name root input → StandsFirst (Some told) name root fault → ⊥ }
{}

/// Wherever between statements the tokens of the next one are taken without a fault up to its dot,
/// one statement of the grammar spells them, and what is then held is what it means: the name,
/// literals, variables and conclusions of a clause, the file and the names of an include. Behind the
/// dot it is at the start again.
pub fn each_statement_holds_its_meaning()
    ensures meaning { (is_full : Bool) (selections : List (Option (List Name))) (tokens : List Written) (state : State) (whole : Pending) → TakesStatement is_full selections fresh tokens state whole → HoldsItsMeaning tokens state whole }
    ensures next { (is_full : Bool) (selections : List (Option (List Name))) (tokens : List Written) (state : State) (whole : Pending) → TakesStatement is_full selections fresh tokens state whole → whole.position ≡ start }
{
    only_files_are_accepted();
    each_file_leaves_its_meaning();
}

/// Wherever a file reads without a fault, one tree of the grammar spells its tokens, up to its end,
/// and what is kept is what the statements of the tree say one after another: of a clause itself,
/// numbered, with the place of its first token, where the selections have its name; of an include
/// all that its file reads as, under the names that it selects.
pub fn each_file_is_read_as_its_statements()
    ensures { (lower : Asked → Kept → Result Kept ReadFault) (source : Source) (kept after : Kept) → read_source lower source kept ≡ Ok after → IsReadAsSaid lower source kept after }
{}

/// A fault of a file stands at one of its tokens, at its end, in its text, or in the file of an
/// include, and none stands at a token before it. At a token it stands by a row of the table of
/// faults, which tells its kind. Where it is that the token is not expected, the tokens before it
/// are the front of some file, and with it they are not; where it is that a limit is passed, they
/// still are. What is kept by then is what the statements before it say.
pub fn faults_stand_where_the_grammar_stops()
    ensures { (lower : Asked → Kept → Result Kept ReadFault) (source : Source) (kept : Kept) (fault : ReadFault) → read_source lower source kept ≡ Err fault → Stop lower source kept fault }
{}

/// Where the tokens of a statement up to this one are taken without a fault, a fault of this kind
/// stands at this one exactly where a row of the table of faults says so, by the tokens before it,
/// the token, and how many clauses are kept.
pub fn faults_are_the_rows_of_a_table()
    ensures { (clauses : ℕ) (selections : List (Option (List Name))) (own : List Written) (p : Pending) (token : Written) (kind : ReadKind) → TakesFront (nat_le 20000 clauses) selections fresh own p
        → (take (nat_le 20000 clauses) selections p token.shape token.line token.column ≡ Err kind) ↔ FaultAt clauses selections (shapes_of own) token.shape kind }
{}

/// Each number in the literals of a clause stands for the symbol that was read there, by name, arity
/// and kind, whatever symbols come later; signs, constants and variables are the same. The table goes
/// on as it was, with symbols of the literals alone, and its symbols stay different. New symbols come
/// in the order in which they are read: first those of the first literals, and in a literal those of
/// its first items.
pub fn numbers_stand_for_their_symbols()
    ensures meaning { (table more : List Symbol) (literals : List ClauseLiteral) → LiteralsStandFor (with_literals table literals ++ more) (numbered_literals table literals) literals }
    ensures grown { (table : List Symbol) (literals : List ClauseLiteral) → GoesOnBy literals table (with_literals table literals) }
    ensures different { (table : List Symbol) (literals : List ClauseLiteral) → AllPairs (λ a b. a ≢ b) table → AllPairs (λ a b. a ≢ b) (with_literals table literals) }
    ensures literals_in_order { (table : List Symbol) (literals more : List ClauseLiteral) → (rest : List Symbol) × (with_literals table (literals ++ more) ≡ with_literals table literals ++ rest) }
    ensures items_in_order { (table : List Symbol) (literals : List ClauseLiteral) (negative : Bool) (atom more : List Item) → (rest : List Symbol) × (with_literals table (literals ++ signed negative (atom ++ more) ∷ []) ≡ with_literals table (literals ++ signed negative atom ∷ []) ++ rest) }
{}

/// The folder beside which an included file is tried first is the part of the including file's name
/// before its last part, in which no slash is; a name has one folder.
pub fn folders_end_with_the_last_slash()
    ensures is { (name : List ℕ) → IsFolder name (folder_of name) }
    ensures only { (name folder other : List ℕ) → IsFolder name folder → IsFolder name other → folder ≡ other }
{}

/// The limits on the files of a problem, and what stands at an include that passes one, whatever the
/// files hold: the 257th include, and one in a file that leaves no level.
pub fn includes_go_by_their_limits()
    ensures levels { most_levels ≡ 15 }
    ensures bytes { most_bytes ≡ 16777216 }
    ensures many { (world : World) (root : Option (List ℕ)) (levels : ℕ) (source : Source) (asked : Asked) (kept : Kept) → 256 ≤ kept.includes
        → include_in world root levels source asked kept ≡ fault_at TooManyIncludes source.name asked.line asked.column }
    ensures deep { (world : World) (root : Option (List ℕ)) (source : Source) (asked : Asked) (kept : Kept) → kept.includes < 256
        → include_in world root 0 source asked kept ≡ fault_at IncludeDepth source.name asked.line asked.column }
{}

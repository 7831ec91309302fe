//! The laws of the grammar, and those that join the table to it. The functions do nothing: each is called for what it ensures.

ghost use Rattle.std.specs.Prelude.{◌≡◌, ◌+◌, ◌<◌, ◌^◌, ℕ, Bool, true, false, length, map, List, [], ◌∷◌, ◌++◌, Some, None, IsSome, IsTrue, ◌↔◌};
ghost use Rattle.std.specs.List.{list_all};
ghost use Rattle.mg_word.specs.Facts.{is_name_byte};
ghost use Rattle.tptp_lexer.specs.Forms.{Item, bytes_of, meant_by, AreItems};
ghost use Rattle.cnf_grammar.specs.declared.position.Position.{Position};
ghost use Rattle.cnf_grammar.specs.Shapes.{Shape};
ghost use Rattle.cnf_grammar.specs.Trees.{Name, FileName, Formula, Annotations, Selection, Statement, clause, include};
ghost use Rattle.cnf_grammar.specs.Spelling.{spell_statement, spell, IsFile, IsFront};
ghost use Rattle.cnf_grammar.specs.Table.{step, run, start, is_end};
ghost use Rattle.cnf_grammar.specs.Conclude.{gives_conclusions, IsConcludeItem, BeginsConcludeItem};
ghost use Rattle.cnf_grammar.specs.Items.{item_start, item_closed, item_run};
ghost use Rattle.cnf_grammar.specs.Meaning.{unquoted, clause_of, file_text, meaning};
ghost use Rattle.cnf_grammar.specs.Soundness.{is_clean, literal_suits, IsSound};
ghost use Rattle.cnf_grammar.specs.Gathering.{gathered, gather_from};
ghost use Rattle.cnf_grammar.specs.Counters.{in_formula, open_brackets, opened_by, closed_by, IsTidy};
ghost use Rattle.cnf_grammar.specs.Laws.{LeadsToEnd, StopsAt, IsFirstFault};

/// The tokens that a tree spells lead from the start to a position where a file may end.
pub fn each_file_is_accepted()
    ensures { (file : List Statement) → LeadsToEnd start (spell file) }
{}

/// Tokens that lead from the start to a position where a file may end, some tree spells.
pub fn only_files_are_accepted()
    ensures { (tokens : List Shape) → LeadsToEnd start tokens → IsFile tokens }
{}

/// From each position some tokens lead to one where a file may end.
pub fn each_position_can_be_completed()
    ensures { (p : Position) → (tokens : List Shape) × LeadsToEnd p tokens }
{}

/// Tokens lead from the start to some position exactly where they are the front of some file.
pub fn fronts_lead_on()
    ensures { (tokens : List Shape) → IsSome (run start tokens) ↔ IsFront tokens }
{}

/// The table stops at a token exactly where the tokens before it are the front of some file and
/// those up to it are not.
pub fn stops_at_first_fault()
    ensures { (tokens : List Shape) (s : Shape) → StopsAt tokens s ↔ IsFirstFault tokens s }
{}

/// Where tokens lead to a position, what the table says of that position is what the grammar says of the
/// tokens: where the next token leads, whether it can come, and whether the file may end here.
pub fn position_tells_what_may_come()
    ensures next { (tokens : List Shape) (p : Position) (s : Shape) → run start tokens ≡ Some p → run start (tokens ++ s ∷ []) ≡ step p s }
    ensures stop { (tokens : List Shape) (p : Position) (s : Shape) → run start tokens ≡ Some p → (step p s ≡ None) ↔ (IsFront (tokens ++ s ∷ []) → ⊥) }
    ensures end { (tokens : List Shape) (p : Position) → run start tokens ≡ Some p → (is_end p ≡ true) ↔ IsFile tokens }
{}

/// Where tokens lead to a position, its two counters together are the round brackets that are open in
/// the formula: a bracket of the formula opens or closes one, no other token does, and outside of
/// formulas both are 0, as is `depth` outside of atoms.
pub fn counters_count_open_brackets()
    ensures outside { (tokens : List Shape) (p : Position) → run start tokens ≡ Some p → IsTidy p }
    ensures inside { (tokens : List Shape) (p q : Position) (s : Shape) → run start tokens ≡ Some p → step p s ≡ Some q → in_formula p.state ≡ true → in_formula q.state ≡ true → open_brackets q + closed_by s ≡ open_brackets p + opened_by s }
{}

/// No two trees spell the same tokens, so tokens have at most one meaning.
pub fn each_file_has_one_tree()
    ensures { (file other : List Statement) → spell file ≡ spell other → file ≡ other }
{}

/// The tokens of a file, gathered along the table from its start, leave what each of its statements
/// says, in order, and nothing of a next one.
pub fn each_file_leaves_its_meaning()
    ensures { (file : List Statement) → gather_from (Some start) (gathered []) (spell file) ≡ gathered (map meaning file) }
{}

/// The table of items passes over an item that gives no conclusions. In one that does, it leads on
/// exactly as long as some end of the item is right, and stands at its end exactly where it is right.
pub fn items_are_followed()
    ensures other { (words : List Bool) (tokens : List Shape) → gives_conclusions tokens ≡ false → IsSome (item_run words (Some item_start) tokens) }
    ensures front { (words : List Bool) (tokens : List Shape) → length words < 2 ^ 64 → gives_conclusions tokens ≡ true → IsSome (item_run words (Some item_start) tokens) ↔ BeginsConcludeItem words tokens }
    ensures whole { (words : List Bool) (tokens : List Shape) → gives_conclusions tokens ≡ true → (item_run words (Some item_start) tokens ≡ Some item_closed) ↔ IsConcludeItem words tokens }
{}

/// The text of a quoted form is what stands between its quotes, byte by byte, where an escaped byte stands for itself.
pub fn quoted_forms_mean_their_parts()
    ensures { (quote : ℕ) (items : List Item) → AreItems quote items → unquoted (quote ∷ (bytes_of items ++ quote ∷ [])) ≡ meant_by items }
{}

/// Each clause that a statement says is sound: each of its literals is always true, always false or
/// one whole atom over its variables, and each of its variables is in a literal.
pub fn each_clause_is_sound()
    ensures { (name : Name) (role : List ℕ) (formula : Formula) (notes : Annotations) → IsSound (clause_of name role formula notes) }
{}

/// Where each token of a clause is clean, each of its symbols has a name and a number of arguments
/// that are right for its kind. Where each token of an include is clean, its file's name has name
/// bytes alone.
pub fn clean_tokens_give_right_symbols()
    ensures symbols { (name : Name) (role : List ℕ) (formula : Formula) (notes : Annotations) → IsTrue (list_all is_clean (spell_statement (clause name role formula notes))) → IsTrue (list_all literal_suits (clause_of name role formula notes).literals) }
    ensures file { (file : FileName) (selection : Selection) → IsTrue (list_all is_clean (spell_statement (include file selection))) → IsTrue (list_all is_name_byte (file_text file)) }
{}

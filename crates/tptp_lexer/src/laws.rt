//! What the tokens of a text are, said apart from how they are read. The functions do nothing: their clauses are
//! the laws.

ghost use Rattle.std.specs.Prelude.{◌≡◌, ◌≤◌, ℕ, List, length};
ghost use Rattle.tptp_lexer.specs.Cuts.{IsCut};
ghost use Rattle.tptp_lexer.specs.Faults.{end_of, IsFaultOf};
ghost use Rattle.tptp_lexer.specs.Forms.{HasForm};
ghost use Rattle.tptp_lexer.specs.declared.token.TokenKind.{TokenKind};
ghost use Rattle.tptp_lexer.specs.Lines.{ArePlaced};
ghost use Rattle.tptp_lexer.specs.Tokens.{tokens_of};

/// Each text is, in turn, white space and comments, and the texts of its tokens, up to its end or its fault. Each
/// token's text has the form of its kind, and no longer front of what stands there is a token; no comment opens there.
/// A token is plain exactly where it is a number of digits alone that begins with no zero, or is `0`.
pub fn tokens_cut_the_text()
    ensures cut { (bytes : List ℕ) → IsCut 0 bytes (tokens_of bytes).tokens (tokens_of bytes).fault }
    ensures few { (bytes : List ℕ) → length (tokens_of bytes).tokens ≤ length bytes }
{}

/// A text has the form of one kind of token at the most.
pub fn forms_tell_the_kind()
    ensures { (kind other : TokenKind) (text : List ℕ) → HasForm kind text → HasForm other text → kind ≡ other }
{}

/// Each token stands at its line and column: lines and columns count from 1, a line feed ends a line, and columns
/// count bytes. A fault stands behind the last token and the white space and comments after it, where its kind says,
/// and at its line and column.
pub fn tokens_stand_at_their_places()
    ensures tokens { (bytes : List ℕ) → ArePlaced bytes (tokens_of bytes).tokens }
    ensures fault { (bytes : List ℕ) → IsFaultOf bytes (end_of 0 (tokens_of bytes).tokens) (tokens_of bytes).fault }
{}

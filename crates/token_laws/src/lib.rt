//! The laws of tokens determine them: a text has one list of tokens, and one end or fault behind it. The functions do
//! nothing: their clauses are the laws.
#![tactic(auto)]

ghost use Rattle.std.specs.Prelude.{◌≡◌, ℕ, List};
ghost use Rattle.tptp_lexer.specs.Tokens.{Lexed, tokens_of};
ghost use Rattle.token_laws.specs.Solutions.{AreTokensOf};

/// Tokens and an end or a fault that keep the laws of cuts, places and faults for a text are its only ones.
pub fn one_list_keeps_the_laws()
    ensures { (bytes : List ℕ) (one other : Lexed) → AreTokensOf bytes one → AreTokensOf bytes other → one ≡ other }
{}

/// The tokens that a scan of the text gives keep the laws; so they are the ones that do.
pub fn the_scan_gives_that_list()
    ensures keeps { (bytes : List ℕ) → AreTokensOf bytes (tokens_of bytes) }
    ensures only { (bytes : List ℕ) (lexed : Lexed) → AreTokensOf bytes lexed → lexed ≡ tokens_of bytes }
{}

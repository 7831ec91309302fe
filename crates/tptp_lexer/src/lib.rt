//! The tokens of TPTP clause files, with their places.
#![tactic(auto)]

mod comments;
mod cursor;
mod laws;
mod lexer;
mod numbers;
mod piece;
mod quotes;
mod spot;
mod token;

pub use cursor::{Cursor, next_token};
pub use laws::{forms_tell_the_kind, tokens_cut_the_text, tokens_stand_at_their_places};
pub use lexer::Lexer;
pub use spot::Spot;
pub use token::{LexFault, LexKind, Token, TokenKind};

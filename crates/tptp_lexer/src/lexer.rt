//! The tokens of a text, one after the other.

ghost use Rattle.std.specs.Prelude.{◌≡◌, ◌≤◌, length, IfOk, IfSome};
ghost use Rattle.tptp_lexer.specs.Tokens.{tokens_of, first_of, rest_of, text_of, IsTokenIn};

use crate::cursor::{Cursor, next_token};
use crate::token::{LexFault, Token};
use std::marker::Model;

/// The tokens of a text that are left. Contracts see the whole text, and the list of these tokens with the end or
/// the fault behind them.
#[derive(Debug, Drop)]
pub struct Lexer<'a> {
    bytes: &'a [u8],
    cursor: Cursor,
}

impl<'a> Model for Lexer<'a> {
    ghost use Rattle.std.specs.Prelude.{◌≤◌, length};
    ghost use Rattle.tptp_lexer.specs.Reading.{Reading};
    ghost use Rattle.tptp_lexer.specs.Tokens.{left_of, IsAt};

    ghost Value = { Reading };

    ghost view = { λ l. record { bytes = l.bytes.now; left = left_of l.bytes.now l.cursor } };

    ghost invariant = { λ l. (length l.bytes.now ≤ 16777216) × IsAt l.bytes.now l.cursor };
}

impl<'a> Lexer<'a> {
    /// All tokens of the text, which has at most 16,777,216 bytes.
    pub fn new(bytes: &'a [u8]) -> Lexer<'a>
        requires { length bytes.now ≤ 16777216 }
        ensures bytes { result.bytes ≡ bytes.now }
        ensures left { result.left ≡ tokens_of bytes.now }
    {
        Lexer {
            bytes,
            cursor: Cursor::start(),
        }
    }

    /// The next token; None at the end. Takes no memory. A fault, like the end, is answered again.
    pub fn next(&mut self) -> Result<Option<Token>, LexFault>
        ensures answer { result ≡ first_of self.old.left }
        ensures left { self.new.left ≡ rest_of self.old.left }
        ensures bytes { self.new.bytes ≡ self.old.bytes }
        ensures token { IfOk result (λ found. IfSome found (IsTokenIn self.old.bytes)) }
    {
        next_token(self.bytes, &mut self.cursor)
    }

    /// The bytes of a token of this text.
    pub fn text(&self, token: &Token) -> &'a [u8]
        requires ordered { token.now.start ≤ token.now.end }
        requires within { token.now.end ≤ length self.now.bytes }
        ensures { result.now ≡ text_of self.now.bytes token.now }
    {
        &self.bytes[token.start as usize..token.end as usize]
    }
}

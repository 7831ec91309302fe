//! How far a text was read, and the step to the next token.

ghost use Rattle.std.specs.Prelude.{◌≡◌, ℕ, List, ◌+◌, ◌^◌, [], ◌<◌, ◌≤◌, length, drop, IfOk, IfSome};
ghost use Rattle.tptp_lexer.specs.declared.piece.Piece.TheVariants.{Lexeme, Fault};
ghost use Rattle.tptp_lexer.specs.Pieces.{piece_of as piece_at_front, IsSolid};
ghost use Rattle.tptp_lexer.specs.Spots.{IsPlace};
ghost use Rattle.tptp_lexer.specs.Tokens.{lexed_at, tokens_of, first_of, rest_of, left_of, start_cursor, token_of, preceded_by, IsAt, IsTokenIn};

use crate::piece::{Piece, piece_of};
use crate::spot::{Spot, first_spot, pass};
use crate::token::{LexFault, LexKind, Token, TokenKind};
use ascii_text::{front, is_plain_number, skip};

/// How far a text was read, without the text: for those who keep texts and cursors apart.
#[derive(Clone, Copy, Debug, PartialEq, Eq)]
pub struct Cursor {
    /// Where the next token is looked for.
    pub spot: Spot,
    /// The fault that stands there, once it was found.
    pub fault: Option<LexFault>,
}

impl Cursor {
    /// The cursor at the front of any text.
    pub const fn start() -> Cursor
        ensures value { result ≡ start_cursor }
        ensures at { (bytes : List ℕ) → IsAt bytes result }
        ensures left { (bytes : List ℕ) → left_of bytes result ≡ tokens_of bytes }
    {
        Cursor {
            spot: first_spot(),
            fault: None,
        }
    }
}

// Goes to the first piece that is no white space and no comment, and answers it.
fn solid_piece(bytes: &[u8], spot: &mut Spot) -> Piece
    requires small { length bytes.now ≤ 16777216 }
    requires placed { IsPlace bytes.now spot.old }
    ensures placed { IsPlace bytes.now spot.new }
    ensures left { lexed_at bytes.now spot.new.offset ≡ lexed_at bytes.now spot.old.offset }
    ensures piece { result ≡ piece_at_front (drop spot.new.offset bytes.now) }
    ensures solid { IsSolid result }
{
    loop {
        let rest = skip(bytes, spot.offset as usize);
        let piece = piece_of(rest);
        let Piece::Blank(n) = piece else {
            return piece;
        };
        *spot = pass(*spot, front(rest, n));
    }
}

// Passes the token that stands at the place, and answers it.
fn take_token(bytes: &[u8], spot: &mut Spot, kind: TokenKind, n: usize) -> Token
    requires small { length bytes.now ≤ 16777216 }
    requires placed { IsPlace bytes.now spot.old }
    requires piece { Lexeme kind n ≡ piece_at_front (drop spot.old.offset bytes.now) }
    ensures placed { IsPlace bytes.now spot.new }
    ensures left { lexed_at bytes.now spot.old.offset ≡ preceded_by result (lexed_at bytes.now spot.new.offset) }
    ensures token { IsTokenIn bytes.now result }
{
    let text = front(skip(bytes, spot.offset as usize), n);
    let token = token_at(*spot, kind, text);
    *spot = pass(*spot, text);
    token
}

// The fault that stands behind so many bytes of the place.
fn fault_behind(bytes: &[u8], spot: Spot, kind: LexKind, n: usize) -> LexFault
    requires small { length bytes.now ≤ 16777216 }
    requires placed { IsPlace bytes.now spot }
    requires piece { Fault kind n ≡ piece_at_front (drop spot.offset bytes.now) }
    ensures { lexed_at bytes.now spot.offset ≡ record { tokens = []; fault = Some result } }
{
    let at = pass(spot, front(skip(bytes, spot.offset as usize), n));
    LexFault {
        kind,
        line: at.line,
        column: at.column,
    }
}

/// The next token of a text of at most 16,777,216 bytes, which the cursor is one of; None at the end. Takes no memory.
/// A fault, like the end, is answered again.
pub fn next_token(bytes: &[u8], cursor: &mut Cursor) -> Result<Option<Token>, LexFault>
    requires small { length bytes.now ≤ 16777216 }
    requires at { IsAt bytes.now cursor.old }
    ensures answer { result ≡ first_of (left_of bytes.now cursor.old) }
    ensures at { IsAt bytes.now cursor.new }
    ensures left { left_of bytes.now cursor.new ≡ rest_of (left_of bytes.now cursor.old) }
    ensures token { IfOk result (λ found. IfSome found (IsTokenIn bytes.now)) }
{
    if let Some(fault) = cursor.fault {
        return Err(fault);
    }
    match solid_piece(bytes, &mut cursor.spot) {
        Piece::Lexeme(kind, n) => Ok(Some(take_token(bytes, &mut cursor.spot, kind, n))),
        Piece::Fault(kind, n) => {
            let fault = fault_behind(bytes, cursor.spot, kind, n);
            cursor.fault = Some(fault);
            Err(fault)
        }
        Piece::Blank(_) => unreachable!(),
        Piece::End => Ok(None),
    }
}

// The token of this kind and text at this place.
fn token_at(spot: Spot, kind: TokenKind, text: &[u8]) -> Token
    requires { spot.offset + length text.now < 2 ^ 32 }
    ensures { result ≡ token_of spot kind text.now }
{
    Token {
        kind,
        start: spot.offset,
        end: spot.offset + text.len() as u32,
        line: spot.line,
        column: spot.column,
        plain: kind == TokenKind::Number && is_plain_number(text),
    }
}

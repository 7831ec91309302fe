//! What stands at the front of a text.

ghost use Rattle.std.specs.Prelude.{◌≡◌, ◌≤◌, length};
ghost use Rattle.tptp_lexer.specs.Pieces as pieces;

use crate::comments::before_close;
use crate::numbers::{number_rest_len, starts_number};
use crate::quotes::{before_quote, first_flaw};
use crate::token::{LexKind, TokenKind};
use ascii_text::{begins_with, front, is_white, line_len, skip, word_len};

/// The piece that a text begins with; lengths are in bytes.
#[derive(Clone, Copy, Debug, PartialEq, Eq)]
pub(crate) enum Piece {
    /// White space or a comment of this length.
    Blank(usize),
    /// A token of this length.
    Lexeme(TokenKind, usize),
    /// A fault behind this many bytes.
    Fault(LexKind, usize),
    /// No byte is left.
    End,
}

/// A fault inside a quoted form, and how many bytes of the inside come before it.
#[derive(Clone, Copy, Debug, PartialEq, Eq)]
pub(crate) struct Flaw {
    pub kind: LexKind,
    pub before: usize,
}

// `/*` up to the first `*/` behind it, or a `/` alone.
#[tactic(auto, using(crate::proofs::Lengths::lengths), unfolding(crate::specs::Pieces::slash_piece))]
fn slash_piece(after: &[u8]) -> Piece
    requires { length after.now ≤ 16777216 }
    ensures { result ≡ pieces.slash_piece after.now }
{
    if after.is_empty() || after[0] != b'*' {
        return Piece::Lexeme(TokenKind::Punct(b'/'), 1);
    }
    match before_close(skip(after, 1)) {
        Some(before) => Piece::Blank(4 + before),
        None => Piece::Fault(LexKind::OpenComment, 0),
    }
}

// A quoted form behind its opening quote.
#[tactic(auto, using(crate::proofs::Lengths::lengths), unfolding(crate::specs::Pieces::quoted_piece))]
fn quoted_piece(kind: TokenKind, quote: u8, after: &[u8]) -> Piece
    requires { length after.now ≤ 16777216 }
    ensures { result ≡ pieces.quoted_piece kind quote after.now }
{
    let Some(before) = before_quote(quote, after) else {
        return Piece::Fault(LexKind::OpenQuote, 0);
    };
    match first_flaw(quote, front(after, before)) {
        Some(flaw) => Piece::Fault(flaw.kind, 1 + flaw.before),
        None => Piece::Lexeme(kind, 2 + before),
    }
}

// The length of a name, or 0.
#[tactic(auto, using(crate::proofs::Lengths::lengths))]
fn name_len(bytes: &[u8]) -> usize
    ensures { result ≡ pieces.name_len bytes.now }
{
    if bytes.is_empty() || !bytes[0].is_ascii_lowercase() {
        return 0;
    }
    1 + word_len(skip(bytes, 1))
}

// So many `$` before a name of this length, or a `$` alone.
fn named_piece(marks: usize, name: usize) -> Piece
    requires marks { marks ≤ 2 }
    requires name { name ≤ 16777216 }
    ensures { result ≡ pieces.named_piece marks name }
{
    if name == 0 {
        Piece::Lexeme(TokenKind::Punct(b'$'), 1)
    } else {
        Piece::Lexeme(TokenKind::Dollar, marks + name)
    }
}

// `$` or `$$` with a name, or a `$` alone.
#[tactic(auto, using(crate::proofs::Lengths::lengths), unfolding(crate::specs::Pieces::dollar_piece))]
fn dollar_piece(after: &[u8]) -> Piece
    requires { length after.now ≤ 16777216 }
    ensures { result ≡ pieces.dollar_piece after.now }
{
    if begins_with(after, b'$') {
        named_piece(2, name_len(skip(after, 1)))
    } else {
        named_piece(1, name_len(after))
    }
}

// `!=`, or a `!` alone.
#[tactic(auto, unfolding(crate::specs::Pieces::bang_piece))]
fn bang_piece(after: &[u8]) -> Piece
    ensures { result ≡ pieces.bang_piece after.now }
{
    if begins_with(after, b'=') {
        Piece::Lexeme(TokenKind::NotEqual, 2)
    } else {
        Piece::Lexeme(TokenKind::Punct(b'!'), 1)
    }
}

// The piece that begins with this byte, which is no letter and begins no number and no white space.
#[tactic(auto, using(crate::proofs::Lengths::lengths), unfolding(crate::specs::Pieces::mark_piece))]
fn mark_piece(first: u8, after: &[u8]) -> Piece
    requires { length after.now ≤ 16777216 }
    ensures { result ≡ pieces.mark_piece first after.now }
{
    match first {
        b'%' => Piece::Blank(1 + line_len(after)),
        b'/' => slash_piece(after),
        b'\'' => quoted_piece(TokenKind::Quoted, first, after),
        b'"' => quoted_piece(TokenKind::Distinct, first, after),
        b'$' => dollar_piece(after),
        b'!' => bang_piece(after),
        _ => {
            if first.is_ascii_graphic() {
                Piece::Lexeme(TokenKind::Punct(first), 1)
            } else {
                Piece::Fault(LexKind::BadByte, 0)
            }
        }
    }
}

// The piece that begins with this byte, before these.
#[tactic(auto, using(crate::proofs::Lengths::lengths), unfolding(crate::specs::Pieces::piece_from))]
fn piece_from(first: u8, after: &[u8]) -> Piece
    requires { length after.now ≤ 16777216 }
    ensures { result ≡ pieces.piece_from first after.now }
{
    if is_white(first) {
        Piece::Blank(1)
    } else if first.is_ascii_lowercase() {
        Piece::Lexeme(TokenKind::Lower, 1 + word_len(after))
    } else if first.is_ascii_uppercase() {
        Piece::Lexeme(TokenKind::Upper, 1 + word_len(after))
    } else if starts_number(first, after) {
        Piece::Lexeme(TokenKind::Number, 1 + number_rest_len(after))
    } else {
        mark_piece(first, after)
    }
}

/// The piece that the text begins with.
pub(crate) fn piece_of(bytes: &[u8]) -> Piece
    requires { length bytes.now ≤ 16777216 }
    ensures { result ≡ pieces.piece_of bytes.now }
{
    if bytes.is_empty() {
        return Piece::End;
    }
    piece_from(bytes[0], skip(bytes, 1))
}

//! Tokens and the faults that end them.

use thiserror::Error;

/// What a token is.
#[derive(Clone, Copy, Debug, PartialEq, Eq)]
pub enum TokenKind {
    /// A lower-case letter, then letters, digits and `_`.
    Lower,
    /// An upper-case letter, then letters, digits and `_`.
    Upper,
    /// A form between single quotes, with `\'` and `\\`.
    Quoted,
    /// A form between double quotes, with `\"` and `\\`.
    Distinct,
    /// `$` or `$$`, a lower-case letter, then letters, digits and `_`.
    Dollar,
    /// A whole number, a quotient or a decimal number.
    Number,
    /// `!=`
    NotEqual,
    /// Any other single visible byte.
    Punct(u8),
}

/// A token of a text, with its place.
#[derive(Clone, Copy, Debug, PartialEq, Eq)]
pub struct Token {
    pub kind: TokenKind,
    /// The offset of the first byte.
    pub start: u32,
    /// The offset behind the last byte.
    pub end: u32,
    /// From 1.
    pub line: u32,
    /// From 1, in bytes.
    pub column: u32,
    /// Whether this is a number of digits alone, without a leading zero unless it is `0`.
    pub plain: bool,
}

/// What ends the tokens of a text early.
#[derive(Clone, Copy, Debug, PartialEq, Eq, Error)]
pub enum LexKind {
    /// A byte that begins no token, or may not stand in a quoted form.
    #[error("byte not allowed")]
    BadByte,
    /// A quoted form without its closing quote on the line. The place is the opening quote.
    #[error("quote not closed")]
    OpenQuote,
    /// A backslash that neither its quote nor a backslash follows.
    #[error("bad escape")]
    BadEscape,
    /// A `/*` without its `*/`.
    #[error("comment not closed")]
    OpenComment,
}

/// A fault with its place.
#[derive(Clone, Copy, Debug, PartialEq, Eq, Error)]
#[error("{line}:{column}: {kind}")]
pub struct LexFault {
    pub kind: LexKind,
    /// From 1.
    pub line: u32,
    /// From 1, in bytes.
    pub column: u32,
}

//! A token as the grammar sees it, and the tests that the table makes of it.

ghost use Rattle.std.specs.Prelude.{◌≡◌};
ghost use Rattle.cnf_grammar.specs.Shapes.{is_mark, is_bracket, is_keyword, is_defined, is_lower, is_word, is_name, is_simple_term, is_file_name};
ghost use Rattle.cnf_grammar.specs.Seen.{seen};

use tptp_lexer::TokenKind;

/// A token: its kind, its bytes as written, and whether it is a plain number.
#[derive(Clone, Copy)]
pub struct Lexeme<'a> {
    pub kind: TokenKind,
    pub text: &'a [u8],
    pub plain: bool,
}

impl Lexeme<'_> {
    /// Whether it is this mark.
    pub fn is_mark(&self, mark: u8) -> bool
        ensures { result ≡ is_mark mark (seen self.now) }
    {
        match self.kind {
            TokenKind::Punct(byte) => byte == mark,
            _ => false,
        }
    }

    /// Whether it is this lower-case word.
    pub fn is_keyword(&self, word: &[u8]) -> bool
        ensures { result ≡ is_keyword word.now (seen self.now) }
    {
        match self.kind {
            TokenKind::Lower => self.text == word,
            _ => false,
        }
    }

    /// Whether it is this word with a dollar sign.
    pub fn is_defined(&self, word: &[u8]) -> bool
        ensures { result ≡ is_defined word.now (seen self.now) }
    {
        match self.kind {
            TokenKind::Dollar => self.text == word,
            _ => false,
        }
    }

    /// Whether it is a lower-case word.
    pub fn is_lower(&self) -> bool
        ensures { result ≡ is_lower (seen self.now) }
    {
        matches!(self.kind, TokenKind::Lower)
    }

    /// Whether it is a word.
    pub fn is_word(&self) -> bool
        ensures { result ≡ is_word (seen self.now) }
    {
        matches!(self.kind, TokenKind::Lower | TokenKind::Quoted)
    }

    /// Whether it is a name.
    pub fn is_name(&self) -> bool
        ensures { result ≡ is_name (seen self.now) }
    {
        match self.kind {
            TokenKind::Lower | TokenKind::Quoted => true,
            TokenKind::Number => self.plain,
            _ => false,
        }
    }

    /// Whether it is a term of one token that takes no arguments.
    pub fn is_simple_term(&self) -> bool
        ensures { result ≡ is_simple_term (seen self.now) }
    {
        match self.kind {
            TokenKind::Upper | TokenKind::Distinct => true,
            TokenKind::Number => self.plain,
            _ => false,
        }
    }

    /// Whether it is a file name.
    pub fn is_file_name(&self) -> bool
        ensures { result ≡ is_file_name (seen self.now) }
    {
        match self.kind {
            TokenKind::Lower => true,
            TokenKind::Quoted => self.text != b"''".as_slice(),
            _ => false,
        }
    }

    /// Whether it is a round or square bracket.
    pub fn is_bracket(&self) -> bool
        ensures { result ≡ is_bracket (seen self.now) }
    {
        self.is_mark(b'(') || self.is_mark(b')') || self.is_mark(b'[') || self.is_mark(b']')
    }
}

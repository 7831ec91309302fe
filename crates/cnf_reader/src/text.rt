//! The texts of names, without quotes and escapes.

ghost use Rattle.std.specs.Prelude.{◌≡◌, ◌-◌, IfOk, false, length, take, drop};
ghost use Rattle.cnf_grammar.specs.Seen.{seen};
ghost use Rattle.cnf_grammar.specs.Meaning.{unescaped};
ghost use Rattle.cnf_reader.specs.Drafts.{text_seen};
ghost use Rattle.cnf_reader.specs.Faults as faults;
ghost use Rattle.cnf_reader.specs.Statements as statements;

use cnf_grammar::Lexeme;
use mg_word::{Kind, Name, NoMemory, Text};
use std::alloc::Global;
use tptp_lexer::TokenKind;

// What stands between the quotes.
fn inside(text: &[u8]) -> &[u8]
    ensures { result.now ≡ take (length text.now - 2) (drop 1 text.now) }
{
    if text.len() < 2 {
        return &text[..0];
    }
    &text[1..text.len() - 1]
}

// The bytes, with one byte for each pair that a backslash begins.
fn unescape(alloc: Global, bytes: &[u8]) -> Result<Vec<u8>, NoMemory>
    ensures { IfOk result (λ made. made.items ≡ unescaped false bytes.now) }
{
    let mut made = Vec::with_capacity(alloc, bytes.len())?;
    let mut escaped = false;
    for byte in bytes {
        if *byte == b'\\' && !escaped {
            escaped = true;
        } else {
            made.push(*byte)?;
            escaped = false;
        }
    }
    Ok(made)
}

/// The text of a name as written, without the quotes and escapes of a quoted form.
pub fn text_of(alloc: Global, quoted: bool, text: &[u8]) -> Result<Vec<u8>, NoMemory>
    ensures { IfOk result (λ made. made.items ≡ text_seen quoted text.now) }
{
    if quoted {
        return unescape(alloc, inside(text));
    }
    Ok(Vec::from_slice(alloc, text)?)
}

/// The name that a token is, by kind and text.
pub fn name_of(alloc: Global, token: &Lexeme) -> Result<Name, NoMemory>
    ensures { IfOk result (λ name. name ≡ faults.name_of (seen token.now)) }
{
    let (kind, text) = match token.kind {
        TokenKind::Lower => (Kind::Word, text_of(alloc, false, token.text)?),
        TokenKind::Quoted => (Kind::Word, text_of(alloc, true, token.text)?),
        TokenKind::Number => (Kind::Integer, text_of(alloc, false, token.text)?),
        _ => (Kind::Word, Vec::new(alloc)),
    };
    Ok(Name {
        kind,
        text: Text::new(text),
    })
}

/// The name of a file that a token is.
pub fn file_text(alloc: Global, token: &Lexeme) -> Result<Text, NoMemory>
    ensures { IfOk result (λ text. text ≡ statements.file_text (seen token.now)) }
{
    match token.kind {
        TokenKind::Lower => Ok(Text::new(text_of(alloc, false, token.text)?)),
        TokenKind::Quoted => Ok(Text::new(text_of(alloc, true, token.text)?)),
        _ => Ok(Text::new(Vec::new(alloc))),
    }
}

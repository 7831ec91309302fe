//! Where a quoted form is closed, and the first fault inside.

ghost use Rattle.std.specs.Prelude.{◌≡◌, ◌==◌, ◌||◌, false};
ghost use Rattle.ascii_text.specs.Bytes.{begins};
ghost use Rattle.tptp_lexer.specs.Quotes as quotes;

use crate::piece::Flaw;
use crate::token::LexKind;
use ascii_text::{is_line_end, is_printable, skip};

/// How many bytes come before the closing quote, which stands on the same line.
pub(crate) fn before_quote(quote: u8, bytes: &[u8]) -> Option<usize>
    ensures { result ≡ quotes.before_quote quote false bytes.now }
{
    let mut paired = false;
    for (i, b) in bytes.iter().enumerate() {
        if is_line_end(*b) {
            return None;
        }
        if *b == quote && !paired {
            return Some(i);
        }
        paired = *b == b'\\' && !paired;
    }
    None
}

// Whether a byte stands there that makes a pair with a backslash before it.
fn begins_escaped(quote: u8, bytes: &[u8]) -> bool
    ensures { result ≡ begins (λ b. b == quote || b == 92) bytes.now }
{
    match bytes {
        [first, ..] => *first == quote || *first == b'\\',
        [] => false,
    }
}

/// The first fault between the quotes.
pub(crate) fn first_flaw(quote: u8, bytes: &[u8]) -> Option<Flaw>
    ensures { result ≡ quotes.first_flaw quote false bytes.now }
{
    let mut paired = false;
    for (i, b) in bytes.iter().enumerate() {
        if !is_printable(*b) {
            return Some(Flaw {
                kind: LexKind::BadByte,
                before: i,
            });
        }
        let begins_pair = *b == b'\\' && !paired;
        if begins_pair && !begins_escaped(quote, skip(bytes, i + 1)) {
            return Some(Flaw {
                kind: LexKind::BadEscape,
                before: i,
            });
        }
        paired = begins_pair;
    }
    None
}

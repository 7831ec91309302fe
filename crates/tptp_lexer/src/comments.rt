//! How far a block comment goes.

ghost use Rattle.std.specs.Prelude.{◌≡◌};
ghost use Rattle.tptp_lexer.specs.Comments as comment;

use ascii_text::{begins_with, skip};

/// How many bytes come before the first `*/`.
pub(crate) fn before_close(bytes: &[u8]) -> Option<usize>
    ensures { result ≡ comment.before_close bytes.now }
{
    for (i, b) in bytes.iter().enumerate() {
        if *b == b'*' && begins_with(skip(bytes, i + 1), b'/') {
            return Some(i);
        }
    }
    None
}

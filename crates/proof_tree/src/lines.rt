//! The lines of a text, without those that begin with `%`.

ghost use Rattle.std.specs.Prelude.{◌≡◌, ◌<◌, MatchResult, IfOk, length, true};
ghost use Rattle.proof_tree.specs.Bare.{bare};
ghost use Rattle.proof_tree.specs.FirstFaults.{BeginsWithLine, has_no_feed};
ghost use Rattle.proof_tree.specs.Reading.{EndsSo};

use ascii_text::{front, line_len, skip};
use term_text::starts;

/// How a text without a further line ends.
#[derive(Clone, Copy, Debug, PartialEq, Eq)]
pub enum TextEnd {
    /// Nothing is left.
    Whole,
    /// A last line is left that no line feed ends.
    Unended,
}

/// The first line that does not begin with `%`, without its line feed, and what is behind it.
pub fn next_line(bytes: &[u8]) -> Result<(&[u8], &[u8]), TextEnd>
    ensures line { MatchResult result (λ found. BeginsWithLine (bare bytes.now) found.0.now (bare found.1.now)) (EndsSo (bare bytes.now)) }
    ensures shorter { IfOk result (λ found. length found.1.now < length bytes.now) }
{
    let mut rest = bytes;
    loop {
        let count = line_len(rest);
        if count == rest.len() {
            return Err(text_end(rest));
        }
        let after = skip(skip(rest, count), 1);
        if !starts(rest, b"%") {
            return Ok((front(rest, count), after));
        }
        rest = after;
    }
}

// How a text without a line feed ends.
fn text_end(bytes: &[u8]) -> TextEnd
    requires { has_no_feed bytes.now ≡ true }
    ensures { EndsSo (bare bytes.now) result }
{
    if bytes.is_empty() {
        return TextEnd::Whole;
    }
    if starts(bytes, b"%") {
        return TextEnd::Whole;
    }
    TextEnd::Unended
}

//! Numbers of forms and of lemmas: one at the front of a text.

ghost use Rattle.std.specs.Prelude.{◌≡◌, ℕ, List, MatchOption};
ghost use Rattle.term_text.specs.Numbers.{IsNumberAt, IsOnlyNumber};

use ascii_text::{digits_len, front, plain_value, skip};

/// The number at the front of the text, and what is behind it.
pub fn take_number(bytes: &[u8]) -> Option<(u32, &[u8])>
    ensures { MatchOption result
        ((number : ℕ) (rest : List ℕ) → IsNumberAt bytes.now number rest → ⊥)
        (λ found. IsOnlyNumber bytes.now found.0 found.1.now) }
{
    let count = digits_len(bytes);
    let number = plain_value(front(bytes, count))?;
    Some((number, skip(bytes, count)))
}

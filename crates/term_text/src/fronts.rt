//! How texts begin.

ghost use Rattle.std.specs.Prelude.{◌≡◌, ℕ, List, MatchOption, ◌++◌};
ghost use Rattle.term_text.specs.Fronts.{begins_with};

/// Whether the text begins with that word.
pub fn starts(bytes: &[u8], word: &[u8]) -> bool
    ensures { result ≡ begins_with word.now bytes.now }
{
    bytes.starts_with(word)
}

/// What is behind that word, if the text begins with it.
pub fn strip<'a>(bytes: &'a [u8], word: &[u8]) -> Option<&'a [u8]>
    ensures { MatchOption result ((rest : List ℕ) → bytes.now ≡ word.now ++ rest → ⊥) (λ rest. bytes.now ≡ word.now ++ rest.now) }
{
    bytes.strip_prefix(word)
}

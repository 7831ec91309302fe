//! Whether a word is one term or atom.

ghost use Rattle.std.specs.Prelude.{◌≡◌};
ghost use Rattle.mg_word.specs.Words.{fits};

use mg_word::Symbols;

/// Whether the word is one ground term or atom over the symbols.
pub fn fits(symbols: &Symbols, word: &[u32]) -> bool
    ensures { result ≡ fits symbols.now word.now }
{
    let mut wanted = 1;
    for (at, symbol) in word.iter().enumerate() {
        if wanted == 0 || wanted > word.len() - at || *symbol >= symbols.len() {
            return false;
        }
        wanted = wanted - 1 + symbols.arity(*symbol) as usize;
    }
    wanted == 0
}

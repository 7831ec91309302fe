//! Whether a word fits a table, by one pass over its symbols.

ghost use Rattle.std.specs.Prelude.{IsTrue};
ghost use Rattle.mg_word.specs.Words.{fits};

use mg_word::Symbols;

/// Whether the symbols are one ground term or atom over the table. It also answers no where more than `u32::MAX`
/// arguments are open at once.
pub fn is_one_term(symbols: &Symbols, word: &[u32]) -> bool
    ensures { IsTrue result → IsTrue (fits symbols.now word.now) }
{
    let mut wanted: u32 = 1;
    for id in word {
        if wanted == 0 || *id >= symbols.len() {
            return false;
        }
        match symbols.arity(*id).checked_add(wanted - 1) {
            Some(more) => wanted = more,
            None => return false,
        }
    }
    wanted == 0
}

//! Laws of the spelling: it tells what was spelled, whatever text follows.

ghost use Rattle.mg_word.specs.OneSpelling.{SymbolsAreSpelledApart, WordsAreSpelledApart, LitsAreSpelledApart};

/// Terms with one spelling have the same symbols.
pub fn symbols_are_spelled_apart()
    ensures { SymbolsAreSpelledApart }
{}

/// Words over one table with one spelling are the same word.
pub fn words_are_spelled_apart()
    ensures { WordsAreSpelledApart }
{}

/// Literals over one table with one spelling are the same literal.
pub fn lits_are_spelled_apart()
    ensures { LitsAreSpelledApart }
{}

//! Laws of words and of sets of literals, apart from how they are computed.

ghost use Rattle.mg_word.specs.WordLaws.{WordsAreApplied, SetsHoldTheirLits};

/// A word fits a table exactly where it is a symbol of the table with as many terms behind it as the symbol has
/// arguments.
pub fn words_are_symbols_with_arguments()
    ensures { WordsAreApplied }
{}

/// The set of a list rises, and has exactly the list's literals.
pub fn sets_hold_their_lits()
    ensures { SetsHoldTheirLits }
{}

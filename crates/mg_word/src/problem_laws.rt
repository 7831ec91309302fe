//! Laws of problems.

ghost use Rattle.mg_word.specs.ProblemLaws.{NumbersAreInSymbolOrder};

/// To compare the numbers of two symbols of a problem is to compare the symbols.
pub fn numbers_are_in_symbol_order()
    ensures { NumbersAreInSymbolOrder }
{}

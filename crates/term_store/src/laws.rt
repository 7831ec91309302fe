//! What the definitions of terms by numbers say, apart from the store.

ghost use Rattle.term_store.specs.Laws.{WordsTellTermsApart};

/// Two terms over one table with the same word are the same term, and their word fits the table.
pub fn words_tell_terms_apart()
    ensures { WordsTellTermsApart }
{}

//! What a search ends with.

use mg_word::LitSet;
use tree_board::Limit;
use tree_checker::Doc;

/// What a search ends with.
#[derive(Drop)]
pub enum Finding {
    /// The document is a proof that the problem is unsatisfiable.
    Unsatisfiable(Doc),
    /// The set satisfies the problem.
    Satisfiable(LitSet),
    /// The limit stopped the search.
    GaveUp(Limit),
}

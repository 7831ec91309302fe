//! The laws of branches and steps: each function states one as its contract and does nothing.

ghost use Rattle.model_extend.specs.Laws.{BranchesGrow, FoundIsUnique};

/// The literals of a branch are exactly those that can be pushed one after another.
pub fn branches_grow_by_pushes()
    ensures { BranchesGrow }
{}

/// One finding alone is right for a problem, literals and a weight limit.
pub fn found_is_unique()
    ensures { FoundIsUnique }
{}

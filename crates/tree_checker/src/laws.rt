//! The laws of closing: each function states one as its contract and does nothing.

ghost use Rattle.tree_checker.specs.Laws.{LargerCloses, PairsClose};

/// What closes a branch closes each that holds and bars as much, also with more lemmas.
pub fn larger_branch_closes()
    ensures { LargerCloses }
{}

/// The branch of a folded pair closes where those of the children's pairs do; that of a leaf's pair closes by its line.
pub fn own_branches_close()
    ensures { PairsClose }
{}

//! The laws of the document: each function states one as its contract and does nothing.

ghost use Rattle.board_tree.specs.Laws.{ClosedIsAccepted, ClosedIsWellFormed};

/// The document of a closed board is accepted.
pub fn closed_board_is_accepted()
    ensures { ClosedIsAccepted }
{}

/// The document of a closed board is one of its problem.
pub fn closed_board_is_well_formed()
    ensures { ClosedIsWellFormed }
{}

//! Laws of the children of a split: each function states one as its contract and does nothing.

ghost use Rattle.case_split.specs.Laws.{ChildrenGoByIndex, ClosedAsInPlainTree};

/// There is a child for each conclusion; child i takes conclusion i and bars those before it.
pub fn children_go_by_index()
    ensures { ChildrenGoByIndex }
{}

/// The children that are closed at once are those that the plain tree closes.
pub fn closed_as_in_plain_tree()
    ensures { ClosedAsInPlainTree }
{}

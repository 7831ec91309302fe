//! What holds of all heaps: each function states a law as its contract and does nothing.

ghost use Rattle.level_heap.specs.Laws.{HeapsStay};

/// A heap by one order is a heap by each other that says the same of its items, as where the table of items grows.
pub fn heaps_stay()
    ensures { HeapsStay }
{}

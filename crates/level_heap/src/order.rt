//! What a heap asks of its items.

ghost use Rattle.std.specs.Prelude.{◌≡◌, ℕ, Bool};
ghost use Rattle.std.specs.declared.cmp.Ordering.{Ordering};
ghost use Rattle.std.specs.Cmp.{IsTotalOrder};

use std::cmp::Ordering;

/// A table of items, which are named by their numbers: how two of them stand, and which are dead.
pub trait Order {
    ghost order: { Self → ℕ → ℕ → Ordering };

    ghost is_dead: { Self → ℕ → Bool };

    /// How two items stand.
    fn compare(&self, a: u32, b: u32) -> Ordering
        ensures { result ≡ order self.now a b };

    /// Whether the item is dead: it need not be in a heap, and is not to be the top of one.
    fn is_dead(&self, item: u32) -> bool
        ensures { result ≡ is_dead self.now item };

    ghost total: { (table : Self) → IsTotalOrder (order table) };
}

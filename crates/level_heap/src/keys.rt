//! Items by keys.

ghost use Rattle.std.specs.Prelude.{false, slice_get, slice_index_or};
ghost use Rattle.std.specs.Option.{option_cmp};
ghost use Rattle.std.specs.Cmp.{on_total};
ghost use Rattle.std.specs.Cmp.Lexicographic.{options_total};

use crate::Order;
use std::cmp::Ordering;

/// A key for each item, the least first, and whether the item is dead. An item without a key stands before all others.
#[derive(Clone, Copy)]
pub struct Keys<'a, K> {
    pub keys: &'a [K],
    pub dead: &'a [bool],
}

impl<'a, K: Ord> Order for Keys<'a, K> {
    ghost order = { λ table a b. option_cmp K.cmp (slice_get table.keys.now a) (slice_get table.keys.now b) };

    ghost is_dead = { λ table item. slice_index_or table.dead.now item false };

    ghost total = { λ table. on_total (slice_get table.keys.now) (options_total K.Ord.total) };

    fn compare(&self, a: u32, b: u32) -> Ordering {
        match (self.keys.get(a as usize), self.keys.get(b as usize)) {
            (None, None) => Ordering::Equal,
            (None, Some(_)) => Ordering::Less,
            (Some(_), None) => Ordering::Greater,
            (Some(key), Some(other)) => key.cmp(other),
        }
    }

    fn is_dead(&self, item: u32) -> bool {
        self.dead.get(item as usize).copied().unwrap_or(false)
    }
}

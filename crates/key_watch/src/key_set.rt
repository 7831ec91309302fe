//! Sets of keys by their numbers.

use crate::Owner;
use std::marker::Model;

/// The numbers of a set's keys, and whose the set is. Contracts see both as an `Owned`.
#[derive(Debug, Drop)]
pub struct KeySet {
    pub keys: Vec<u32>,
    pub owner: Owner,
}

impl Model for KeySet {
    ghost use Rattle.std.specs.Prelude.{ℕ};
    ghost use Rattle.key_watch.specs.Owned.{Owned};

    ghost Value = { Owned ℕ };

    ghost view = { λ set. record { keys = set.keys.items; owner = set.owner } };
}

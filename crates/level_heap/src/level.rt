//! The levels of a heap.

ghost use Rattle.std.specs.Prelude.{◌≡◌, ◌-◌, length, slice_index_or};
ghost use Rattle.level_heap.specs.Levels.{no_level};

/// A level's heap, and where the nodes end on which it and the levels below it stand.
#[derive(Clone, Copy)]
pub struct Level {
    pub root: Option<u32>,
    pub end: usize,
}

/// The last level, or an empty one below all.
pub fn last_level(levels: &[Level]) -> Level
    ensures { result ≡ slice_index_or levels.now (length levels.now - 1) no_level }
{
    levels
        .last()
        .copied()
        .unwrap_or(Level { root: None, end: 0 })
}

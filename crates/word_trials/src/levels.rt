//! Levels by hand.

use level_heap::{Keys, LevelHeap};
use std::test::Fail;

const KEYS: [u64; 5] = [5, 3, 8, 1, 4];

// The least of the items 0 to 2 dies, and item 4 is added; then the level is taken off.
#[test]
fn levels_come_and_go(rt: HostRuntime) -> Result<(), Fail> {
    let alloc = rt.alloc();
    let keys = KEYS;
    let keys = keys.as_slice();
    let alive = [false; 5];
    let below = Keys {
        keys,
        dead: alive.as_slice(),
    };
    let later = [false, true, false, true, false];
    let above = Keys {
        keys,
        dead: later.as_slice(),
    };
    let mut heap = LevelHeap::new(alloc);
    assert_eq!(rt; heap.top(), None);
    heap.push_level(&below, 0..3)?;
    assert_eq!(rt; heap.top(), Some(1));
    heap.push_level(&above, 3..5)?;
    assert_eq!(rt; heap.top(), Some(4));
    heap.pop_to(1);
    assert_eq!(rt; heap.top(), Some(1));
    assert_eq!(rt; heap.depth(), 1);
    Ok(())
}

//! Heaps in levels: each level has the items of the one below it and more, and is taken off in one cut.
#![tactic(auto)]

mod arena;
mod heap;
mod keys;
mod laws;
mod level;
mod node;
mod order;

pub use heap::LevelHeap;
pub use keys::Keys;
pub use laws::heaps_stay;
pub use order::Order;

//! The nodes of a heap.

/// An item above two heaps, each by its first node.
#[derive(Clone, Copy)]
pub struct HeapNode {
    pub item: u32,
    pub left: Option<u32>,
    pub right: Option<u32>,
    /// How many nodes lie on the way down the right side, which is kept short by it. No contract speaks of it.
    pub rank: u32,
}

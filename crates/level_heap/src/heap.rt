//! Heaps in levels.

ghost use Rattle.std.specs.Prelude.{◌≡◌, ℕ, ◌++◌, [], ◌∷◌, OnOk, OnErr, MatchOption, length, take};
ghost use Rattle.std.specs.declared.cmp.Ordering.{Ordering};
ghost use Rattle.std.specs.Cmp.{IsTotalOrder};
ghost use Rattle.level_heap.specs.Trees.{IsHeap, IsLeast, IsNext, IsAlive, last_of, members, numbers_between, top_of};

use crate::Order;
use crate::arena::next_root;
use crate::level::{Level, last_level};
use crate::node::HeapNode;
use mg_word::NoMemory;
use std::alloc::Global;
use std::marker::Model;
use std::ops::Range;

/// Heaps of items, each level on top of the one before. Contracts see the list of their trees, the lowest first.
#[derive(Drop)]
pub struct LevelHeap {
    nodes: Vec<HeapNode>,
    levels: Vec<Level>,
}

impl Model for LevelHeap {
    ghost use Rattle.std.specs.Prelude.{List};
    ghost use Rattle.level_heap.specs.Trees.{Tree};

    ghost Value = { List Tree };

    ghost use Rattle.std.specs.Coded.{coded_list};
    ghost use Rattle.level_heap.specs.Codes.{coded_tree};

    ghost coded = { coded_list coded_tree };

    ghost use Rattle.level_heap.specs.Seen.{levels_seen, IsKept};

    ghost view = { levels_seen };

    ghost invariant = { IsKept };
}

impl LevelHeap {
    /// No level. It takes no memory.
    pub fn new(alloc: Global) -> LevelHeap
        ensures { result ≡ [] }
    {
        LevelHeap {
            nodes: Vec::new(alloc),
            levels: Vec::new(alloc),
        }
    }

    /// How many levels there are.
    pub fn depth(&self) -> usize
        ensures { result ≡ length self.now }
    {
        self.levels.len()
    }

    /// The top of the last level: its least item by each order by which the level is a heap.
    pub fn top(&self) -> Option<u32>
        ensures top { result ≡ top_of (last_of self.now) }
        ensures least { (order : ℕ → ℕ → Ordering) → IsTotalOrder order → IsHeap order (last_of self.now) → MatchOption result (members (last_of self.now) ≡ []) (IsLeast order (members (last_of self.now))) }
    {
        let root = last_level(self.levels.as_slice()).root?;
        Some(self.nodes[root as usize].item)
    }

    /// Adds a level that has the last one's items and these, but for dead ones, and no dead one on top. After an error
    /// the levels are as before.
    pub fn push_level<O: Order>(&mut self, order: &O, items: Range<u32>) -> Result<(), NoMemory>
        requires { IsHeap (O.order order.now) (last_of self.old) }
        ensures ok { OnOk result ((level : _) × (self.new ≡ self.old ++ level ∷ []) × IsNext (O.order order.now) (O.is_dead order.now) (last_of self.old) (numbers_between items.start items.end) level × IsAlive (O.is_dead order.now) level) }
        ensures err { OnErr result (self.new ≡ self.old) }
    {
        let last = last_level(self.levels.as_slice());
        let root = next_root(order, &mut self.nodes, last.root, items)?;
        self.levels.push(Level {
            root,
            end: self.nodes.len(),
        })?;
        Ok(())
    }

    /// Keeps so many levels from the first. It takes no memory.
    pub fn pop_to(&mut self, depth: usize)
        ensures { self.new ≡ take depth self.old }
    {
        self.levels.truncate(depth);
        let end = last_level(self.levels.as_slice()).end;
        self.nodes.truncate(end);
    }
}

//! The found sets of a board.

ghost use Rattle.std.specs.Prelude.{◌≡◌, ◌≢◌, ◌<◌, ◌++◌, AllPairs, IfOk, OnOk, length, slice_get};
ghost use Rattle.std.specs.List.Sorted.{IsPermutation, IsSorted};
ghost use Rattle.mg_word.specs.Orders.{lits_cmp as by_lits};
ghost use Rattle.tree_board.specs.FoundSets.{found_set, found_sets};
ghost use Rattle.tree_board.specs.Leaves.{ListsFound};
ghost use Rattle.tree_board.specs.Searches.{board_of};

use crate::Board;
use crate::quick::is_found_at;
use mg_word::{LitSet, NoMemory, lits_cmp};
use std::alloc::Global;

// Puts the sets in order.
fn sort_sets(sets: &mut Vec<LitSet>)
    ensures permutation { IsPermutation sets.old.items sets.new.items }
    ensures sorted { IsSorted by_lits sets.new.items }
{
    sets.sort_unstable_by(|a, b| lits_cmp(a.as_slice(), b.as_slice()));
}

impl Board {
    // Adds the set of the node with this number, if it is found.
    fn push_found(&self, alloc: Global, node: u32, sets: &mut Vec<LitSet>) -> Result<(), NoMemory>
        requires { node < length (board_of self.now).nodes }
        ensures { OnOk result (sets.new.items ≡ sets.old.items ++ found_set (slice_get (board_of self.now).nodes node)) }
    {
        if !is_found_at(self.cells.as_slice(), node) {
            return Ok(());
        }
        let lits = self.lits_at(alloc, node)?;
        let set = LitSet::from_lits(lits)?;
        sets.push(set)?;
        Ok(())
    }

    // The set of each found node, by the numbers of the nodes.
    fn found_sets(&self, alloc: Global) -> Result<Vec<LitSet>, NoMemory>
        ensures are { IfOk result (λ sets. sets.items ≡ found_sets (board_of self.now).nodes) }
        ensures differ { IfOk result (λ sets. AllPairs (λ a b. a ≢ b) sets.items) }
    {
        let mut sets = Vec::new(alloc);
        for node in 0..self.cells.len() as u32 {
            self.push_found(alloc, node, &mut sets)?;
        }
        Ok(sets)
    }

    /// The found sets, in the order of sets.
    pub fn leaves(&self, alloc: Global) -> Result<Vec<LitSet>, NoMemory>
        ensures { IfOk result (λ sets. ListsFound (board_of self.now) sets.items) }
    {
        let mut sets = self.found_sets(alloc)?;
        sort_sets(&mut sets);
        Ok(sets)
    }
}

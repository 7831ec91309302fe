//! Chains: which sets wait for a key.

ghost use Rattle.std.specs.Prelude.{◌≡◌, ◌≢◌, ◌+◌, ◌<◌, ◌^◌, ◌∷◌, ◌++◌, [], ℕ, OnErr, OnOk, OnSome, Some, length, slice_get};
ghost use Rattle.key_watch.specs.Watching.{Has};

use mg_word::NoMemory;
use std::alloc::Global;
use std::marker::Model;

/// The numbers of the sets that wait for a key. Contracts see the list.
#[derive(Debug, Drop)]
pub struct Chain {
    sets: Vec<u32>,
}

impl Model for Chain {
    ghost use Rattle.std.specs.Prelude.{List, ℕ};

    ghost Value = { List ℕ };

    ghost view = { λ chain. chain.sets.items };
}

impl Chain {
    /// The empty chain. It takes no memory.
    pub fn new(alloc: Global) -> Chain
        ensures { result ≡ [] }
    {
        Chain {
            sets: Vec::new(alloc),
        }
    }

    /// The number at that place, if there is one.
    pub fn get(&self, at: usize) -> Option<u32>
        ensures found { result ≡ slice_get self.now at }
        ensures few { OnSome result (at + 1 < 2 ^ 64) }
    {
        self.sets.get(at).copied()
    }

    /// Adds a set. After want of memory the chain is as before.
    pub fn push(&mut self, set: u32) -> Result<(), NoMemory>
        ensures ok { OnOk result (self.new ≡ self.old ++ set ∷ []) }
        ensures err { OnErr result (self.new ≡ self.old) }
    {
        self.sets.push(set)?;
        Ok(())
    }

    /// Takes the set at that place off; another may take the place.
    pub fn leave(&mut self, at: usize)
        requires { at < length self.old }
        ensures shorter { length self.new + 1 ≡ length self.old }
        ensures before { (k : ℕ) → k < at → slice_get self.new k ≡ slice_get self.old k }
        ensures others { (set : ℕ) → slice_get self.old at ≢ Some set → Has self.old set → Has self.new set }
    {
        let _ = self.sets.swap_remove(at);
    }
}

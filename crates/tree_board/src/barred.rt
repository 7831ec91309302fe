//! Literals that a path bars, in the order in which they come, with an index for membership.

ghost use Rattle.std.specs.Prelude.{◌≡◌, ◌++◌, ◌∷◌, [], OnOk, OnErr, MatchOption, length, take};
ghost use Rattle.mg_word.specs.Sets.{holds};

use mg_word::{Lit, NoMemory};
use std::alloc::Global;
use std::collections::BTreeMap;
use std::marker::Model;

/// A stack of literals. A literal may stand in it several times.
#[derive(Drop)]
pub struct Barred {
    lits: Vec<Lit>,
    /// For each literal the index where it first stands.
    first: BTreeMap<Lit, usize>,
}

impl Model for Barred {
    ghost use Rattle.std.specs.Prelude.{List};
    ghost use Rattle.mg_word.specs.declared.lit.Lit.{Lit};

    ghost Value = { List Lit };

    ghost use Rattle.tree_board.specs.BarredIndices.{IsIndexed};

    ghost view = { λ barred. barred.lits.items };

    ghost invariant = { IsIndexed };
}

impl Barred {
    /// The empty stack. It takes no memory.
    pub fn new(alloc: Global) -> Barred
        ensures { result ≡ [] }
    {
        Barred {
            lits: Vec::new(alloc),
            first: BTreeMap::new(alloc),
        }
    }

    /// How many literals there are.
    pub fn len(&self) -> usize
        ensures { result ≡ length self.now }
    {
        self.lits.len()
    }

    /// Whether the literal is there.
    pub fn holds(&self, lit: &Lit) -> bool
        ensures { result ≡ holds self.now lit.now }
    {
        self.first.contains_key(lit)
    }

    // Adds a literal on top. After want of memory the stack is as before.
    fn push(&mut self, lit: Lit) -> Result<(), NoMemory>
        ensures ok { OnOk result (self.new ≡ self.old ++ lit ∷ []) }
        ensures err { OnErr result (self.new ≡ self.old) }
    {
        if self.first.contains_key(&lit) {
            self.lits.push(lit)?;
            return Ok(());
        }
        let key = lit.copy()?;
        let index = self.lits.len();
        self.lits.push(lit)?;
        match self.first.insert(key, index) {
            Ok(_) => Ok(()),
            Err(_) => {
                let _ = self.lits.pop();
                Err(NoMemory)
            }
        }
    }

    /// Adds copies of the literals on top.
    pub fn push_copies(&mut self, lits: &[Lit]) -> Result<(), NoMemory>
        ensures { OnOk result (self.new ≡ self.old ++ lits.now) }
    {
        for lit in lits {
            self.push(lit.copy()?)?;
        }
        Ok(())
    }

    // Takes the literal on top.
    fn pop(&mut self) -> Option<Lit>
        ensures { MatchOption result ((self.old ≡ []) × (self.new ≡ [])) (λ lit. self.old ≡ self.new ++ lit ∷ []) }
    {
        let Some(lit) = self.lits.pop() else {
            return None;
        };
        if self.first.get(&lit).copied() == Some(self.lits.len()) {
            let _ = self.first.remove(&lit);
        }
        Some(lit)
    }

    /// Takes literals from the top until so many are left.
    pub fn truncate(&mut self, len: usize)
        ensures { self.new ≡ take len self.old }
    {
        while self.lits.len() > len {
            let _ = self.pop();
        }
    }
}

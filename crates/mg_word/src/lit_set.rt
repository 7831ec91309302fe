//! Sets of literals, kept in order.

ghost use Rattle.std.specs.Prelude.{◌≡◌, [], IfOk, IsOkAnd, IsTrue};
ghost use Rattle.mg_word.specs.Sets.{is_rising, holds, is_part, set_of, with_lit};

use crate::{Lit, NoMemory};
use std::alloc::Global;
use std::marker::Model;

/// A set of literals: a strictly rising list.
#[derive(Debug, Drop)]
pub struct LitSet {
    lits: Vec<Lit>,
}

impl Model for LitSet {
    ghost use Rattle.std.specs.Prelude.{List, IsTrue};
    ghost use Rattle.mg_word.specs.declared.lit.Lit.{Lit};
    ghost use Rattle.mg_word.specs.Sets.{is_rising};

    ghost Value = { List Lit };

    ghost view = { λ set. set.lits.items };

    ghost invariant = { λ set. IsTrue (is_rising set.lits.items) };
}

impl LitSet {
    /// The empty set. It takes no memory.
    pub fn empty(alloc: Global) -> LitSet
        ensures { result ≡ [] }
    {
        LitSet {
            lits: Vec::new(alloc),
        }
    }

    /// The literals, rising.
    pub fn as_slice(&self) -> &[Lit]
        ensures same { result.now ≡ self.now }
        ensures rising { IsTrue (is_rising self.now) }
    {
        self.lits.as_slice()
    }

    /// An equal set.
    pub fn copy(&self) -> Result<LitSet, NoMemory>
        ensures { IfOk result (λ set. set ≡ self.now) }
    {
        let mut lits = Vec::with_capacity(*self.lits.allocator(), self.lits.len())?;
        for lit in &self.lits {
            lits.push(lit.copy()?)?;
        }
        Ok(LitSet { lits })
    }

    /// The set of the literals of a list.
    pub fn from_lits(lits: Vec<Lit>) -> Result<LitSet, NoMemory>
        ensures { IsOkAnd result (λ set. set ≡ set_of lits.items) }
    {
        let mut lits = lits;
        lits.sort_unstable();
        lits.dedup();
        Ok(LitSet { lits })
    }

    /// Whether the literal is in the set.
    pub fn contains(&self, lit: &Lit) -> bool
        ensures { result ≡ holds self.now lit.now }
    {
        self.lits.as_slice().binary_search(lit).is_ok()
    }

    /// Whether each literal of this set is in the other.
    pub fn is_subset(&self, other: &LitSet) -> bool
        ensures { result ≡ is_part self.now other.now }
    {
        let part = self.lits.as_slice();
        let mut done: usize = 0;
        for held in &other.lits {
            if done == part.len() {
                return true;
            }
            let order = part[done].cmp(held);
            if order.is_lt() {
                return false;
            }
            if order.is_eq() {
                done += 1;
            }
        }
        done == part.len()
    }

    /// The set with one literal more.
    pub fn with(self, lit: Lit) -> Result<LitSet, NoMemory>
        ensures { IfOk result (λ set. set ≡ with_lit self lit) }
    {
        match self.lits.as_slice().binary_search(&lit) {
            Ok(_) => Ok(self),
            Err(at) => {
                let mut lits = self.lits;
                lits.insert(at, lit)?;
                Ok(LitSet { lits })
            }
        }
    }
}

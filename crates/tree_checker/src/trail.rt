//! Literals in the order of their entry, with an index for membership.

ghost use Rattle.std.specs.Prelude.{◌≡◌, ◌≢◌, ◌-◌, ◌++◌, ◌∷◌, [], OnOk, OnErr, length, take, slice_index_or};
ghost use Rattle.mg_word.specs.Sets.{holds};

use crate::lit_table::LitTable;
use mg_word::{Lit, NoMemory};
use std::alloc::Global;
use std::marker::Model;

/// A stack of literals. A literal may stand in it several times, and is kept once.
#[derive(Drop)]
pub struct Trail<'a> {
    /// The literals that stand in it or did.
    table: LitTable<'a>,
    /// For each literal of the table how many times it stands in the stack. The last ones may be missing.
    counts: Vec<usize>,
    /// The numbers of the stack's literals.
    numbers: Vec<usize>,
}

impl<'a> Model for Trail<'a> {
    ghost use Rattle.std.specs.Prelude.{List};
    ghost use Rattle.mg_word.specs.declared.lit.Lit.{Lit};

    ghost Value = { List Lit };

    ghost use Rattle.tree_checker.specs.LitTables.{trail_seen, IsTrail};

    ghost view = { trail_seen };

    ghost invariant = { IsTrail };
}

// The count at the number, and none where it is missing.
fn count_of(counts: &[usize], number: usize) -> usize
    ensures { result ≡ slice_index_or counts.now number 0 }
{
    match counts.get(number) {
        Some(count) => *count,
        None => 0,
    }
}

impl<'a> Trail<'a> {
    /// The empty stack. It takes no memory.
    pub fn new(alloc: Global) -> Trail<'a>
        ensures { result ≡ [] }
    {
        Trail {
            table: LitTable::new(alloc),
            counts: Vec::new(alloc),
            numbers: Vec::new(alloc),
        }
    }

    /// How many literals there are.
    pub fn len(&self) -> usize
        ensures { result ≡ length self.now }
    {
        self.numbers.len()
    }

    /// Whether the literal is there.
    pub fn holds(&self, lit: &Lit) -> bool
        ensures { result ≡ holds self.now lit.now }
    {
        match self.table.find(lit) {
            Some(number) => count_of(&self.counts, number) > 0,
            None => false,
        }
    }

    /// The literal on top.
    pub fn last(&self) -> &Lit
        requires { self.now ≢ [] }
        ensures { self.now ≡ take (length self.now - 1) self.now ++ result.now ∷ [] }
    {
        self.table.lit(self.numbers[self.numbers.len() - 1])
    }

    /// Adds a literal on top. After an error the stack is as before.
    pub fn push(&mut self, lit: Lit) -> Result<(), NoMemory>
        ensures ok { OnOk result (self.new ≡ self.old ++ lit ∷ []) }
        ensures err { OnErr result (self.new ≡ self.old) }
    {
        let number = self.table.number(lit)?;
        self.counts.resize(self.table.len(), 0)?;
        self.numbers.push(number)?;
        self.counts[number] += 1;
        Ok(())
    }

    // Takes the literal on top, where there is one.
    fn drop_last(&mut self)
        ensures { self.new ≡ take (length self.old - 1) self.old }
    {
        if let Some(number) = self.numbers.pop() {
            self.counts[number] -= 1;
        }
    }

    /// Takes literals from the top until so many are left.
    pub fn truncate(&mut self, len: usize)
        ensures { self.new ≡ take len self.old }
    {
        while self.numbers.len() > len {
            self.drop_last();
        }
    }
}

//! Different literals, numbered by their first entry.

ghost use Rattle.std.specs.Prelude.{◌≡◌, ◌<◌, [], IfOk, OnOk, OnErr, Some, length, slice_get};
ghost use Rattle.tree_checker.specs.Indices.{index_of, with_new, AreDifferent};

use crate::kept_lit::KeptLit;
use indexmap::IndexSet;
use mg_word::{Lit, NoMemory};
use std::alloc::Global;
use std::marker::Model;

/// A table of literals, all different.
#[derive(Drop)]
pub struct LitTable<'a> {
    lits: IndexSet<KeptLit<'a>>,
}

impl<'a> Model for LitTable<'a> {
    ghost use Rattle.std.specs.Prelude.{List};
    ghost use Rattle.mg_word.specs.declared.lit.Lit.{Lit};

    ghost Value = { List Lit };

    ghost use Rattle.tree_checker.specs.LitTables.{table_seen, IsTable};

    ghost view = { table_seen };

    ghost invariant = { IsTable };
}

impl<'a> LitTable<'a> {
    /// The empty table. It takes no memory.
    pub fn new(alloc: Global) -> LitTable<'a>
        ensures { result ≡ [] }
    {
        LitTable {
            lits: IndexSet::new(alloc),
        }
    }

    /// How many literals there are.
    pub fn len(&self) -> usize
        ensures value { result ≡ length self.now }
    {
        self.lits.len()
    }

    /// The literal with the number.
    pub fn lit(&self, number: usize) -> &Lit
        requires { number < length self.now }
        ensures { slice_get self.now number ≡ Some result.now }
    {
        self.lits.as_slice()[number].lit()
    }

    /// The number of the literal, where it is there.
    pub fn find(&self, lit: &Lit) -> Option<usize>
        ensures number { result ≡ index_of self.now lit.now }
        ensures different { AreDifferent self.now }
    {
        self.lits.get_index_of(&KeptLit::Lent(lit))
    }

    /// The number of the literal, which goes last where it is new. After an error the table is as before.
    pub fn number(&mut self, lit: Lit) -> Result<usize, NoMemory>
        ensures number { IfOk result (λ number. index_of self.new lit ≡ Some number) }
        ensures ok { OnOk result (self.new ≡ with_new self.old lit) }
        ensures err { OnErr result (self.new ≡ self.old) }
    {
        let (number, _) = self.lits.insert_full(KeptLit::Own(lit))?;
        Ok(number)
    }
}

//! Sets of literals that are to be held or barred, and the path of a branch: which set stands on the path.

ghost use Rattle.std.specs.Prelude.{◌≡◌, ◌∷◌, ◌++◌, ◌≤◌, [], IfOk, OnErr, OnOk, Some, length, map, slice_get, take};
ghost use Rattle.key_watch.specs.KeyNumbers.{AreDifferent, AreKnown, Grows, keys_named};
ghost use Rattle.key_watch.specs.Keys.{IsLeast, key_on, keys_of};

use crate::key_set::KeySet;
use crate::key_table::KeyTable;
use crate::number_watch::NumberWatch;
use crate::{Owner, Side};
use mg_word::{Lit, NoMemory};
use std::alloc::Global;
use std::marker::Model;

/// Contracts see the sets and the path.
#[derive(Drop)]
pub struct Watch {
    table: KeyTable,
    numbers: NumberWatch,
}

impl Model for Watch {
    ghost use Rattle.key_watch.specs.KeyNumbers.{IsNumbered, watched_by};
    ghost use Rattle.key_watch.specs.Keys.{Watched};

    ghost Value = { Watched };

    ghost view = { λ watch. watched_by watch.table watch.numbers };

    ghost invariant = { λ watch. IsNumbered watch.table watch.numbers };
}

// The number of the key, for which there is room then.
fn number_of(
    alloc: Global,
    table: &mut KeyTable,
    numbers: &mut NumberWatch,
    side: Side,
    lit: &Lit,
) -> Result<u32, NoMemory>
    requires room { length table.old ≤ numbers.old.keys }
    requires different { AreDifferent table.old }
    ensures number { IfOk result (λ number. slice_get table.new number ≡ Some (record { side = side; lit = lit.now })) }
    ensures grows { Grows table.old table.new }
    ensures different { AreDifferent table.new }
    ensures room { length table.new ≤ numbers.new.keys }
    ensures numbers { numbers.new ≡ record numbers.old { keys = numbers.new.keys } }
{
    if numbers.keys() <= table.len() {
        numbers.add_key(alloc)?;
    }
    table.number(side, lit)
}

// Adds the numbers of these literals on one side to a list.
fn number_all(
    alloc: Global,
    table: &mut KeyTable,
    numbers: &mut NumberWatch,
    side: Side,
    lits: &[Lit],
    into: &mut Vec<u32>,
) -> Result<(), NoMemory>
    requires room { length table.old ≤ numbers.old.keys }
    requires different { AreDifferent table.old }
    requires known { AreKnown table.old into.old.items }
    ensures named { OnOk result (keys_named table.new into.new.items ≡ keys_named table.old into.old.items ++ map (key_on side) lits.now) }
    ensures known { OnOk result (AreKnown table.new into.new.items) }
    ensures grows { Grows table.old table.new }
    ensures different { AreDifferent table.new }
    ensures room { length table.new ≤ numbers.new.keys }
    ensures numbers { numbers.new ≡ record numbers.old { keys = numbers.new.keys } }
{
    for lit in lits {
        into.push(number_of(alloc, table, numbers, side, lit)?)?;
    }
    Ok(())
}

impl Watch {
    /// No sets and the empty path.
    pub fn new(alloc: Global) -> Result<Watch, NoMemory>
        ensures { IfOk result (λ watch. watch ≡ record { sets = []; path = [] }) }
    {
        Ok(Watch {
            table: KeyTable::new(alloc),
            numbers: NumberWatch::new(alloc)?,
        })
    }

    /// How long the path is.
    pub fn len(&self) -> usize
        ensures { result ≡ length self.now.path }
    {
        self.numbers.len()
    }

    /// The least owner of the sets that stand on the path; none where no set does.
    pub fn least(&self) -> Option<Owner>
        ensures { IsLeast self.now result }
    {
        self.numbers.least()
    }

    /// Puts a key on the path. After want of memory the sets and the path are as before.
    pub fn push(&mut self, alloc: Global, side: Side, lit: &Lit) -> Result<(), NoMemory>
        ensures ok { OnOk result (self.new ≡ record self.old { path = self.old.path ++ record { side = side; lit = lit.now } ∷ [] }) }
        ensures err { OnErr result (self.new ≡ self.old) }
    {
        let number = number_of(alloc, &mut self.table, &mut self.numbers, side, lit)?;
        self.numbers.push(number)
    }

    /// Takes keys off the path until so many are left.
    pub fn truncate(&mut self, len: usize)
        ensures { self.new ≡ record self.old { path = take len self.old.path } }
    {
        self.numbers.truncate(len);
    }

    /// Adds last a set of literals that are to be held and of others that are to be barred. After want of memory the sets and
    /// the path are as before.
    pub fn add(
        &mut self,
        alloc: Global,
        held: &[Lit],
        barred: &[Lit],
        owner: Owner,
    ) -> Result<(), NoMemory>
        ensures ok { OnOk result (self.new ≡ record self.old { sets = self.old.sets ++ record { keys = keys_of held.now barred.now; owner = owner } ∷ [] }) }
        ensures err { OnErr result (self.new ≡ self.old) }
    {
        let mut keys = Vec::with_capacity(alloc, held.len())?;
        let table = &mut self.table;
        let numbers = &mut self.numbers;
        number_all(alloc, table, numbers, Side::Held, held, &mut keys)?;
        number_all(alloc, table, numbers, Side::Barred, barred, &mut keys)?;
        numbers.add(KeySet { keys, owner })
    }
}

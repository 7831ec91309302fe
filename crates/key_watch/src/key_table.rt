//! Keys by their numbers.

ghost use Rattle.std.specs.Prelude.{◌≡◌, ◌∷◌, ◌++◌, ◌+◌, ◌≤◌, [], ℕ, IfOk, IfSome, IsNone, None, OnErr, OnOk, Some, length, slice_get, if◌then◌else◌};
ghost use Rattle.std.specs.BTreeMap.{get};
ghost use Rattle.mg_word.specs.Orders.{lit_cmp};
ghost use Rattle.mg_word.specs.Sets.{same_lit};
ghost use Rattle.mg_word.specs.declared.lit.Lit.{Lit};
ghost use Rattle.key_watch.specs.KeyNumbers.{AreDifferent, Grows};

use crate::{Key, Side};
use mg_word::{Lit, NoMemory};
use std::alloc::Global;
use std::collections::BTreeMap;
use std::marker::Model;

/// Different keys, numbered from 0. Contracts see their list.
#[derive(Drop)]
pub struct KeyTable {
    keys: Vec<Key>,
    held: BTreeMap<Lit, u32>,
    barred: BTreeMap<Lit, u32>,
}

impl Model for KeyTable {
    ghost use Rattle.std.specs.Prelude.{List};
    ghost use Rattle.key_watch.specs.declared.key.Key.{Key};

    ghost Value = { List Key };

    ghost use Rattle.key_watch.specs.KeyNumbers.{IsTable};

    ghost view = { λ table. table.keys.items };

    ghost invariant = { IsTable };
}

// Adds a key last, with its number in the map. After want of memory both are as before.
fn enter(
    numbers: &mut BTreeMap<Lit, u32>,
    keys: &mut Vec<Key>,
    side: Side,
    lit: &Lit,
    number: u32,
) -> Result<(), NoMemory>
    ensures ok { OnOk result ((one : Lit) → get lit_cmp numbers.new one ≡ (if same_lit lit.now one then Some number else get lit_cmp numbers.old one)) }
    ensures keys { OnOk result (keys.new.items ≡ keys.old.items ++ record { side = side; lit = lit.now } ∷ []) }
    ensures err { OnErr result ((one : Lit) → get lit_cmp numbers.new one ≡ get lit_cmp numbers.old one) }
    ensures keys_err { OnErr result (keys.new.items ≡ keys.old.items) }
{
    let key = lit.copy()?;
    let lit = lit.copy()?;
    keys.push(Key { side, lit })?;
    match numbers.insert(key, number) {
        Ok(_) => Ok(()),
        Err(_) => {
            let _ = keys.pop();
            Err(NoMemory)
        }
    }
}

impl KeyTable {
    /// The empty table. It takes no memory.
    pub fn new(alloc: Global) -> KeyTable
        ensures { result ≡ [] }
    {
        KeyTable {
            keys: Vec::new(alloc),
            held: BTreeMap::new(alloc),
            barred: BTreeMap::new(alloc),
        }
    }

    /// How many keys there are.
    pub fn len(&self) -> usize
        ensures { result ≡ length self.now }
    {
        self.keys.len()
    }

    // The number of the key, if it is there.
    fn find(&self, side: Side, lit: &Lit) -> Option<u32>
        ensures found { IfSome result (λ number. slice_get self.now number ≡ Some (record { side = side; lit = lit.now })) }
        ensures absent { IsNone result → (number : ℕ) → slice_get self.now number ≡ Some (record { side = side; lit = lit.now }) → ⊥ }
        ensures different { AreDifferent self.now }
    {
        match side {
            Side::Held => self.held.get(lit).copied(),
            Side::Barred => self.barred.get(lit).copied(),
        }
    }

    // Adds a key that is not there, and answers its number. After want of memory the table is as before.
    fn add(&mut self, side: Side, lit: &Lit) -> Result<u32, NoMemory>
        requires { (number : ℕ) → slice_get self.old number ≡ Some (record { side = side; lit = lit.now }) → ⊥ }
        ensures number { IfOk result (λ number. number ≡ length self.old) }
        ensures ok { OnOk result (self.new ≡ self.old ++ record { side = side; lit = lit.now } ∷ []) }
        ensures err { OnErr result (self.new ≡ self.old) }
    {
        let Ok(number) = u32::try_from(self.keys.len()) else {
            return Err(NoMemory);
        };
        match side {
            Side::Held => {
                enter(&mut self.held, &mut self.keys, Side::Held, lit, number)?;
                Ok(number)
            }
            Side::Barred => {
                enter(&mut self.barred, &mut self.keys, Side::Barred, lit, number)?;
                Ok(number)
            }
        }
    }

    /// The number of the key, which is added if it is not there. After want of memory the table is as before.
    pub fn number(&mut self, side: Side, lit: &Lit) -> Result<u32, NoMemory>
        ensures number { IfOk result (λ number. slice_get self.new number ≡ Some (record { side = side; lit = lit.now })) }
        ensures grows { Grows self.old self.new }
        ensures few { length self.new ≤ length self.old + 1 }
        ensures different { AreDifferent self.new }
        ensures err { OnErr result (self.new ≡ self.old) }
    {
        match self.find(side, lit) {
            Some(number) => Ok(number),
            None => self.add(side, lit),
        }
    }
}

//! Symbols, numbered by first entry.

ghost use Rattle.std.specs.Prelude.{◌≡◌, ◌≢◌, All, AllPairs, IsPermutation, IsSorted, map, ◌<◌, ◌-◌, ◌^◌, ◌↔◌, ◌++◌, [], ◌∷◌, length, slice_get, Contains, IfOk, IsOkAnd, OnOk, OnErr, IsNone, IsTrue, IfSome, Some};
ghost use Rattle.mg_word.specs.Table.{symbol_of};
ghost use Rattle.mg_word.specs.Seen.{entry_seen};
ghost use Rattle.mg_word.specs.SymbolOrder.{symbol_cmp, IsRenumbering, IsSortedTable};

use crate::NoMemory;
use indexmap::IndexSet;
use std::alloc::Global;
use std::marker::Model;

/// How a symbol was written.
#[derive(Clone, Copy, Debug, PartialEq, Eq, PartialOrd, Ord, Hash)]
pub enum Kind {
    /// A lower-case or quoted word: a predicate, a function or a constant.
    Word,
    /// A plain number, a constant that is known by its text.
    Integer,
    /// A text in double quotes, a constant.
    Distinct,
}

#[derive(Debug, Drop, PartialEq, Eq, PartialOrd, Ord, Hash)]
struct Entry {
    name: String,
    arity: u32,
    kind: Kind,
}

/// The symbols of a problem, all different, numbered from 0 by first entry.
#[derive(Drop)]
pub struct Symbols {
    alloc: Global,
    entries: IndexSet<Entry>,
}

impl Model for Symbols {
    ghost use Rattle.std.specs.Prelude.{List};
    ghost use Rattle.mg_word.specs.Table.{Symbol};

    ghost Value = { List Symbol };

    ghost use Rattle.mg_word.specs.Seen.{symbols_seen, IsTable};

    ghost view = { symbols_seen };

    ghost invariant = { IsTable };
}

impl Symbols {
    /// The empty table. It takes no memory, and always answers the table.
    pub fn new(alloc: Global) -> Result<Symbols, NoMemory>
        ensures { IsOkAnd result (λ table. table ≡ []) }
    {
        Ok(Symbols {
            alloc,
            entries: IndexSet::new(alloc),
        })
    }

    /// How many symbols are held. They are all different.
    pub fn len(&self) -> u32
        ensures value { result ≡ length self.now }
        ensures different { AllPairs (λ a b. a ≢ b) self.now }
    {
        self.entries.as_slice().len() as u32
    }

    /// Whether no symbol is held.
    pub fn is_empty(&self) -> bool
        ensures { IsTrue result ↔ (self.now ≡ []) }
    {
        self.entries.len() == 0
    }

    /// The name of a symbol, without quotes and escapes.
    pub fn name(&self, id: u32) -> &str
        requires { id < length self.now }
        ensures { IfSome (slice_get self.now id) (λ symbol. result.now ≡ symbol.name) }
    {
        self.entries.as_slice()[id as usize].name.as_str()
    }

    /// The number of arguments of a symbol.
    pub fn arity(&self, id: u32) -> u32
        requires { id < length self.now }
        ensures { IfSome (slice_get self.now id) (λ symbol. result ≡ symbol.arity) }
    {
        self.entries.as_slice()[id as usize].arity
    }

    /// The kind of a symbol.
    pub fn kind(&self, id: u32) -> Kind
        requires { id < length self.now }
        ensures { IfSome (slice_get self.now id) (λ symbol. result ≡ symbol.kind) }
    {
        self.entries.as_slice()[id as usize].kind
    }

    /// The number of a symbol, which goes last where it is new. After an error the table is as before.
    pub fn intern(&mut self, name: &str, arity: u32, kind: Kind) -> Result<u32, NoMemory>
        requires { length self.old < 2 ^ 32 - 1 }
        ensures number { IfOk result (λ id. slice_get self.new id ≡ Some (symbol_of name.now arity kind)) }
        ensures held { OnOk result (Contains self.old (symbol_of name.now arity kind) → self.new ≡ self.old) }
        ensures added { OnOk result (¬ Contains self.old (symbol_of name.now arity kind) → self.new ≡ self.old ++ symbol_of name.now arity kind ∷ []) }
        ensures err { OnErr result (self.new ≡ self.old) }
    {
        let entry = Entry {
            name: String::from_str(self.alloc, name)?,
            arity,
            kind,
        };
        let (id, _) = self.entries.insert_full(entry)?;
        Ok(id as u32)
    }

    /// The number of a symbol, and `None` exactly where it is not held.
    pub fn find(&self, name: &str, arity: u32, kind: Kind) -> Result<Option<u32>, NoMemory>
        ensures found { IfOk result (λ id. IfSome id (λ id. slice_get self.now id ≡ Some (symbol_of name.now arity kind))) }
        ensures none { IfOk result (λ id. IsNone id ↔ (¬ Contains self.now (symbol_of name.now arity kind))) }
    {
        let entry = Entry {
            name: String::from_str(self.alloc, name)?,
            arity,
            kind,
        };
        match self.entries.get_index_of(&entry) {
            Some(id) => Ok(Some(id as u32)),
            None => Ok(None),
        }
    }

    /// The same symbols in order, and the new number of each old one: by name as bytes, a prefix
    /// first; then by arity; then words before numbers before texts.
    pub fn sorted(&self) -> Result<(Symbols, Vec<u32>), NoMemory>
        ensures { IfOk result (λ made. IsSortedTable self.now made.0 made.1.items) }
    {
        let sorted = Symbols::of_entries(self.alloc, self.sorted_entries()?)?;
        let numbers = self.numbers_in(&sorted)?;
        Ok((sorted, numbers))
    }

    /// Whether the two tables hold the same symbols under the same numbers.
    pub fn same(&self, other: &Symbols) -> bool
        ensures { IsTrue result ↔ (self.now ≡ other.now) }
    {
        let these = self.entries.as_slice();
        let those = other.entries.as_slice();
        if these.len() != those.len() {
            return false;
        }
        for (i, entry) in these.iter().enumerate() {
            if *entry != those[i] {
                return false;
            }
        }
        true
    }

    // Copies of the entries, in order.
    fn sorted_entries(&self) -> Result<Vec<Entry>, NoMemory>
        ensures ordered { IfOk result (λ entries. IsSorted symbol_cmp (map entry_seen entries.items)) }
        ensures permuted { IfOk result (λ entries. IsPermutation self.now (map entry_seen entries.items)) }
        ensures different { IfOk result (λ entries. AllPairs (λ a b. a ≢ b) (map entry_seen entries.items)) }
        ensures small { IfOk result (λ entries. length entries.items < 2 ^ 32) }
    {
        let mut entries = Vec::with_capacity(self.alloc, self.entries.len())?;
        for entry in self.entries.as_slice() {
            entries.push(entry.copy()?)?;
        }
        entries.sort()?;
        Ok(entries)
    }

    // The table of these entries, in this order.
    fn of_entries(alloc: Global, entries: Vec<Entry>) -> Result<Symbols, NoMemory>
        requires small { length entries.items < 2 ^ 32 }
        requires different { AllPairs (λ a b. a ≢ b) (map entry_seen entries.items) }
        ensures { IfOk result (λ table. table ≡ map entry_seen entries.items) }
    {
        let mut set = IndexSet::with_capacity(alloc, entries.len())?;
        for entry in entries {
            set.insert_full(entry)?;
        }
        Ok(Symbols {
            alloc,
            entries: set,
        })
    }

    // The numbers that the symbols have in another table.
    fn numbers_in(&self, other: &Symbols) -> Result<Vec<u32>, NoMemory>
        requires { All (Contains other.now) self.now }
        ensures { IfOk result (λ numbers. IsRenumbering self.now other.now numbers.items) }
    {
        let mut numbers = Vec::with_capacity(self.alloc, self.entries.len())?;
        for entry in self.entries.as_slice() {
            numbers.push(other.number_of(entry))?;
        }
        Ok(numbers)
    }

    // The number of a symbol that the table has.
    fn number_of(&self, entry: &Entry) -> u32
        requires { Contains self.now (entry_seen entry.now) }
        ensures { slice_get self.now result ≡ Some (entry_seen entry.now) }
    {
        match self.entries.get_index_of(entry) {
            Some(id) => id as u32,
            None => unreachable!(),
        }
    }
}

impl Entry {
    // An equal entry.
    fn copy(&self) -> Result<Entry, NoMemory>
        ensures { IfOk result (λ entry. entry_seen entry ≡ entry_seen self.now) }
    {
        Ok(Entry {
            name: self.name.clone()?,
            arity: self.arity,
            kind: self.kind,
        })
    }
}

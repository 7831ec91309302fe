//! The store of terms, numbered by first entry.

ghost use Rattle.std.specs.Prelude.{◌≡◌, ◌<◌, ◌≤◌, ◌-◌, ◌^◌, ◌↔◌, ◌++◌, ◌∷◌, [], All, Contains, IfOk, IfSome, IsNone, IsOkAnd, IsTrue, OnErr, OnOk, Some, length, slice_get};
ghost use Rattle.term_store.specs.Terms.{term_of, word_at, weight_together, IsStore, AddsAtMost};
ghost use Rattle.term_store.specs.Seen.{term_seen};

use crate::arguments::{Arguments, narrow, weight_with};
use indexmap::IndexSet;
use mg_word::NoMemory;
use std::alloc::Global;
use std::marker::Model;

// A symbol with the numbers of its arguments.
#[derive(Debug, Drop, PartialEq, Eq, Hash)]
pub(crate) struct Key {
    pub symbol: u32,
    pub arguments: Arguments,
}

/// Terms, all different, numbered from 0 by first entry, each after its arguments.
#[derive(Drop)]
pub struct TermStore {
    alloc: Global,
    keys: IndexSet<Key>,
    /// For each term how many symbols it has.
    weights: Vec<u32>,
}

impl Model for TermStore {
    ghost use Rattle.std.specs.Prelude.{List};
    ghost use Rattle.term_store.specs.Terms.{Term};

    ghost Value = { List Term };

    ghost use Rattle.term_store.specs.Seen.{terms_seen, IsKept};

    ghost view = { terms_seen };

    ghost invariant = { IsKept };
}

impl TermStore {
    /// The empty store. It takes no memory, and always answers the store.
    pub fn new(alloc: Global) -> Result<TermStore, NoMemory>
        ensures { IsOkAnd result (λ store. store ≡ []) }
    {
        Ok(TermStore {
            alloc,
            keys: IndexSet::new(alloc),
            weights: Vec::new(alloc),
        })
    }

    /// The allocator that the terms lie in.
    pub fn allocator(&self) -> Global {
        self.alloc
    }

    /// How many terms are held. They are all different, and each stands after its arguments.
    pub fn len(&self) -> usize
        ensures value { result ≡ length self.now }
        ensures store { IsStore self.now }
        ensures few { length self.now ≤ 2 ^ 32 }
    {
        self.keys.len()
    }

    /// Whether no term is held.
    pub fn is_empty(&self) -> bool
        ensures { IsTrue result ↔ (self.now ≡ []) }
    {
        self.keys.len() == 0
    }

    // What the type keeps, for functions that see the list of terms alone.
    pub(crate) fn facts(&self)
        ensures store { IsStore self.now }
        ensures few { length self.now ≤ 2 ^ 32 }
    {
        let _ = &self.keys;
    }

    /// The term: its symbol with the numbers of its arguments.
    pub fn parts_of(&self, id: usize) -> (u32, &[u32])
        requires { id < length self.now }
        ensures { slice_get self.now id ≡ Some (term_of result.0 result.1.now) }
    {
        let key = &self.keys.as_slice()[id];
        (key.symbol, key.arguments.as_slice())
    }

    /// How many symbols the term has.
    pub fn weight_of(&self, id: usize) -> u32
        requires { id < length self.now }
        ensures { result ≡ length (word_at self.now id) }
    {
        self.weights[id]
    }

    /// The number of a term, which goes last where it is new. After an error the store is as before.
    pub fn intern_parts(&mut self, symbol: u32, args: &[usize]) -> Result<usize, NoMemory>
        requires held { All (λ argument. argument < length self.old) args.now }
        requires light { weight_together self.old args.now < 2 ^ 32 - 1 }
        ensures number { IfOk result (λ id. slice_get self.new id ≡ Some (term_of symbol args.now)) }
        ensures held { OnOk result (Contains self.old (term_of symbol args.now) → self.new ≡ self.old) }
        ensures added { OnOk result (¬ Contains self.old (term_of symbol args.now) → self.new ≡ self.old ++ term_of symbol args.now ∷ []) }
        ensures err { OnErr result (self.new ≡ self.old) }
    {
        let Some(arguments) = narrow(self.alloc, args)? else {
            return Err(NoMemory);
        };
        let id = self.intern_key(Key { symbol, arguments })?;
        Ok(id as usize)
    }

    /// The number of a term, and `None` exactly where it is not held.
    pub fn find(&self, symbol: u32, args: &[usize]) -> Result<Option<usize>, NoMemory>
        ensures found { IfOk result (λ id. IfSome id (λ id. slice_get self.now id ≡ Some (term_of symbol args.now))) }
        ensures none { IfOk result (λ id. IsNone id ↔ (¬ Contains self.now (term_of symbol args.now))) }
    {
        let Some(arguments) = narrow(self.alloc, args)? else {
            return Ok(None);
        };
        Ok(self.number_of(&Key { symbol, arguments }))
    }

    // The number of a term, and `None` exactly where it is not held.
    fn number_of(&self, key: &Key) -> Option<usize>
        ensures found { IfSome result (λ id. slice_get self.now id ≡ Some (term_seen key.now)) }
        ensures none { IsNone result ↔ (¬ Contains self.now (term_seen key.now)) }
    {
        self.keys.get_index_of(key)
    }

    // The number of a term, which goes last where it is new. After an error the store is as before.
    pub(crate) fn intern_key(&mut self, key: Key) -> Result<u32, NoMemory>
        requires held { All (λ argument. argument < length self.old) key.arguments.items }
        requires light { weight_together self.old key.arguments.items < 2 ^ 32 - 1 }
        ensures number { IfOk result (λ id. slice_get self.new id ≡ Some (term_seen key)) }
        ensures held { OnOk result (Contains self.old (term_seen key) → self.new ≡ self.old) }
        ensures added { OnOk result (¬ Contains self.old (term_seen key) → self.new ≡ self.old ++ term_seen key ∷ []) }
        ensures grown { AddsAtMost self.old self.new (term_seen key) }
        ensures err { OnErr result (self.new ≡ self.old) }
    {
        if self.keys.len() > u32::MAX as usize {
            return Err(NoMemory);
        }
        let weight = weight_with(&self.weights, key.arguments.as_slice());
        self.weights.reserve(1)?;
        let (id, added) = self.keys.insert_full(key)?;
        if added {
            self.weights.push_reserved(weight);
        }
        Ok(id as u32)
    }
}

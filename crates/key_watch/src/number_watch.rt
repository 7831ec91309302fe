//! Sets of keys by their numbers, and a path: which set has all its keys on the path. Each set waits for the last of its keys
//! to come, so that it is looked at where that key comes, and a cut of the path leaves all sets as they are.

ghost use Rattle.std.specs.Prelude.{◌≡◌, ◌+◌, ◌<◌, ◌≤◌, ◌∷◌, ◌++◌, ◌↔◌, [], ℕ, IfOk, IsTrue, None, OnErr, OnOk, Some, length, nat_eq, nat_le, option_map, slice_get, take, if◌then◌else◌, ◌-◌};
ghost use Rattle.key_watch.specs.Owned.{IsLeastOwner, has};
ghost use Rattle.key_watch.specs.Watching.{AreLowered, Has, IsChained, chain_of};

use crate::Owner;
use crate::arrivals::arrivals;
use crate::chain::Chain;
use crate::key_set::KeySet;
use crate::latest::{last_to_come, place_of, stands_since};
use crate::owner::least_with;
use mg_word::NoMemory;
use std::alloc::Global;
use std::marker::Model;

/// Contracts see the sets, the path, and how many keys there are.
#[derive(Drop)]
pub struct NumberWatch {
    sets: Vec<KeySet>,
    /// For each set the key that it waits for. There may be more entries than sets.
    waits: Vec<Option<u32>>,
    /// For each key the sets that wait for it, and maybe others.
    chains: Vec<Chain>,
    /// For each key the index at which it first stands on the path. There may be more entries than keys.
    places: Vec<Option<usize>>,
    path: Vec<u32>,
    /// For each length of the path the least owner of a set that stands on so much of it. There may be further entries.
    leasts: Vec<Option<Owner>>,
}

impl Model for NumberWatch {
    ghost use Rattle.std.specs.Prelude.{length};
    ghost use Rattle.key_watch.specs.Watching.{IsWatching, WatchedNumbers};

    ghost Value = { WatchedNumbers };

    ghost view = { λ watch. record { sets = watch.sets.items; path = watch.path.items; keys = length watch.chains.items } };

    ghost invariant = { λ watch. IsWatching watch.sets.items watch.waits.items watch.chains.items watch.places.items watch.path.items watch.leasts.items };
}

// Lets this owner count from that length of the path on.
fn lower_from(leasts: &mut Vec<Option<Owner>>, since: usize, owner: Owner)
    ensures lowered { AreLowered leasts.old.items (Some since) owner leasts.new.items }
    ensures sized { length leasts.new.items ≡ length leasts.old.items }
{
    for index in since..leasts.len() {
        leasts[index] = Some(least_with(leasts[index], owner));
    }
}

// Lets this owner count from that length of the path on, if there is one.
fn lower(leasts: &mut Vec<Option<Owner>>, since: Option<usize>, owner: Owner)
    ensures lowered { AreLowered leasts.old.items since owner leasts.new.items }
    ensures sized { length leasts.new.items ≡ length leasts.old.items }
{
    if let Some(since) = since {
        lower_from(leasts, since, owner);
    }
}

// Puts a set into the chain of the key that it waits for, if it waits for one.
fn hang(chains: &mut Vec<Chain>, wait: Option<u32>, set: u32) -> Result<(), NoMemory>
    requires { (key : ℕ) → wait ≡ Some key → key < length chains.old.items }
    ensures sized { length chains.new.items ≡ length chains.old.items }
    ensures kept { (key at : ℕ) → Has (chain_of chains.old.items key) at → Has (chain_of chains.new.items key) at }
    ensures ok { OnOk result (IsChained chains.new.items set wait) }
{
    if let Some(key) = wait {
        chains[key as usize].push(set)?;
    }
    Ok(())
}

impl NumberWatch {
    /// No sets, no keys and the empty path.
    pub fn new(alloc: Global) -> Result<NumberWatch, NoMemory>
        ensures { IfOk result (λ watch. watch ≡ record { sets = []; path = []; keys = 0 }) }
    {
        let mut leasts = Vec::new(alloc);
        leasts.push(None)?;
        Ok(NumberWatch {
            sets: Vec::new(alloc),
            waits: Vec::new(alloc),
            chains: Vec::new(alloc),
            places: Vec::new(alloc),
            path: Vec::new(alloc),
            leasts,
        })
    }

    /// How long the path is.
    pub fn len(&self) -> usize
        ensures { result ≡ length self.now.path }
    {
        self.path.len()
    }

    /// How many keys there are.
    pub fn keys(&self) -> usize
        ensures { result ≡ self.now.keys }
    {
        self.chains.len()
    }

    /// A key more, by its number. After want of memory all is as before.
    pub fn add_key(&mut self, alloc: Global) -> Result<u32, NoMemory>
        ensures number { IfOk result (λ number. number ≡ self.old.keys) }
        ensures ok { OnOk result (self.new ≡ record self.old { keys = self.old.keys + 1 }) }
        ensures err { OnErr result (self.new ≡ self.old) }
    {
        let Ok(number) = u32::try_from(self.chains.len()) else {
            return Err(NoMemory);
        };
        self.places.push(None)?;
        self.chains.push(Chain::new(alloc))?;
        Ok(number)
    }

    // Whether the key is on the path.
    fn has(&self, key: u32) -> bool
        ensures { result ≡ has nat_eq self.now.path key }
    {
        place_of(self.places.as_slice(), key).is_some()
    }

    /// The least owner of the sets that stand on the path; none where no set does.
    pub fn least(&self) -> Option<Owner>
        ensures { IsLeastOwner ℕ nat_eq self.now.path self.now.sets result }
    {
        self.leasts[self.path.len()]
    }

    /// Puts a key on the path. After want of memory all is as before.
    pub fn push(&mut self, key: u32) -> Result<(), NoMemory>
        requires { key < self.old.keys }
        ensures ok { OnOk result (self.new ≡ record self.old { path = self.old.path ++ key ∷ [] }) }
        ensures err { OnErr result (self.new ≡ self.old) }
    {
        if self.has(key) {
            return self.push_again(key);
        }
        let least = arrivals(
            self.sets.as_slice(),
            &mut self.waits,
            &mut self.chains,
            self.places.as_slice(),
            key,
            self.leasts[self.path.len()],
        )?;
        let count = self.path.len();
        self.leasts.truncate(count + 1);
        self.leasts.push(least)?;
        self.path.push(key)?;
        self.places[key as usize] = Some(count);
        Ok(())
    }

    // Puts a key on the path that is there already.
    fn push_again(&mut self, key: u32) -> Result<(), NoMemory>
        requires { Has self.old.path key }
        ensures ok { OnOk result (self.new ≡ record self.old { path = self.old.path ++ key ∷ [] }) }
        ensures err { OnErr result (self.new ≡ self.old) }
    {
        let count = self.path.len();
        let least = self.leasts[count];
        self.leasts.truncate(count + 1);
        self.leasts.push(least)?;
        self.path.push(key)?;
        Ok(())
    }

    // Takes the last key off the path.
    fn pop(&mut self)
        requires { 0 < length self.old.path }
        ensures { self.new ≡ record self.old { path = take (length self.old.path - 1) self.old.path } }
    {
        let Some(key) = self.path.pop() else {
            return;
        };
        if place_of(self.places.as_slice(), key) == Some(self.path.len()) {
            self.places[key as usize] = None;
        }
    }

    /// Takes keys off the path until so many are left.
    pub fn truncate(&mut self, len: usize)
        ensures { self.new ≡ record self.old { path = take len self.old.path } }
    {
        while self.path.len() > len {
            self.pop();
        }
    }

    /// Adds a set last. After want of memory all is as before.
    pub fn add(&mut self, set: KeySet) -> Result<(), NoMemory>
        requires { (key : ℕ) → Has set.keys key → key < self.old.keys }
        ensures ok { OnOk result (self.new ≡ record self.old { sets = self.old.sets ++ set ∷ [] }) }
        ensures err { OnErr result (self.new ≡ self.old) }
    {
        let count = self.sets.len();
        let Ok(index) = u32::try_from(count) else {
            return Err(NoMemory);
        };
        let owner = set.owner;
        let wait = last_to_come(self.places.as_slice(), set.keys.as_slice());
        let since = stands_since(self.places.as_slice(), wait);
        self.waits.truncate(count);
        self.waits.push(wait)?;
        hang(&mut self.chains, wait, index)?;
        self.sets.push(set)?;
        lower(&mut self.leasts, since, owner);
        Ok(())
    }
}

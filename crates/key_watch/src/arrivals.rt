//! What happens where a key comes to the path: the sets that wait for it wait for others of their keys, or stand.

ghost use Rattle.std.specs.Prelude.{◌≡◌, ◌≢◌, ◌∷◌, ◌++◌, ◌+◌, ◌<◌, ◌^◌, [], IfOk, IfSome, None, OnErr, OnOk, OnSome, Option, Some, length, option_and_then, slice_get};
ghost use Rattle.key_watch.specs.Arriving.{Arrives, IsSent, owner_joined};
ghost use Rattle.key_watch.specs.Watching.{AreWaiting, chain_of, missing_in};

use crate::Owner;
use crate::chain::Chain;
use crate::key_set::KeySet;
use crate::latest::missing;
use crate::owner::least_with;
use mg_word::NoMemory;

// The set at that place of the key's chain, if there is one.
fn waiting_at(chains: &[Chain], key: u32, at: usize) -> Option<u32>
    ensures found { result ≡ slice_get (chain_of chains.now key) at }
    ensures few { OnSome result (at + 1 < 2 ^ 64) }
{
    let chain = chains.get(key as usize)?;
    chain.get(at)
}

// A key of this set that has not come and does not come now.
fn missing_of(sets: &[KeySet], places: &[Option<usize>], now: u32, set: u32) -> Option<u32>
    ensures { result ≡ option_and_then (λ one. missing_in places.now now one.keys) (slice_get sets.now set) }
{
    let set = sets.get(set as usize)?;
    missing(places, now, set.keys.as_slice())
}

// The least owner so far, with that of this set.
fn joined(sets: &[KeySet], least: Option<Owner>, set: u32) -> Option<Owner>
    ensures { result ≡ owner_joined least (slice_get sets.now set) }
{
    match sets.get(set as usize) {
        Some(set) => Some(least_with(least, set.owner)),
        None => least,
    }
}

// Sends the set at that place of the key's chain to wait for another key.
fn send(
    waits: &mut Vec<Option<u32>>,
    chains: &mut Vec<Chain>,
    key: u32,
    at: usize,
    set: u32,
    other: u32,
) -> Result<(), NoMemory>
    requires set { set < length waits.old.items }
    requires key { key < length chains.old.items }
    requires other { other < length chains.old.items }
    requires apart { key ≢ other }
    requires at { at < length (chain_of chains.old.items key) }
    ensures ok { OnOk result (IsSent waits.old.items chains.old.items key at set other waits.new.items chains.new.items) }
    ensures waits_err { OnErr result (waits.new.items ≡ waits.old.items) }
    ensures chains_err { OnErr result (chains.new.items ≡ chains.old.items) }
{
    chains[other as usize].push(set)?;
    chains[key as usize].leave(at);
    waits[set as usize] = Some(other);
    Ok(())
}

/// Lets a key come that has not come yet: each set that waits for it goes on to wait for a key that is missing still, and
/// where there is none, its owner counts. Answers the least owner with those.
pub fn arrivals(
    sets: &[KeySet],
    waits: &mut Vec<Option<u32>>,
    chains: &mut Vec<Chain>,
    places: &[Option<usize>],
    key: u32,
    least: Option<Owner>,
) -> Result<Option<Owner>, NoMemory>
    requires waiting { AreWaiting sets.now waits.old.items chains.old.items places.now }
    requires known { key < length chains.old.items }
    ensures waiting { AreWaiting sets.now waits.new.items chains.new.items places.now }
    ensures chains { length chains.new.items ≡ length chains.old.items }
    ensures arrives { IfOk result (Arrives sets.now waits.new.items places.now key least) }
{
    let mut least = least;
    let mut at = 0;
    'visits: while let Some(set) = waiting_at(chains.as_slice(), key, at) {
        match missing_of(sets, places, key, set) {
            Some(other) => send(waits, chains, key, at, set, other)?,
            None => {
                least = joined(sets, least, set);
                at += 1;
            }
        }
    }
    Ok(least)
}

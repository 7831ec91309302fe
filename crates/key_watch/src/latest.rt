//! When keys came to the path.

ghost use Rattle.std.specs.Prelude.{◌≡◌, ◌<◌, ◌^◌, ℕ, MatchOption, Some, if◌then◌else◌};
ghost use Rattle.key_watch.specs.Watching.{IsWaiting, came, has_arrived, is_by, missing_in, stands_since};

/// The index at which the key came, where it came.
pub fn place_of(places: &[Option<usize>], key: u32) -> Option<usize>
    ensures { result ≡ came places.now key }
{
    match places.get(key as usize) {
        Some(place) => *place,
        None => None,
    }
}

// Whether the key came, or comes now.
fn has_arrived(places: &[Option<usize>], now: u32, key: u32) -> bool
    ensures { result ≡ has_arrived places.now now key }
{
    key == now || place_of(places, key).is_some()
}

/// The first key that has not come and does not come now.
pub fn missing(places: &[Option<usize>], now: u32, keys: &[u32]) -> Option<u32>
    ensures { result ≡ missing_in places.now now keys.now }
{
    keys.iter()
        .copied()
        .find(|key| !has_arrived(places, now, *key))
}

// Whether the first came no later than the second.
fn is_by(first: Option<usize>, second: Option<usize>) -> bool
    ensures { result ≡ is_by first second }
{
    match (first, second) {
        (_, None) => true,
        (None, Some(_)) => false,
        (Some(early), Some(late)) => early <= late,
    }
}

// The later of the last so far and one more.
fn later(places: &[Option<usize>], last: Option<u32>, key: u32) -> u32
    ensures { MatchOption last (result ≡ key) (λ held. result ≡ (if is_by (came places.now key) (came places.now held) then held else key)) }
{
    match last {
        Some(held) if is_by(place_of(places, key), place_of(places, held)) => held,
        _ => key,
    }
}

/// The last of the keys to come; none where there is no key.
pub fn last_to_come(places: &[Option<usize>], keys: &[u32]) -> Option<u32>
    ensures { IsWaiting places.now keys.now result }
{
    let mut last = None;
    for key in keys {
        last = Some(later(places, last, *key));
    }
    last
}

/// The length of the path from which on a set stands that waits for this key; none where it does not.
pub fn stands_since(places: &[Option<usize>], wait: Option<u32>) -> Option<usize>
    requires { (count : ℕ) → stands_since places.now wait ≡ Some count → count < 2 ^ 64 }
    ensures { result ≡ stands_since places.now wait }
{
    match wait {
        None => Some(0),
        Some(last) => match place_of(places, last) {
            Some(place) => Some(place + 1),
            None => None,
        },
    }
}

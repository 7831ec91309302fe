//! Whose a set of keys is.

ghost use Rattle.std.specs.Prelude.{◌≡◌, Option, Some};
ghost use Rattle.key_watch.specs.Owners.{least_with, owner_lt};

/// A lemma by its number, or a found set by the number of its node. Lemmas come before found sets.
#[derive(Clone, Copy, Debug, PartialEq, Eq)]
pub enum Owner {
    Lemma(u32),
    Found(u32),
}

// Whether the first comes before the second.
fn is_before(first: Owner, second: Owner) -> bool
    ensures { result ≡ owner_lt first second }
{
    match (first, second) {
        (Owner::Lemma(a), Owner::Lemma(b)) => a < b,
        (Owner::Lemma(_), Owner::Found(_)) => true,
        (Owner::Found(_), Owner::Lemma(_)) => false,
        (Owner::Found(a), Owner::Found(b)) => a < b,
    }
}

/// The least so far, with one more.
pub fn least_with(least: Option<Owner>, owner: Owner) -> Owner
    ensures { result ≡ least_with least owner }
{
    match least {
        Some(held) if !is_before(owner, held) => held,
        _ => owner,
    }
}

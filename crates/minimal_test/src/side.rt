//! On which side a place stands.

ghost use Rattle.std.specs.Prelude.{◌≡◌, ◌<◌, ℕ, MatchOption};
ghost use Rattle.minimal_test.specs.Choices.{side_at, side_of};
ghost use Rattle.minimal_test.specs.Findings.{AreFull};

/// Whether a place is decided, and how.
#[derive(Clone, Copy, Debug)]
pub enum Side {
    /// It is not decided.
    Open,
    /// It is in the part.
    In,
    /// It is not in the part.
    Out,
}

/// The side of a place; a place that there is not is out.
pub fn side_at(sides: &[Side], place: usize) -> Side
    ensures { result ≡ side_at sides.now place }
{
    sides.get(place).copied().unwrap_or(Side::Out)
}

/// The side of a decided place.
pub fn side_of(is_in: bool) -> Side
    ensures { result ≡ side_of is_in }
{
    if is_in { Side::In } else { Side::Out }
}

/// The least open place.
pub fn first_open(sides: &[Side]) -> Option<usize>
    ensures open_place { MatchOption result (AreFull sides.now) (λ place. side_at sides.now place ≡ Side.Open) }
    ensures least { MatchOption result (AreFull sides.now) (λ place. (k : ℕ) → k < place → side_at sides.now k ≡ Side.Open → ⊥) }
{
    for (place, side) in sides.iter().enumerate() {
        if let Side::Open = side {
            return Some(place);
        }
    }
    None
}

//! Places in a text: lines and columns count from 1, columns in bytes.

ghost use Rattle.std.specs.Prelude.{◌≡◌, ◌+◌, ◌^◌, ◌<◌, length};
ghost use Rattle.tptp_lexer.specs.Spots as spots;

/// A place in a text.
#[derive(Clone, Copy, Debug, PartialEq, Eq)]
pub struct Spot {
    /// How many bytes come before.
    pub offset: u32,
    /// From 1.
    pub line: u32,
    /// From 1, in bytes.
    pub column: u32,
}

/// Where a text begins.
pub(crate) const fn first_spot() -> Spot
    ensures { result ≡ spots.first_spot }
{
    Spot {
        offset: 0,
        line: 1,
        column: 1,
    }
}

// The place behind a byte.
fn past(spot: Spot, b: u8) -> Spot
    requires offset { spot.offset + 1 < 2 ^ 32 }
    requires line { spot.line + 1 < 2 ^ 32 }
    requires column { spot.column + 1 < 2 ^ 32 }
    ensures { result ≡ spots.past spot b }
{
    if b == b'\n' {
        Spot {
            offset: spot.offset + 1,
            line: spot.line + 1,
            column: 1,
        }
    } else {
        Spot {
            offset: spot.offset + 1,
            line: spot.line,
            column: spot.column + 1,
        }
    }
}

/// The place behind these bytes.
pub(crate) fn pass(mut spot: Spot, bytes: &[u8]) -> Spot
    requires offset { spot.offset + length bytes.now < 2 ^ 32 }
    requires line { spot.line + length bytes.now < 2 ^ 32 }
    requires column { spot.column + length bytes.now < 2 ^ 32 }
    ensures { result ≡ spots.passed spot bytes.now }
{
    for b in bytes {
        spot = past(spot, *b);
    }
    spot
}

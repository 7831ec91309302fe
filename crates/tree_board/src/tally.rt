//! What a board counts as events come.

ghost use Rattle.std.specs.Prelude.{◌≡◌, ◌+◌, ◌<◌, ◌≤◌, ◌^◌, ◌∷◌, []};
ghost use Rattle.tree_board.specs.Events.{extends_in};
ghost use Rattle.tree_board.specs.Tallies.{found_after, least_with, tally_after};

use crate::Event;

/// What a board counts, so that no call goes through its nodes for it.
#[derive(Clone, Copy, Debug)]
pub struct Tally {
    /// The number of extensions.
    pub extensions: u32,
    /// The number of open nodes.
    pub opens: u32,
    /// Whether there is a heavy node.
    pub has_heavy: bool,
    /// The least found node.
    pub least_found: Option<u32>,
}

// The least of a number and another one, if there is one.
fn least_with(node: u32, found: Option<u32>) -> u32
    ensures { result ≡ least_with node found }
{
    match found {
        Some(other) if other < node => other,
        _ => node,
    }
}

// The least found node after this event.
fn found_after(found: Option<u32>, event: &Event) -> Option<u32>
    ensures { result ≡ found_after found event.now }
{
    match event {
        Event::Saturated { node } => Some(least_with(*node, found)),
        _ => found,
    }
}

impl Tally {
    /// The tally after this event, which settles an open node and makes so many open children.
    pub fn after(self, event: &Event, children: u32) -> Tally
        requires extensions { self.extensions + extends_in (event.now ∷ []) < 2 ^ 32 }
        requires some { 0 < self.opens }
        requires opens { self.opens + children ≤ 2 ^ 32 }
        ensures { result ≡ tally_after self event.now children }
    {
        Tally {
            extensions: self.extensions + event.extensions(),
            opens: self.opens - 1 + children,
            has_heavy: self.has_heavy || event.is_heavy(),
            least_found: found_after(self.least_found, event),
        }
    }
}

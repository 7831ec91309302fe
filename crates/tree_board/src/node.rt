//! How a node stands, as callers see it.

/// How a node of the search tree stands.
#[derive(Clone, Copy, Debug, PartialEq, Eq)]
pub enum NodeKind {
    /// No event settled it yet.
    Open,
    /// An instance split it, and some child is not closed.
    Split,
    /// No satisfying set passes it.
    Closed,
    /// No instance is violated: its literals are a found set.
    Found,
    /// A found set is a proper part of its literals.
    Covered,
    /// Its least violated instance weighs more than the limit.
    Heavy,
}

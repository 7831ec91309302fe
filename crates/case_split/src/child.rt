//! A case of a split, and why it may be closed at once.

use mg_word::{Lit, LitSet};

/// Why a child is closed at once. Both cases have the child's own literal.
#[derive(Debug, Drop)]
pub enum Closure {
    /// The literal's complement is held.
    Clash(Lit),
    /// The literal is barred.
    Barred(Lit),
}

/// One case of a split.
#[derive(Debug, Drop)]
pub struct Child {
    /// The conclusion that this case takes.
    pub lit: Lit,
    /// What no set of this case holds.
    pub barred: LitSet,
    /// Why no set is of this case, where that shows at once.
    pub at_once: Option<Closure>,
}

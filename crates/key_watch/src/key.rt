//! Keys: literals that a branch holds, and literals that it bars.

use mg_word::Lit;

/// Whether a literal is held or barred.
#[derive(Clone, Copy, Debug, PartialEq, Eq)]
pub enum Side {
    Held,
    Barred,
}

/// A literal that is held, or one that is barred.
#[derive(Debug, Drop)]
pub struct Key {
    pub side: Side,
    pub lit: Lit,
}

//! What the test of a set answers.

use mg_word::LitSet;

/// Whether some proper part of a set satisfies the problem.
#[derive(Debug, Drop)]
pub enum Verdict {
    /// None does.
    Minimal,
    /// This one does.
    Smaller(LitSet),
}

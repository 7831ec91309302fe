//! Lemmas of closed branches: what each leaf teaches, how a split node's lemma is folded from its children's, and an
//! index of the lemmas that are kept.
#![tactic(auto)]

mod folding;
mod index;
mod lemma;

pub use folding::{closure_lemma, fold, leaf_lemma};
pub use index::{LemmaIndex, MOST_LEMMAS, MOST_LITERALS};
pub use lemma::Lemma;

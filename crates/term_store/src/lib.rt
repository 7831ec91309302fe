//! Ground terms by numbers, shared: equal terms have one number, and a number keeps its term.
#![tactic(auto)]

mod arguments;
mod instances;
mod laws;
mod matching;
mod order;
mod store;
mod words;

pub use laws::words_tell_terms_apart;
pub use matching::Values;
pub use store::TermStore;

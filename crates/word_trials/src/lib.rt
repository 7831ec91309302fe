//! Calls of `mg_word`, `key_chains` and `level_heap` with ample memory, on values worked by hand.
#![tactic(auto)]

mod fitting;

pub use fitting::is_one_term;

#[cfg(test)]
mod chains;
#[cfg(test)]
mod levels;
#[cfg(test)]
mod words;

//! Sets of keys along a path that grows and is cut: which set has all its keys on the path, by one watched key a set.
#![tactic(auto)]

mod arrivals;
mod chain;
mod key;
mod key_set;
mod key_table;
mod latest;
mod number_watch;
mod owner;
mod watch;

pub use key::{Key, Side};
pub use owner::Owner;
pub use watch::Watch;

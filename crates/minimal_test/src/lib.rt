//! Whether a proper part of a set satisfies a problem: Niemelä's test of one set by itself, by a search after Davis,
//! Putnam, Logemann and Loveland.
#![tactic(auto)]

mod crossing;
mod finding;
mod fitting;
mod full_rules;
mod holding;
mod laws;
mod listing;
mod minimality;
mod path;
mod places;
mod propagation;
mod rest;
mod rule;
mod search;
mod side;
mod starts;
mod tester;
mod uses;
mod verdict;

pub use laws::{verdicts_exclude, verdicts_tell_minimality};
pub use minimality::test;
pub use tester::Tester;
pub use verdict::Verdict;

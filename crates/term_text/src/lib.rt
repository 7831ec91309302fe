//! Names, numbers, terms and lists of them in texts, in their one spelling.
#![tactic(auto)]

mod found;
mod fronts;
mod lists;
mod lits;
mod names;
mod numbers;
mod terms;
mod writing;

pub use fronts::{starts, strip};
pub use lists::{TermList, read_list};
pub use lits::{FoundLit, LitList, is_rising, read_lit, read_lits};
pub use numbers::take_number;
pub use terms::{Buffers, MOST_SYMBOLS};
pub use writing::{push_lits, push_number, push_terms};

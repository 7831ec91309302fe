//! The list of the minimal sets of a problem: a search for all found sets by one worker, and the test of each of them.
#![tactic(auto)]

mod laws;
mod listing;
mod minimal;

pub use laws::one_listing;
pub use listing::{Listing, list_models};
pub use minimal::minimal_found;

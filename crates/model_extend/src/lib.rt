//! Branches of the search tree: which literals lead to a node, and by which instance the node goes on.
#![tactic(auto)]

mod branch;
mod conclusions;
mod crossing;
mod laws;
mod matched;
mod step;

pub use branch::Branch;
pub use laws::{branches_grow_by_pushes, found_is_unique};
pub use ramified_match::Mark;
pub use step::{Found, Step, look, make_step};

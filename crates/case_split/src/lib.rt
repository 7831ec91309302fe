//! The children of a node that an instance splits.
#![tactic(auto)]

mod child;
mod crossing;
mod laws;
mod splitting;

pub use child::{Child, Closure};
pub use laws::{children_go_by_index, closed_as_in_plain_tree};
pub use splitting::{child_barred, children};

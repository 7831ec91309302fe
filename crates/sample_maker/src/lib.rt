//! The sample problem of a size, whose minimal models are counted by the Fibonacci numbers.
#![tactic(auto)]

mod clauses;
mod fault;
mod limits;
mod making;
mod names;

pub use fault::SampleFault;
pub use limits::{LEAST_SIZE, MOST_SIZE};
pub use making::sample;

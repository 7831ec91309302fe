//! The words after the program's name, and what they ask for.
#![tactic(auto)]

mod arguments;
mod laws;
mod options;
mod request;
mod values;

pub use laws::one_request;
pub use request::{Request, Search, request_of};

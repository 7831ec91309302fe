//! The command line: from the words after the program's name to what is printed and the exit status.
#![tactic(auto)]

mod check;
mod finding;
mod forms;
mod laws;
mod models;
mod printout;
mod problem;
mod prove;
mod putting;
mod refusal;
mod sample;
mod status;
mod top;
mod wanted;

pub use status::Status;
pub use top::run_alone;

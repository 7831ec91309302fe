//! The arrow forms of clauses, after MGTP and CMGTP, and the problem that they make.
#![tactic(auto)]

mod fault;
mod forming;
mod laws;
mod line;
mod problem;
mod renumbering;
mod satisfying;
mod sides;
mod variables;

pub use fault::FormFault;
pub use laws::{one_fault, one_problem};
pub use line::form_text;
pub use problem::forms_of;
pub use satisfying::satisfies;
pub use variables::free_variable;

//! Reports after the SZS ontology: the lines of each answer, and how they are put.
#![tactic(auto)]

mod check;
mod faults;
mod forms;
mod lines;
mod models;
mod names;
mod prove;
mod report;
mod sets;

pub use check::{CheckAnswer, report_check};
pub use faults::{FaultReport, Trouble, report_fault};
pub use forms::report_forms;
pub use models::{ModelsAnswer, report_models, report_sample};
pub use names::{sample_name, szs_name};
pub use prove::{ProveAnswer, report_prove};
pub use report::{Report, put_report};

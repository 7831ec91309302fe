//! Proof trees of refutations, and whether they close.
#![tactic(auto)]

mod check;
mod doc;
mod doc_fault;
mod frame;
mod kept_lit;
mod laws;
mod line;
mod lit_table;
mod lits;
mod trail;
mod walk;

pub use check::check_doc;
pub use doc::{Doc, LemmaBlock, Reject, TreeLine, Why};
pub use doc_fault::{DocFault, DocKind};
pub use laws::{larger_branch_closes, own_branches_close};

//! Documents of proofs as texts: the reading of a text as a document.
#![tactic(auto)]

mod blocks;
mod laws;
mod line_fault;
mod lines;
mod nodes;
mod reading;
mod writing;

pub use laws::{
    documents_are_spelled_apart, documents_have_no_first_fault, documents_have_their_texts,
    documents_lead_to_their_end, documents_stand_among_remarks, lines_are_spelled_apart,
    one_first_fault,
};
pub use reading::read_doc;
pub use tree_checker::{DocFault, DocKind};
pub use writing::write_doc;

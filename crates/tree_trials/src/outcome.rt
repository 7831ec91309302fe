//! What comes of the text of a tree.

use mg_word::Problem;
use proof_tree::read_doc;
use std::alloc::Global;
use tree_checker::{DocFault, DocKind, Reject, Why, check_doc};

/// What comes of a text: its document is accepted or rejected, or it has none.
#[derive(Clone, Copy, Debug, PartialEq, Eq)]
pub enum Outcome {
    Accepted,
    Rejected(u64, Why),
    Unread(u64, DocKind),
    NoMemory,
}

/// What comes of the text over the problem.
pub fn judged(alloc: Global, bytes: &[u8], problem: &Problem) -> Outcome {
    let doc = match read_doc(alloc, bytes, problem) {
        Ok(doc) => doc,
        Err(DocFault::Line { line, kind }) => return Outcome::Unread(line, kind),
        Err(DocFault::NoMemory) => return Outcome::NoMemory,
    };
    match check_doc(alloc, problem, &doc) {
        Ok(()) => Outcome::Accepted,
        Err(Reject::Line { line, why }) => Outcome::Rejected(line, why),
        Err(Reject::NoMemory) => Outcome::NoMemory,
    }
}

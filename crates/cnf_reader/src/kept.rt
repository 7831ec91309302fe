//! What is kept of the files that were read.

use mg_word::{Clause, Items, Symbols, Text};

/// The symbols and the clauses so far, the names of the files, how many files were to be included,
/// and how many bytes were read.
#[derive(Drop)]
pub struct Kept {
    pub symbols: Symbols,
    pub files: Items<Text>,
    pub clauses: Items<Clause>,
    pub includes: u32,
    pub bytes: u64,
}

//! Trials of documents and of their texts, over problems that are read.
#![tactic(auto)]

#[cfg(test)]
mod block_texts;
#[cfg(test)]
mod doc_texts;
#[cfg(test)]
mod outcome;
#[cfg(test)]
mod small_documents;

//! Clauses as they were written.

use crate::{Items, Kind, PatLit, Text};

/// A literal of a clause.
#[derive(Debug, Drop)]
pub enum ClauseLit {
    /// `$true` or `~$false`.
    True,
    /// `$false` or `~$true`.
    False,
    /// Any other literal.
    Lit(PatLit),
}

/// The name of a clause or of an include's selection.
#[derive(Debug, Drop)]
pub struct Name {
    pub kind: Kind,
    pub text: Text,
}

/// Where a clause stands: the index of its file, and the line and column of its first byte, from 1.
#[derive(Clone, Copy, Debug, PartialEq, Eq)]
pub struct Place {
    pub file: u32,
    pub line: u32,
    pub column: u32,
}

/// A clause.
#[derive(Debug, Drop)]
pub struct Clause {
    pub name: Name,
    pub place: Place,
    /// In written order, so that positions count from 1 here.
    pub literals: Items<ClauseLit>,
    /// The names of the variables, which are numbered from 0 by first occurrence.
    pub variables: Items<Text>,
    /// For each further form the positions of the literals that are its conclusions.
    pub conclude: Items<Items<u32>>,
}

//! Inputs: what the reading of a problem's files gives.

use crate::{Clause, Items, Symbols, Text};
use std::marker::Model;

/// Symbols, the names of the files read, the problem file first, and the clauses in text order.
/// Its facts are those of `IsInput`.
#[derive(Drop)]
pub struct Input {
    pub symbols: Symbols,
    pub files: Items<Text>,
    pub clauses: Items<Clause>,
}

impl Model for Input {
    ghost use Rattle.mg_word.specs.Facts.{InputData, IsInput};

    ghost Value = { InputData };

    ghost view = { λ input. record { symbols = input.symbols; files = input.files; clauses = input.clauses } };

    ghost invariant = { λ input. IsInput input.symbols input.files input.clauses };
}

//! Problems: inputs with their arrow forms.

use crate::{Clause, Form, Items, Symbols, Text};
use std::marker::Model;

/// An input with its forms, which are numbered from 1. Its facts are those of `IsProblem`.
#[derive(Drop)]
pub struct Problem {
    pub symbols: Symbols,
    pub files: Items<Text>,
    pub clauses: Items<Clause>,
    pub forms: Items<Form>,
}

impl Model for Problem {
    ghost use Rattle.mg_word.specs.Facts.{ProblemData, IsProblem};

    ghost Value = { ProblemData };

    ghost view = { λ problem. record { symbols = problem.symbols; files = problem.files; clauses = problem.clauses; forms = problem.forms } };

    ghost invariant = { λ problem. IsProblem (record { symbols = problem.symbols; files = problem.files; clauses = problem.clauses; forms = problem.forms }) };
}

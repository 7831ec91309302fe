//! The items of a pattern: symbols and variables.

/// A symbol or a variable of a pattern, by its number.
#[derive(Clone, Copy, Debug, PartialEq, Eq)]
pub enum Item {
    /// The symbol with this number in the table.
    Sym(u32),
    /// The variable with this number, counted from 0.
    Var(u32),
}

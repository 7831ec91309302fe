//! The limits of clauses and problems.

/// The most symbols and variables of a literal of a form, counted together.
pub const MOST_ITEMS: usize = 4_096;

/// The most conclusions of a form.
pub const MOST_CONCLUSIONS: usize = 64;

/// The most forms of a problem.
pub const MOST_FORMS: usize = 100_000;

/// The most symbols of a term or atom of a document or a branch.
pub const MOST_SYMBOLS: usize = 65_536;

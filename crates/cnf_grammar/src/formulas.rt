//! The rows of the table in formulas.

ghost use Rattle.std.specs.Prelude.{◌+◌, ◌<◌, ◌^◌};
ghost use Rattle.cnf_grammar.specs.Moving.{Moves};
ghost use Rattle.cnf_grammar.specs.Seen.{seen};
ghost use Rattle.cnf_grammar.specs.Table.{atom_start, literal_start, formula_start, after_formula, after_literal, after_term, after_word, term_start, step_at};

use crate::{Lexeme, Position, State};

impl Position {
    /// Behind the role: a formula begins with no bracket open.
    pub(crate) fn role_read(&mut self, token: &Lexeme) -> bool
        ensures { Moves (step_at State.RoleRead self.old (seen token.now)) result self.old self.new }
    {
        if token.is_mark(b',') {
            self.state = State::FormulaStart;
            self.level = 0;
            return true;
        }
        false
    }

    /// Where a formula must begin.
    pub(crate) fn formula_start(&mut self, token: &Lexeme) -> bool
        requires { self.old.level + 1 < 2 ^ 32 }
        ensures { Moves (formula_start self.old (seen token.now)) result self.old self.new }
    {
        if token.is_mark(b'(') {
            self.level += 1;
            return true;
        }
        self.literal_start(token)
    }

    /// Where a literal must begin.
    pub(crate) fn literal_start(&mut self, token: &Lexeme) -> bool
        ensures { Moves (literal_start self.old (seen token.now)) result self.old self.new }
    {
        if token.is_mark(b'~') {
            self.state = State::AtomStart;
            return true;
        }
        self.atom_start(token)
    }

    /// Where an atom must begin.
    pub(crate) fn atom_start(&mut self, token: &Lexeme) -> bool
        ensures { Moves (atom_start self.old (seen token.now)) result self.old self.new }
    {
        if token.is_word() {
            self.state = State::WordRead;
            self.depth = 0;
            return true;
        }
        if token.is_defined(b"$true") || token.is_defined(b"$false") {
            self.state = State::TermRead;
            self.depth = 0;
            return true;
        }
        false
    }

    /// Behind a word, whose arguments may come.
    pub(crate) fn after_word(&mut self, token: &Lexeme) -> bool
        requires { self.old.depth + 1 < 2 ^ 32 }
        ensures { Moves (after_word self.old (seen token.now)) result self.old self.new }
    {
        if token.is_mark(b'(') {
            self.state = State::TermStart;
            self.depth += 1;
            return true;
        }
        self.after_term(token)
    }

    /// Where a term must begin.
    pub(crate) fn term_start(&mut self, token: &Lexeme) -> bool
        ensures { Moves (term_start self.old (seen token.now)) result self.old self.new }
    {
        if token.is_simple_term() {
            self.state = State::TermRead;
            return true;
        }
        self.go_if(token.is_word(), State::WordRead)
    }

    /// Behind a term or an atom.
    pub(crate) fn after_term(&mut self, token: &Lexeme) -> bool
        ensures { Moves (after_term self.old.depth self.old (seen token.now)) result self.old self.new }
    {
        if self.depth == 0 {
            return self.after_literal(token);
        }
        if token.is_mark(b',') {
            self.state = State::TermStart;
            return true;
        }
        if token.is_mark(b')') {
            self.state = State::TermRead;
            self.depth -= 1;
            return true;
        }
        false
    }

    /// Behind a literal.
    pub(crate) fn after_literal(&mut self, token: &Lexeme) -> bool
        ensures { Moves (after_literal self.old (seen token.now)) result self.old self.new }
    {
        if token.is_mark(b'|') {
            self.state = State::LiteralStart;
            return true;
        }
        self.after_formula(token)
    }

    /// Behind a formula.
    pub(crate) fn after_formula(&mut self, token: &Lexeme) -> bool
        ensures { Moves (after_formula self.old.level self.old (seen token.now)) result self.old self.new }
    {
        if self.level == 0 {
            if token.is_mark(b',') {
                self.state = State::SourceStart;
                return true;
            }
            return self.go_if(token.is_mark(b')'), State::ClauseClosed);
        }
        if token.is_mark(b')') {
            self.state = State::FormulaClosed;
            self.level -= 1;
            return true;
        }
        false
    }
}

//! The rows of the table between statements and in includes.

ghost use Rattle.cnf_grammar.specs.Moving.{Moves};
ghost use Rattle.cnf_grammar.specs.Seen.{seen};
ghost use Rattle.cnf_grammar.specs.Shapes.{dot, is_mark};
ghost use Rattle.cnf_grammar.specs.Table.{between, after_file, selection_open, after_selected, when, start};

use crate::{Lexeme, Position, State};

impl Position {
    /// Between statements.
    pub(crate) fn between(&mut self, token: &Lexeme) -> bool
        ensures { Moves (between self.old (seen token.now)) result self.old self.new }
    {
        if token.is_keyword(b"cnf") {
            self.state = State::ClauseWord;
            return true;
        }
        self.go_if(token.is_keyword(b"include"), State::IncludeWord)
    }

    /// Behind the closing bracket of a statement, whose dot leads back to the start.
    pub(crate) fn statement_closed(&mut self, token: &Lexeme) -> bool
        ensures { Moves (when (is_mark dot (seen token.now)) start) result self.old self.new }
    {
        if token.is_mark(b'.') {
            self.state = State::Statement;
            self.level = 0;
            self.depth = 0;
            self.brackets.clear();
            return true;
        }
        false
    }

    /// Behind a file name.
    pub(crate) fn after_file(&mut self, token: &Lexeme) -> bool
        ensures { Moves (after_file self.old (seen token.now)) result self.old self.new }
    {
        if token.is_mark(b',') {
            self.state = State::SelectionStart;
            return true;
        }
        self.go_if(token.is_mark(b')'), State::IncludeClosed)
    }

    /// Behind the opening bracket of a list of names.
    pub(crate) fn selection_open(&mut self, token: &Lexeme) -> bool
        ensures { Moves (selection_open self.old (seen token.now)) result self.old self.new }
    {
        if token.is_name() {
            self.state = State::SelectedRead;
            return true;
        }
        self.go_if(token.is_mark(b']'), State::SelectionClosed)
    }

    /// Behind a name of a list.
    pub(crate) fn after_selected(&mut self, token: &Lexeme) -> bool
        ensures { Moves (after_selected self.old (seen token.now)) result self.old self.new }
    {
        if token.is_mark(b',') {
            self.state = State::SelectedStart;
            return true;
        }
        self.go_if(token.is_mark(b']'), State::SelectionClosed)
    }
}

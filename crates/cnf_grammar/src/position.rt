//! A position in a file, and how a token moves it.

ghost use Rattle.std.specs.Prelude.{◌≡◌, ◌+◌, ◌<◌, ◌^◌, IfOk, OnErr};
ghost use Rattle.cnf_grammar.specs.Moving.{Moves};
ghost use Rattle.cnf_grammar.specs.Shapes.{shape_of};
ghost use Rattle.cnf_grammar.specs.Table.{when, to, step, start};

use crate::{Brackets, Lexeme, State};
use mg_word::NoMemory;
use std::alloc::Global;
use tptp_lexer::TokenKind;

/// A position in a file, as far as the grammar goes.
#[derive(Debug, Drop)]
pub struct Position {
    /// What has just been read, and what may come next.
    pub state: State,
    /// In a formula, how many of its brackets are open.
    pub level: u32,
    /// In an atom, how many brackets of arguments are open.
    pub depth: u32,
    /// In an annotation, the brackets that are open.
    pub brackets: Brackets,
}

impl Position {
    /// The position at the start of a file. It takes no memory.
    pub fn start(alloc: Global) -> Position
        ensures { result ≡ start }
    {
        Position {
            state: State::Statement,
            level: 0,
            depth: 0,
            brackets: Brackets::empty(alloc),
        }
    }

    /// Moves to the position that the token leads to, and says whether there is one. Where there is
    /// none, or memory runs out, the position stays as it is.
    pub fn advance(&mut self, kind: TokenKind, text: &[u8], plain: bool) -> Result<bool, NoMemory>
        requires level { self.old.level + 1 < 2 ^ 32 }
        requires depth { self.old.depth + 1 < 2 ^ 32 }
        ensures ok { IfOk result (λ moved. Moves (step self.old (shape_of kind text.now plain)) moved self.old self.new) }
        ensures err { OnErr result (self.new ≡ self.old) }
    {
        let token = Lexeme { kind, text, plain };
        match self.state {
            State::Statement => Ok(self.between(&token)),
            State::ClauseWord => Ok(self.go_if(token.is_mark(b'('), State::NameStart)),
            State::NameStart => Ok(self.go_if(token.is_name(), State::NameRead)),
            State::NameRead => Ok(self.go_if(token.is_mark(b','), State::RoleStart)),
            State::RoleStart => Ok(self.go_if(token.is_lower(), State::RoleRead)),
            State::RoleRead => Ok(self.role_read(&token)),
            State::FormulaStart => Ok(self.formula_start(&token)),
            State::LiteralStart => Ok(self.literal_start(&token)),
            State::AtomStart => Ok(self.atom_start(&token)),
            State::WordRead => Ok(self.after_word(&token)),
            State::TermStart => Ok(self.term_start(&token)),
            State::TermRead => Ok(self.after_term(&token)),
            State::FormulaClosed => Ok(self.after_formula(&token)),
            State::SourceStart => self.source_start(&token),
            State::Source => self.in_source(&token),
            State::InfoStart => Ok(self.info_start(&token)),
            State::Info => self.in_info(&token),
            State::InfoClosed => Ok(self.go_if(token.is_mark(b')'), State::ClauseClosed)),
            State::ClauseClosed | State::IncludeClosed => Ok(self.statement_closed(&token)),
            State::IncludeWord => Ok(self.go_if(token.is_mark(b'('), State::FileStart)),
            State::FileStart => Ok(self.go_if(token.is_file_name(), State::FileRead)),
            State::FileRead => Ok(self.after_file(&token)),
            State::SelectionStart => Ok(self.go_if(token.is_mark(b'['), State::SelectionOpen)),
            State::SelectionOpen => Ok(self.selection_open(&token)),
            State::SelectedStart => Ok(self.go_if(token.is_name(), State::SelectedRead)),
            State::SelectedRead => Ok(self.after_selected(&token)),
            State::SelectionClosed => Ok(self.go_if(token.is_mark(b')'), State::IncludeClosed)),
        }
    }

    /// Goes on to this state where the test holds.
    pub(crate) fn go_if(&mut self, test: bool, state: State) -> bool
        ensures { Moves (when test (to state self.old)) result self.old self.new }
    {
        if test {
            self.state = state;
        }
        test
    }
}

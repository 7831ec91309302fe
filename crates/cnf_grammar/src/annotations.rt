//! The rows of the table in annotations.

ghost use Rattle.std.specs.Prelude.{◌≡◌, List, ◌∷◌, IfOk, OnErr};
ghost use Rattle.cnf_grammar.specs.declared.brackets.Bracket.{Bracket};
ghost use Rattle.cnf_grammar.specs.Moving.{Moves};
ghost use Rattle.cnf_grammar.specs.Seen.{seen};
ghost use Rattle.cnf_grammar.specs.Table.{any_token, within, source_start, in_source, in_info, step_at};

use crate::{Bracket, Lexeme, Position, State};
use mg_word::NoMemory;

impl Position {
    /// Where a source must begin.
    pub(crate) fn source_start(&mut self, token: &Lexeme) -> Result<bool, NoMemory>
        ensures ok { IfOk result (λ moved. Moves (source_start self.old (seen token.now)) moved self.old self.new) }
        ensures err { OnErr result (self.new ≡ self.old) }
    {
        if token.is_mark(b'(') {
            self.brackets.restart(Bracket::Round)?;
        } else if token.is_mark(b'[') {
            self.brackets.restart(Bracket::Square)?;
        } else if token.is_mark(b',') || token.is_bracket() {
            return Ok(false);
        } else {
            self.brackets.clear();
        }
        self.state = State::Source;
        Ok(true)
    }

    /// In a source.
    pub(crate) fn in_source(&mut self, token: &Lexeme) -> Result<bool, NoMemory>
        ensures ok { IfOk result (λ moved. Moves (in_source self.old.brackets self.old (seen token.now)) moved self.old self.new) }
        ensures err { OnErr result (self.new ≡ self.old) }
    {
        if let Some(bracket) = self.brackets.innermost() {
            return self.within(bracket, token);
        }
        if token.is_mark(b',') {
            self.state = State::InfoStart;
            return Ok(true);
        }
        if token.is_mark(b')') {
            self.state = State::ClauseClosed;
            return Ok(true);
        }
        self.any_token(token)
    }

    /// Where an info must begin.
    pub(crate) fn info_start(&mut self, token: &Lexeme) -> bool
        ensures { Moves (step_at State.InfoStart self.old (seen token.now)) result self.old self.new }
    {
        if token.is_mark(b'[') {
            self.state = State::Info;
            self.brackets.clear();
            return true;
        }
        false
    }

    /// In an info.
    pub(crate) fn in_info(&mut self, token: &Lexeme) -> Result<bool, NoMemory>
        ensures ok { IfOk result (λ moved. Moves (in_info self.old.brackets self.old (seen token.now)) moved self.old self.new) }
        ensures err { OnErr result (self.new ≡ self.old) }
    {
        if let Some(bracket) = self.brackets.innermost() {
            return self.within(bracket, token);
        }
        if token.is_mark(b']') {
            self.state = State::InfoClosed;
            return Ok(true);
        }
        self.any_token(token)
    }

    /// Within a bracket of an annotation, the innermost.
    pub(crate) fn within(&mut self, bracket: Bracket, token: &Lexeme) -> Result<bool, NoMemory>
        ensures ok { IfOk result (λ moved. (outer : List Bracket) → self.old.brackets ≡ bracket ∷ outer → Moves (within bracket outer self.old (seen token.now)) moved self.old self.new) }
        ensures err { OnErr result (self.new ≡ self.old) }
    {
        if token.is_mark(bracket.closing()) {
            self.brackets.close();
            return Ok(true);
        }
        self.any_token(token)
    }

    /// A token of an annotation that closes no bracket.
    pub(crate) fn any_token(&mut self, token: &Lexeme) -> Result<bool, NoMemory>
        ensures ok { IfOk result (λ moved. Moves (any_token self.old (seen token.now)) moved self.old self.new) }
        ensures err { OnErr result (self.new ≡ self.old) }
    {
        if token.is_mark(b'(') {
            self.brackets.push(Bracket::Round)?;
            return Ok(true);
        }
        if token.is_mark(b'[') {
            self.brackets.push(Bracket::Square)?;
            return Ok(true);
        }
        Ok(!token.is_bracket())
    }
}

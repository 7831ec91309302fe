//! A statement under way, and what each of its tokens adds.

ghost use Rattle.std.specs.Prelude.{◌≡◌, ◌+◌, ◌≤◌, IfOk, length};
ghost use Rattle.cnf_grammar.specs.Seen.{seen};
ghost use Rattle.cnf_grammar.specs.Items.{item_step};
ghost use Rattle.cnf_reader.specs.Faults as faults;
ghost use Rattle.cnf_reader.specs.Limits.{IsRoomyPending};
ghost use Rattle.cnf_reader.specs.Statements as statements;
ghost use Rattle.cnf_reader.specs.Statements.{Takes, IfNoFault};

use crate::draft::ClauseDraft;
use crate::fault::ReadKind;
use crate::selections::Selections;
use crate::text::{file_text, name_of};
use cnf_grammar::{ItemState, Lexeme, Position, State};
use mg_word::{Items, Kind, Name, NoMemory, Text};
use std::alloc::Global;
use std::mem;
use tptp_lexer::TokenKind;

/// The most literals of a clause.
const MOST_LITERALS: usize = 64;

/// The most round brackets that may stand open in a formula.
const MOST_BRACKETS: u32 = 100;

/// What was read of a statement.
#[derive(Drop)]
pub struct Pending<'a> {
    /// Where the grammar stands.
    pub position: Position,
    /// Where the statement begins.
    pub line: u32,
    pub column: u32,
    /// The name of a clause.
    pub name: Name,
    /// The literals and variables of a clause.
    pub draft: ClauseDraft<'a>,
    /// Which of the literals have a word for their atom, once they are whole.
    pub words: Items<bool>,
    /// Where the grammar stands in an item of the info.
    pub item: ItemState,
    /// The numbers of the `conclude` item under way.
    pub chosen: Items<u32>,
    /// The `conclude` items that are whole.
    pub conclude: Items<Items<u32>>,
    /// What an include asks for.
    pub asked: Asked,
}

/// A file that is to be included.
#[derive(Drop)]
pub struct Asked {
    /// Its name as written, without quotes and escapes.
    pub file: Text,
    /// Where the name stands.
    pub line: u32,
    pub column: u32,
    /// The names of the clauses that are to be kept, where not all are.
    pub names: Option<Items<Name>>,
}

impl<'a> Pending<'a> {
    /// No token of the statement was read. It takes no memory.
    pub fn fresh(alloc: Global) -> Pending<'a>
        ensures { result ≡ statements.fresh }
    {
        Pending {
            position: Position::start(alloc),
            line: 0,
            column: 0,
            name: Name {
                kind: Kind::Word,
                text: Text::new(Vec::new(alloc)),
            },
            draft: ClauseDraft::empty(alloc),
            words: Items::empty(alloc),
            item: ItemState::Start,
            chosen: Items::empty(alloc),
            conclude: Items::empty(alloc),
            asked: Asked {
                file: Text::new(Vec::new(alloc)),
                line: 0,
                column: 0,
                names: None,
            },
        }
    }

    /// Takes a token that stands at this line and column, or answers the fault that stands there.
    /// `is_full` tells whether as many clauses are kept as may be.
    #[tactic(auto, unfolding(crate::specs::Statements::take))]
    pub fn take(
        &mut self,
        alloc: Global,
        is_full: bool,
        selections: &Selections,
        token: &Lexeme<'a>,
        line: u32,
        column: u32,
    ) -> Result<Option<ReadKind>, NoMemory>
        requires open { self.old.position.level + self.old.position.depth ≤ 100 }
        requires within { IsRoomyPending self.old }
        ensures taken { IfOk result (λ fault. Takes (statements.take is_full selections.now self.old (seen token.now) line column) fault self.new) }
        ensures open { IfOk result (λ fault. IfNoFault fault (self.new.position.level + self.new.position.depth ≤ 100)) }
    {
        let state = self.position.state;
        let depth = self.position.depth;
        let is_outside = self.is_outside_items(token);
        if self.breaks_item(state, is_outside, token) {
            return Ok(Some(ReadKind::BadConclude));
        }
        if !self.position.advance(token.kind, token.text, token.plain)? {
            return Ok(Some(refusal(state, token)));
        }
        if self.position.level + self.position.depth > MOST_BRACKETS {
            return Ok(Some(ReadKind::TooDeep));
        }
        if let Some(kind) = self.limit_fault(alloc, is_full, selections, state, token)? {
            return Ok(Some(kind));
        }
        self.add(alloc, state, depth, is_outside, token, line, column)?;
        Ok(None)
    }

    // Whether the token, if in the info, stands between the items or ends them.
    fn is_outside_items(&self, token: &Lexeme) -> bool
        ensures { result ≡ statements.is_outside_items self.now.position (seen token.now) }
    {
        self.position.brackets.innermost().is_none() && (token.is_mark(b',') || token.is_mark(b']'))
    }

    // Where the token leads in an item of the info.
    fn next_item(&self, token: &Lexeme) -> Option<ItemState>
        requires { length self.now.words ≤ 64 }
        ensures { result ≡ item_step self.now.words self.now.item (seen token.now) }
    {
        let words = self.words.as_slice();
        self.item.step(words, token.kind, token.text, token.plain)
    }

    // Whether the token breaks a conclude item.
    fn breaks_item(&self, state: State, is_outside: bool, token: &Lexeme) -> bool
        requires outside { is_outside ≡ statements.is_outside_items self.now.position (seen token.now) }
        requires few { length self.now.words ≤ 64 }
        ensures { result ≡ statements.breaks_item state self.now (seen token.now) }
    {
        match state {
            State::Info => !is_outside && self.next_item(token).is_none(),
            _ => false,
        }
    }

    // The limit that a token passes which the grammar has here.
    fn limit_fault(
        &self,
        alloc: Global,
        is_full: bool,
        selections: &Selections,
        state: State,
        token: &Lexeme,
    ) -> Result<Option<ReadKind>, NoMemory>
        ensures { IfOk result (λ fault. fault ≡ faults.limit_fault is_full selections.now state self.now.draft (seen token.now)) }
    {
        match state {
            State::NameStart => name_fault(alloc, is_full, selections, token),
            State::RoleStart => Ok(role_fault(token)),
            State::LiteralStart => {
                if self.draft.count() >= MOST_LITERALS {
                    return Ok(Some(ReadKind::TooManyLiterals));
                }
                Ok(None)
            }
            State::TermStart => Ok(variable_fault(&self.draft, token)),
            _ => Ok(None),
        }
    }

    // What the token, read with this mode, adds.
    fn add(
        &mut self,
        alloc: Global,
        state: State,
        depth: u32,
        is_outside: bool,
        token: &Lexeme<'a>,
        line: u32,
        column: u32,
    ) -> Result<(), NoMemory>
        requires { IsRoomyPending self.old }
        ensures { IfOk result (λ _. self.new ≡ statements.add_at state depth is_outside self.old (seen token.now) line column) }
    {
        match state {
            State::Statement => {
                self.line = line;
                self.column = column;
                Ok(())
            }
            State::NameStart => {
                self.name = name_of(alloc, token)?;
                Ok(())
            }
            State::InfoStart => {
                self.words = self.draft.words()?;
                Ok(())
            }
            State::Info => self.take_info(alloc, is_outside, token),
            State::FileStart => {
                self.asked = Asked {
                    file: file_text(alloc, token)?,
                    line,
                    column,
                    names: None,
                };
                Ok(())
            }
            State::SelectionStart => {
                self.asked.names = Some(Items::empty(alloc));
                Ok(())
            }
            State::SelectionOpen | State::SelectedStart => self.asked.add(alloc, token),
            _ => self.draft.collect(state, depth, token),
        }
    }

    // A token of the info.
    fn take_info(&mut self, alloc: Global, is_outside: bool, token: &Lexeme) -> Result<(), NoMemory>
        requires { length self.old.words ≤ 64 }
        ensures { IfOk result (λ _. self.new ≡ statements.take_info is_outside self.old (seen token.now)) }
    {
        if is_outside {
            return self.end_item(alloc);
        }
        if let Some(item) = self.next_item(token) {
            self.item = item;
            if let ItemState::NumberRead(number) = item {
                self.chosen.push(number)?;
            }
        }
        Ok(())
    }

    // The end of an item of the info.
    fn end_item(&mut self, alloc: Global) -> Result<(), NoMemory>
        ensures { IfOk result (λ _. self.new ≡ statements.end_item self.old) }
    {
        let chosen = mem::replace(&mut self.chosen, Items::empty(alloc));
        if self.item == ItemState::Closed {
            self.conclude.push(chosen)?;
        }
        self.item = ItemState::Start;
        Ok(())
    }
}

impl Asked {
    // One more name of the selection, where the token is a name.
    fn add(&mut self, alloc: Global, token: &Lexeme) -> Result<(), NoMemory>
        ensures { IfOk result (λ _. self.new ≡ statements.with_name self.old (seen token.now)) }
    {
        if !token.is_name() {
            return Ok(());
        }
        let name = name_of(alloc, token)?;
        match &mut self.names {
            Some(names) => names.push(name),
            None => {
                let mut names = Items::empty(alloc);
                names.push(name)?;
                self.names = Some(names);
                Ok(())
            }
        }
    }
}

// What is wrong with a token that the grammar does not have here.
fn refusal(state: State, token: &Lexeme) -> ReadKind
    ensures { result ≡ faults.refusal state (seen token.now) }
{
    match state {
        State::Statement => no_statement(token),
        State::FormulaStart | State::LiteralStart | State::AtomStart => no_atom(token),
        State::WordRead | State::TermRead => no_follower(token),
        State::TermStart => no_term(token),
        _ => ReadKind::Expected,
    }
}

fn no_statement(token: &Lexeme) -> ReadKind
    ensures { result ≡ faults.no_statement (seen token.now) }
{
    match token.kind {
        TokenKind::Lower if is_other_language(token.text) => ReadKind::NotCnf,
        _ => ReadKind::Expected,
    }
}

fn is_other_language(text: &[u8]) -> bool
    ensures { result ≡ faults.is_other_language text.now }
{
    text == b"fof".as_slice()
        || text == b"tff".as_slice()
        || text == b"thf".as_slice()
        || text == b"tcf".as_slice()
        || text == b"tpi".as_slice()
}

fn no_atom(token: &Lexeme) -> ReadKind
    ensures { result ≡ faults.no_atom (seen token.now) }
{
    match token.kind {
        TokenKind::Upper | TokenKind::Number | TokenKind::Distinct => ReadKind::Equality,
        TokenKind::Dollar => ReadKind::Defined,
        _ => ReadKind::Expected,
    }
}

fn no_term(token: &Lexeme) -> ReadKind
    ensures { result ≡ faults.no_term (seen token.now) }
{
    match token.kind {
        TokenKind::Number => ReadKind::Number,
        TokenKind::Dollar => ReadKind::Defined,
        _ => ReadKind::Expected,
    }
}

fn no_follower(token: &Lexeme) -> ReadKind
    ensures { result ≡ faults.no_follower (seen token.now) }
{
    match token.kind {
        TokenKind::NotEqual => ReadKind::Equality,
        TokenKind::Punct(byte) => {
            if byte == b'=' {
                ReadKind::Equality
            } else {
                ReadKind::Expected
            }
        }
        _ => ReadKind::Expected,
    }
}

// The name of a clause that is one more than may be kept.
fn name_fault(
    alloc: Global,
    is_full: bool,
    selections: &Selections,
    token: &Lexeme,
) -> Result<Option<ReadKind>, NoMemory>
    ensures { IfOk result (λ fault. fault ≡ faults.name_fault is_full selections.now (seen token.now)) }
{
    if is_full && selections.have(&name_of(alloc, token)?)? {
        return Ok(Some(ReadKind::TooManyClauses));
    }
    Ok(None)
}

fn role_fault(token: &Lexeme) -> Option<ReadKind>
    ensures { result ≡ faults.role_fault (seen token.now) }
{
    match token.kind {
        TokenKind::Lower => {
            if is_role(token.text) {
                None
            } else {
                Some(ReadKind::Role)
            }
        }
        _ => None,
    }
}

fn is_role(text: &[u8]) -> bool
    ensures { result ≡ faults.is_role text.now }
{
    text == b"axiom".as_slice()
        || text == b"hypothesis".as_slice()
        || text == b"definition".as_slice()
        || text == b"assumption".as_slice()
        || text == b"lemma".as_slice()
        || text == b"theorem".as_slice()
        || text == b"corollary".as_slice()
        || text == b"negated_conjecture".as_slice()
        || text == b"plain".as_slice()
}

fn variable_fault(draft: &ClauseDraft, token: &Lexeme) -> Option<ReadKind>
    ensures { result ≡ faults.variable_fault draft.now (seen token.now) }
{
    match token.kind {
        TokenKind::Upper => {
            if draft.lacks_room_for(token.text) {
                Some(ReadKind::TooManyVariables)
            } else {
                None
            }
        }
        _ => None,
    }
}

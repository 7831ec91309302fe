//! The literals of the clause under way, as its tokens leave them.

ghost use Rattle.std.specs.Prelude.{◌≡◌, ◌<◌, ◌≤◌, [], All, IfOk, OnErr, true, false, Bool, map, length, zero};
ghost use Rattle.cnf_grammar.specs.Draft as drafts;
ghost use Rattle.cnf_reader.specs.Drafts.{kind_seen, text_seen, item_seen, literal_seen};
ghost use Rattle.cnf_reader.specs.Faults.{lacks_room, has_word};
ghost use Rattle.cnf_reader.specs.Limits.{IsRoomy};
ghost use Rattle.cnf_reader.specs.Sound.{HasFew};
ghost use Rattle.cnf_grammar.specs.Meaning as meaning;
ghost use Rattle.cnf_grammar.specs.Seen.{seen};

use cnf_grammar::{Lexeme, State};
use mg_word::{Items, Kind, NoMemory, Text};
use std::alloc::Global;
use std::marker::Model;
use std::mem;
use tptp_lexer::TokenKind;

/// The most variables of a clause.
const MOST_VARIABLES: usize = 32;

/// A symbol as it is written.
#[derive(Clone, Copy)]
pub struct RawSymbol<'a> {
    pub kind: Kind,
    /// Its bytes as written, in their quotes where it is quoted.
    pub text: &'a [u8],
    pub quoted: bool,
    /// How many arguments have begun.
    pub arity: u32,
}

/// A symbol or a variable of an atom.
#[derive(Clone, Copy)]
pub enum RawItem<'a> {
    Symbol(RawSymbol<'a>),
    Variable(u32),
}

/// A literal of the clause.
#[derive(Drop)]
pub enum RawLiteral<'a> {
    Always,
    Never,
    Signed(bool, Vec<RawItem<'a>>),
}

/// What was read of a formula so far.
#[derive(Drop)]
pub struct ClauseDraft<'a> {
    literals: Vec<RawLiteral<'a>>,
    is_negative: bool,
    atom: Vec<RawItem<'a>>,
    /// The places in the atom of the words whose arguments are open, the innermost last.
    open_words: Vec<usize>,
    variables: Items<Text>,
}

impl<'a> Model for ClauseDraft<'a> {
    ghost use Rattle.cnf_grammar.specs.Draft.{Draft};

    ghost Value = { Draft };

    ghost use Rattle.cnf_reader.specs.Drafts.{draft_seen};

    ghost view = { draft_seen };
}

impl<'a> ClauseDraft<'a> {
    /// Nothing was read. It takes no memory.
    pub fn empty(alloc: Global) -> ClauseDraft<'a>
        ensures { result ≡ drafts.empty_draft }
    {
        ClauseDraft {
            literals: Vec::new(alloc),
            is_negative: false,
            atom: Vec::new(alloc),
            open_words: Vec::new(alloc),
            variables: Items::empty(alloc),
        }
    }

    /// Reads a symbol, of which no argument has begun.
    pub fn push_symbol(&mut self, kind: Kind, text: &'a [u8], quoted: bool) -> Result<(), NoMemory>
        ensures { IfOk result (λ _. self.new ≡ drafts.push_symbol (kind_seen kind) (text_seen quoted text.now) self.old) }
    {
        let symbol = RawSymbol {
            kind,
            text,
            quoted,
            arity: 0,
        };
        self.atom.push(RawItem::Symbol(symbol))?;
        Ok(())
    }

    /// Reads `~`.
    pub fn negate(&mut self)
        ensures { self.new ≡ record self.old { is_negative = true } }
    {
        self.is_negative = true;
    }

    /// Reads `$true` or `$false`.
    pub fn push_constant(&mut self, truth: bool) -> Result<(), NoMemory>
        ensures { IfOk result (λ _. self.new ≡ drafts.push_constant truth self.old) }
    {
        let literal = if truth == self.is_negative {
            RawLiteral::Never
        } else {
            RawLiteral::Always
        };
        self.literals.push(literal)?;
        self.is_negative = false;
        Ok(())
    }

    /// The atom under way is whole.
    pub fn finish(&mut self) -> Result<(), NoMemory>
        ensures { IfOk result (λ _. self.new ≡ drafts.finish self.old) }
    {
        if self.atom.is_empty() {
            return Ok(());
        }
        let alloc = *self.atom.allocator();
        let atom = mem::replace(&mut self.atom, Vec::new(alloc));
        self.literals
            .push(RawLiteral::Signed(self.is_negative, atom))?;
        self.is_negative = false;
        Ok(())
    }

    /// The word at the end opens its arguments, and the first begins.
    pub fn first_argument(&mut self) -> Result<(), NoMemory>
        requires { IsRoomy self.old }
        ensures { IfOk result (λ _. self.new ≡ drafts.first_argument self.old) }
    {
        let place = self.atom.len().saturating_sub(1);
        add_argument(&mut self.atom, place);
        self.open_words.push(place)?;
        Ok(())
    }

    /// A further argument of the innermost open word begins.
    pub fn next_argument(&mut self)
        requires { IsRoomy self.old }
        ensures { self.new ≡ drafts.next_argument self.old }
    {
        if let Some(place) = self.open_words.last().copied() {
            add_argument(&mut self.atom, place);
        }
    }

    /// The innermost open word closes its arguments.
    pub fn close_arguments(&mut self)
        ensures { self.new ≡ drafts.close_arguments self.old }
    {
        let _closed = self.open_words.pop();
    }

    /// Reads a variable.
    pub fn push_variable(&mut self, text: &[u8]) -> Result<(), NoMemory>
        requires { IsRoomy self.old }
        ensures { IfOk result (λ _. self.new ≡ drafts.push_variable text.now self.old) }
    {
        let index = number_variable(&mut self.variables, text)?;
        self.atom.push(RawItem::Variable(index))?;
        Ok(())
    }

    /// The literals that are whole.
    pub fn literals(&self) -> &[RawLiteral<'a>]
        ensures { map literal_seen result.now ≡ self.now.literals }
    {
        self.literals.as_slice()
    }

    /// The variables. It takes no memory.
    pub fn into_variables(self) -> Items<Text>
        ensures { result ≡ self.entry.variables }
    {
        self.variables
    }

    /// How many literals are whole.
    pub fn count(&self) -> usize
        ensures { result ≡ length self.now.literals }
    {
        self.literals.len()
    }

    /// Whether the variable is a new one, and as many as a clause may have were read.
    pub fn lacks_room_for(&self, text: &[u8]) -> bool
        ensures { result ≡ lacks_room self.now.variables text.now }
    {
        lacks_room(self.variables.as_slice(), text)
    }

    /// Which of the literals have a word for their atom.
    pub fn words(&self) -> Result<Items<bool>, NoMemory>
        ensures { IfOk result (λ words. words ≡ map has_word self.now.literals) }
    {
        let mut words = Vec::with_capacity(self.variables.allocator(), self.literals.len())?;
        for literal in &self.literals {
            words.push(literal.has_word())?;
        }
        Ok(Items::new(words))
    }

    /// What the token, read with this mode and so many brackets of arguments open, adds.
    pub fn collect(&mut self, state: State, depth: u32, token: &Lexeme<'a>) -> Result<(), NoMemory>
        requires { IsRoomy self.old }
        ensures { IfOk result (λ _. self.new ≡ drafts.collect_at state depth (seen token.now) self.old) }
    {
        match state {
            State::FormulaStart | State::LiteralStart | State::AtomStart => self.begin_literal(
                token,
            ),
            State::WordRead => self.end_word(depth, token),
            State::TermStart => self.begin_term(token),
            State::TermRead => self.end_term(depth, token),
            _ => Ok(()),
        }
    }

    // Where a formula, a literal or an atom must begin.
    fn begin_literal(&mut self, token: &Lexeme<'a>) -> Result<(), NoMemory>
        ensures { IfOk result (λ _. self.new ≡ drafts.begin_literal (seen token.now) self.old) }
    {
        match token.kind {
            TokenKind::Lower => self.push_symbol(Kind::Word, token.text, false),
            TokenKind::Quoted => self.push_symbol(Kind::Word, token.text, true),
            TokenKind::Dollar => self.push_constant(token.text == b"$true".as_slice()),
            TokenKind::Punct(b'~') => {
                self.negate();
                Ok(())
            }
            _ => Ok(()),
        }
    }

    // Where a term must begin.
    fn begin_term(&mut self, token: &Lexeme<'a>) -> Result<(), NoMemory>
        requires { IsRoomy self.old }
        ensures { IfOk result (λ _. self.new ≡ drafts.begin_term (seen token.now) self.old) }
    {
        match token.kind {
            TokenKind::Upper => self.push_variable(token.text),
            TokenKind::Number => self.push_symbol(Kind::Integer, token.text, false),
            TokenKind::Distinct => self.push_symbol(Kind::Distinct, token.text, true),
            TokenKind::Lower => self.push_symbol(Kind::Word, token.text, false),
            TokenKind::Quoted => self.push_symbol(Kind::Word, token.text, true),
            _ => Ok(()),
        }
    }

    // Behind a term or an atom.
    fn end_term(&mut self, depth: u32, token: &Lexeme<'a>) -> Result<(), NoMemory>
        requires { IsRoomy self.old }
        ensures { IfOk result (λ _. self.new ≡ drafts.end_term depth (seen token.now) self.old) }
    {
        if depth == 0 {
            return self.finish();
        }
        if token.is_mark(b',') {
            self.next_argument();
        } else {
            self.close_arguments();
        }
        Ok(())
    }

    // Behind a word.
    fn end_word(&mut self, depth: u32, token: &Lexeme<'a>) -> Result<(), NoMemory>
        requires { IsRoomy self.old }
        ensures { IfOk result (λ _. self.new ≡ drafts.end_word depth (seen token.now) self.old) }
    {
        if token.is_mark(b'(') {
            return self.first_argument();
        }
        self.end_term(depth, token)
    }
}

impl RawLiteral<'_> {
    // Whether it has a word for its atom.
    fn has_word(&self) -> bool
        ensures { result ≡ has_word (literal_seen self.now) }
    {
        matches!(self, RawLiteral::Signed(..))
    }
}

// Whether the variable is a new one, and as many as a clause may have are there.
fn lacks_room(variables: &[Text], text: &[u8]) -> bool
    ensures { result ≡ lacks_room variables.now text.now }
{
    variables.len() >= MOST_VARIABLES && variable_index(variables, text) == variables.len()
}

// The number of the variable, or that of all variables where it is new.
fn variable_index(variables: &[Text], text: &[u8]) -> usize
    ensures { result ≡ meaning.index_of variables.now text.now }
{
    for (index, variable) in variables.iter().enumerate() {
        if variable.as_slice() == text {
            return index;
        }
    }
    variables.len()
}

// The number of the variable, which is added where it is new.
fn number_variable(variables: &mut Items<Text>, text: &[u8]) -> Result<u32, NoMemory>
    requires { length variables.old ≤ 32 }
    ensures { IfOk result (λ index. (variables.new ≡ drafts.with_variable variables.old text.now) × (index ≡ meaning.index_of (drafts.with_variable variables.old text.now) text.now)) }
{
    let index = variable_index(variables.as_slice(), text);
    let number = index as u32;
    if index < variables.as_slice().len() {
        return Ok(number);
    }
    let name = Text::new(Vec::from_slice(variables.allocator(), text)?);
    variables.push(name)?;
    Ok(number)
}

// One more argument of the symbol at this place.
fn add_argument(items: &mut Vec<RawItem>, place: usize)
    requires { All (HasFew 4294967294) (map item_seen items.old.items) }
    ensures { map item_seen items.new.items ≡ drafts.add_argument place (map item_seen items.old.items) }
{
    if place >= items.len() {
        return;
    }
    if let RawItem::Symbol(symbol) = items[place] {
        let arity = symbol.arity + 1;
        items[place] = RawItem::Symbol(RawSymbol { arity, ..symbol });
    }
}

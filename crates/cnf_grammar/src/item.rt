//! An item of an info, followed as long as it can still be right.

ghost use Rattle.std.specs.Prelude.{◌≡◌, ◌<◌, ◌^◌, [], Some, None, length};
ghost use Rattle.cnf_grammar.specs.Seen.{seen};
ghost use Rattle.cnf_grammar.specs.Shapes.{Number, shape_of};
ghost use Rattle.cnf_grammar.specs.Conclude.{has_word_at, may_follow};
ghost use Rattle.cnf_grammar.specs.Items.{item_start, word_read, list_open, number_read, names_above, at_item, number_at, item_step};

use crate::Lexeme;
use ascii_text::number_up_to;
use tptp_lexer::TokenKind;

/// Where a reader stands in an item of an info.
#[derive(Clone, Copy, Debug, PartialEq, Eq)]
pub enum ItemState {
    /// Nothing was read.
    Start,
    /// Behind `conclude`.
    WordRead,
    /// Behind `conclude(`.
    Open,
    /// Behind `conclude([`.
    ListOpen,
    /// Behind a number of the list, which is this.
    NumberRead(u32),
    /// Behind the comma after a number of the list, which is this.
    NumberStart(u32),
    /// Behind the closing square bracket of the list.
    ListClosed,
    /// Behind the closing round bracket, where the item must end.
    Closed,
    /// In an item that is passed over.
    Other,
}

impl ItemState {
    /// Where a token of the item leads. There is no position where no end of the item would be right.
    /// `words` tells which literals of the clause have a word for their atom.
    pub fn step(
        self,
        words: &[bool],
        kind: TokenKind,
        text: &[u8],
        plain: bool,
    ) -> Option<ItemState>
        requires { length words.now < 2 ^ 32 }
        ensures { result ≡ item_step words.now self (shape_of kind text.now plain) }
    {
        let token = Lexeme { kind, text, plain };
        match self {
            ItemState::Start => Some(word_or_other(&token)),
            ItemState::WordRead => Some(open_or_other(&token)),
            ItemState::Open => place_if(token.is_mark(b'['), ItemState::ListOpen),
            ItemState::ListOpen => list_open(words, &token),
            ItemState::NumberRead(last) => number_read(words, last, &token),
            ItemState::NumberStart(last) => number_start(words, last, &token),
            ItemState::ListClosed => place_if(token.is_mark(b')'), ItemState::Closed),
            ItemState::Closed => None,
            ItemState::Other => Some(ItemState::Other),
        }
    }
}

fn place_if(test: bool, position: ItemState) -> Option<ItemState>
    ensures { result ≡ at_item test position None }
{
    if test { Some(position) } else { None }
}

fn word_or_other(token: &Lexeme) -> ItemState
    ensures { Some result ≡ item_step [] item_start (seen token.now) }
{
    if token.is_keyword(b"conclude") {
        ItemState::WordRead
    } else {
        ItemState::Other
    }
}

fn open_or_other(token: &Lexeme) -> ItemState
    ensures { Some result ≡ item_step [] word_read (seen token.now) }
{
    if token.is_mark(b'(') {
        ItemState::Open
    } else {
        ItemState::Other
    }
}

fn list_open(words: &[bool], token: &Lexeme) -> Option<ItemState>
    requires { length words.now < 2 ^ 32 }
    ensures { result ≡ item_step words.now list_open (seen token.now) }
{
    if token.is_mark(b']') {
        return Some(ItemState::ListClosed);
    }
    number_start(words, 0, token)
}

fn number_read(words: &[bool], last: u32, token: &Lexeme) -> Option<ItemState>
    ensures { result ≡ item_step words.now (number_read last) (seen token.now) }
{
    if token.is_mark(b']') {
        return Some(ItemState::ListClosed);
    }
    place_if(
        token.is_mark(b',') && names_above(words, last),
        ItemState::NumberStart(last),
    )
}

fn number_start(words: &[bool], last: u32, token: &Lexeme) -> Option<ItemState>
    requires { length words.now < 2 ^ 32 }
    ensures { result ≡ number_at words.now last (seen token.now) }
{
    match token.kind {
        TokenKind::Number => number_of(words, last, token.text, token.plain),
        _ => None,
    }
}

// The position behind a number that may follow the last one.
fn number_of(words: &[bool], last: u32, text: &[u8], plain: bool) -> Option<ItemState>
    requires { length words.now < 2 ^ 32 }
    ensures { result ≡ number_at words.now last (Number text.now plain) }
{
    if !plain {
        return None;
    }
    match number_up_to(text, words.len() as u32) {
        Some(number) => place_if(
            may_follow(words, last, number),
            ItemState::NumberRead(number),
        ),
        None => None,
    }
}

// Whether a number above the last one names a literal that has a word.
fn names_above(words: &[bool], last: u32) -> bool
    ensures { result ≡ names_above words.now last }
{
    for (position, word) in words.iter().enumerate() {
        if last as usize <= position && *word {
            return true;
        }
    }
    false
}

fn may_follow(words: &[bool], last: u32, number: u32) -> bool
    ensures { result ≡ may_follow words.now last number }
{
    last < number && has_word_at(words, number as usize - 1)
}

fn has_word_at(words: &[bool], position: usize) -> bool
    ensures { result ≡ has_word_at words.now position }
{
    position < words.len() && words[position]
}

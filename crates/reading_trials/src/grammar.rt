//! Tests: whole token lists go where a reader by hand says, with memory at hand, and where an allocation is refused
//! the same call again.

ghost use Rattle.std.specs.Prelude.{◌+◌, ◌<◌, ◌^◌};

use cnf_grammar::{Bracket, Brackets, ItemState, Position, State};
use mg_word::NoMemory;
use std::alloc::Global;
use std::test::Fail;
use tptp_lexer::TokenKind;

/// The token of these bytes, by their first one.
fn token(text: &[u8]) -> (TokenKind, bool) {
    match text {
        [b'a'..=b'z', ..] => (TokenKind::Lower, false),
        [b'A'..=b'Z', ..] => (TokenKind::Upper, false),
        [b'0'..=b'9', ..] => (TokenKind::Number, true),
        [b'\'', ..] => (TokenKind::Quoted, false),
        [b'"', ..] => (TokenKind::Distinct, false),
        [b'$', ..] => (TokenKind::Dollar, false),
        [byte, ..] => (TokenKind::Punct(*byte), false),
        [] => (TokenKind::NotEqual, false),
    }
}

/// Moves the position by the token; where memory is refused, by the same token again.
fn move_on(
    position: &mut Position,
    kind: TokenKind,
    text: &[u8],
    plain: bool,
) -> Result<bool, NoMemory>
    requires level { position.old.level + 1 < 2 ^ 32 }
    requires depth { position.old.depth + 1 < 2 ^ 32 }
{
    match position.advance(kind, text, plain) {
        Ok(moved) => Ok(moved),
        Err(NoMemory) => position.advance(kind, text, plain),
    }
}

/// The state that the tokens between the spaces lead to, if they lead on.
fn follow(alloc: Global, spaced: &[u8]) -> Result<Option<State>, NoMemory> {
    let mut position = Position::start(alloc);
    for text in spaced.split(|byte| *byte == b' ') {
        if position.level > 99 || position.depth > 99 {
            return Ok(None);
        }
        let (kind, plain) = token(text);
        if !move_on(&mut position, kind, text, plain)? {
            return Ok(None);
        }
    }
    Ok(Some(position.state))
}

#[test]
fn follows_token_lists(rt: HostRuntime) -> Result<(), Fail> {
    let rows: [(&[u8], Option<State>); 14] = [
        (b"cnf ( a , axiom , p | ~ q ) .", Some(State::Statement)),
        (
            b"cnf ( 7 , axiom , ( p ( X , f ( 'bc' ) , \"d\" , 0 ) ) ) .",
            Some(State::Statement),
        ),
        (
            b"cnf ( a , axiom , $true , s ( [ x , ( ) ] ) , [ i , [ ] ] ) .",
            Some(State::Statement),
        ),
        (b"include ( 'a.ax' , [ a , 7 ] ) .", Some(State::Statement)),
        (b"include ( a ) . cnf", Some(State::ClauseWord)),
        (b"cnf ( a , axiom , p ( X", Some(State::TermRead)),
        (b"cnf ( a , axiom , p , s ( [", Some(State::Source)),
        (b"cnf ( a , axiom , ~ ~", None),
        (b"cnf ( a , axiom , p ( )", None),
        (b"cnf ( a , axiom , p , s ( ]", None),
        (b"cnf ( a , axiom , p , ,", None),
        (b"cnf ( a , axiom , p ) cnf", None),
        (b"include ( ''", None),
        (b"fof", None),
    ];
    for (row, (tokens, state)) in rows.into_iter().enumerate() {
        assert_eq!(rt; follow(rt.alloc(), tokens)?, state, "at row {row}");
    }
    Ok(())
}

#[test]
fn keeps_brackets(rt: HostRuntime) -> Result<(), Fail> {
    let mut brackets = Brackets::empty(rt.alloc());
    if brackets.push(Bracket::Round).is_err() {
        assert_eq!(rt; brackets.innermost(), None);
        brackets.push(Bracket::Round)?;
    }
    if brackets.push(Bracket::Square).is_err() {
        assert_eq!(rt; brackets.innermost(), Some(Bracket::Round));
        brackets.push(Bracket::Square)?;
    }
    assert_eq!(rt; brackets.innermost(), Some(Bracket::Square));
    brackets.close();
    assert_eq!(rt; brackets.innermost(), Some(Bracket::Round));
    brackets.restart(Bracket::Square)?;
    assert_eq!(rt; brackets.innermost(), Some(Bracket::Square));
    brackets.clear();
    assert_eq!(rt; brackets.innermost(), None);
    brackets.restart(Bracket::Round)?;
    assert_eq!(rt; brackets.innermost(), Some(Bracket::Round));
    Ok(())
}

/// Where the tokens between the spaces lead in an item of a clause `p | $false | q`.
fn follow_item(spaced: &[u8]) -> Option<ItemState> {
    let words = [true, false, true];
    let mut position = ItemState::Start;
    for text in spaced.split(|byte| *byte == b' ') {
        let (kind, plain) = token(text);
        position = position.step(&words, kind, text, plain)?;
    }
    Some(position)
}

#[test]
fn follows_items(rt: HostRuntime) {
    let rows: [(&[u8], Option<ItemState>); 10] = [
        (b"conclude ( [ 1 , 3 ] )", Some(ItemState::Closed)),
        (b"conclude ( [ ] )", Some(ItemState::Closed)),
        (b"conclude ( [ 1 ,", Some(ItemState::NumberStart(1))),
        (b"conclude [ 9 ]", Some(ItemState::Other)),
        (b"status ( thm )", Some(ItemState::Other)),
        (b"conclude ( [ 2", None),
        (b"conclude ( [ 3 ,", None),
        (b"conclude ( [ 1 , 1", None),
        (b"conclude ( [ 4294967297", None),
        (b"conclude ( [ 1 ] ) more", None),
    ];
    for (row, (tokens, position)) in rows.into_iter().enumerate() {
        assert_eq!(rt; follow_item(tokens), position, "at row {row}");
    }
}

//! Searches of one worker on small problems, with answers by hand.

ghost use Rattle.std.specs.Prelude.{◌<◌, ◌≤◌};
ghost use Rattle.tree_board.specs.declared.board.TheConstants.{MOST_BUDGET, MOST_WEIGHT};

use crate::boards::board_of;
use std::alloc::Global;
use std::test::Fail;
use tree_board::{Board, BoardState, Event, Limit, Mode, NodeKind, finish_alone};

fn finished(alloc: Global, text: &str, mode: Mode, budget: u32, weight: u32) -> Result<Board, Fail>
    requires budget { budget ≤ MOST_BUDGET }
    requires some_weight { 0 < weight }
    requires weight { weight ≤ MOST_WEIGHT }
{
    let board = board_of(alloc, text, mode, budget, weight)?;
    Ok(finish_alone(alloc, board)?)
}

#[test]
fn a_contradiction_closes_the_root(rt: HostRuntime) -> Result<(), Fail> {
    let alloc = rt.alloc();
    let text = "cnf(a,axiom,p(a)). cnf(b,axiom,~p(X)|q(X)). cnf(c,axiom,~q(a)).";
    let board = finished(alloc, text, Mode::Refute, 100, 256)?;
    assert!(rt; matches!(board.state(), BoardState::Closed));
    assert_eq!(rt; board.count(), 2);
    assert_eq!(rt; board.journal().len(), 3);
    Ok(())
}

#[test]
fn the_empty_clause_needs_no_budget(rt: HostRuntime) -> Result<(), Fail> {
    let alloc = rt.alloc();
    let board = finished(alloc, "cnf(a,axiom,$false).", Mode::Refute, 0, 1)?;
    assert!(rt; matches!(board.state(), BoardState::Closed));
    assert_eq!(rt; board.journal().len(), 1);
    Ok(())
}

#[test]
fn no_clause_has_a_model(rt: HostRuntime) -> Result<(), Fail> {
    let alloc = rt.alloc();
    let board = finished(alloc, "", Mode::Refute, 0, 1)?;
    assert!(rt; matches!(board.state(), BoardState::Model(0)));
    Ok(())
}

// p(a), p(f(a)), p(f(f(a))), and so on.
#[test]
fn an_endless_branch_is_blocked(rt: HostRuntime) -> Result<(), Fail> {
    let alloc = rt.alloc();
    let text = "cnf(a,axiom,p(a)). cnf(b,axiom,~p(X)|p(f(X))).";
    let board = finished(alloc, text, Mode::Refute, 3, 256)?;
    assert!(rt; matches!(board.state(), BoardState::Blocked(Limit::Budget)));
    assert_eq!(rt; board.count(), 3);
    assert_eq!(rt; board.nodes(), 4);
    let board = finished(alloc, text, Mode::List, 100, 3)?;
    assert!(rt; matches!(board.state(), BoardState::Blocked(Limit::Weight)));
    Ok(())
}

// The lemma of the first case of a|b settles the second.
#[test]
fn a_lemma_settles_the_other_case(rt: HostRuntime) -> Result<(), Fail> {
    let alloc = rt.alloc();
    let text = "cnf(a,axiom,a|b). cnf(b,axiom,c|d). cnf(c,axiom,~c). cnf(d,axiom,~d).";
    let board = finished(alloc, text, Mode::Refute, 100, 256)?;
    assert!(rt; matches!(board.state(), BoardState::Closed));
    assert_eq!(rt; board.count(), 2);
    assert!(rt; board.lemma(1).is_some());
    assert!(rt; board.lemma(2).is_none());
    assert_eq!(rt; board.lemma_node(1), Some(1));
    assert_eq!(rt; board.settled_by(2), Some(1));
    Ok(())
}

#[test]
fn all_minimal_sets_are_found(rt: HostRuntime) -> Result<(), Fail> {
    let alloc = rt.alloc();
    let text = "cnf(a,axiom,p|q). cnf(b,axiom,~p|r). cnf(c,axiom,~q|r).";
    let board = finished(alloc, text, Mode::List, 100, 256)?;
    assert!(rt; matches!(board.state(), BoardState::Complete));
    assert_eq!(rt; board.node_state(3), Some(NodeKind::Found));
    assert_eq!(rt; board.node_state(4), Some(NodeKind::Found));
    assert_eq!(rt; board.journal().len(), 5);
    assert!(rt; matches!(board.journal().get(2), Some(Event::Saturated { node: 3 })));
    Ok(())
}

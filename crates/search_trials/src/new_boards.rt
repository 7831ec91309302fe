//! Each call on a board that has its root alone.

use crate::boards::board_of;
use mg_word::NoMemory;
use std::alloc::Global;
use std::test::Fail;
use tree_board::{Board, BoardState, Limit, MOST_BUDGET, MOST_WEIGHT, Mode, NodeKind};

const PROBLEM: &str = "cnf(a,axiom,p(a)). cnf(b,axiom,~p(X)|q(X)).";

fn is_list(mode: Mode) -> bool {
    matches!(mode, Mode::List)
}

// Whether it has one node, which is open, and nothing was done.
fn is_new(board: &Board) -> bool {
    board.journal().is_empty()
        && board.count() == 0
        && board.nodes() == 1
        && matches!(board.state(), BoardState::Running)
        && board.node_state(0) == Some(NodeKind::Open)
}

// Whether nothing settled the node, and no lemma of it is kept.
fn is_untouched(board: &Board, node: u32) -> bool {
    board.instance(node).is_none()
        && board.first_child(node).is_none()
        && board.closed_at_once(node).is_none()
        && board.settled_by(node).is_none()
        && board.own_lemma(node).is_none()
}

// Whether no lemma is kept with the number.
fn is_no_lemma(board: &Board, number: u32) -> bool {
    board.lemma(number).is_none() && board.lemma_node(number).is_none()
}

// How many literals the node has, if it is there.
fn lits_len(alloc: Global, board: &Board, node: u32) -> Result<Option<usize>, NoMemory> {
    match board.lits(alloc, node)? {
        Some(lits) => Ok(Some(lits.len())),
        None => Ok(None),
    }
}

#[test]
fn the_root_is_open(rt: HostRuntime) -> Result<(), Fail> {
    let alloc = rt.alloc();
    for mode in [Mode::Refute, Mode::List] {
        let board = board_of(alloc, PROBLEM, mode, MOST_BUDGET, MOST_WEIGHT)?;
        assert_eq!(rt; board.problem().forms.as_slice().len(), 2);
        assert_eq!(rt; is_list(board.mode()), is_list(mode));
        assert_eq!(rt; board.limits().budget, MOST_BUDGET);
        assert_eq!(rt; board.limits().weight, MOST_WEIGHT);
        assert!(rt; is_new(&board));
        assert_eq!(rt; lits_len(alloc, &board, 0)?, Some(0));
        assert!(rt; is_untouched(&board, 0));
        assert!(rt; is_no_lemma(&board, 1));
    }
    Ok(())
}

#[test]
fn no_other_node_is_there(rt: HostRuntime) -> Result<(), Fail> {
    let alloc = rt.alloc();
    let board = board_of(alloc, PROBLEM, Mode::List, 1, 1)?;
    for node in [1, u32::MAX] {
        assert_eq!(rt; board.node_state(node), None);
        assert_eq!(rt; lits_len(alloc, &board, node)?, None);
        assert!(rt; is_untouched(&board, node));
    }
    for number in [0, u32::MAX] {
        assert!(rt; is_no_lemma(&board, number));
    }
    Ok(())
}

// With no extension allowed the search is blocked from its beginning.
#[test]
fn no_budget_blocks(rt: HostRuntime) -> Result<(), Fail> {
    let alloc = rt.alloc();
    let board = board_of(alloc, PROBLEM, Mode::Refute, 0, 1)?;
    assert!(rt; matches!(board.state(), BoardState::Blocked(Limit::Budget)));
    Ok(())
}

//! The documents of boards.

use crate::boards::board_of;
use board_tree::{TreeRefusal, tree_of};
use std::test::Fail;
use tree_board::Mode;

#[test]
fn an_open_root_has_none(rt: HostRuntime) -> Result<(), Fail> {
    let alloc = rt.alloc();
    for mode in [Mode::Refute, Mode::List] {
        let board = board_of(alloc, "cnf(a,axiom,p|q).", mode, 3, 10)?;
        assert!(rt; matches!(tree_of(alloc, &board), Err(TreeRefusal::NotClosed)));
    }
    Ok(())
}

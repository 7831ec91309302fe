//! What a board answers to claims and commits, worked by hand.

use crate::boards::board_of;
use board_tree::{TreeRefusal, tree_of};
use mg_word::{LitSet, NoMemory};
use model_extend::{Branch, make_step};
use std::alloc::Global;
use std::test::Fail;
use tree_board::{Board, Claim, Commit, Mode};

// A node without literals that is to be looked at.
struct Root {
    branch: Branch,
    barred: LitSet,
    weight: u32,
}

/// A function of its own, so that dropping a root is one step for whoever does.
impl Drop for Root {
    fn drop(self) {
        let Root {
            branch: _,
            barred: _,
            weight: _,
        } = self;
    }
}

// Claims the root.
fn claimed(alloc: Global, board: &mut Board) -> Result<Root, Fail> {
    match board.claim(alloc, 0)? {
        Claim::Task {
            problem,
            lits,
            barred,
            weight,
        } => {
            if !lits.is_empty() {
                return Err(Fail::from("a root with literals"));
            }
            Ok(Root {
                branch: Branch::new(alloc, problem)?,
                barred,
                weight,
            })
        }
        _ => Err(Fail::from("no task")),
    }
}

impl Root {
    // Commits the step of the root at the node with this number.
    fn commit(&self, alloc: Global, board: &mut Board, node: u32) -> Result<Commit, NoMemory> {
        let step = make_step(&self.branch, self.barred.copy()?, self.weight)?;
        board.commit(alloc, node, step)
    }
}

// The root splits by p|q into the nodes 1 and 2. Its step comes once, and is none of node 1, which holds p.
#[test]
fn a_step_settles_its_own_node_once(rt: HostRuntime) -> Result<(), Fail> {
    let alloc = rt.alloc();
    let text = "cnf(a,axiom,p|q). cnf(b,axiom,~p|r). cnf(c,axiom,~q|r).";
    let mut board = board_of(alloc, text, Mode::List, 100, 256)?;
    let root = claimed(alloc, &mut board)?;
    let first = root.commit(alloc, &mut board, 0)?;
    assert!(rt; matches!(&first, Commit::Done(nodes) if nodes.as_slice() == [1, 2].as_slice()));
    let again = root.commit(alloc, &mut board, 0)?;
    assert!(rt; matches!(&again, Commit::Late));
    let elsewhere = root.commit(alloc, &mut board, 1)?;
    assert!(rt; matches!(&elsewhere, Commit::Foreign));
    let absent = board.claim(alloc, 9)?;
    assert!(rt; matches!(&absent, Claim::Settled));
    assert!(rt; matches!(tree_of(alloc, &board), Err(TreeRefusal::NotClosed)));
    Ok(())
}

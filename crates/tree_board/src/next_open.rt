//! The next open node in tree order.

ghost use Rattle.std.specs.Prelude.{◌<◌, Some, length};
ghost use Rattle.tree_board.specs.NextOpen.{AnswersNext, GoesBehind, GoesOn};
ghost use Rattle.tree_board.specs.Searches.{board_of, setting_of};
ghost use Rattle.tree_board.specs.Workers.{IsKnown};

use crate::Board;
use crate::cell::{parent_at, sibling_at};
use crate::cell_climb::unclosed_first;

impl Board {
    // The first node in tree order that comes after the one with this number and not below it, if there is one: the next
    // sibling of the first that has one, of that node and those above it.
    fn behind(&self, node: u32) -> Option<u32>
        requires { node < length (board_of self.now).nodes }
        ensures { GoesBehind (board_of self.now) node result }
    {
        let cells = self.cells.as_slice();
        let mut at = node;
        'up: while at != 0 {
            match sibling_at(cells, at) {
                Some(next) => return Some(next),
                None => at = parent_at(cells, at),
            }
        }
        None
    }

    // A node that comes after the one with this number, with no open node between them, if an open one comes after it: its
    // first child if it is split, and else, since none below it is open, the first behind it.
    fn ahead(&self, after: Option<u32>) -> Option<u32>
        ensures goes { GoesOn (board_of self.now) after result }
        ensures known { IsKnown (setting_of self.now) (board_of self.now) }
    {
        let cells = self.cells.as_slice();
        let Some(node) = after else {
            return Some(0);
        };
        if node >= self.nodes() {
            return None;
        }
        let Some(child) = unclosed_first(cells, node) else {
            return self.behind(node);
        };
        Some(child)
    }

    /// The first open node in tree order, or the first after the node with this number, if there is one. It takes no memory.
    pub fn next_open(&self, after: Option<u32>) -> Option<u32>
        ensures { AnswersNext (board_of self.now) after result }
    {
        let mut at = self.ahead(after)?;
        'walk: while !self.has_open(at) {
            at = self.ahead(Some(at))?;
        }
        Some(at)
    }
}

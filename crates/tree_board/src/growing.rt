//! Boards with one event more.

ghost use Rattle.std.specs.Prelude.{◌≡◌, ◌∷◌, ◌++◌, [], IfOk, OnErr, OnOk, map};
ghost use Rattle.tree_board.specs.CellMoves.{AreCases, AreReasons, lemma_made, reasons_of};
ghost use Rattle.tree_board.specs.Lawful.{IsLawful};
ghost use Rattle.tree_board.specs.Searches.{setting_of, board_of};

use crate::cell_climb::copied;
use crate::cell_growth::{Change, grow};
use crate::cell_moves::{born, settled_as};
use crate::{Board, Event};
use branch_lemmas::{Lemma, leaf_lemma};
use case_split::{Child, Closure, children};
use mg_word::NoMemory;
use std::alloc::Global;

// Why the cases are closed at once, of each that is.
fn reasons_of(alloc: Global, cases: Vec<Child>) -> Result<Vec<Option<Closure>>, NoMemory>
    ensures { IfOk result (λ reasons. reasons.items ≡ reasons_of cases.items) }
{
    let mut reasons = Vec::with_capacity(alloc, cases.len())?;
    'cases: for case in cases {
        reasons.push(case.at_once)?;
    }
    Ok(reasons)
}

impl Board {
    // The cases that the event makes, which may come next.
    fn cases(&self, alloc: Global, event: &Event) -> Result<Vec<Child>, NoMemory>
        requires { IsLawful (setting_of self.now) (board_of self.now) event.now }
        ensures { IfOk result (λ cases. AreCases (board_of self.now) event.now cases.items) }
    {
        match event {
            Event::Extend { node, inst } => {
                let lits = self.lits_at(alloc, *node)?;
                let barred = self.barred_at(alloc, *node)?;
                children(alloc, inst, lits.as_slice(), &barred)
            }
            _ => Ok(Vec::new(alloc)),
        }
    }

    // The lemma of the node that the event closes, if it closes one. The event may come next.
    fn lemma_made(&self, alloc: Global, event: &Event) -> Result<Option<Lemma>, NoMemory>
        requires { IsLawful (setting_of self.now) (board_of self.now) event.now }
        ensures { IfOk result (λ lemma. lemma ≡ lemma_made (map (λ one. one.pair) (board_of self.now).kept) event.now) }
    {
        match event {
            Event::Reject { inst, .. } => Ok(Some(leaf_lemma(alloc, inst)?)),
            Event::ByLemma { lemma, .. } => match self.lemma(*lemma) {
                Some(kept) => Ok(Some(copied(kept)?)),
                None => Ok(None),
            },
            _ => Ok(None),
        }
    }

    /// Adds this event, which may come next, and whose cases are closed at once for these reasons: its node is settled, its
    /// children are born, and all closings follow. After want of memory the board is as before.
    fn append_by(
        &mut self,
        alloc: Global,
        event: Event,
        reasons: Vec<Option<Closure>>,
    ) -> Result<(), NoMemory>
        requires lawful { IsLawful (setting_of self.old) (board_of self.old) event }
        requires reasons { AreReasons (board_of self.old) event reasons.items }
        ensures ok { OnOk result (self.new ≡ record self.old { journal = self.old.journal ++ event ∷ [] }) }
        ensures err { OnErr result (self.new ≡ self.old) }
    {
        let node = event.node();
        let lemma = self.lemma_made(alloc, &event)?;
        let children = born(alloc, node, self.closures.len() as u32, reasons)?;
        let settled = settled_as(&event, self.journal.len() as u32, self.cells.len() as u32);
        let tally = self.tally.after(&event, children.opens());
        self.journal.push(event)?;
        let change = Change {
            node,
            settled,
            lemma,
            children,
        };
        let outcome = grow(
            alloc,
            &mut self.cells,
            &mut self.closures,
            self.journal.as_slice(),
            &mut self.lemmas,
            &mut self.lemma_nodes,
            change,
        );
        if outcome.is_err() {
            let _ = self.journal.pop();
            return Err(NoMemory);
        }
        self.tally = tally;
        Ok(())
    }

    /// Adds this event, which may come next, wherever it is. After want of memory the board is as before.
    pub(crate) fn append(&mut self, alloc: Global, event: Event) -> Result<(), NoMemory>
        requires { IsLawful (setting_of self.old) (board_of self.old) event }
        ensures ok { OnOk result (self.new ≡ record self.old { journal = self.old.journal ++ event ∷ [] }) }
        ensures err { OnErr result (self.new ≡ self.old) }
    {
        let cases = self.cases(alloc, &event)?;
        let reasons = reasons_of(alloc, cases)?;
        self.append_by(alloc, event, reasons)
    }

    /// The board with this event, which may come next, and whose cases are closed at once for these reasons. After want of
    /// memory the board is dropped.
    pub(crate) fn with(
        self,
        alloc: Global,
        event: Event,
        reasons: Vec<Option<Closure>>,
    ) -> Result<Board, NoMemory>
        requires lawful { IsLawful (setting_of self) (board_of self) event }
        requires reasons { AreReasons (board_of self) event reasons.items }
        ensures { IfOk result (λ board. board ≡ record self { journal = self.journal ++ event ∷ [] }) }
    {
        let mut board = self;
        board.append_by(alloc, event, reasons)?;
        Ok(board)
    }
}

//! Open nodes that are handed out, and what is found there and brought back.

ghost use Rattle.std.specs.Prelude.{◌≡◌, ◌↔◌, ◌+◌, ◌++◌, [], ◌<◌, ◌^◌, false, IfOk, IsTrue, OnErr, OnOk, length, slice_get};
ghost use Rattle.std.specs.Option.{option_map_or};
ghost use Rattle.tree_board.specs.Boards.{count};
ghost use Rattle.tree_board.specs.CellStanding.{is_open_yet};
ghost use Rattle.tree_board.specs.Claims.{AreNewOpen, Claims, Commits, IsExtension, IsSpent, IsStepWith, event_found, open_case, open_cases};
ghost use Rattle.tree_board.specs.Lawful.{IsLawful};
ghost use Rattle.tree_board.specs.Quick.{IsOpenWith};
ghost use Rattle.tree_board.specs.Searches.{setting_of, board_of};
ghost use Rattle.tree_board.specs.Settling.{IsOpenAt, IsUntouched};

use crate::cell::Cell;
use crate::quick::Quick;
use crate::{Board, Event};
use case_split::{Child, children};
use mg_word::{Items, Lit, LitSet, NoMemory, Problem, lits_cmp};
use model_extend::{Found, Step};
use std::alloc::Global;
use std::sync::Arc;

/// The answer to a claim of a node.
#[derive(Drop)]
pub enum Claim {
    /// The node is to be looked at.
    Task {
        problem: Arc<Problem>,
        lits: Items<Lit>,
        barred: LitSet,
        weight: u32,
    },
    /// No open node has the number.
    Settled,
    /// The kept lemma with this number settled the node.
    ByLemma(u32),
    /// The set of the found node with this number covers the node.
    Covered(u32),
}

/// The answer to a commit of a step.
#[derive(Drop)]
pub enum Commit {
    /// The step settled the node. These are the new open children.
    Done(Vec<u32>),
    /// No open node has the number.
    Late,
    /// The step is not one of this node.
    Foreign,
    /// The kept lemma with this number settled the node.
    ByLemma(u32),
    /// The set of the found node with this number covers the node.
    Covered(u32),
    /// The step is an extension, and the budget is spent.
    Spent,
}

// Whether the cell with this number is there and that of an open node.
fn is_open_in(cells: &[Cell], node: u32) -> bool
    ensures { result ≡ option_map_or (λ cell. is_open_yet cell.settled) (slice_get cells.now node) false }
{
    match cells.get(node as usize) {
        Some(cell) => cell.settled.is_open(),
        None => false,
    }
}

// Whether the two lists are the same.
fn are_same(these: &[Lit], those: &[Lit]) -> bool
    ensures { IsTrue result ↔ (these.now ≡ those.now) }
{
    lits_cmp(these, those).is_eq()
}

/// The event by which what was found settles the node.
pub fn event_found(node: u32, found: Found) -> Event
    ensures { result ≡ event_found node found }
{
    match found {
        Found::Extend(inst) => Event::Extend { node, inst },
        Found::Reject(inst) => Event::Reject { node, inst },
        Found::Saturated => Event::Saturated { node },
        Found::Heavy(inst) => Event::Heavy { node, inst },
    }
}

// Adds the number of a case that is not closed at once.
fn push_open_case(numbers: &mut Vec<u32>, case: &Child, number: u32) -> Result<(), NoMemory>
    ensures { OnOk result (numbers.new.items ≡ numbers.old.items ++ open_case case.now.at_once number []) }
{
    match case.at_once {
        None => Ok(numbers.push(number)?),
        Some(_) => Ok(()),
    }
}

// The numbers of the cases that are not closed at once, where the first has this one.
fn open_cases(alloc: Global, first: u32, cases: &[Child]) -> Result<Vec<u32>, NoMemory>
    requires { first + length cases.now < 2 ^ 32 }
    ensures { IfOk result (λ numbers. numbers.items ≡ open_cases first cases.now) }
{
    let mut numbers = Vec::new(alloc);
    for (i, case) in cases.iter().enumerate() {
        push_open_case(&mut numbers, case, first + i as u32)?;
    }
    Ok(numbers)
}

impl Board {
    // Whether an open node has this number.
    pub(crate) fn has_open(&self, node: u32) -> bool
        ensures { IsTrue result ↔ IsOpenAt (board_of self.now) node }
    {
        is_open_in(self.cells.as_slice(), node)
    }

    // The task of the open node with this number, which nothing settles at once.
    fn task(&self, node: u32, lits: Vec<Lit>, barred: LitSet) -> Result<Claim, NoMemory>
        requires opened { IsOpenWith (board_of self.now) node lits.items barred }
        requires untouched { IsUntouched (setting_of self.now) (board_of self.now) node }
        ensures { IfOk result (λ claim. Claims self.now node claim self.now) }
    {
        let problem = self.problem.clone()?;
        let lits = Items::new(lits);
        Ok(Claim::Task {
            problem,
            lits,
            barred,
            weight: self.limits.weight,
        })
    }

    /// Claims the open node with this number: a kept lemma or a found set settles it, or else it is to be looked at. After
    /// want of memory the board is as before.
    pub fn claim(&mut self, alloc: Global, node: u32) -> Result<Claim, NoMemory>
        ensures ok { IfOk result (λ claim. Claims self.old node claim self.new) }
        ensures err { OnErr result (self.new ≡ self.old) }
    {
        if !self.has_open(node) {
            return Ok(Claim::Settled);
        }
        let lits = self.lits_at(alloc, node)?;
        let barred = self.barred_at(alloc, node)?;
        match self.quick_at(alloc, node, lits.as_slice(), &barred)? {
            Some(Quick::ByLemma(lemma)) => {
                self.append(alloc, Event::ByLemma { node, lemma })?;
                Ok(Claim::ByLemma(lemma))
            }
            Some(Quick::Covered(by)) => {
                self.append(alloc, Event::Covered { node, by })?;
                Ok(Claim::Covered(by))
            }
            None => self.task(node, lits, barred),
        }
    }

    // Whether the step is one of a node of this board with these literals and this barred set.
    fn is_own(&self, step: &Step, lits: &[Lit], barred: &LitSet) -> bool
        ensures { IsTrue result ↔ IsStepWith self.now lits.now barred.now step.now }
    {
        step.weight == self.limits.weight
            && are_same(step.lits.as_slice(), lits)
            && are_same(step.barred.as_slice(), barred.as_slice())
            && step.problem.same(&self.problem)
    }

    // Whether what was found is an extension, for which the budget has no room.
    fn is_spent(&self, found: &Found) -> bool
        ensures exact { IsTrue result ↔ IsSpent self.now found.now }
        ensures room { result ≡ false → IsExtension found.now → count (board_of self.now) < self.now.limits.budget }
    {
        match found {
            Found::Extend(_) => self.limits.budget <= self.tally.extensions,
            _ => false,
        }
    }

    // The numbers of the open children that the event makes at the node with these literals and this barred set.
    fn open_born(
        &self,
        alloc: Global,
        event: &Event,
        lits: &[Lit],
        barred: &LitSet,
        node: u32,
    ) -> Result<Vec<u32>, NoMemory>
        requires lawful { IsLawful (setting_of self.now) (board_of self.now) event.now }
        requires opened { IsOpenWith (board_of self.now) node lits.now barred.now }
        ensures { IfOk result (λ numbers. AreNewOpen (board_of self.now) node event.now numbers.items) }
    {
        match event {
            Event::Extend { inst, .. } => {
                let cases = children(alloc, inst, lits, barred)?;
                let first = self.cells.len() as u32;
                open_cases(alloc, first, cases.as_slice())
            }
            _ => Ok(Vec::new(alloc)),
        }
    }

    // The event of a step of the open node with this number, which nothing settles at once, where there is room for it.
    fn event_of(&self, node: u32, step: Step, lits: &[Lit], barred: &LitSet) -> Event
        requires opened { IsOpenWith (board_of self.now) node lits.now barred.now }
        requires untouched { IsUntouched (setting_of self.now) (board_of self.now) node }
        requires own { IsStepWith self.now lits.now barred.now step }
        requires room { IsExtension step.found → count (board_of self.now) < self.now.limits.budget }
        ensures is { result ≡ event_found node step.found }
        ensures lawful { IsLawful (setting_of self.now) (board_of self.now) result }
    {
        event_found(node, step.found)
    }

    // Settles the open node with this number, which nothing settles at once, by its step.
    fn take(
        &mut self,
        alloc: Global,
        node: u32,
        step: Step,
        lits: &[Lit],
        barred: &LitSet,
    ) -> Result<Commit, NoMemory>
        requires opened { IsOpenWith (board_of self.old) node lits.now barred.now }
        requires untouched { IsUntouched (setting_of self.old) (board_of self.old) node }
        requires own { IsStepWith self.old lits.now barred.now step }
        ensures ok { IfOk result (λ commit. Commits self.old node step commit self.new) }
        ensures err { OnErr result (self.new ≡ self.old) }
    {
        if self.is_spent(&step.found) {
            return Ok(Commit::Spent);
        }
        let event = self.event_of(node, step, lits, barred);
        let numbers = self.open_born(alloc, &event, lits, barred, node)?;
        self.append(alloc, event)?;
        Ok(Commit::Done(numbers))
    }

    /// Settles the open node with this number by a step that was made there, unless a kept lemma or a found set settles it.
    /// After want of memory the board is as before, and the step is dropped.
    pub fn commit(&mut self, alloc: Global, node: u32, step: Step) -> Result<Commit, NoMemory>
        ensures ok { IfOk result (λ commit. Commits self.old node step commit self.new) }
        ensures err { OnErr result (self.new ≡ self.old) }
    {
        if !self.has_open(node) {
            return Ok(Commit::Late);
        }
        let lits = self.lits_at(alloc, node)?;
        let barred = self.barred_at(alloc, node)?;
        if !self.is_own(&step, lits.as_slice(), &barred) {
            return Ok(Commit::Foreign);
        }
        match self.quick_at(alloc, node, lits.as_slice(), &barred)? {
            Some(Quick::ByLemma(lemma)) => {
                self.append(alloc, Event::ByLemma { node, lemma })?;
                Ok(Commit::ByLemma(lemma))
            }
            Some(Quick::Covered(by)) => {
                self.append(alloc, Event::Covered { node, by })?;
                Ok(Commit::Covered(by))
            }
            None => self.take(alloc, node, step, lits.as_slice(), &barred),
        }
    }
}

//! The way from the root to a node, which is moved along with the search.

ghost use Rattle.std.specs.Prelude.{◌≡◌, ◌+◌, ◌<◌, ◌≤◌, ◌++◌, ◌∷◌, ◌||◌, [], IfOk, OnOk, length};
ghost use Rattle.std.specs.Arc.{arc_value};
ghost use Rattle.mg_word.specs.Sets.{holds};
ghost use Rattle.case_split.specs.Splitting.{closure_by};
ghost use Rattle.mg_word.specs.Words.{complement_of};
ghost use Rattle.model_extend.specs.Branches.{CanPush};
ghost use Rattle.key_watch.specs.Keys.{keys_of};
ghost use Rattle.tree_board.specs.CellMoves.{AreReasons};
ghost use Rattle.tree_board.specs.Events.{node_of};
ghost use Rattle.tree_board.specs.Facts.{IsChildOf};
ghost use Rattle.tree_board.specs.PathReads.{HasAllSets, found_by};
ghost use Rattle.tree_board.specs.Paths.{HasEntered, HasLeft, IsAtRoot, IsUnshut, LeadsNear, LeadsTo, reasons_from};
ghost use Rattle.tree_board.specs.Searches.{board_of, setting_of};
ghost use Rattle.tree_board.specs.Settling.{IsOpenAt};
ghost use Rattle.tree_board.specs.Workers.{IsKnown};

use crate::barred::Barred;
use crate::barring::earlier_at;
use crate::cell::{literal_at, parent_at};
use crate::{Board, Event, Mode};
use case_split::Closure;
use key_watch::{Owner, Side, Watch};
use mg_meaning::holds_lit;
use mg_word::{Lit, NoMemory, Problem};
use model_extend::{Branch, Mark};
use std::alloc::Global;
use std::sync::Arc;

/// The way from the root to a node.
pub struct Path {
    /// The number of the node.
    pub node: u32,
    /// Its literals.
    pub branch: Branch,
    /// What the nodes on the way bar, of each the conclusions before its own.
    pub barred: Barred,
    /// Both again, beside the sets of literals that settle a node which holds or bars them.
    pub watch: Watch,
    /// How many kept lemmas the watch has.
    pub lemmas_read: u32,
    /// Of how many events the watch has the found sets.
    pub events_read: usize,
}

/// A function of its own, so that dropping a path is one step for whoever does.
impl Drop for Path {
    fn drop(self) {
        let Path {
            node: _,
            branch: _,
            barred: _,
            watch: _,
            lemmas_read: _,
            events_read: _,
        } = self;
    }
}

// Puts a literal that is held on the path of the watch, and those that are barred beside it.
fn put_keys(alloc: Global, watch: &mut Watch, lit: &Lit, earlier: &[Lit]) -> Result<(), NoMemory>
    ensures { OnOk result (watch.new ≡ record watch.old { path = watch.old.path ++ keys_of (lit.now ∷ []) earlier.now }) }
{
    watch.push(alloc, Side::Held, lit)?;
    for one in earlier {
        watch.push(alloc, Side::Barred, one)?;
    }
    Ok(())
}

// In mode List, the node at which the event finds a set.
fn found_by(mode: Mode, event: &Event) -> Option<u32>
    ensures { result ≡ found_by mode event.now }
{
    match (mode, event) {
        (Mode::List, Event::Saturated { node }) => Some(*node),
        _ => None,
    }
}

impl Path {
    // The way to the root.
    fn new(alloc: Global, problem: Arc<Problem>) -> Result<Path, NoMemory>
        ensures { IfOk result (IsAtRoot (arc_value problem)) }
    {
        Ok(Path {
            node: 0,
            branch: Branch::new(alloc, problem)?,
            barred: Barred::new(alloc),
            watch: Watch::new(alloc)?,
            lemmas_read: 0,
            events_read: 0,
        })
    }

    // Goes on to a child, which has this literal, and bars these beside what its parent bars.
    fn push(&mut self, alloc: Global, node: u32, lit: &Lit, earlier: &[Lit]) -> Result<(), NoMemory>
        requires { CanPush self.old.branch lit.now }
        ensures { OnOk result (HasEntered self.old node lit.now earlier.now self.new) }
    {
        self.branch.push(lit)?;
        self.barred.push_copies(earlier)?;
        put_keys(alloc, &mut self.watch, lit, earlier)?;
        self.node = node;
        Ok(())
    }

    // Goes back to the parent, without the last literal and without so many that are barred.
    fn pop(&mut self, parent: u32, earlier: usize)
        requires some { 0 < length self.old.branch.lits }
        requires barred { earlier ≤ length self.old.barred }
        requires keys { earlier < length self.old.watch.path }
        ensures { HasLeft self.old parent earlier self.new }
    {
        let mark = self.branch.mark();
        self.branch.pop_to(Mark {
            depth: mark.depth - 1,
        });
        self.barred.truncate(self.barred.len() - earlier);
        self.watch.truncate(self.watch.len() - (earlier + 1));
        self.node = parent;
    }

    // Why the case of this conclusion is closed at once, if it is, where those come before it.
    fn reason(&self, earlier: &[Lit], lit: &Lit) -> Result<Option<Closure>, NoMemory>
        ensures { IfOk result (λ reason. reason ≡ closure_by (holds self.now.branch.lits (complement_of lit.now)) (holds self.now.barred lit.now || holds earlier.now lit.now) lit.now) }
    {
        if self.branch.clashes(lit) {
            return Ok(Some(Closure::Clash(lit.copy()?)));
        }
        if self.barred.holds(lit) || holds_lit(earlier, lit) {
            return Ok(Some(Closure::Barred(lit.copy()?)));
        }
        Ok(None)
    }

    // Why the cases of these conclusions are closed at once that are.
    fn reasons(&self, alloc: Global, conclusions: &[Lit]) -> Result<Vec<Option<Closure>>, NoMemory>
        ensures { IfOk result (λ reasons. reasons.items ≡ reasons_from self.now.branch.lits self.now.barred [] conclusions.now) }
    {
        let mut reasons = Vec::with_capacity(alloc, conclusions.len())?;
        for (index, lit) in conclusions.iter().enumerate() {
            reasons.push(self.reason(&conclusions[..index], lit)?)?;
        }
        Ok(reasons)
    }
}

impl Board {
    /// The way to the root.
    pub(crate) fn root_path(&self, alloc: Global) -> Result<Path, NoMemory>
        requires { IsKnown (setting_of self.now) (board_of self.now) }
        ensures { IfOk result (LeadsTo self.now) }
    {
        let problem = self.problem().clone()?;
        Path::new(alloc, problem)
    }

    // Goes up from the path's node to its parent.
    fn leave(&self, path: &mut Path)
        requires leads { LeadsTo self.now path.old }
        requires below { 0 < path.old.node }
        ensures leads { LeadsTo self.now path.new }
        ensures up { path.new.node < path.old.node }
    {
        let cells = self.cells.as_slice();
        let node = path.node;
        let parent = parent_at(cells, node);
        let earlier = earlier_at(cells, self.journal.as_slice(), parent, node).len();
        path.pop(parent, earlier);
    }

    // Goes down from the path's node to its child with this number.
    fn enter(&self, alloc: Global, path: &mut Path, child: u32) -> Result<(), NoMemory>
        requires leads { LeadsTo self.now path.old }
        requires child { IsChildOf (board_of self.now).nodes child path.old.node }
        requires unshut { IsUnshut (board_of self.now) child }
        ensures leads { OnOk result (LeadsTo self.now path.new) }
        ensures node { OnOk result (path.new.node ≡ child) }
    {
        let cells = self.cells.as_slice();
        let journal = self.journal.as_slice();
        let Some(lit) = literal_at(cells, journal, child) else {
            return Ok(());
        };
        let earlier = earlier_at(cells, journal, path.node, child);
        path.push(alloc, child, lit, earlier)
    }

    // Goes up to the first node that is this one or above it, and answers the nodes from this one up to there, which is left
    // out.
    fn go_up(&self, alloc: Global, path: &mut Path, node: u32) -> Result<Vec<u32>, NoMemory>
        requires leads { LeadsTo self.now path.old }
        requires there { node < length (board_of self.now).nodes }
        ensures { IfOk result (λ met. LeadsNear self.now node path.new met.items) }
    {
        let mut met = Vec::new(alloc);
        let mut at = node;
        'up: while at != path.node {
            if at < path.node {
                self.leave(path);
                continue;
            }
            met.push(at)?;
            at = parent_at(self.cells.as_slice(), at);
        }
        Ok(met)
    }

    // Goes down by these nodes, the last of them first, to the open node with this number.
    fn go_down(
        &self,
        alloc: Global,
        path: &mut Path,
        node: u32,
        met: Vec<u32>,
    ) -> Result<(), NoMemory>
        requires known { IsKnown (setting_of self.now) (board_of self.now) }
        requires near { LeadsNear self.now node path.old met.items }
        requires opened { IsOpenAt (board_of self.now) node }
        ensures leads { OnOk result (LeadsTo self.now path.new) }
        ensures node { OnOk result (path.new.node ≡ node) }
    {
        let mut ahead = met;
        'down: while let Some(child) = ahead.pop() {
            self.enter(alloc, path, child)?;
        }
        Ok(())
    }

    // Lets the watch of the path have the kept lemmas that it has not.
    fn read_lemmas(&self, alloc: Global, path: &mut Path) -> Result<(), NoMemory>
        requires { LeadsTo self.now path.old }
        ensures leads { OnOk result (LeadsTo self.now path.new) }
        ensures node { OnOk result (path.new.node ≡ path.old.node) }
        ensures all { OnOk result (length (board_of self.now).kept ≤ path.new.lemmas_read) }
    {
        'lemmas: while path.lemmas_read < self.lemmas.len() {
            let number = path.lemmas_read + 1;
            let Some(lemma) = self.lemma(number) else {
                return Ok(());
            };
            let inside = lemma.inside.as_slice();
            let outside = lemma.outside.as_slice();
            path.watch
                .add(alloc, inside, outside, Owner::Lemma(number))?;
            path.lemmas_read = number;
        }
        Ok(())
    }

    // Lets the watch of the path have the set that the next event found, if it found one.
    fn read_event(&self, alloc: Global, path: &mut Path) -> Result<(), NoMemory>
        requires known { IsKnown (setting_of self.now) (board_of self.now) }
        requires leads { LeadsTo self.now path.old }
        requires some { path.old.events_read < length self.now.journal }
        ensures leads { OnOk result (LeadsTo self.now path.new) }
        ensures node { OnOk result (path.new.node ≡ path.old.node) }
        ensures lemmas { OnOk result (path.new.lemmas_read ≡ path.old.lemmas_read) }
        ensures events { OnOk result (path.new.events_read ≡ path.old.events_read + 1) }
    {
        let event = &self.journal()[path.events_read];
        let Some(node) = found_by(self.mode(), event) else {
            path.events_read += 1;
            return Ok(());
        };
        let set = self.lits_at(alloc, node)?;
        path.watch
            .add(alloc, set.as_slice(), &[], Owner::Found(node))?;
        path.events_read += 1;
        Ok(())
    }

    // Lets the watch of the path, which has all kept lemmas, have the found sets that it has not.
    fn read_events(&self, alloc: Global, path: &mut Path) -> Result<(), NoMemory>
        requires known { IsKnown (setting_of self.now) (board_of self.now) }
        requires leads { LeadsTo self.now path.old }
        requires lemmas { length (board_of self.now).kept ≤ path.old.lemmas_read }
        ensures leads { OnOk result (LeadsTo self.now path.new) }
        ensures node { OnOk result (path.new.node ≡ path.old.node) }
        ensures sets { OnOk result (HasAllSets self.now path.new.watch.sets) }
    {
        let count = self.journal().len();
        'events: while path.events_read < count {
            self.read_event(alloc, path)?;
        }
        Ok(())
    }

    /// Moves the path to the open node with this number, and lets its watch have all that may settle the node.
    pub(crate) fn go(&self, alloc: Global, path: &mut Path, node: u32) -> Result<(), NoMemory>
        requires known { IsKnown (setting_of self.now) (board_of self.now) }
        requires leads { LeadsTo self.now path.old }
        requires opened { IsOpenAt (board_of self.now) node }
        ensures leads { OnOk result (LeadsTo self.now path.new) }
        ensures node { OnOk result (path.new.node ≡ node) }
        ensures sets { OnOk result (HasAllSets self.now path.new.watch.sets) }
    {
        let met = self.go_up(alloc, path, node)?;
        self.go_down(alloc, path, node, met)?;
        self.read_lemmas(alloc, path)?;
        self.read_events(alloc, path)
    }

    /// Why the cases that the event makes are closed at once that are, where the path leads to the event's node.
    pub(crate) fn reasons_along(
        &self,
        alloc: Global,
        path: &Path,
        event: &Event,
    ) -> Result<Vec<Option<Closure>>, NoMemory>
        requires known { IsKnown (setting_of self.now) (board_of self.now) }
        requires leads { LeadsTo self.now path.now }
        requires here { path.now.node ≡ node_of event.now }
        ensures { IfOk result (λ reasons. AreReasons (board_of self.now) event.now reasons.items) }
    {
        match event {
            Event::Extend { inst, .. } => path.reasons(alloc, inst.conclusions.as_slice()),
            _ => Ok(Vec::new(alloc)),
        }
    }
}

//! A walk over the branches of a tree: one branch at a time is held, and undone on the way back.

ghost use Rattle.std.specs.Prelude.{◌≡◌, ◌≢◌, ◌++◌, [], ◌∷◌, IfOk, OnOk};
ghost use Rattle.tree_checker.specs.Trees.{split_by};
ghost use Rattle.tree_checker.specs.Walks.{next_of, after_next};

use crate::frame::{Frame, begin_first};
use crate::lits::push_copies;
use crate::trail::Trail;
use mg_word::{Lit, NoMemory};
use std::alloc::Global;
use std::marker::Model;

/// The branches that are still to be closed, the next one first.
#[derive(Drop)]
pub struct Walk<'a> {
    held: Trail<'a>,
    barred: Trail<'a>,
    frames: Vec<Frame>,
    is_done: bool,
}

impl<'a> Model for Walk<'a> {
    ghost use Rattle.std.specs.Prelude.{List};
    ghost use Rattle.tree_checker.specs.Trees.{Branch};

    ghost Value = { List Branch };

    ghost use Rattle.tree_checker.specs.Inside.{walk_seen, IsWalk};

    ghost view = { walk_seen };

    ghost invariant = { IsWalk };
}

impl<'a> Walk<'a> {
    /// One branch, which holds and bars these.
    pub fn at(alloc: Global, held: &[Lit], barred: &[Lit]) -> Result<Walk<'a>, NoMemory>
        ensures { IfOk result (λ walk. walk ≡ record { held = held.now; barred = barred.now } ∷ []) }
    {
        let mut all_held = Trail::new(alloc);
        push_copies(&mut all_held, held)?;
        let mut all_barred = Trail::new(alloc);
        push_copies(&mut all_barred, barred)?;
        Ok(Walk {
            held: all_held,
            barred: all_barred,
            frames: Vec::new(alloc),
            is_done: false,
        })
    }

    /// What the next branch holds.
    pub fn held(&self) -> &Trail<'a>
        requires { self.now ≢ [] }
        ensures { result.now ≡ (next_of self.now).held }
    {
        &self.held
    }

    /// What the next branch bars.
    pub fn barred(&self) -> &Trail<'a>
        requires { self.now ≢ [] }
        ensures { result.now ≡ (next_of self.now).barred }
    {
        &self.barred
    }

    /// Puts a branch for each conclusion in the stead of the next one. After an error the walk is of no use.
    pub fn split(&mut self, mut conclusions: Vec<Lit>) -> Result<(), NoMemory>
        requires { self.old ≢ [] }
        ensures { OnOk result (self.new ≡ split_by (next_of self.old) conclusions.items ++ after_next self.old) }
    {
        conclusions.reverse();
        let begun = begin_first(
            &mut self.held,
            &mut self.barred,
            &mut self.frames,
            conclusions,
        );
        match begun {
            Ok(is_more) => {
                self.is_done = !is_more;
                Ok(())
            }
            Err(NoMemory) => {
                self.is_done = true;
                Err(NoMemory)
            }
        }
    }
}

//! The steps of a search and the sides that they leave.

ghost use Rattle.std.specs.Prelude.{◌≡◌, ◌<◌, ◌++◌, ◌∷◌, [], All, IfOk, OnOk, MatchOption, length, replicate, slice_set};
ghost use Rattle.minimal_test.specs.Choices.{side_at};
ghost use Rattle.minimal_test.specs.Paths.{IsDead, Leads, moved};
ghost use Rattle.minimal_test.specs.Rounds.{IsFlipped};
ghost use Rattle.minimal_test.specs.Settled.{IsNext};

use crate::side::{Side, side_of};
use mg_word::NoMemory;
use std::alloc::Global;

/// A place put in or out: as a trial, or because it is forced.
#[derive(Clone, Copy, Debug)]
pub struct Step {
    pub place: usize,
    pub is_in: bool,
    pub is_tried: bool,
}

/// The steps so far, in order, and the sides that they leave.
#[derive(Drop)]
pub struct Path {
    pub sides: Vec<Side>,
    pub trail: Vec<Step>,
    /// How many of them are handed on to the rules that use their places.
    pub handed: usize,
}

impl Path {
    /// No steps, and so many open places.
    pub fn new(alloc: Global, count: usize) -> Result<Path, NoMemory>
        ensures sides { IfOk result (λ path. path.sides.items ≡ replicate count Side.Open) }
        ensures trail { IfOk result (λ path. path.trail.items ≡ []) }
        ensures handed { IfOk result (λ path. path.handed ≡ 0) }
    {
        let mut sides = Vec::with_capacity(alloc, count)?;
        for _ in 0..count {
            sides.push(Side::Open)?;
        }
        Ok(Path {
            sides,
            trail: Vec::new(alloc),
            handed: 0,
        })
    }

    /// Takes a step.
    pub fn put(&mut self, step: Step) -> Result<(), NoMemory>
        requires { side_at self.old.sides.items step.place ≡ Side.Open }
        ensures sides { OnOk result (self.new.sides.items ≡ moved self.old.sides.items step) }
        ensures trail { OnOk result (self.new.trail.items ≡ self.old.trail.items ++ step ∷ []) }
        ensures handed { OnOk result (self.new.handed ≡ self.old.handed) }
    {
        self.trail.push(step)?;
        self.sides[step.place] = side_of(step.is_in);
        Ok(())
    }

    /// The place of the first step that is not handed on yet, which counts as handed on from now.
    pub fn next_place(&mut self) -> Option<usize>
        ensures { IsNext self.old self.new result }
    {
        let step = self.trail.get(self.handed).copied()?;
        self.handed += 1;
        Some(step.place)
    }

    // Takes the last step back.
    fn undo(&mut self) -> Option<Step>
        requires { All (λ step. step.place < length self.old.sides.items) self.old.trail.items }
        ensures trail { MatchOption result ((self.old.trail.items ≡ []) × (self.new.trail.items ≡ [])) (λ step. self.old.trail.items ≡ self.new.trail.items ++ step ∷ []) }
        ensures sides { MatchOption result (self.new.sides.items ≡ self.old.sides.items) (λ step. self.new.sides.items ≡ slice_set self.old.sides.items step.place Side.Open) }
    {
        let step = self.trail.pop()?;
        self.sides[step.place] = Side::Open;
        Some(step)
    }

    /// Takes back all steps from the last trial on, and puts its place in, as forced. False where there is no trial.
    pub fn flip(&mut self) -> Result<bool, NoMemory>
        requires { All (λ step. step.place < length self.old.sides.items) self.old.trail.items }
        ensures { IfOk result (λ flipped. (rules : _) (start : _) → Leads rules start self.old.trail.items self.old.sides.items → IsDead rules self.old.sides.items → IsFlipped rules start self.old self.new flipped) }
    {
        while let Some(step) = self.undo() {
            if step.is_tried {
                self.handed = self.trail.len();
                self.put(Step {
                    place: step.place,
                    is_in: true,
                    is_tried: false,
                })?;
                return Ok(true);
            }
        }
        Ok(false)
    }
}

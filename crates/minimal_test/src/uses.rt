//! Which rules use a place.

ghost use Rattle.std.specs.Prelude.{◌≡◌, ◌<◌, IfOk, OnOk, IsTrue, length};
ghost use Rattle.minimal_test.specs.Uses.{numbers_at, is_among, AreUses, IsListed, IsGrown};

use crate::rule::Rule;
use mg_word::NoMemory;
use std::alloc::Global;

/// For each place the numbers of the rules that have it among their premises or conclusions.
#[derive(Debug, Drop)]
pub struct Uses {
    rules_at: Vec<Vec<usize>>,
}

impl Uses {
    /// The uses of so many places. A place beyond them is out for ever, and no step takes it.
    pub fn new(alloc: Global, rules: &[Rule], count: usize) -> Result<Uses, NoMemory>
        ensures { IfOk result (AreUses rules.now count) }
    {
        let mut uses = Uses::none(alloc, count)?;
        for (number, rule) in rules.iter().enumerate() {
            uses.add(rule.premises.as_slice(), number)?;
            uses.add(rule.conclusions.as_slice(), number)?;
        }
        Ok(uses)
    }

    /// The numbers of the rules that use the place.
    pub fn at(&self, place: usize) -> &[usize]
        ensures { result.now ≡ numbers_at self.now.rules_at.items place }
    {
        if place < self.rules_at.len() {
            self.rules_at[place].as_slice()
        } else {
            &[]
        }
    }

    // No rules, and so many places.
    fn none(alloc: Global, count: usize) -> Result<Uses, NoMemory>
        ensures { IfOk result (λ uses. length uses.rules_at.items ≡ count) }
    {
        let mut rules_at = Vec::with_capacity(alloc, count)?;
        for _ in 0..count {
            rules_at.push(Vec::new(alloc))?;
        }
        Ok(Uses { rules_at })
    }

    // Lists the rule at each of the places.
    fn add(&mut self, places: &[usize], number: usize) -> Result<(), NoMemory>
        ensures grown { OnOk result (IsGrown self.old.rules_at.items self.new.rules_at.items) }
        ensures listed { OnOk result (IsListed places.now number self.new.rules_at.items) }
    {
        for place in places {
            self.add_at(*place, number)?;
        }
        Ok(())
    }

    // Lists the rule at the place.
    fn add_at(&mut self, place: usize, number: usize) -> Result<(), NoMemory>
        ensures grown { OnOk result (IsGrown self.old.rules_at.items self.new.rules_at.items) }
        ensures listed { OnOk result (place < length self.new.rules_at.items → IsTrue (is_among number (numbers_at self.new.rules_at.items place))) }
    {
        if place < self.rules_at.len() {
            self.rules_at[place].push(number)?;
        }
        Ok(())
    }
}

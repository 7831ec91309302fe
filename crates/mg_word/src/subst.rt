//! Substitutions: a ground term for each variable of a form.

ghost use Rattle.std.specs.Prelude.{◌≡◌, IfOk};

use crate::{NoMemory, Word};
use std::marker::Model;

/// The terms of a form's variables, in the order of the variables' numbers.
#[derive(Debug, Drop)]
pub struct Subst {
    words: Vec<Word>,
}

impl Model for Subst {
    ghost use Rattle.std.specs.Prelude.{List, ℕ};

    ghost Value = { List (List ℕ) };

    ghost view = { λ subst. subst.words.items };
}

impl Subst {
    /// The substitution of these terms. It takes no memory.
    pub fn new(words: Vec<Word>) -> Subst
        ensures { result ≡ words.items }
    {
        Subst { words }
    }

    /// The terms in order.
    pub fn as_slice(&self) -> &[Word]
        ensures { result.now ≡ self.now }
    {
        self.words.as_slice()
    }

    /// An equal substitution.
    pub fn copy(&self) -> Result<Subst, NoMemory>
        ensures { IfOk result (λ subst. subst ≡ self.now) }
    {
        let mut words = Vec::with_capacity(*self.words.allocator(), self.words.len())?;
        for word in &self.words {
            words.push(word.copy()?)?;
        }
        Ok(Subst { words })
    }
}

//! Patterns: terms and atoms with variables.

ghost use Rattle.std.specs.Prelude.{◌≡◌, IfOk};

use crate::{Item, NoMemory};
use std::marker::Model;

/// A term or atom with variables, in prefix order.
#[derive(Debug, Drop)]
pub struct Pattern {
    items: Vec<Item>,
}

impl Model for Pattern {
    ghost use Rattle.std.specs.Prelude.{List};
    ghost use Rattle.mg_word.specs.declared.item.Item.{Item};

    ghost Value = { List Item };

    ghost view = { λ pattern. pattern.items.items };
}

impl Pattern {
    /// The pattern of these items. It takes no memory.
    pub fn new(items: Vec<Item>) -> Pattern
        ensures { result ≡ items.items }
    {
        Pattern { items }
    }

    /// The items in order.
    pub fn as_slice(&self) -> &[Item]
        ensures { result.now ≡ self.now }
    {
        self.items.as_slice()
    }

    /// An equal pattern.
    pub fn copy(&self) -> Result<Pattern, NoMemory>
        ensures { IfOk result (λ pattern. pattern ≡ self.now) }
    {
        Ok(Pattern {
            items: Vec::from_slice(*self.items.allocator(), self.items.as_slice())?,
        })
    }
}

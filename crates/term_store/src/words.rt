//! Terms by their words.

ghost use Rattle.std.specs.Prelude.{◌≡◌, ◌<◌, ◌≤◌, ◌-◌, ◌^◌, All, IfOk, IsTrue, OnOk, length, reverse, take};
ghost use Rattle.mg_word.specs.Words.{fits};
ghost use Rattle.term_store.specs.Terms.{term_of, word_at, weight_together, AddsAtMost};
ghost use Rattle.term_store.specs.Reading.{IsTermOf, GrowsBy, IsApplied};

use crate::TermStore;
use crate::arguments::{push_reversed, take_last};
use crate::store::Key;
use mg_word::{NoMemory, Symbols, Word};

impl TermStore {
    /// The word of the term.
    pub fn word_of(&self, id: usize) -> Result<Word, NoMemory>
        requires { id < length self.now }
        ensures { IfOk result (λ word. word ≡ word_at self.now id) }
    {
        let alloc = self.allocator();
        self.facts();
        let mut symbols = Vec::with_capacity(alloc, self.weight_of(id) as usize)?;
        let mut pending = Vec::new(alloc);
        pending.push(id as u32)?;
        while let Some(number) = pending.pop() {
            let (symbol, arguments) = self.parts_of(number as usize);
            symbols.push(symbol)?;
            push_reversed(&mut pending, arguments)?;
        }
        Ok(Word::new(symbols))
    }

    /// The number of the term with this word. Its new subterms go last. After an error all numbers keep their terms, and
    /// some of its subterms may be new.
    pub fn intern_word(&mut self, symbols: &Symbols, word: &Word) -> Result<usize, NoMemory>
        requires fitting { IsTrue (fits symbols.now word.now) }
        requires short { length word.now < 2 ^ 32 - 1 }
        ensures number { IfOk result (IsTermOf symbols.now self.new word.now) }
        ensures grown { GrowsBy symbols.now word.now self.old self.new }
    {
        self.facts();
        let mut pending = Vec::new(self.allocator());
        let symbol_numbers = word.as_slice();
        let mut at = symbol_numbers.len();
        while at > 0 {
            at -= 1;
            let symbol = symbol_numbers[at];
            self.intern_last(symbol, symbols.arity(symbol) as usize, &mut pending)?;
        }
        match pending.pop() {
            Some(id) => Ok(id as usize),
            None => unreachable!(),
        }
    }

    // Replaces the last terms, the last first, by the term with these arguments.
    pub(crate) fn intern_last(
        &mut self,
        symbol: u32,
        arity: usize,
        pending: &mut Vec<u32>,
    ) -> Result<(), NoMemory>
        requires many { arity ≤ length pending.old.items }
        requires held { All (λ number. number < length self.old) (take arity (reverse pending.old.items)) }
        requires light { weight_together self.old (take arity (reverse pending.old.items)) < 2 ^ 32 - 1 }
        ensures ok { OnOk result (IsApplied symbol arity (reverse pending.old.items) self.new (reverse pending.new.items)) }
        ensures grown { AddsAtMost self.old self.new (term_of symbol (take arity (reverse pending.old.items))) }
    {
        let arguments = take_last(self.allocator(), pending, arity)?;
        let id = self.intern_key(Key { symbol, arguments })?;
        pending.push(id)?;
        Ok(())
    }
}

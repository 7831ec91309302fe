//! Words: ground terms and atoms as the lists of their symbols. Short words are held inline.

ghost use Rattle.std.specs.Prelude.{◌≡◌, ◌≤◌, IfOk, length};
ghost use Rattle.std.proofs.Common.{rules};
ghost use Rattle.std.specs.Cmp.{partial_order_from_total};
ghost use Rattle.std.specs.Cmp.Rules.{comparing};
ghost use Rattle.std.specs.Ordering.{as_partial_cmp, eq_by_cmp};
ghost use Rattle.mg_word.specs.Orders.{word_cmp};
ghost use Rattle.mg_word.specs.OrderLaws.{word_total};

use crate::NoMemory;
use smallvec::SmallVec;
use std::alloc::Global;
use std::cmp::Ordering;
use std::marker::Model;

/// The most symbols of a word that takes no memory of its own.
const INLINE: usize = 4;

/// The symbols of a ground term or atom, in prefix order, by their numbers.
#[derive(Debug, Drop)]
pub struct Word {
    symbols: SmallVec<u32, INLINE>,
}

impl Model for Word {
    ghost use Rattle.std.specs.Prelude.{List, ℕ};

    ghost Value = { List ℕ };

    ghost view = { λ word. word.symbols.items };
}

// So few symbols fit inline, and take no memory.
fn inline(alloc: Global, symbols: &[u32]) -> SmallVec<u32, INLINE>
    requires { length symbols.now ≤ 4 }
    ensures { result.items ≡ symbols.now }
{
    match SmallVec::from_slice(alloc, symbols) {
        Ok(short) => short,
        Err(_) => unreachable!(),
    }
}

impl Word {
    /// The word of these symbols. It takes no memory.
    pub fn new(symbols: Vec<u32>) -> Word
        ensures { result ≡ symbols.items }
    {
        if symbols.len() <= INLINE {
            let symbols = inline(*symbols.allocator(), symbols.as_slice());
            return Word { symbols };
        }
        Word {
            symbols: SmallVec::from_vec(symbols),
        }
    }

    /// The symbols in order.
    pub fn as_slice(&self) -> &[u32]
        ensures { result.now ≡ self.now }
    {
        self.symbols.as_slice()
    }

    /// An equal word.
    pub fn copy(&self) -> Result<Word, NoMemory>
        ensures { IfOk result (λ word. word ≡ self.now) }
    {
        let symbols = SmallVec::from_slice(*self.symbols.allocator(), self.symbols.as_slice())?;
        Ok(Word { symbols })
    }
}

impl PartialEq for Word {
    ghost eq = { eq_by_cmp word_cmp };

    ghost laws = { Prim.search (comparing, rules) };

    fn eq(&self, other: &Word) -> bool {
        self.cmp(other).is_eq()
    }
}

impl Eq for Word {
    ghost laws = { Prim.search (comparing, rules) };
}

/// Fewer symbols first, then by the first differing symbol.
impl Ord for Word {
    ghost cmp = { word_cmp };

    ghost total = { Prim.search (comparing, rules) };

    ghost matches_partial_cmp = { Prim.search (comparing, rules) };

    ghost matches_eq = { Prim.search (comparing, rules) };

    fn cmp(&self, other: &Word) -> Ordering {
        let these = self.as_slice();
        let those = other.as_slice();
        match these.len().cmp(&those.len()) {
            Ordering::Equal => these.cmp(those),
            unequal => unequal,
        }
    }
}

impl PartialOrd for Word {
    ghost partial_cmp = { as_partial_cmp word_cmp };

    ghost laws = { partial_order_from_total word_total };

    fn partial_cmp(&self, other: &Word) -> Option<Ordering> {
        Some(self.cmp(other))
    }
}

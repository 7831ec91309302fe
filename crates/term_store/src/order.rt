//! The order of terms by their words.

ghost use Rattle.std.specs.Prelude.{◌≡◌, ◌<◌, List, length};
ghost use Rattle.std.specs.Ordering.{nat_cmp};
ghost use Rattle.std.specs.Cmp.Lexicographic.{slice_cmp};
ghost use Rattle.mg_word.specs.Table.{Symbol};
ghost use Rattle.mg_word.specs.Orders.{word_cmp};
ghost use Rattle.term_store.specs.Terms.{word_at, IsOver};
ghost use Rattle.term_store.specs.Differing.{IsDifference};

use crate::TermStore;
use std::cmp::Ordering;

// The first numbers at one place that differ, and nothing where one list is a front of the other.
fn first_difference(these: &[u32], those: &[u32]) -> Option<(u32, u32)>
    ensures { IsDifference these.now those.now result }
{
    for (place, number) in these.iter().enumerate() {
        if place >= those.len() {
            return None;
        }
        if *number != those[place] {
            return Some((*number, those[place]));
        }
    }
    None
}

impl TermStore {
    /// Fewer symbols first, then by the first differing symbol.
    pub fn term_cmp(&self, a: usize, b: usize) -> Ordering
        requires left { a < length self.now }
        requires right { b < length self.now }
        ensures { (table : List Symbol) → IsOver table self.now a → IsOver table self.now b → result ≡ word_cmp (word_at self.now a) (word_at self.now b) }
    {
        match self.weight_of(a).cmp(&self.weight_of(b)) {
            Ordering::Equal => self.symbols_cmp(a, b),
            unequal => unequal,
        }
    }

    // By the first differing symbol.
    fn symbols_cmp(&self, a: usize, b: usize) -> Ordering
        requires left { a < length self.now }
        requires right { b < length self.now }
        ensures { (table : List Symbol) → IsOver table self.now a → IsOver table self.now b → result ≡ slice_cmp nat_cmp (word_at self.now a) (word_at self.now b) }
    {
        self.facts();
        let mut left = a;
        let mut right = b;
        while left != right {
            let (symbol, arguments) = self.parts_of(left);
            let (other, others) = self.parts_of(right);
            if symbol != other {
                return symbol.cmp(&other);
            }
            match first_difference(arguments, others) {
                Some((x, y)) => {
                    left = x as usize;
                    right = y as usize;
                }
                None => return Ordering::Equal,
            }
        }
        Ordering::Equal
    }
}

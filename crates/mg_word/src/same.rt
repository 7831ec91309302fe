//! Whether two problems are the same value, part by part, without memory of its own.

ghost use Rattle.std.specs.Prelude.{◌≡◌, ◌↔◌, IsTrue};

use crate::{Clause, ClauseLit, Item, Items, Kind, Name, PatLit, Pattern, Place, Problem, Text};

// What can be compared part by part.
trait Same {
    // Whether the two are the same value.
    fn same(&self, other: &Self) -> bool
        ensures { IsTrue result ↔ (self.now ≡ other.now) };
}

// Whether the two lists have the same items.
fn are_same<T: Same>(these: &[T], those: &[T]) -> bool
    ensures { IsTrue result ↔ (these.now ≡ those.now) }
{
    if these.len() != those.len() {
        return false;
    }
    for (i, item) in these.iter().enumerate() {
        if !item.same(&those[i]) {
            return false;
        }
    }
    true
}

impl Same for u8 {
    fn same(&self, other: &u8) -> bool {
        *self == *other
    }
}

impl Same for u32 {
    fn same(&self, other: &u32) -> bool {
        *self == *other
    }
}

impl Same for Kind {
    fn same(&self, other: &Kind) -> bool {
        *self == *other
    }
}

impl Same for Place {
    fn same(&self, other: &Place) -> bool {
        *self == *other
    }
}

impl Same for Item {
    fn same(&self, other: &Item) -> bool {
        *self == *other
    }
}

impl Same for Text {
    fn same(&self, other: &Text) -> bool {
        are_same(self.as_slice(), other.as_slice())
    }
}

impl Same for Pattern {
    fn same(&self, other: &Pattern) -> bool {
        are_same(self.as_slice(), other.as_slice())
    }
}

impl<T: Same> Same for Items<T> {
    fn same(&self, other: &Items<T>) -> bool {
        are_same(self.as_slice(), other.as_slice())
    }
}

impl Same for PatLit {
    fn same(&self, other: &PatLit) -> bool {
        self.negative == other.negative && self.pattern.same(&other.pattern)
    }
}

impl Same for ClauseLit {
    fn same(&self, other: &ClauseLit) -> bool {
        match (self, other) {
            (ClauseLit::True, ClauseLit::True) => true,
            (ClauseLit::False, ClauseLit::False) => true,
            (ClauseLit::Lit(this), ClauseLit::Lit(that)) => this.same(that),
            _ => false,
        }
    }
}

impl Same for Name {
    fn same(&self, other: &Name) -> bool {
        self.kind.same(&other.kind) && self.text.same(&other.text)
    }
}

impl Same for Clause {
    fn same(&self, other: &Clause) -> bool {
        self.name.same(&other.name)
            && self.place.same(&other.place)
            && self.literals.same(&other.literals)
            && self.variables.same(&other.variables)
            && self.conclude.same(&other.conclude)
    }
}

impl Problem {
    /// Whether the two problems are the same value. Their forms follow from their clauses.
    pub fn same(&self, other: &Problem) -> bool
        ensures { IsTrue result ↔ (self.now ≡ other.now) }
    {
        self.symbols.same(&other.symbols)
            && self.files.same(&other.files)
            && self.clauses.same(&other.clauses)
    }
}

//! Literals by which an index is searched: of its own, or lent.

ghost use Rattle.std.specs.Prelude.{◌≡◌};
ghost use Rattle.tree_checker.specs.Kept.{lit_of, same_kept, kept_hash};
ghost use Rattle.tree_checker.specs.KeptLaws.{kept_equiv, kept_laws, kept_alike};

use mg_word::Lit;
use std::hash::{Hash, Hasher};

/// A literal of the index, or one that is only looked for. Equal literals are equal keys.
#[derive(Drop)]
pub enum KeptLit<'a> {
    Own(Lit),
    Lent(&'a Lit),
}

impl<'a> KeptLit<'a> {
    /// The literal.
    pub fn lit(&self) -> &Lit
        ensures { result.now ≡ lit_of self.now }
    {
        match self {
            KeptLit::Own(lit) => lit,
            KeptLit::Lent(lit) => lit,
        }
    }
}

impl<'a> PartialEq for KeptLit<'a> {
    ghost eq = { same_kept };

    ghost laws = { kept_laws };

    fn eq(&self, other: &Self) -> bool {
        self.lit() == other.lit()
    }
}

impl<'a> Eq for KeptLit<'a> {
    ghost laws = { kept_equiv };
}

impl<'a> Hash for KeptLit<'a> {
    ghost hash_input = { kept_hash };

    ghost respects_eq = { kept_alike };

    fn hash<H: Hasher>(&self, state: &mut H) {
        let lit = self.lit();
        lit.negative.hash(state);
        lit.word.as_slice().hash(state);
    }
}

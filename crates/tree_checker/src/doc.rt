//! Proof trees and documents, and why a document is not accepted.

use mg_word::{Items, Lit, LitSet, NoMemory, Subst};

/// A line of a tree. A tree is the list of its lines in preorder, the line of each node followed by its children's trees.
#[derive(Debug, Drop)]
pub enum TreeLine {
    /// An instance of the form with this number, counted from 1, with a child for each conclusion.
    Form { form: u32, subst: Subst },
    /// The literal and its complement are held.
    Clash(Lit),
    /// The literal is held, and it is barred.
    Barred(Lit),
    /// The branch is excluded by the block with this number, counted from 1.
    By(u32),
}

/// A lemma with its tree: no model has all of `inside` true and all of `outside` false.
#[derive(Debug, Drop)]
pub struct LemmaBlock {
    pub inside: LitSet,
    pub outside: LitSet,
    pub tree: Items<TreeLine>,
}

/// A proof: the blocks of the lemmas, numbered from 1, and the root's tree.
#[derive(Debug, Drop)]
pub struct Doc {
    pub lemmas: Items<LemmaBlock>,
    pub root: Items<TreeLine>,
}

/// The rule that a line breaks.
#[derive(Clone, Copy, Debug, PartialEq, Eq)]
pub enum Why {
    /// A premise of the instance is not held.
    Premise,
    /// The literal and its complement are not both held.
    NoClash,
    /// The literal is not both held and barred.
    NotBarred,
    /// No block before this tree has the number.
    LemmaNumber,
    /// A literal of the block's inside is not held.
    LemmaInside,
    /// A literal of the block's outside is not barred.
    LemmaOutside,
    /// There are more or fewer terms than the form has variables.
    Substitution,
}

/// Why a document is not accepted.
#[derive(Clone, Copy, Debug, PartialEq, Eq)]
pub enum Reject {
    /// The first line that breaks a rule, counted from 1, and the first rule that it breaks.
    Line { line: u64, why: Why },
    /// Memory ran out.
    NoMemory,
}

impl From<NoMemory> for Reject {
    ghost use Rattle.std.specs.Prelude.{◌≡◌};
    ghost use Rattle.tree_checker.specs.declared.doc.Reject.TheVariants.{NoMemory as OutOfMemory};

    ghost from_gives = { λ _ reject. reject ≡ OutOfMemory };

    fn from(_: NoMemory) -> Self {
        Reject::NoMemory
    }
}

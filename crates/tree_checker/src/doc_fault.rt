//! Why a text is not a document.

use mg_word::NoMemory;
use thiserror::Error;

/// What is wrong with a line.
#[derive(Clone, Copy, Debug, PartialEq, Eq)]
pub enum DocKind {
    /// The first line is not the header.
    Header,
    /// The line may not stand here, or is not in its one spelling.
    Syntax,
    /// The block's number is not the next.
    Block,
    /// No form has this number.
    FormNumber,
    /// The problem has no such symbol.
    Unknown,
    /// A term or literal has more than 65,536 symbols.
    Heavy,
    /// The literals of a set do not rise strictly.
    Order,
    /// The lines end before the document.
    Early,
    /// A line stands after the root's tree.
    Rest,
}

/// Why a text is not a document.
#[derive(Clone, Copy, Debug, PartialEq, Eq, Error)]
pub enum DocFault {
    /// The first line with a fault, counted from 1 without the lines that begin with `%`.
    #[error("a line of the document is wrong")]
    Line { line: u64, kind: DocKind },
    /// Memory ran out.
    #[error("out of memory")]
    NoMemory,
}

impl From<NoMemory> for DocFault {
    ghost use Rattle.std.specs.Prelude.{◌≡◌};
    ghost use Rattle.tree_checker.specs.declared.doc_fault.DocFault.TheVariants.{NoMemory as OutOfMemory};

    ghost from_gives = { λ _ fault. fault ≡ OutOfMemory };

    fn from(_: NoMemory) -> Self {
        DocFault::NoMemory
    }
}

//! Why a line was not read.

ghost use Rattle.std.specs.Prelude.{◌≡◌};
ghost use Rattle.proof_tree.specs.Reading.{fault_of};

use mg_word::NoMemory;
use tree_checker::{DocFault, DocKind};

/// Why a line was not read.
#[derive(Clone, Copy, Debug, PartialEq, Eq)]
pub enum LineFault {
    /// What is wrong with it.
    Wrong(DocKind),
    /// Memory ran out.
    NoMemory,
}

impl From<NoMemory> for LineFault {
    ghost use Rattle.std.specs.Prelude.{◌≡◌};
    ghost use Rattle.proof_tree.specs.declared.line_fault.LineFault.TheVariants.{NoMemory as OutOfMemory};

    ghost from_gives = { λ _ fault. fault ≡ OutOfMemory };

    fn from(_: NoMemory) -> Self {
        LineFault::NoMemory
    }
}

/// The fault of the line with that number.
pub fn fault_at(fault: LineFault, number: u64) -> DocFault
    ensures { result ≡ fault_of number fault }
{
    match fault {
        LineFault::Wrong(kind) => DocFault::Line { line: number, kind },
        LineFault::NoMemory => DocFault::NoMemory,
    }
}

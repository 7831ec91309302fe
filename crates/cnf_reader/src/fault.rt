//! The faults of reading.

use mg_word::{NoMemory, Text};
use tptp_lexer::LexKind;

/// What is wrong with a problem, or with the reading of its files.
#[derive(Clone, Copy, Debug, PartialEq, Eq)]
pub enum ReadKind {
    /// No token begins here, or a quoted form or a comment is not right.
    Lex(LexKind),
    /// The token, or the end, cannot come here.
    Expected,
    /// The role is none that is accepted.
    Role,
    /// The statement is in another language of the TPTP.
    NotCnf,
    /// An equation.
    Equality,
    /// A number that is no plain one.
    Number,
    /// A word with a dollar sign that is neither `$true` nor `$false`.
    Defined,
    /// A `conclude` item that cannot be right.
    BadConclude,
    /// There is no such file to include.
    IncludeAbsent,
    /// An include in a file of the deepest level.
    IncludeDepth,
    /// More includes than a problem may have.
    TooManyIncludes,
    /// More bytes than a problem may have.
    TooLong,
    /// More clauses than a problem may have.
    TooManyClauses,
    /// More literals than a clause may have.
    TooManyLiterals,
    /// More variables than a clause may have.
    TooManyVariables,
    /// More brackets open than a formula may have.
    TooDeep,
    /// There is no file of the problem's name.
    ProblemAbsent,
    /// The reading of a file failed.
    Files,
}

/// Why a problem was not read.
#[derive(Debug, Drop)]
pub enum ReadFault {
    /// The first fault, with the name of its file, and its line and column from 1. The subject is
    /// the written name of an include that is absent, and empty with all other kinds.
    At {
        kind: ReadKind,
        file: Text,
        line: u32,
        column: u32,
        subject: Text,
    },
    /// Memory ran out.
    NoMemory,
}

impl From<NoMemory> for ReadFault {
    ghost use Rattle.std.specs.Prelude.{◌≡◌};
    ghost use Rattle.cnf_reader.specs.declared.fault.ReadFault.TheVariants.{NoMemory as OutOfMemory};

    ghost from_gives = { λ _ fault. fault ≡ OutOfMemory };

    fn from(_: NoMemory) -> Self {
        ReadFault::NoMemory
    }
}

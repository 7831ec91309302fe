//! Why an input gives no problem.

use mg_word::NoMemory;
use thiserror::Error;

/// The first thing that is wrong with the clauses of an input.
#[derive(Clone, Copy, Debug, PartialEq, Eq, Error)]
pub enum FormFault {
    /// A literal has more than 4,096 symbols and variables. The clause's index counts from 0, the literal's position
    /// from 1.
    #[error("a literal has more than 4096 symbols")]
    TooHeavy {
        clause: u32,
        literal: u32,
    },
    /// The clause has the 100,001st form.
    #[error("too many forms")]
    TooManyForms {
        clause: u32,
    },
    /// A variable, by its number from 0, is in a conclusion and in no premise of the form with that number, from 1.
    #[error("a variable of a conclusion is in no premise")]
    NotRestricted {
        clause: u32,
        form: u32,
        variable: u32,
    },
    /// Memory ran out.
    #[error("out of memory")]
    NoMemory,
}

impl From<NoMemory> for FormFault {
    ghost use Rattle.std.specs.Prelude.{◌≡◌};
    ghost use Rattle.clause_form.specs.declared.fault.FormFault.TheVariants.{NoMemory as OutOfMemory};

    ghost from_gives = { λ _ fault. fault ≡ OutOfMemory };

    fn from(_: NoMemory) -> Self {
        FormFault::NoMemory
    }
}

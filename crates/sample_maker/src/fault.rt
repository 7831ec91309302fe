//! Why there is no sample.

use mg_word::NoMemory;
use thiserror::Error;

/// Why a size has no sample.
#[derive(Clone, Copy, Debug, PartialEq, Eq, Error)]
pub enum SampleFault {
    /// The size is 0 or over 20.
    #[error("the size of a sample is from 1 to 20")]
    Range,
    /// Memory ran out.
    #[error("out of memory")]
    NoMemory,
}

impl From<NoMemory> for SampleFault {
    ghost use Rattle.std.specs.Prelude.{◌≡◌};
    ghost use Rattle.sample_maker.specs.declared.fault.SampleFault.TheVariants.{NoMemory as OutOfMemory};

    ghost from_gives = { λ _ fault. fault ≡ OutOfMemory };

    fn from(_: NoMemory) -> Self {
        SampleFault::NoMemory
    }
}

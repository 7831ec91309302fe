//! The counts that say what reads met.

ghost use Rattle.std.specs.Prelude.{◌≡◌};

use crate::ReadAnswer;
use std::marker::Model;

/// Counts the reads that failed, that found no file, and that found more bytes than were allowed. A
/// count stands still at the end of its type.
#[derive(Drop)]
pub(crate) struct ReadCounter {
    faults: u64,
    absences: u64,
    overruns: u64,
}

impl Model for ReadCounter {
    ghost use Rattle.mg_outside.specs.Counting.{Counts};

    ghost Value = { Counts };

    ghost view = { λ c. record { faults = c.faults; absences = c.absences; overruns = c.overruns } };
}

impl ReadCounter {
    ghost use Rattle.mg_outside.specs.Counting.{no_counts, counted};

    pub(crate) fn new() -> ReadCounter
        ensures { result ≡ no_counts }
    {
        ReadCounter {
            faults: 0,
            absences: 0,
            overruns: 0,
        }
    }

    // Counts the answer of a read. A whole file and want of memory are not counted.
    pub(crate) fn count(&mut self, answer: ReadAnswer)
        ensures { self.new ≡ counted answer self.old }
    {
        match answer {
            ReadAnswer::Absent => self.absences = self.absences.saturating_add(1),
            ReadAnswer::TooLong => self.overruns = self.overruns.saturating_add(1),
            ReadAnswer::Failed => self.faults = self.faults.saturating_add(1),
            ReadAnswer::Done | ReadAnswer::NoMemory => {}
        }
    }
}

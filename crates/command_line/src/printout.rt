//! What a run prints.

ghost use Rattle.std.specs.Prelude.{◌≡◌, []};

use crate::status::Status;
use std::alloc::Global;
use szs_report::{FaultReport, Report};

/// The lines for the output, those for the messages, and the status.
#[derive(Debug, Drop)]
pub struct Printout {
    pub out: Report,
    pub err: Report,
    pub status: Status,
}

impl Printout {
    /// Lines for the output alone. It takes no memory.
    pub fn of_output(alloc: Global, out: Report, status: Status) -> Printout
        ensures { result ≡ record { out = out; err = []; status = status } }
    {
        Printout {
            out,
            err: Report::new(alloc),
            status,
        }
    }

    /// The lines of what is refused.
    pub fn of_fault(report: FaultReport, status: Status) -> Printout
        ensures { result ≡ record { out = report.out; err = report.err; status = status } }
    {
        let FaultReport { out, err } = report;
        Printout { out, err, status }
    }
}

//! Why an input is refused, whatever the command.

ghost use Rattle.std.specs.Prelude.{◌≡◌, IfOk};
ghost use Rattle.command_line.specs.Refusals.{seen, read_status, refusal_printout, IsReportable};
ghost use Rattle.szs_report.specs.Troubles.{IsTrouble, trouble_err, trouble_out};

use crate::printout::Printout;
use crate::status::Status;
use clause_form::FormFault;
use cnf_reader::{ReadFault, ReadKind};
use mg_word::{Input, NoMemory};
use std::alloc::Global;
use szs_report::{Trouble, report_fault};

/// Why an input is refused.
#[derive(Drop)]
pub enum Refusal<'a> {
    /// The problem was not read.
    Unread(ReadFault),
    /// The problem has no forms.
    Unformed { input: Input, fault: FormFault },
    /// There is no file of that name, where a tree is wanted.
    TreeAbsent(&'a str),
    /// The reading of the tree's file failed.
    TreeFailed(&'a str),
    /// Memory ran out.
    MemoryOut,
}

// The status of a fault of reading: a failed read is a failure of the outside.
fn read_status(fault: &ReadFault) -> Status
    ensures { result ≡ read_status fault.now }
{
    match fault {
        ReadFault::At {
            kind: ReadKind::Files,
            ..
        } => Status::Failed,
        ReadFault::At { .. } => Status::Refused,
        ReadFault::NoMemory => Status::MemoryOut,
    }
}

// What is printed of a fault.
fn print_fault(
    alloc: Global,
    name: &str,
    trouble: Trouble<'_>,
    status: Status,
) -> Result<Printout, NoMemory>
    requires { IsTrouble trouble }
    ensures { IfOk result (λ printout. printout ≡ record { out = trouble_out name.now trouble.entry; err = trouble_err trouble.entry; status = status }) }
{
    let report = report_fault(alloc, name, trouble)?;
    Ok(Printout::of_fault(report, status))
}

/// What is printed of a refusal, for the problem of this name.
pub fn print_refusal(alloc: Global, name: &str, refusal: &Refusal<'_>) -> Result<Printout, NoMemory>
    requires { IsReportable (seen refusal.now) }
    ensures { IfOk result (λ printout. printout ≡ refusal_printout name.now (seen refusal.now)) }
{
    match refusal {
        Refusal::Unread(fault) => {
            print_fault(alloc, name, Trouble::Read(fault), read_status(fault))
        }
        Refusal::Unformed { input, fault } => {
            print_fault(alloc, name, Trouble::Form(input, fault), Status::Refused)
        }
        Refusal::TreeAbsent(tree) => {
            print_fault(alloc, name, Trouble::TreeAbsent(tree), Status::Refused)
        }
        Refusal::TreeFailed(tree) => {
            print_fault(alloc, name, Trouble::TreeFailed(tree), Status::Failed)
        }
        Refusal::MemoryOut => Err(NoMemory),
    }
}

//! The putting of what is printed: the output first, then the messages, and nothing behind a failed
//! put.

ghost use Rattle.std.specs.Prelude.{◌≡◌, [], ◌∷◌, MatchResult, codes};
ghost use Rattle.std.specs.List.{flat_map};
ghost use Rattle.std.specs.Option.{option_map};
ghost use Rattle.mg_outside.specs.Putting.{Puts};
ghost use Rattle.command_line.specs.Printing.{Prints};
ghost use Rattle.command_line.specs.Refusals.{memory_printout};
ghost use Rattle.command_line.specs.Statuses.{code};
ghost use Rattle.szs_report.specs.Printing.{text_of};

use crate::printout::Printout;
use crate::status::Status;
use mg_outside::{PutAnswer, Sink};
use mg_word::NoMemory;
use szs_report::put_report;

// Puts one piece after the other. At the first failure it stops.
fn put_pieces<O: Sink>(pieces: &[&[u8]], sink: &mut O) -> PutAnswer
    ensures { Puts result (O.seen sink.old) (O.seen sink.new) (flat_map (λ piece. piece.now) pieces.now) }
{
    for piece in pieces {
        if let PutAnswer::Failed = sink.put(piece) {
            return PutAnswer::Failed;
        }
    }
    PutAnswer::Done
}

// Puts what is printed, and gives its status, or that of a failed put.
fn put_printout<O: Sink, E: Sink>(printout: &Printout, out: &mut O, err: &mut E) -> Status
    ensures { Prints printout.now (O.seen out.old) (O.seen out.new) (E.seen err.old) (E.seen err.new) (code result) }
{
    if let PutAnswer::Failed = put_report(&printout.out, out) {
        return Status::Failed;
    }
    if let PutAnswer::Failed = put_report(&printout.err, err) {
        return Status::Failed;
    }
    printout.status
}

// Puts the status line of want of memory, where there is a name for it.
fn put_memory_status<O: Sink>(name: Option<&str>, out: &mut O) -> PutAnswer
    ensures { Puts result (O.seen out.old) (O.seen out.new) (text_of (memory_printout (option_map (λ name. name.now) name.entry)).out) }
{
    match name {
        None => PutAnswer::Done,
        Some(name) => put_pieces(
            &[b"% SZS status MemoryOut for ", name.as_bytes(), b"\n"],
            out,
        ),
    }
}

// Puts, without taking memory, that memory ran out: a status line where a problem was asked for, and
// a message.
fn put_memory_out<O: Sink, E: Sink>(name: Option<&str>, out: &mut O, err: &mut E) -> Status
    ensures { Prints (memory_printout (option_map (λ name. name.now) name.entry))
        (O.seen out.old) (O.seen out.new) (E.seen err.old) (E.seen err.new) (code result) }
{
    if let PutAnswer::Failed = put_memory_status(name, out) {
        return Status::Failed;
    }
    if let PutAnswer::Failed = put_pieces(&[b"mgtp: out of memory\n"], err) {
        return Status::Failed;
    }
    Status::MemoryOut
}

/// Puts what is printed, or that memory ran out, on the problem of this name where there is one.
pub fn put_result<O: Sink, E: Sink>(
    name: Option<&str>,
    outcome: &Result<Printout, NoMemory>,
    out: &mut O,
    err: &mut E,
) -> Status
    ensures { MatchResult outcome.now
        (λ printout. Prints printout (O.seen out.old) (O.seen out.new) (E.seen err.old) (E.seen err.new) (code result))
        (λ _. Prints (memory_printout (option_map (λ name. name.now) name.entry))
        (O.seen out.old) (O.seen out.new) (E.seen err.old) (E.seen err.new) (code result)) }
{
    match outcome {
        Ok(printout) => put_printout(printout, out, err),
        Err(_) => put_memory_out(name, out, err),
    }
}

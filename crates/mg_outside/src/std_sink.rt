//! A real writer, whose content no clause tells.

ghost use Rattle.std.specs.Prelude.{◌≡◌, None, OnOk};
ghost use Rattle.std.specs.Io.KnownBytes.{Appends};
ghost use Rattle.mg_outside.specs.Putting.{SinkSeen, Puts};
ghost use Rattle.mg_outside.specs.Writers.{writer_of, untold_seen};

use crate::{PutAnswer, Sink};
use std::io::{self, Write};

/// A writer that each piece is written to and flushed.
///
/// A fault is an error of a write or a flush, and a write that takes nothing of a piece that is
/// not empty. A write that a signal interrupts is tried again; an interrupted flush is a fault.
#[derive(Drop)]
pub struct StdSink<W> {
    writer: W,
    faults: u64,
}

impl<W: Write + Drop> StdSink<W> {
    /// A sink over this writer.
    pub fn new(writer: W) -> StdSink<W>
        ensures { ⟦<StdSink<W> as Sink>⟧.seen result ≡ record { held = None; faults = 0 } }
    {
        StdSink { writer, faults: 0 }
    }
}

// Writes all bytes and flushes them. A write that a signal interrupts is tried again.
fn write_through<W: Write>(writer: &mut W, bytes: &[u8]) -> io::Result<()>
    ensures { OnOk result (Appends (W.contents writer.old) (W.contents writer.new) bytes.now) }
{
    writer.write_all(bytes)?;
    writer.flush()
}

impl<W: Write + Drop> Sink for StdSink<W> {
    ghost seen = { λ s. untold_seen s };

    fn put(&mut self, bytes: &[u8]) -> PutAnswer
        ensures puts { Puts result (untold_seen self.old) (untold_seen self.new) bytes.now }

        // Beyond the trait: `Done` wrote all to a writer whose bytes are known.
        ensures written { result ≡ PutAnswer.Done → Appends (W.contents (writer_of self.old)) (W.contents (writer_of self.new)) bytes.now }
    {
        if write_through(&mut self.writer, bytes).is_ok() {
            return PutAnswer::Done;
        }
        self.faults = self.faults.saturating_add(1);
        PutAnswer::Failed
    }
}

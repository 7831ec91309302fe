//! Files that are read whole, by name.

ghost use Rattle.std.specs.Prelude.{◌≡◌, ◌≢◌, Option, IfSome};
ghost use Rattle.mg_outside.specs.Counting.{Counts, counted};
ghost use Rattle.mg_outside.specs.Reading.{Table, TakesFile, IsAbsent, IsTooLong, told_answer};

/// What a read answers.
#[derive(Clone, Copy, Debug, PartialEq, Eq)]
pub enum ReadAnswer {
    /// The whole file was appended.
    Done,
    /// There is no such file.
    Absent,
    /// The file has more bytes than were allowed.
    TooLong,
    /// The file could not be read.
    Failed,
    /// Memory ran out.
    NoMemory,
}

/// Files that are read whole. What a read answers is counted, so that a caller can tell what it
/// did not cause.
pub trait Files {
    /// The files by their names, where they are told.
    ghost table: { Self → Option Table };

    /// How many reads failed, found no file, and found more bytes than were allowed.
    ghost counts: { Self → Counts };

    /// Appends the whole file of this name to `into`, where it has at most `limit` bytes.
    fn read(&mut self, name: &str, limit: u64, into: &mut Vec<u8>) -> ReadAnswer
        // The files stay, and each answer raises its own count alone.
        ensures same { table self.new ≡ table self.old }
        ensures counted { counts self.new ≡ counted result (counts self.old) }

        ensures done { result ≡ ReadAnswer.Done → TakesFile (table self.old) name.now limit into.old.items into.new.items }
        ensures absent { result ≡ ReadAnswer.Absent → IsAbsent (table self.old) name.now }
        ensures too_long { result ≡ ReadAnswer.TooLong → IsTooLong (table self.old) name.now limit }
        ensures as_before { result ≢ ReadAnswer.Done → into.new.items ≡ into.old.items }

        // A call that neither failed nor ran out of memory answers what told files say.
        ensures exact { result ≢ ReadAnswer.Failed → result ≢ ReadAnswer.NoMemory
            → IfSome (table self.old) (λ files. result ≡ told_answer (files name.now) limit) };
}

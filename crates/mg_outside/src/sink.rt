//! Where bytes are put.

ghost use Rattle.mg_outside.specs.Putting.{SinkSeen, Puts};

/// What a put answers.
#[derive(Clone, Copy, Debug, PartialEq, Eq)]
pub enum PutAnswer {
    /// All bytes were taken.
    Done,
    /// At most the first of the bytes were taken.
    Failed,
}

/// Where bytes are put, each piece behind the pieces before it.
pub trait Sink {
    /// All bytes taken so far, where they are told, and how many puts failed.
    ghost seen: { Self → SinkSeen };

    /// Appends the bytes. On `Failed` it appended the first of them, maybe none or all. A failed put
    /// is counted, and nothing else is.
    fn put(&mut self, bytes: &[u8]) -> PutAnswer
        ensures { Puts result (seen self.old) (seen self.new) bytes.now };
}

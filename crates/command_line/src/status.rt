//! The exit statuses.

ghost use Rattle.std.specs.Prelude.{◌≡◌};
ghost use Rattle.command_line.specs.Statuses.{code};

/// The exit status of a run.
#[derive(Clone, Copy, Debug, PartialEq, Eq)]
pub enum Status {
    /// What was asked for is there.
    Done = 0,
    /// A search gave up, or the tree is rejected.
    Rejected = 1,
    /// The words ask for no command, or the input is refused.
    Refused = 2,
    /// A read or a put failed.
    Failed = 3,
    /// Memory ran out.
    MemoryOut = 4,
    /// The runtime did not hand out the words.
    WordsWithheld = 5,
}

impl Status {
    /// The number that the process ends with.
    pub fn code(self) -> u8
        ensures { result ≡ code self }
    {
        self as u8
    }
}

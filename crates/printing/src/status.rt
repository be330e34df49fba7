//! How a run ends.

/// How a run ends.
#[derive(Clone, Copy, Debug, PartialEq, Eq)]
pub enum Status {
    /// Done, and all of the answer was printed.
    Done,
    /// A rule refused the call; the line that was printed says which.
    Refused,
    /// The words are not those of a command.
    Usage,
    /// The host, a store or the sink failed.
    Fault,
    /// Memory ran out.
    NoMemory,
    /// A check found something.
    Findings,
}

impl Status {
    ghost use Rattle.std.specs.Prelude.{◌≡◌};
    ghost use Rattle.printing.specs.Statuses.{code_of};

    /// The exit status of the process.
    pub fn code(self) -> u8
        ensures { result ≡ code_of self }
    {
        match self {
            Status::Done => 0,
            Status::Refused => 1,
            Status::Usage => 2,
            Status::Fault => 3,
            Status::NoMemory => 4,
            Status::Findings => 5,
        }
    }
}

// How the program ends.

ghost use Rattle.std.specs.Prelude.{◌≡◌};
ghost use Rattle.program_model.specs.Statuses.{status_number};

/// How the program ends.
#[derive(Clone, Copy, Debug, PartialEq, Eq)]
pub enum Status {
    /// All that was asked for is written.
    Done,
    /// All that was asked for is written, and a premise is broken under which both methods give one history.
    Broken,
    /// The words are no command; nothing is read or written.
    Usage,
    /// The case is refused, in one line.
    Refused,
    /// A read failed; nothing is written.
    ReadFault,
    /// A write failed; what is written is a prefix of the defined text.
    WriteFault,
    /// There was no memory; nothing is written.
    NoMemory,
    /// The input is longer than 4,194,304 bytes; nothing is written.
    TooLong,
}

impl Status {
    /// The program's exit status.
    pub fn number(self) -> u8
        ensures { result ≡ status_number self }
    {
        match self {
            Status::Done => 0,
            Status::Broken => 1,
            Status::Usage => 2,
            Status::Refused => 3,
            Status::ReadFault => 4,
            Status::WriteFault => 5,
            Status::NoMemory => 6,
            Status::TooLong => 7,
        }
    }
}

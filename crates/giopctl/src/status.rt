//! The exit statuses of the program. Their numbers are `status_number` in specs/Status.antt, and
//! docs/giopctl.md and the help list them: change all of these.
ghost use Rattle.std.specs.Prelude.{◌≡◌};

/// How a run of the program ends: its exit status.
#[derive(Clone, Copy, Debug, PartialEq, Eq)]
pub enum Status {
    /// All went well.
    Done,
    /// The input was read and refused.
    Refused,
    /// The words on the command line are none that the program knows.
    Usage,
    /// Reading the input or writing the output failed, or a connection did, or a session took all
    /// its turns.
    InputOutput,
    /// It is out of memory.
    Memory,
}

impl Status {
    ghost use Rattle.std.specs.Prelude.{max};
    ghost use Rattle.giopctl.specs.Status.{status_number};

    /// The number that the process ends with, 0 to 4.
    pub fn number(self) -> u8
        ensures { result ≡ status_number self }
    {
        match self {
            Status::Done => 0,
            Status::Refused => 1,
            Status::Usage => 2,
            Status::InputOutput => 3,
            Status::Memory => 4,
        }
    }

    /// The one of both that has the greater number.
    pub fn or_greater(self, other: Status) -> Status
        ensures { status_number result ≡ max (status_number self) (status_number other) }
    {
        if self.number() < other.number() {
            other
        } else {
            self
        }
    }
}

//! The exit statuses of the program. Their numbers are `status_number` in specs/Status.antt, and
//! docs/giopctl.md and the help list them: change all of these.
ghost use Rattle.std.specs.Prelude.{◌≡◌};

use giop_msg::WireKind;
use std::fmt;

/// A limit of what is held, as an option gives it.
#[derive(Clone, Copy, Debug, PartialEq, Eq)]
pub enum Limit {
    /// The octets of a message, its header not counted: `--message-limit`.
    Message,
    /// The calls in the table: `--calls-limit`.
    Calls,
    /// The octets of all messages of which a piece is still to come: `--gathered-limit`.
    Gathered,
}

/// The option by which a limit is given.
impl fmt::Display for Limit {
    ghost use Rattle.std.specs.Prelude.{Some};
    ghost use Rattle.giop_show.specs.Status.{limit_option};

    ghost output = { λ l. Some (limit_option l) };

    fn fmt<W: fmt::Write>(&self, f: &mut fmt::Formatter<W>) -> fmt::Result {
        f.write_str(match self {
            Limit::Message => "--message-limit",
            Limit::Calls => "--calls-limit",
            Limit::Gathered => "--gathered-limit",
        })
    }
}

/// How a run of the program ends: its exit status.
#[derive(Clone, Copy, Debug, PartialEq, Eq)]
pub enum Status {
    /// All went well.
    Done,
    /// The input was read and refused.
    Refused,
    /// The input was read and refused, since it passes a limit.
    LimitPassed(Limit),
    /// The words on the command line are none that the program knows.
    Usage,
    /// Reading the input or writing the output failed, or a connection did, or a session took all
    /// its turns.
    InputOutput,
    /// It is out of memory.
    Memory,
}

impl Status {
    ghost use Rattle.std.specs.Prelude.{max};
    ghost use Rattle.giop_show.specs.Status.{IsJudged, header_status, status_number};

    /// The status of what ends at a header with a fault of this kind.
    pub fn of_header(kind: WireKind) -> Status
        ensures value { result ≡ header_status kind }
        ensures judged { IsJudged result }
    {
        match kind {
            WireKind::TooLarge => Status::LimitPassed(Limit::Message),
            _ => Status::Refused,
        }
    }

    /// The number that the process ends with, 0 to 4.
    pub fn number(self) -> u8
        ensures { result ≡ status_number self }
    {
        match self {
            Status::Done => 0,
            Status::Refused | Status::LimitPassed(_) => 1,
            Status::Usage => 2,
            Status::InputOutput => 3,
            Status::Memory => 4,
        }
    }

    /// The one of both that has the greater number.
    pub fn or_greater(self, other: Status) -> Status
        ensures { status_number result ≡ max (status_number self) (status_number other) }
    {
        if self.number() < other.number() {
            other
        } else {
            self
        }
    }
}

//! Why a table refuses an event, or refuses to take an entry out. The numbers and texts are those
//! of `specs/Faults.antt`.
ghost use Rattle.std.specs.Prelude.{◌≡◌};

use std::error::Error;
use std::fmt;

/// Why an event is refused. A refusal changes nothing.
#[derive(Debug, PartialEq, Eq, Drop)]
pub enum Refusal<F> {
    /// The rule refuses the event for this id's entry.
    Rule(F),
    /// The id has no entry and would get one, and the table has as many as its limit.
    TooManyCalls,
    /// Out of memory for the entry that an id without one would get.
    NoMemory,
}

impl<F> Refusal<F> {
    ghost use Rattle.giop_mux.specs.Faults.{refusal_number};

    /// The number of the refusal, 1 to 3, in the order in which they are judged.
    pub fn number(&self) -> u8
        ensures { result ≡ refusal_number self.now }
    {
        match self {
            Refusal::Rule(_) => 1,
            Refusal::TooManyCalls => 2,
            Refusal::NoMemory => 3,
        }
    }
}

/// The text of the rule's own fault, or the name of the refusal, such as `TooManyCalls`.
impl<F: fmt::Display> fmt::Display for Refusal<F> {
    ghost use Rattle.giop_mux.specs.Faults.{refusal_text};

    ghost output = { refusal_text F.output };

    fn fmt<W: fmt::Write>(&self, f: &mut fmt::Formatter<W>) -> fmt::Result {
        match self {
            Refusal::Rule(fault) => fault.fmt(f),
            Refusal::TooManyCalls => f.write_str("TooManyCalls"),
            Refusal::NoMemory => f.write_str("NoMemory"),
        }
    }
}

impl<F: fmt::Debug + fmt::Display + Drop> Error for Refusal<F> {}

/// The entry can't be taken out, since its call is still open.
#[derive(Clone, Copy, Debug, PartialEq, Eq)]
pub struct StillOpen;

/// The name of the refusal, `StillOpen`.
impl fmt::Display for StillOpen {
    ghost use Rattle.std.specs.Prelude.{Some, codes};

    ghost output = { λ _. Some (codes "StillOpen") };

    fn fmt<W: fmt::Write>(&self, f: &mut fmt::Formatter<W>) -> fmt::Result {
        f.write_str("StillOpen")
    }
}

impl Error for StillOpen {}

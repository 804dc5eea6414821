//! Why the table of an end's calls refuses an act.
ghost use Rattle.std.specs.Prelude.{◌≡◌};

use giop_frag::GatherFault;
use giop_mux::Refusal;

/// Why an act on the calls of an end is refused. A refusal changes nothing.
#[derive(Debug, PartialEq, Eq, Drop)]
pub enum TableFault<F> {
    /// The rule refuses the event at this id's entry.
    Rule(F),
    /// The id has no entry and would get one, and the table holds as many as it may.
    TooManyCalls,
    /// All gathered octets together would be more than the limit.
    GatherFull,
    /// The entry can't be taken out, since its call is still open.
    StillOpen,
    /// It is out of memory.
    NoMemory,
}

impl<F> From<Refusal<F>> for TableFault<F> {
    ghost use Rattle.giop_table.specs.CallTable.{fault_of};

    ghost from_gives = { λ refusal fault. fault ≡ fault_of refusal };

    fn from(refusal: Refusal<F>) -> TableFault<F> {
        match refusal {
            Refusal::Rule(fault) => TableFault::Rule(fault),
            Refusal::TooManyCalls => TableFault::TooManyCalls,
            Refusal::NoMemory => TableFault::NoMemory,
        }
    }
}

/// A gatherer's refusal of a piece in the byte order of its message, whose pieces are gathered or
/// begin with it: GatherFull, or NoMemory.
impl<F> From<GatherFault> for TableFault<F> {
    ghost use Rattle.giop_table.specs.CallTable.{gather_fault};

    ghost from_gives = { λ fault given. given ≡ gather_fault fault };

    fn from(fault: GatherFault) -> TableFault<F> {
        match fault {
            GatherFault::NoMemory => TableFault::NoMemory,
            _ => TableFault::GatherFull,
        }
    }
}

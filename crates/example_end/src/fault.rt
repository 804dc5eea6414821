//! Why an act on the end is refused. A gatherer's fault becomes the end's fault of the same name.
use giop_frag::GatherFault;

/// Why an act is refused. A refusal changes nothing.
#[derive(Clone, Copy, Debug, PartialEq, Eq)]
pub enum EndFault {
    /// A message comes already for the id.
    InUse,
    /// No message comes for the id.
    Stray,
    /// The piece has another byte order than those before it.
    OrderDiffers,
    /// The message can't be taken out while it comes.
    StillOpen,
    /// There are as many entries as may be, and the id has none.
    TooManyCalls,
    /// All gathered octets together would be more than the limit.
    GatherFull,
    /// It is out of memory.
    NoMemory,
}

impl From<GatherFault> for EndFault {
    ghost use Rattle.std.specs.Prelude.{◌≡◌};
    ghost use Rattle.example_end.specs.Faults.{fault_of};

    ghost from_gives = { λ fault given. given ≡ fault_of fault };

    fn from(fault: GatherFault) -> EndFault {
        match fault {
            GatherFault::Stray => EndFault::Stray,
            GatherFault::OrderDiffers => EndFault::OrderDiffers,
            GatherFault::GatherFull => EndFault::GatherFull,
            GatherFault::NoMemory => EndFault::NoMemory,
        }
    }
}

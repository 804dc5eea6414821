//! Why a gatherer refuses a call. The numbers and names are those of `specs/Faults.antt`.
ghost use Rattle.std.specs.Prelude.{◌≡◌};

use std::alloc::AllocError;
use std::error::Error;
use std::fmt;

/// Why octets are not gathered, or not returned. A refusal leaves the limit and what is gathered as
/// they were. Where several hold, the first of them is returned.
#[derive(Clone, Copy, Debug, PartialEq, Eq)]
pub enum GatherFault {
    /// Nothing is gathered for the id.
    Stray,
    /// The octets of the id came in the other byte order.
    OrderDiffers,
    /// All gathered octets together would be more than the limit.
    GatherFull,
    /// Out of memory for the octets.
    NoMemory,
}

impl GatherFault {
    ghost use Rattle.giop_frag.specs.Faults.{gather_fault_number};

    /// The number of the refusal, 1 to 4.
    pub fn number(self) -> u8
        ensures { result ≡ gather_fault_number self }
    {
        match self {
            GatherFault::Stray => 1,
            GatherFault::OrderDiffers => 2,
            GatherFault::GatherFull => 3,
            GatherFault::NoMemory => 4,
        }
    }
}

/// The name of the refusal, such as `GatherFull`.
impl fmt::Display for GatherFault {
    ghost use Rattle.std.specs.Prelude.{Some};
    ghost use Rattle.giop_frag.specs.Faults.{gather_fault_name};

    ghost output = { λ fault. Some (gather_fault_name fault) };

    fn fmt<W: fmt::Write>(&self, f: &mut fmt::Formatter<W>) -> fmt::Result {
        f.write_str(match self {
            GatherFault::Stray => "Stray",
            GatherFault::OrderDiffers => "OrderDiffers",
            GatherFault::GatherFull => "GatherFull",
            GatherFault::NoMemory => "NoMemory",
        })
    }
}

impl Error for GatherFault {}

impl From<AllocError> for GatherFault {
    ghost use Rattle.std.specs.Prelude.{◌≡◌};
    ghost use Rattle.giop_frag.specs.declared.fault.GatherFault.TheVariants.{NoMemory};

    ghost from_gives = { λ error fault. fault ≡ NoMemory };

    fn from(_error: AllocError) -> GatherFault {
        GatherFault::NoMemory
    }
}

//! Why the text of a reference is refused (CORBA 3.3 Part 2, 7.6.9), and the numbers and names of
//! these faults. They are public, and so fixed by specs/IorTextFault.antt.
ghost use Rattle.std.specs.Prelude.{◌≡◌};

use giop_cdr::CdrFault;
use std::alloc::AllocError;
use std::error::Error;
use std::fmt;

/// Why a text is no reference (CORBA 3.3 Part 2, 7.6.9). The first of 1 to 3 that holds is
/// returned.
#[derive(Clone, Copy, Debug, PartialEq, Eq)]
pub enum IorTextFault {
    /// The text doesn't begin with `IOR:`, in any case.
    BadPrefix,
    /// What follows the prefix is no even number of hexadecimal digits.
    BadHex,
    /// The octets that the digits say are no encapsulation of a reference. The offset counts from
    /// the first of these octets, which is the byte order.
    Cdr(CdrFault),
    /// Out of memory.
    NoMemory,
}

impl IorTextFault {
    ghost use Rattle.giop_ior_text.specs.IorTextFault.{ior_text_fault_number};

    /// The number of the fault, 1 to 4.
    pub fn number(self) -> u8
        ensures { result ≡ ior_text_fault_number self }
    {
        match self {
            IorTextFault::BadPrefix => 1,
            IorTextFault::BadHex => 2,
            IorTextFault::Cdr(_) => 3,
            IorTextFault::NoMemory => 4,
        }
    }
}

/// The name of the fault, as `BadHex`.
impl fmt::Display for IorTextFault {
    ghost use Rattle.std.specs.Prelude.{Some};
    ghost use Rattle.giop_ior_text.specs.IorTextFault.{ior_text_fault_name};

    ghost output = { λ e. Some (ior_text_fault_name e) };

    fn fmt<W: fmt::Write>(&self, f: &mut fmt::Formatter<W>) -> fmt::Result {
        f.write_str(match self {
            IorTextFault::BadPrefix => "BadPrefix",
            IorTextFault::BadHex => "BadHex",
            IorTextFault::Cdr(_) => "Cdr",
            IorTextFault::NoMemory => "NoMemory",
        })
    }
}

impl Error for IorTextFault {}

impl From<AllocError> for IorTextFault {
    ghost use Rattle.giop_ior_text.specs.declared.ior_text_fault.IorTextFault.TheVariants.{NoMemory};

    ghost from_gives = { λ _ e. e ≡ NoMemory };

    fn from(_wanting: AllocError) -> IorTextFault {
        IorTextFault::NoMemory
    }
}

impl From<CdrFault> for IorTextFault {
    ghost use Rattle.giop_ior_text.specs.declared.ior_text_fault.IorTextFault.TheVariants.{Cdr};

    ghost from_gives = { λ fault e. e ≡ Cdr fault };

    fn from(fault: CdrFault) -> IorTextFault {
        IorTextFault::Cdr(fault)
    }
}

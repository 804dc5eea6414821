//! Why a value isn't written. The numbers and names are those of `specs/Faults.antt`.
ghost use Rattle.std.specs.Prelude.{◌≡◌};

use std::alloc::AllocError;
use std::error::Error;
use std::fmt;

/// Why a value wasn't written. The output is then as it was.
#[derive(Clone, Copy, Debug, PartialEq, Eq)]
pub enum EncodeFault {
    /// No octets spell the value: a number breaks the rule of its field, a null is inside a string,
    /// or a string or a list is too long for its count.
    Unfit,
    /// Out of memory, for a value that fits.
    NoMemory,
}

impl EncodeFault {
    ghost use Rattle.giop_cdr.specs.Faults.{encode_fault_number};

    /// The number of the refusal, 1 or 2.
    pub fn number(self) -> u8
        ensures { result ≡ encode_fault_number self }
    {
        match self {
            EncodeFault::Unfit => 1,
            EncodeFault::NoMemory => 2,
        }
    }
}

/// The name of the refusal, such as `Unfit`.
impl fmt::Display for EncodeFault {
    ghost use Rattle.std.specs.Prelude.{Some};
    ghost use Rattle.giop_cdr.specs.Faults.{encode_fault_name};

    ghost output = { λ e. Some (encode_fault_name e) };

    fn fmt<W: fmt::Write>(&self, f: &mut fmt::Formatter<W>) -> fmt::Result {
        f.write_str(match self {
            EncodeFault::Unfit => "Unfit",
            EncodeFault::NoMemory => "NoMemory",
        })
    }
}

impl Error for EncodeFault {}

impl From<AllocError> for EncodeFault {
    ghost use Rattle.giop_cdr.specs.declared.encode_fault.EncodeFault.TheVariants.{NoMemory};

    ghost from_gives = { λ _ e. e ≡ NoMemory };

    fn from(_wanting: AllocError) -> EncodeFault {
        EncodeFault::NoMemory
    }
}

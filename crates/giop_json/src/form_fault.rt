//! Why JSON is refused, and the numbers and names of these faults. They are public, and so fixed by
//! specs/FormFault.antt.
ghost use Rattle.std.specs.Prelude.{◌≡◌};

use giop_types::DescFault;
use std::alloc::{AllocError, AllocFailed};
use std::error::Error;
use std::fmt;

/// Why a JSON text or a JSON value is no value, no description or no interface. The first of 1 to 4
/// that holds of the whole is returned. NoMemory may be returned in place of any.
#[derive(Clone, Copy, Debug, PartialEq, Eq)]
pub enum FormFault {
    /// The text is no JSON, or its arrays and objects nest more than 127 deep.
    BadJson,
    /// A JSON value is of another form than the one that is asked for. It is of another kind, has a
    /// key too many or misses one, has a character above U+00FF, or is a number with a fraction or
    /// an exponent.
    BadShape,
    /// A description describes no type of IDL.
    BadDesc(DescFault),
    /// A value isn't of its description. Its form is right, and a range, a bound, a name or a
    /// length is not.
    Unfit,
    /// Out of memory.
    NoMemory,
}

impl FormFault {
    ghost use Rattle.giop_json.specs.FormFault.{form_fault_number};

    /// The number of the fault, 1 to 5, in the order in which faults are reported.
    pub fn number(self) -> u8
        ensures { result ≡ form_fault_number self }
    {
        match self {
            FormFault::BadJson => 1,
            FormFault::BadShape => 2,
            FormFault::BadDesc(_) => 3,
            FormFault::Unfit => 4,
            FormFault::NoMemory => 5,
        }
    }
}

/// The name of the fault, as `BadShape`.
impl fmt::Display for FormFault {
    ghost use Rattle.std.specs.Prelude.{Some};
    ghost use Rattle.giop_json.specs.FormFault.{form_fault_name};

    ghost output = { λ e. Some (form_fault_name e) };

    fn fmt<W: fmt::Write>(&self, f: &mut fmt::Formatter<W>) -> fmt::Result {
        f.write_str(match self {
            FormFault::BadJson => "BadJson",
            FormFault::BadShape => "BadShape",
            FormFault::BadDesc(_) => "BadDesc",
            FormFault::Unfit => "Unfit",
            FormFault::NoMemory => "NoMemory",
        })
    }
}

impl Error for FormFault {}

impl From<AllocError> for FormFault {
    ghost use Rattle.giop_json.specs.declared.form_fault.FormFault.TheVariants.{NoMemory};

    ghost from_gives = { λ _ e. e ≡ NoMemory };

    fn from(_wanting: AllocError) -> FormFault {
        FormFault::NoMemory
    }
}

impl<T: Drop> From<AllocFailed<T>> for FormFault {
    ghost use Rattle.giop_json.specs.declared.form_fault.FormFault.TheVariants.{NoMemory};

    ghost from_gives = { λ _ e. e ≡ NoMemory };

    fn from(_wanting: AllocFailed<T>) -> FormFault {
        FormFault::NoMemory
    }
}

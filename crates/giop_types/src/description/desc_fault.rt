//! Why a description is refused, and the numbers and names of these faults. They are public, and so
//! fixed by specs/Descriptions/DescFaults.antt.
ghost use Rattle.std.specs.Prelude.{◌≡◌};

use std::error::Error;
use std::fmt;

/// Why a description describes no type of IDL.
#[derive(Clone, Copy, Debug, PartialEq, Eq)]
pub enum DescFault {
    /// A struct has no member, an enum no name, a union no case, a case no label, or an array no
    /// item.
    Empty,
    /// Two names of an enum are the same, or two members of a struct or of a union, or two labels
    /// of a union.
    Doubled,
    /// A union's discriminant is of no type that a discriminant may have, or a label is no value of
    /// it.
    BadDiscriminant,
    /// A description is nested more than 32 deep, where the outermost one is 1 deep.
    TooDeep,
}

impl DescFault {
    ghost use Rattle.giop_types.specs.Descriptions.DescFaults.{desc_fault_number};

    /// The number of the fault, 1 to 4.
    pub fn number(self) -> u8
        ensures { result ≡ desc_fault_number self }
    {
        match self {
            DescFault::Empty => 1,
            DescFault::Doubled => 2,
            DescFault::BadDiscriminant => 3,
            DescFault::TooDeep => 4,
        }
    }
}

/// The name of the fault, as `TooDeep`.
impl fmt::Display for DescFault {
    ghost use Rattle.std.specs.Prelude.{Some};
    ghost use Rattle.giop_types.specs.Descriptions.DescFaults.{desc_fault_name};

    ghost output = { λ e. Some (desc_fault_name e) };

    fn fmt<W: fmt::Write>(&self, f: &mut fmt::Formatter<W>) -> fmt::Result {
        f.write_str(match self {
            DescFault::Empty => "Empty",
            DescFault::Doubled => "Doubled",
            DescFault::BadDiscriminant => "BadDiscriminant",
            DescFault::TooDeep => "TooDeep",
        })
    }
}

impl Error for DescFault {}

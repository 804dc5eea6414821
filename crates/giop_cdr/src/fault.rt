//! Why a reader refuses octets, and where. The numbers and names of the kinds are those of
//! `specs/Faults.antt`, and `docs/PROFILE.md` lists them: change all three.
ghost use Rattle.std.specs.Prelude.{◌≡◌};

use std::error::Error;
use std::fmt;

/// What is wrong with the octets at a place.
#[derive(Clone, Copy, Debug, PartialEq, Eq)]
pub enum CdrKind {
    /// The octets end before the value does.
    Short,
    /// A boolean is neither 0 nor 1.
    BadBoolean,
    /// A string has no null at its end, or one inside.
    BadString,
    /// A count or a length is above the octets that remain after it.
    BadCount,
    /// A discriminant or an ordinal that has no meaning here.
    BadLabel,
    /// A byte order is neither 0 nor 1.
    BadOrder,
    /// A string or a sequence is longer than its bound.
    BoundPassed,
    /// Octets are left after the last value.
    Trailing,
    /// Out of memory, for octets that spell a value. The offset is that of the value which the call
    /// reads. For a string or a sequence of octets that is the offset of its length, after the
    /// padding. For a value of several parts it is where the reader stood, since its padding is
    /// that of its first part.
    NoMemory,
}

impl CdrKind {
    ghost use Rattle.giop_cdr.specs.Faults.{cdr_kind_number};

    /// The number of the kind, 1 to 9.
    pub fn number(self) -> u8
        ensures { result ≡ cdr_kind_number self }
    {
        match self {
            CdrKind::Short => 1,
            CdrKind::BadBoolean => 2,
            CdrKind::BadString => 3,
            CdrKind::BadCount => 4,
            CdrKind::BadLabel => 5,
            CdrKind::BadOrder => 6,
            CdrKind::BoundPassed => 7,
            CdrKind::Trailing => 8,
            CdrKind::NoMemory => 9,
        }
    }
}

/// The name of the kind, such as `BadCount`.
impl fmt::Display for CdrKind {
    ghost use Rattle.std.specs.Prelude.{Some};
    ghost use Rattle.giop_cdr.specs.Faults.{cdr_kind_name};

    ghost output = { λ k. Some (cdr_kind_name k) };

    fn fmt<W: fmt::Write>(&self, f: &mut fmt::Formatter<W>) -> fmt::Result {
        f.write_str(match self {
            CdrKind::Short => "Short",
            CdrKind::BadBoolean => "BadBoolean",
            CdrKind::BadString => "BadString",
            CdrKind::BadCount => "BadCount",
            CdrKind::BadLabel => "BadLabel",
            CdrKind::BadOrder => "BadOrder",
            CdrKind::BoundPassed => "BoundPassed",
            CdrKind::Trailing => "Trailing",
            CdrKind::NoMemory => "NoMemory",
        })
    }
}

/// Why octets were refused, and where.
#[derive(Clone, Copy, Debug, PartialEq, Eq)]
pub struct CdrFault {
    /// The offset of the refused value's first octet after its padding, even if that is past the
    /// end. It counts from the first octet of the message's header, or from the byte-order octet of
    /// an encapsulation. For a string or a sequence it is the offset of its length.
    pub at: usize,
    /// What is wrong there.
    pub kind: CdrKind,
}

impl CdrFault {
    ghost use Rattle.giop_cdr.specs.Faults.{cdr_kind_number};

    /// The number of the fault's kind, 1 to 9.
    pub fn number(self) -> u8
        ensures { result ≡ cdr_kind_number self.kind }
    {
        self.kind.number()
    }
}

/// The name of its kind and its offset, as in `BadCount at 24`.
impl fmt::Display for CdrFault {
    ghost use Rattle.std.specs.Prelude.{Some};
    ghost use Rattle.giop_cdr.specs.Faults.{cdr_fault_text};

    ghost output = { λ e. Some (cdr_fault_text e) };

    fn fmt<W: fmt::Write>(&self, f: &mut fmt::Formatter<W>) -> fmt::Result {
        write!(f, "{} at {}", self.kind, self.at)
    }
}

impl Error for CdrFault {}

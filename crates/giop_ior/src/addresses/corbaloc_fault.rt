//! Why a text is no corbaloc, and where. The numbers and names of the kinds are those of
//! `specs/CorbalocFault.antt`, and `docs/PROFILE.md` lists them: change all three.
ghost use Rattle.std.specs.Prelude.{◌≡◌};

use std::alloc::AllocError;
use std::error::Error;
use std::fmt;

/// What is wrong with a corbaloc text.
#[derive(Clone, Copy, Debug, PartialEq, Eq)]
pub enum CorbalocKind {
    /// The text doesn't begin with `corbaloc:`.
    BadPrefix,
    /// An address begins neither with `:` nor with `iiop:`.
    BadProtocol,
    /// A host has no octet, or one that is no letter, digit, `-`, `_` or `.`.
    BadHost,
    /// A port isn't 1 to 5 digits, or is above 65535.
    BadPort,
    /// A version isn't 1 to 3 digits, `.` and 1 to 3 digits, or its major number isn't 1, or its
    /// minor number is above 255.
    BadVersion,
    /// A `%` in the key without two hexadecimal digits behind it.
    BadEscape,
    /// An octet of the key that has to be escaped.
    BadChar,
    /// Out of memory, for a text that is a corbaloc.
    NoMemory,
}

impl CorbalocKind {
    ghost use Rattle.giop_ior.specs.CorbalocFault.{corbaloc_kind_number};

    /// The number of the kind, 1 to 8.
    pub fn number(self) -> u8
        ensures { result ≡ corbaloc_kind_number self }
    {
        match self {
            CorbalocKind::BadPrefix => 1,
            CorbalocKind::BadProtocol => 2,
            CorbalocKind::BadHost => 3,
            CorbalocKind::BadPort => 4,
            CorbalocKind::BadVersion => 5,
            CorbalocKind::BadEscape => 6,
            CorbalocKind::BadChar => 7,
            CorbalocKind::NoMemory => 8,
        }
    }
}

impl fmt::Display for CorbalocKind {
    ghost use Rattle.std.specs.Prelude.{Some};
    ghost use Rattle.giop_ior.specs.CorbalocFault.{corbaloc_kind_name};

    ghost output = { λ k. Some (corbaloc_kind_name k) };

    fn fmt<W: fmt::Write>(&self, f: &mut fmt::Formatter<W>) -> fmt::Result {
        f.write_str(match self {
            CorbalocKind::BadPrefix => "BadPrefix",
            CorbalocKind::BadProtocol => "BadProtocol",
            CorbalocKind::BadHost => "BadHost",
            CorbalocKind::BadPort => "BadPort",
            CorbalocKind::BadVersion => "BadVersion",
            CorbalocKind::BadEscape => "BadEscape",
            CorbalocKind::BadChar => "BadChar",
            CorbalocKind::NoMemory => "NoMemory",
        })
    }
}

/// Why a text is no corbaloc, and where: the first fault from the left.
#[derive(Clone, Copy, Debug, PartialEq, Eq)]
pub struct CorbalocFault {
    /// The offset of what is wrong, in octets from the first of the text:
    ///
    /// - `BadPrefix` and `NoMemory`: 0.
    /// - `BadProtocol`: the first octet of the address.
    /// - `BadVersion`, `BadHost` and `BadPort`: the first octet of that part.
    /// - `BadEscape`: the `%`.
    /// - `BadChar`: the octet itself.
    ///
    /// It is the end of the text where the part would begin there.
    pub at: usize,
    /// What is wrong there.
    pub kind: CorbalocKind,
}

impl CorbalocFault {
    ghost use Rattle.giop_ior.specs.CorbalocFault.{corbaloc_kind_number};

    /// The number of the fault's kind, 1 to 8.
    pub fn number(self) -> u8
        ensures { result ≡ corbaloc_kind_number self.kind }
    {
        self.kind.number()
    }
}

impl From<AllocError> for CorbalocFault {
    ghost use Rattle.giop_ior.specs.CorbalocFault.{no_memory};

    ghost from_gives = { λ _ e. e ≡ no_memory };

    fn from(_error: AllocError) -> CorbalocFault {
        CorbalocFault {
            at: 0,
            kind: CorbalocKind::NoMemory,
        }
    }
}

/// The name of its kind and its offset, as in `BadPort at 12`.
impl fmt::Display for CorbalocFault {
    ghost use Rattle.std.specs.Prelude.{Some};
    ghost use Rattle.giop_ior.specs.CorbalocFault.{corbaloc_fault_text};

    ghost output = { λ e. Some (corbaloc_fault_text e) };

    fn fmt<W: fmt::Write>(&self, f: &mut fmt::Formatter<W>) -> fmt::Result {
        write!(f, "{} at {}", self.kind, self.at)
    }
}

impl Error for CorbalocFault {}

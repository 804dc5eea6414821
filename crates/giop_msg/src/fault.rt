//! Why octets are no message (9.4.1), and the numbers and names of these faults. They are public,
//! and so fixed by specs/Fault.antt; their order is that of the tests in specs/Header.antt.
ghost use Rattle.std.specs.Prelude.{◌≡◌};

use std::alloc::AllocError;
use std::error::Error;
use std::fmt;

/// What is wrong with a message's header, in the order in which headers are judged.
#[derive(Clone, Copy, Debug, PartialEq, Eq)]
pub enum WireKind {
    /// The first four octets are not `GIOP`.
    BadMagic,
    /// The version is none of 1.0, 1.1 and 1.2.
    BadVersion,
    /// One of the six upper bits of the flags is set; in 1.0, the byte order is neither 0 nor 1.
    ReservedFlags,
    /// The message type is above 7, or 7 before 1.2.
    BadKind,
    /// The message size is above the limit.
    TooLarge,
    /// The message size is not the one of the kind, or is too small for its request id.
    BadSize,
    /// In 1.2 more fragments follow, and the message with its header is no multiple of 8 octets
    /// long.
    FragmentSize,
    /// More fragments follow a message of a kind that none may continue, or a message of 1.1.
    NotFragmentable,
    /// Out of memory. It says nothing of the octets.
    NoMemory,
}

impl WireKind {
    ghost use Rattle.giop_msg.specs.Fault.{wire_kind_number};

    /// The number of the kind, 1 to 9, in the order in which headers are judged.
    pub fn number(self) -> u8
        ensures { result ≡ wire_kind_number self }
    {
        match self {
            WireKind::BadMagic => 1,
            WireKind::BadVersion => 2,
            WireKind::ReservedFlags => 3,
            WireKind::BadKind => 4,
            WireKind::TooLarge => 5,
            WireKind::BadSize => 6,
            WireKind::FragmentSize => 7,
            WireKind::NotFragmentable => 8,
            WireKind::NoMemory => 9,
        }
    }
}

impl fmt::Display for WireKind {
    ghost use Rattle.std.specs.Prelude.{Some};
    ghost use Rattle.giop_msg.specs.Fault.{wire_kind_name};

    ghost output = { λ k. Some (wire_kind_name k) };

    fn fmt<W: fmt::Write>(&self, f: &mut fmt::Formatter<W>) -> fmt::Result {
        f.write_str(match self {
            WireKind::BadMagic => "BadMagic",
            WireKind::BadVersion => "BadVersion",
            WireKind::ReservedFlags => "ReservedFlags",
            WireKind::BadKind => "BadKind",
            WireKind::TooLarge => "TooLarge",
            WireKind::BadSize => "BadSize",
            WireKind::FragmentSize => "FragmentSize",
            WireKind::NotFragmentable => "NotFragmentable",
            WireKind::NoMemory => "NoMemory",
        })
    }
}

/// Why the octets of a stream are no message, and where.
#[derive(Clone, Copy, Debug, PartialEq, Eq)]
pub struct WireFault {
    /// The offset of what is wrong, from the first octet of the message's header: 0 to 3 the magic,
    /// 4 and 5 the version, 6 the flags, 7 the message type, 8 the message size. It is 0 for
    /// `NoMemory`.
    pub at: usize,
    /// What is wrong there.
    pub kind: WireKind,
}

impl WireFault {
    ghost use Rattle.giop_msg.specs.Fault.{wire_kind_number};

    /// The number of its kind, 1 to 9.
    pub fn number(self) -> u8
        ensures { result ≡ wire_kind_number self.kind }
    {
        self.kind.number()
    }
}

impl From<AllocError> for WireFault {
    ghost use Rattle.giop_msg.specs.declared.fault.WireKind.TheVariants.{NoMemory};
    ghost use Rattle.giop_msg.specs.Fault.{fault};

    ghost from_gives = { λ _ e. e ≡ fault 0 NoMemory };

    fn from(_error: AllocError) -> WireFault {
        WireFault {
            at: 0,
            kind: WireKind::NoMemory,
        }
    }
}

/// The name of its kind and its place, as `BadMagic at 3`.
impl fmt::Display for WireFault {
    ghost use Rattle.std.specs.Prelude.{Some};
    ghost use Rattle.giop_msg.specs.Fault.{wire_fault_text};

    ghost output = { λ e. Some (wire_fault_text e) };

    fn fmt<W: fmt::Write>(&self, f: &mut fmt::Formatter<W>) -> fmt::Result {
        write!(f, "{} at {}", self.kind, self.at)
    }
}

impl Error for WireFault {}

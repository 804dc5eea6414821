//! Why an end fails, or refuses a call of its own program. The numbers are `session_fault_number`
//! in specs/Ends/SessionFaults.antt, and docs/PROFILE.md lists them: change all three.
ghost use Rattle.std.specs.Prelude.{◌≡◌};

use giop_calls::CallFault;
use giop_cdr::CdrFault;
use giop_msg::{WireFault, WireKind};
use thiserror::Error;

/// Why an end of a connection fails, or refuses a call of its own program. A refusal changes
/// nothing.
#[derive(Clone, Copy, Debug, PartialEq, Eq, Error)]
pub enum SessionFault {
    /// The octets are no message of GIOP.
    #[error("no message: {0}")]
    Wire(WireFault),
    /// What happens to the call of this id, or what is to be done to it, is refused for this fault.
    #[error("call {id}: {fault}")]
    Call { id: u32, fault: CallFault },
    /// The message is one that only the other end sends.
    #[error("a message of the wrong direction")]
    WrongDirection,
    /// The id has no entry and would get one, and the table holds as many as it may.
    #[error("too many calls")]
    TooManyCalls,
    /// All gathered octets together would be more than the limit.
    #[error("too many gathered octets")]
    GatherFull,
    /// The peer says that what it was sent is no message: a MessageError came.
    #[error("the peer tells an error")]
    PeerError,
    /// The connection was closed, by the peer or by this end.
    #[error("the connection is closed")]
    Closed,
    /// It is out of memory.
    #[error("no memory")]
    NoMemory,
    /// The entry can't be taken out, since its call isn't over.
    #[error("the call is open")]
    StillOpen,
    /// The octets of a message before 1.2 have no request id: a field of it, up to the id, has this
    /// fault.
    #[error("no request id: {0}")]
    NoId(CdrFault),
}

impl SessionFault {
    ghost use Rattle.giop_end.specs.Ends.SessionFaults.{session_fault_number};

    /// The number of the fault, 1 to 10.
    pub fn number(self) -> u8
        ensures { result ≡ session_fault_number self }
    {
        match self {
            SessionFault::Wire(_) => 1,
            SessionFault::Call { .. } => 2,
            SessionFault::WrongDirection => 3,
            SessionFault::TooManyCalls => 4,
            SessionFault::GatherFull => 5,
            SessionFault::PeerError => 6,
            SessionFault::Closed => 7,
            SessionFault::NoMemory => 8,
            SessionFault::StillOpen => 9,
            SessionFault::NoId(_) => 10,
        }
    }
}

/// A framer's refusal. Where the framer is out of memory, the end is too (`NoMemory`).
impl From<WireFault> for SessionFault {
    ghost use Rattle.giop_end.specs.Ends.SessionFaults.{of_wire};

    ghost from_gives = { λ fault given. given ≡ of_wire fault };

    fn from(fault: WireFault) -> SessionFault {
        match fault.kind {
            WireKind::NoMemory => SessionFault::NoMemory,
            _ => SessionFault::Wire(fault),
        }
    }
}

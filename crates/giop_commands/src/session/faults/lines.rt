//! The line of the fault that ended a session. The numbers are giop_end's: change both.
use giop_end::SessionFault;
use giop_lines::CdrFaultText;
use std::fmt;

/// Why an end of a connection failed, in one line: `fault 1 Wire NUMBER NAME at PLACE`,
/// `fault 2 Call ID NUMBER NAME`, `fault 10 NoId NUMBER NAME at PLACE`, else `fault NUMBER NAME`.
#[derive(Clone, Copy)]
pub struct SessionFaultLine(pub SessionFault);

impl fmt::Display for SessionFaultLine {
    ghost use Rattle.std.specs.Prelude.{Some};
    ghost use Rattle.giop_commands.specs.Session.Faults.Lines.{session_fault_line};

    ghost output = { λ l. Some (session_fault_line l.0) };

    fn fmt<W: fmt::Write>(&self, f: &mut fmt::Formatter<W>) -> fmt::Result {
        match self.0 {
            SessionFault::Wire(fault) => write!(f, "fault 1 Wire {} {fault}", fault.number()),
            SessionFault::Call { id, fault } => {
                write!(f, "fault 2 Call {id} {} {fault}", fault.number())
            }
            SessionFault::WrongDirection => f.write_str("fault 3 WrongDirection"),
            SessionFault::TooManyCalls => f.write_str("fault 4 TooManyCalls"),
            SessionFault::GatherFull => f.write_str("fault 5 GatherFull"),
            SessionFault::PeerError => f.write_str("fault 6 PeerError"),
            SessionFault::Closed => f.write_str("fault 7 Closed"),
            SessionFault::NoMemory => f.write_str("fault 8 NoMemory"),
            SessionFault::StillOpen => f.write_str("fault 9 StillOpen"),
            SessionFault::NoId(fault) => write!(f, "fault 10 NoId {}", CdrFaultText(fault)),
        }
    }
}

//! The JSON line of the fault that ended a session. Its text is `session_fault_json` in
//! specs/Session/Faults/Json.antt; the numbers are giop_end's: change all three.
use giop_calls::CallFault;
use giop_end::SessionFault;
use giop_lines::{CdrFaultJson, WireFaultJson};
use std::fmt;

/// Why an end of a connection failed: `{"fault":{"number":NUMBER,"name":NAME}}`, with a `fault` of
/// its own behind the name for Wire, Call and NoId, and for Call the `id` before that.
#[derive(Clone, Copy)]
pub struct SessionFaultJson(pub SessionFault);

impl fmt::Display for SessionFaultJson {
    ghost use Rattle.std.specs.Prelude.{Some};
    ghost use Rattle.giop_commands.specs.Session.Faults.Json.{session_fault_json};

    ghost output = { λ l. Some (session_fault_json l.0) };

    #[tactic(auto, unfolding(crate::specs::Session::Faults::Json::session_fault_json))]
    fn fmt<W: fmt::Write>(&self, f: &mut fmt::Formatter<W>) -> fmt::Result {
        write!(f, "{{\"fault\":{{\"number\":{}}}}}", WhyJson(self.0))
    }
}

// The number of a fault, and the members behind it.
#[derive(Clone, Copy)]
struct WhyJson(SessionFault);

impl fmt::Display for WhyJson {
    ghost use Rattle.std.specs.Prelude.{Some};
    ghost use Rattle.giop_commands.specs.Session.Faults.Json.{why_json};

    ghost output = { λ w. Some (why_json w.0) };

    fn fmt<W: fmt::Write>(&self, f: &mut fmt::Formatter<W>) -> fmt::Result {
        match self.0 {
            SessionFault::Wire(fault) => {
                write!(f, "1,\"name\":\"Wire\",\"fault\":{}", WireFaultJson(fault))
            }
            SessionFault::Call { id, fault } => {
                let fault = CallFaultJson(fault);
                write!(f, "2,\"name\":\"Call\",\"id\":{id},\"fault\":{fault}")
            }
            SessionFault::WrongDirection => f.write_str("3,\"name\":\"WrongDirection\""),
            SessionFault::TooManyCalls => f.write_str("4,\"name\":\"TooManyCalls\""),
            SessionFault::GatherFull => f.write_str("5,\"name\":\"GatherFull\""),
            SessionFault::PeerError => f.write_str("6,\"name\":\"PeerError\""),
            SessionFault::Closed => f.write_str("7,\"name\":\"Closed\""),
            SessionFault::NoMemory => f.write_str("8,\"name\":\"NoMemory\""),
            SessionFault::StillOpen => f.write_str("9,\"name\":\"StillOpen\""),
            SessionFault::NoId(fault) => {
                write!(f, "10,\"name\":\"NoId\",\"fault\":{}", CdrFaultJson(fault))
            }
        }
    }
}

// Why what happens to a call is refused: `{"number":NUMBER,"name":NAME}`.
#[derive(Clone, Copy)]
struct CallFaultJson(CallFault);

impl fmt::Display for CallFaultJson {
    ghost use Rattle.std.specs.Prelude.{Some};
    ghost use Rattle.giop_commands.specs.Session.Faults.Json.{call_fault_json};

    ghost output = { λ l. Some (call_fault_json l.0) };

    #[tactic(auto, unfolding(crate::specs::Session::Faults::Json::call_fault_json))]
    fn fmt<W: fmt::Write>(&self, f: &mut fmt::Formatter<W>) -> fmt::Result {
        let (number, name) = (self.0.number(), self.0);
        write!(f, "{{\"number\":{number},\"name\":\"{name}\"}}")
    }
}

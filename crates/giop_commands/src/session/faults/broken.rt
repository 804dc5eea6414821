//! The exit status of a session that a fault broke off. It is specs/Session/Faults/Broken.antt:
//! change both.
ghost use Rattle.std.specs.Prelude.{◌≡◌};
ghost use Rattle.giop_commands.specs.Session.Faults.Broken.{broken_status};

use giop_end::SessionFault;
use giop_show::status::{Limit, Status};

/// The status of a session that a fault broke off.
pub fn broken_status(fault: SessionFault) -> Status
    ensures { result ≡ broken_status fault }
{
    match fault {
        SessionFault::Wire(fault) => Status::of_header(fault.kind),
        SessionFault::TooManyCalls => Status::LimitPassed(Limit::Calls),
        SessionFault::GatherFull => Status::LimitPassed(Limit::Gathered),
        _ => Status::Refused,
    }
}

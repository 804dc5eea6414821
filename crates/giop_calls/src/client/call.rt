//! A call at a client: a Request or a LocateRequest (CORBA 3.3 Part 2, 9.4.2 and 9.4.5).
ghost use Rattle.std.specs.Prelude.{◌≡◌};
ghost use Rattle.giop_calls.specs.ClientTable.{answers};

use crate::aside::Aside;
use crate::kind::CallKind;
use crate::locate_call::LocateCall;
use giop_msg::{Request, Version};

/// What a client asks of a server.
#[derive(Debug, Drop)]
pub enum Call {
    /// That it carry out an operation.
    Request(Aside<Request>),
    /// Whether it has an object.
    Locate(LocateCall),
}

impl Call {
    /// Whether a message of this kind and version answers the call: a Reply a Request, a
    /// LocateReply a LocateRequest, in its version. It takes no memory.
    pub fn is_answered_by(&self, kind: CallKind, version: Version) -> bool
        ensures { result ≡ answers kind version self.now }
    {
        match (kind, self) {
            (CallKind::Request, Call::Request(request)) => {
                request.head.version.minor() == version.minor()
            }
            (CallKind::Locate, Call::Locate(request)) => request.version.minor() == version.minor(),
            _ => false,
        }
    }
}

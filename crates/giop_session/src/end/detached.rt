//! An end apart from its interface. It borrows nothing, so it can lie in a struct beside its
//! interface, as in a handle of C; it is attached to the interface for each call.
ghost use Rattle.std.specs.Prelude.{◌≡◌, ◌≤◌, ◌^◌, [], None};
ghost use Rattle.giop_session.specs.Calls.Begun.{no_calls};

use crate::acts::outgoing::Outgoing;
use crate::calls::call_table::CallTable;
use crate::end::End;
use crate::hearing::Hearing;
use crate::limits::Limits;
use crate::session_fault::SessionFault;
use giop_msg::Framer;
use giop_types::Interface;
use std::alloc::Global;

/// All of an end but its interface.
///
/// Contracts see the octets that are unread, the calls, the octets that are outgoing, the limits,
/// and the fault of an end that failed or is closed.
#[derive(Drop)]
pub struct Detached<R: Hearing> {
    framer: Framer,
    calls: CallTable<R>,
    outgoing: Outgoing,
    limits: Limits,
    fault: Option<SessionFault>,
    alloc: Global,
}

impl<R: Hearing> Detached<R> {
    /// An end by this rule, without calls. It takes no memory.
    pub fn new(alloc: Global, rule: R, limits: Limits) -> Detached<R>
        requires { limits.gathered ≤ 2 ^ 62 }
        ensures calls { result.calls ≡ no_calls rule limits }
        ensures unread { result.framer ≡ record { limit = limits.message; octets = [] } }
        ensures outgoing { result.outgoing ≡ [] }
        ensures limits { result.limits ≡ limits }
        ensures fault { result.fault ≡ None }
        ensures alloc { result.alloc ≡ alloc }
    {
        Detached {
            framer: Framer::new(alloc, limits.message),
            calls: CallTable::new(alloc, rule, limits.calls, limits.gathered as usize),
            outgoing: Outgoing::new(alloc),
            limits,
            fault: None,
            alloc,
        }
    }

    /// The end over an interface. It takes no memory.
    pub fn attach<'a>(self, interface: &'a Interface) -> End<'a, R>
        ensures interface { result.interface.now ≡ interface.now }
        ensures calls { result.calls ≡ self.calls }
        ensures unread { result.framer ≡ self.framer }
        ensures outgoing { result.outgoing ≡ self.outgoing }
        ensures limits { result.limits ≡ self.limits }
        ensures fault { result.fault ≡ self.fault }
        ensures alloc { result.alloc ≡ self.alloc }
    {
        End {
            interface,
            framer: self.framer,
            calls: self.calls,
            outgoing: self.outgoing,
            limits: self.limits,
            fault: self.fault,
            alloc: self.alloc,
        }
    }
}

impl<'a, R: Hearing> End<'a, R> {
    /// The end without its interface. It takes no memory.
    pub fn detach(self) -> Detached<R>
        ensures { result ≡ record {
          framer = self.entry.framer;
          calls = self.entry.calls;
          outgoing = self.entry.outgoing;
          limits = self.entry.limits;
          fault = self.entry.fault;
          alloc = self.entry.alloc;
        } }
    {
        Detached {
            framer: self.framer,
            calls: self.calls,
            outgoing: self.outgoing,
            limits: self.limits,
            fault: self.fault,
            alloc: self.alloc,
        }
    }
}

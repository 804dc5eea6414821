//! What a client's end that is apart from its interface does for its own program. What its parts
//! undergo is acts/calling.rt.
ghost use Rattle.std.specs.Prelude.{◌≡◌, Some, None, Err};
ghost use Rattle.giop_end.specs.declared.session_fault.SessionFault.TheVariants.{NoMemory};
ghost use Rattle.giop_end.specs.Acts.ClientCalls.{cancel_fault, open_version, PutsCall, PutsCancel, PutsLocate};
ghost use Rattle.giop_table.specs.CallTable.{entry_at};
ghost use Rattle.giop_end.specs.Acts.Form.{IsForm};
ghost use Rattle.giop_end.specs.Ends.Detached.{IsActedOn};

use crate::acts::calling::{call, locate};
use crate::acts::cancelling::cancel;
use crate::acts::form::Form;
use crate::end::Detached;
use crate::session_fault::SessionFault;
use giop_calls::ClientRule;
use giop_cdr::Order;
use giop_msg::{LocateRequest, Request};
use giop_types::Interface;

impl Detached<ClientRule> {
    /// Calls, as `End::call` of the end over this interface.
    pub fn call(
        &mut self,
        interface: &Interface,
        request: Request,
        form: Form,
    ) -> Result<(), SessionFault>
        requires { IsForm form }
        ensures failed { (why : _) → self.old.fault ≡ Some why
            → (result ≡ Err why) × (self.new ≡ self.old) }
        ensures called { self.old.fault ≡ None → PutsCall interface.now self.old.limits request form
            self.old.calls self.old.outgoing result self.new.calls self.new.outgoing }
        ensures others { IsActedOn self.old self.new }
    {
        if let Some(fault) = self.fault {
            return Err(fault);
        }
        call(
            self.alloc,
            interface,
            self.limits,
            &mut self.calls,
            &mut self.outgoing,
            request,
            form,
        )
    }

    /// Asks where an object is, as `End::locate`.
    pub fn locate(&mut self, request: LocateRequest, form: Form) -> Result<(), SessionFault>
        requires { IsForm form }
        ensures failed { (why : _) → self.old.fault ≡ Some why
            → (result ≡ Err why) × (self.new ≡ self.old) }
        ensures located { self.old.fault ≡ None → PutsLocate self.old.limits request form
            self.old.calls self.old.outgoing result self.new.calls self.new.outgoing }
        ensures others { IsActedOn self.old self.new }
    {
        if let Some(fault) = self.fault {
            return Err(fault);
        }
        locate(
            self.alloc,
            self.limits,
            &mut self.calls,
            &mut self.outgoing,
            request,
            form,
        )
    }

    /// Cancels a call, as `End::cancel`.
    pub fn cancel(&mut self, id: u32, order: Order) -> Result<(), SessionFault>
        ensures failed { (why : _) → self.old.fault ≡ Some why
            → (result ≡ Err why) × (self.new ≡ self.old) }
        ensures last { result ≡ Err NoMemory → self.old.fault ≡ None
            → cancel_fault (open_version (entry_at self.old.calls id)) ≡ None }
        ensures cancelled { self.old.fault ≡ None → PutsCancel id order self.old.calls
            self.old.outgoing result self.new.calls self.new.outgoing }
        ensures others { IsActedOn self.old self.new }
    {
        if let Some(fault) = self.fault {
            return Err(fault);
        }
        cancel(self.alloc, &mut self.calls, &mut self.outgoing, id, order)
    }
}

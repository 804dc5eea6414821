//! What a client's end does for its own program: it calls, asks where an object is, and cancels
//! (CORBA 3.3 Part 2, 9.4.2, 9.4.5 and 9.4.4). What an end's parts undergo is acts/calling.rt.
ghost use Rattle.std.specs.Prelude.{◌≡◌, Some, None, Err};
ghost use Rattle.std.specs.Option.{option_map};
ghost use Rattle.giop_calls.specs.ClientTable as table;
ghost use Rattle.giop_calls.specs.Outcomes.{copied};
ghost use Rattle.giop_end.specs.declared.session_fault.SessionFault.TheVariants.{NoMemory};
ghost use Rattle.giop_end.specs.Acts.ClientCalls.{cancel_fault, open_version, PutsCall, PutsCancel, PutsLocate};
ghost use Rattle.giop_table.specs.CallTable.{entry_at};
ghost use Rattle.giop_end.specs.Acts.Form.{IsForm};
ghost use Rattle.giop_end.specs.Ends.View.{IsActedOn};

use crate::acts::calling::{call, locate};
use crate::acts::cancelling::cancel;
use crate::acts::form::Form;
use crate::end::ClientEnd;
use crate::session_fault::SessionFault;
use giop_calls::Outcome;
use giop_cdr::Order;
use giop_msg::{LocateRequest, Reply, Request};

impl<'a> ClientEnd<'a> {
    /// Calls: the Request is sent in a form (9.4.2), of which the first piece is put out now, and
    /// `send` puts out each of the others.
    ///
    /// A failed end returns its fault. Else the first of these that holds is returned, and
    /// `NoMemory` may stand in place of any:
    ///
    /// - `IdInUse`, where the id's call isn't over.
    /// - `UnknownOperation`, where the interface hasn't the operation.
    /// - `Unfit`, where no octets spell the Request, they are more than the limit `gathered`, or a
    ///   message of them is larger than the limit `message`.
    /// - `TooManyCalls`.
    ///
    /// A refusal changes nothing.
    pub fn call(&mut self, request: Request, form: Form) -> Result<(), SessionFault>
        requires { IsForm form }
        ensures failed { (why : _) → self.old.fault ≡ Some why
            → (result ≡ Err why) × (self.new ≡ self.old) }
        ensures called { self.old.fault ≡ None → PutsCall self.old.interface.now self.old.limits
            request form self.old.calls self.old.outgoing result self.new.calls self.new.outgoing }
        ensures others { IsActedOn self.old self.new }
    {
        if let Some(fault) = self.fault {
            return Err(fault);
        }
        call(
            self.alloc,
            self.interface,
            self.limits,
            &mut self.calls,
            &mut self.outgoing,
            request,
            form,
        )
    }

    /// Asks where an object is: the LocateRequest is sent in a form (9.4.5), of which the first
    /// piece is put out now, and `send` puts out each of the others.
    ///
    /// A failed end returns its fault. Else the first of these that holds is returned, and
    /// `NoMemory` may stand in place of any:
    ///
    /// - `IdInUse`, where the id's call isn't over.
    /// - `Unfit`, where no octets spell the LocateRequest, they are more than the limit `gathered`,
    ///   or a message of them is larger than the limit `message`.
    /// - `TooManyCalls`.
    ///
    /// A refusal changes nothing.
    pub fn locate(&mut self, request: LocateRequest, form: Form) -> Result<(), SessionFault>
        requires { IsForm form }
        ensures failed { (why : _) → self.old.fault ≡ Some why
            → (result ≡ Err why) × (self.new ≡ self.old) }
        ensures located { self.old.fault ≡ None → PutsLocate self.old.limits request form
            self.old.calls self.old.outgoing result self.new.calls self.new.outgoing }
        ensures others { IsActedOn self.old self.new }
    {
        if let Some(fault) = self.fault {
            return Err(fault);
        }
        locate(
            self.alloc,
            self.limits,
            &mut self.calls,
            &mut self.outgoing,
            request,
            form,
        )
    }

    /// Cancels a call whose reply isn't whole: a CancelRequest is put out (9.4.4), in the call's
    /// version, and no further piece of the call is sent.
    ///
    /// A failed end returns its fault. An id without such a call is refused as `NotOpen`. Else
    /// `NoMemory` is returned where it is out of memory. A refusal changes nothing.
    pub fn cancel(&mut self, id: u32, order: Order) -> Result<(), SessionFault>
        ensures failed { (why : _) → self.old.fault ≡ Some why
            → (result ≡ Err why) × (self.new ≡ self.old) }
        ensures last { result ≡ Err NoMemory → self.old.fault ≡ None
            → cancel_fault (open_version (entry_at self.old.calls id)) ≡ None }
        ensures cancelled { self.old.fault ≡ None → PutsCancel id order self.old.calls
            self.old.outgoing result self.new.calls self.new.outgoing }
        ensures others { IsActedOn self.old self.new }
    {
        if let Some(fault) = self.fault {
            return Err(fault);
        }
        cancel(self.alloc, &mut self.calls, &mut self.outgoing, id, order)
    }

    /// What the call of an id came to; `None` where nothing is stored for the id. It takes no
    /// memory.
    pub fn outcome(&self, id: u32) -> Option<Outcome<&Reply>>
        ensures { option_map copied result ≡ option_map table.outcome (entry_at self.now.calls id) }
    {
        match self.calls.slot(id) {
            Some(slot) => Some(slot.entry.outcome()),
            None => None,
        }
    }
}

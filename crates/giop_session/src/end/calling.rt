//! What a client's own program does: it calls, asks where an object is, and cancels (CORBA 3.3 Part
//! 2, 9.4.2, 9.4.5 and 9.4.4). Its meaning is `IsCall`, `IsLocate` and `IsCancel` in
//! specs/Acts/ClientCalls.antt: change both.
ghost use Rattle.std.specs.Prelude.{◌≡◌, ◌⊎◌, ◌<◌, ◌^◌, [], ◌∷◌, Some, None, Err, length, is_ok, IfErr, IfOk, IfSome, IsOk, option_copied};
ghost use Rattle.std.specs.FinMap as finite;
ghost use Rattle.std.specs.Option.{option_map};
ghost use Rattle.giop_cdr.specs.Ending.{ended};
ghost use Rattle.giop_msg.specs.declared.kind.Kind.TheVariants as message;
ghost use Rattle.giop_msg.specs.Cut.{IsCut};
ghost use Rattle.giop_msg.specs.Locate.{locate_request};
ghost use Rattle.giop_msg.specs.Messages.Request as requests;
ghost use Rattle.giop_calls.specs.ClientTable as table;
ghost use Rattle.giop_calls.specs.declared.client.event.ClientEvent.TheVariants as event;
ghost use Rattle.giop_calls.specs.Outcomes.{copied};
ghost use Rattle.giop_session.specs.declared.calls.plan.Plan.TheVariants.{Next};
ghost use Rattle.giop_session.specs.declared.session_fault.SessionFault.TheVariants.{NoMemory};
ghost use Rattle.giop_session.specs.Acts.ClientCalls.{begin_fault, call_fault, cancel_fault, IsCall, IsCancel, IsLocate, locate_fault, locate_octets, open_in, open_version, request_octets, version_of};
ghost use Rattle.giop_session.specs.Calls.CallTable.{rules_of};
ghost use Rattle.giop_session.specs.Acts.Form.{IsForm};
ghost use Rattle.giop_session.specs.Hearing.Heard.{in_call};
ghost use Rattle.giop_session.specs.Acts.Putting.{Puts};
ghost use Rattle.giop_session.specs.Calls.Refused.{IsRefusal};
ghost use Rattle.giop_session.specs.Calls.Sending.{entry_of};
ghost use Rattle.giop_session.specs.Acts.Sent.{cancel_request, InRange};

use crate::acts::form::Form;
use crate::acts::local::{done, sent};
use crate::acts::messages::Messages;
use crate::acts::putting::put;
use crate::acts::sendable::one_message;
use crate::calls::plan::{Plan, Planned};
use crate::end::ClientEnd;
use crate::session_fault::SessionFault;
use giop_calls::{Aside, Call, CallFault, ClientEntry, ClientEvent, Outcome, with_target_aside};
use giop_cdr::{OctetList, Order};
use giop_msg::{Kind, LocateRequest, Reply, Request, Version};
use std::alloc::Global;

impl<'a> ClientEnd<'a> {
    /// Calls: the Request is sent in a form (9.4.2), of which the first piece is put out now, and
    /// `send` puts out each of the others.
    ///
    /// A failed end returns its fault. Else the first of these that holds is returned, and
    /// `NoMemory` may stand in place of any:
    ///
    /// - `IdInUse`, where the id's call isn't over.
    /// - `UnknownOperation`, where the interface hasn't the operation.
    /// - `Unfit`, where no octets spell the Request, they are more than the limit `gathered`, or a
    ///   message of them is larger than the limit `message`.
    /// - `TooManyCalls`.
    ///
    /// A refusal changes nothing.
    #[tactic(auto, using(crate::proofs::OnLimits::QuietLemmas::call_quiet, crate::proofs::OnActs::LocalLemmas::refused_puts))]
    pub fn call(&mut self, request: Request, form: Form) -> Result<(), SessionFault>
        requires { IsForm form }
        ensures failed { (why : _) → self.old.fault ≡ Some why
            → (result ≡ Err why) × (self.new ≡ self.old) }
        ensures called { self.old.fault ≡ None
            → Puts (rules_of table.client_step table.is_closed table.is_gathering) in_call
            request.head.id
            (call_fault self.old.interface.now self.old.limits
            (entry_of (finite.get self.old.calls.table request.head.id)) request form)
            (IsCall self.old.interface.now request form)
            self.old.calls self.old.outgoing result self.new.calls self.new.outgoing }
        ensures others { self.new ≡ record self.old {
          calls = self.new.calls;
          outgoing = self.new.outgoing;
        } }
    {
        if let Some(fault) = self.fault {
            return Err(fault);
        }
        let id = request.head.id;
        let messages = self.pieces_of_request(&request, form)?;
        let Ok(request) = Aside::new(self.alloc, request) else {
            return Err(SessionFault::NoMemory);
        };
        let event = ClientEvent::Call {
            pieces: messages.len() as u32,
            call: Call::Request(request),
        };
        let planned = Planned {
            event,
            plan: Plan::Put(messages),
        };
        done(id, put(&mut self.calls, &mut self.outgoing, id, planned))
    }

    /// Asks where an object is: the LocateRequest is sent in a form (9.4.5), of which the first
    /// piece is put out now, and `send` puts out each of the others.
    ///
    /// A failed end returns its fault. Else the first of these that holds is returned, and
    /// `NoMemory` may stand in place of any:
    ///
    /// - `IdInUse`, where the id's call isn't over.
    /// - `Unfit`, where no octets spell the LocateRequest, they are more than the limit `gathered`,
    ///   or a message of them is larger than the limit `message`.
    /// - `TooManyCalls`.
    ///
    /// A refusal changes nothing.
    #[tactic(auto, using(crate::proofs::OnLimits::QuietLemmas::call_quiet, crate::proofs::OnActs::LocalLemmas::refused_puts))]
    pub fn locate(&mut self, request: LocateRequest, form: Form) -> Result<(), SessionFault>
        requires { IsForm form }
        ensures failed { (why : _) → self.old.fault ≡ Some why
            → (result ≡ Err why) × (self.new ≡ self.old) }
        ensures located { self.old.fault ≡ None
            → Puts (rules_of table.client_step table.is_closed table.is_gathering) in_call
            request.id
            (locate_fault self.old.limits
            (entry_of (finite.get self.old.calls.table request.id)) request form)
            (IsLocate request form)
            self.old.calls self.old.outgoing result self.new.calls self.new.outgoing }
        ensures others { self.new ≡ record self.old {
          calls = self.new.calls;
          outgoing = self.new.outgoing;
        } }
    {
        if let Some(fault) = self.fault {
            return Err(fault);
        }
        let id = request.id;
        let messages = self.pieces_of_locate(&request, form)?;
        let Ok(request) = with_target_aside(self.alloc, request) else {
            return Err(SessionFault::NoMemory);
        };
        let event = ClientEvent::Call {
            pieces: messages.len() as u32,
            call: Call::Locate(request),
        };
        let planned = Planned {
            event,
            plan: Plan::Put(messages),
        };
        done(id, put(&mut self.calls, &mut self.outgoing, id, planned))
    }

    /// Cancels a call whose reply isn't whole: a CancelRequest is put out (9.4.4), in the call's
    /// version, and no further piece of the call is sent.
    ///
    /// A failed end returns its fault. An id without such a call is refused as `NotOpen`. Else
    /// `NoMemory` is returned where it is out of memory. A refusal changes nothing.
    #[tactic(auto, using(crate::proofs::OnLimits::QuietLemmas::cancel_quiet, crate::proofs::OnActs::LocalLemmas::refused_puts))]
    pub fn cancel(&mut self, id: u32, order: Order) -> Result<(), SessionFault>
        ensures failed { (why : _) → self.old.fault ≡ Some why
            → (result ≡ Err why) × (self.new ≡ self.old) }
        ensures last { result ≡ Err NoMemory → self.old.fault ≡ None
            → cancel_fault (open_version (entry_of (finite.get self.old.calls.table id))) ≡ None }
        ensures cancelled { self.old.fault ≡ None
            → Puts (rules_of table.client_step table.is_closed table.is_gathering) in_call id
            (cancel_fault (open_version (entry_of (finite.get self.old.calls.table id))))
            (IsCancel id order (open_version (entry_of (finite.get self.old.calls.table id))))
            self.old.calls self.old.outgoing result self.new.calls self.new.outgoing }
        ensures others { self.new ≡ record self.old {
          calls = self.new.calls;
          outgoing = self.new.outgoing;
        } }
    {
        if let Some(fault) = self.fault {
            return Err(fault);
        }
        let Some(version) = self.open_version(id) else {
            let fault = CallFault::NotOpen;
            return Err(SessionFault::Call { id, fault });
        };
        let Some(messages) = cancel_request(self.alloc, version, order, id) else {
            return Err(SessionFault::NoMemory);
        };
        let planned = Planned {
            event: ClientEvent::Cancel,
            plan: Plan::Put(messages),
        };
        done(id, put(&mut self.calls, &mut self.outgoing, id, planned))
    }

    /// Puts out the next piece of a call.
    ///
    /// A failed end returns its fault. An id of which no piece is left is refused as
    /// `NothingToSend`. Else `NoMemory` is returned where it is out of memory. A refusal changes
    /// nothing.
    #[tactic(auto, using(crate::proofs::OnLimits::QuietLemmas::client_send_quiet, crate::proofs::OnActs::LastLemmas::client_sends_none))]
    pub fn send(&mut self, id: u32) -> Result<(), SessionFault>
        ensures failed { (why : _) → self.old.fault ≡ Some why
            → (result ≡ Err why) × (self.new ≡ self.old) }
        ensures last { result ≡ Err NoMemory → self.old.fault ≡ None
            → IsOk (table.client_step (entry_of (finite.get self.old.calls.table id))
            event.Send).outcome }
        ensures sent { self.old.fault ≡ None
            → Puts (rules_of table.client_step table.is_closed table.is_gathering) in_call id None
            (λ planned. planned ≡ record { event = event.Send; plan = Next })
            self.old.calls self.old.outgoing result self.new.calls self.new.outgoing }
        ensures others { self.new ≡ record self.old {
          calls = self.new.calls;
          outgoing = self.new.outgoing;
        } }
    {
        if let Some(fault) = self.fault {
            return Err(fault);
        }
        if !self.has_piece(id) {
            let fault = CallFault::NothingToSend;
            return Err(SessionFault::Call { id, fault });
        }
        let planned = Planned {
            event: ClientEvent::Send,
            plan: Plan::Next,
        };
        done(id, put(&mut self.calls, &mut self.outgoing, id, planned))
    }

    /// What the call of an id came to; `None` where nothing is stored for the id. It takes no
    /// memory.
    pub fn outcome(&self, id: u32) -> Option<Outcome<&Reply>>
        ensures { option_map copied result ≡ option_map table.outcome
            (entry_of (finite.get self.now.calls.table id)) }
    {
        match self.calls.slot(id) {
            Some(slot) => Some(slot.entry.outcome()),
            None => None,
        }
    }

    // The messages that a Request is sent in.
    #[tactic(auto, using(crate::proofs::OnActs::LocalLemmas::refused_unsent))]
    fn pieces_of_request(&self, request: &Request, form: Form) -> Result<Messages, SessionFault>
        requires { IsForm form }
        ensures ok { IfOk result (λ messages. call_fault self.now.interface.now self.now.limits
            (entry_of (finite.get self.now.calls.table request.now.head.id)) request.now form
            ≡ None) }
        ensures cut { IfOk result (λ messages. IsCut request.now.head.version message.Request
            form.order (request_octets self.now.interface.now request.now form.order) form.piece
            messages) }
        ensures held { IfOk result (λ messages. InRange
            (requests.request self.now.interface.now request.now.head.version) request.now
            form) }
        ensures few { IfOk result (λ messages. length messages < 2 ^ 32) }
        ensures err { IfErr result (IsRefusal request.now.head.id
            (call_fault self.now.interface.now self.now.limits
            (entry_of (finite.get self.now.calls.table request.now.head.id)) request.now form)) }
    {
        let head = &request.head;
        if let Some(fault) = self.begin_fault(request) {
            return Err(SessionFault::Call { id: head.id, fault });
        }
        let encoded = request.encode(self.alloc, self.interface, form.order);
        let (alloc, limits, version) = (self.alloc, self.limits, head.version);
        sent(
            alloc,
            limits,
            version,
            Kind::Request,
            form,
            head.id,
            encoded,
        )
    }

    // The messages that a LocateRequest is sent in.
    #[tactic(auto, unfolding(giop_cdr::specs::Ending::ended), using(crate::proofs::OnActs::LocalLemmas::refused_unsent))]
    fn pieces_of_locate(
        &self,
        request: &LocateRequest,
        form: Form,
    ) -> Result<Messages, SessionFault>
        requires { IsForm form }
        ensures ok { IfOk result (λ messages. locate_fault self.now.limits
            (entry_of (finite.get self.now.calls.table request.now.id)) request.now form
            ≡ None) }
        ensures cut { IfOk result (λ messages. IsCut request.now.version message.LocateRequest
            form.order (locate_octets request.now form.order) form.piece messages) }
        ensures held { IfOk result (λ messages. InRange
            (ended (locate_request request.now.version)) request.now form) }
        ensures few { IfOk result (λ messages. length messages < 2 ^ 32) }
        ensures err { IfErr result (IsRefusal request.now.id
            (locate_fault self.now.limits
            (entry_of (finite.get self.now.calls.table request.now.id)) request.now form)) }
    {
        let id = request.id;
        if !self.is_free(id) {
            let fault = CallFault::IdInUse;
            return Err(SessionFault::Call { id, fault });
        }
        let encoded = request.encode(self.alloc, form.order);
        let (alloc, limits, version) = (self.alloc, self.limits, request.version);
        sent(
            alloc,
            limits,
            version,
            Kind::LocateRequest,
            form,
            id,
            encoded,
        )
    }

    // Whether a piece of the call of an id is left to be sent.
    #[tactic(auto, using(crate::proofs::OnActs::LastLemmas::client_has_piece))]
    fn has_piece(&self, id: u32) -> bool
        ensures { result ≡ is_ok (table.client_step
            (entry_of (finite.get self.now.calls.table id)) event.Send).outcome }
    {
        match self.calls.slot(id) {
            Some(slot) => matches!(slot.entry, ClientEntry::Sending { .. }),
            None => false,
        }
    }

    // The version of an id's call, where that may be cancelled.
    fn open_version(&self, id: u32) -> Option<Version>
        ensures { result ≡ open_version (entry_of (finite.get self.now.calls.table id)) }
    {
        open_in(&self.calls.slot(id)?.entry)
    }

    // Why no call of the operation may take the id, where something forbids it.
    fn begin_fault(&self, request: &Request) -> Option<CallFault>
        ensures { result ≡ begin_fault self.now.interface.now
            (entry_of (finite.get self.now.calls.table request.now.head.id)) request.now }
    {
        if !self.is_free(request.head.id) {
            Some(CallFault::IdInUse)
        } else if self
            .interface
            .operation(request.head.operation.as_slice())
            .is_none()
        {
            Some(CallFault::UnknownOperation)
        } else {
            None
        }
    }

    // Whether a call may take the id.
    fn is_free(&self, id: u32) -> bool
        ensures { result ≡ table.is_free (entry_of (finite.get self.now.calls.table id)) }
    {
        match self.calls.slot(id) {
            Some(slot) => slot.entry.is_closed(),
            None => true,
        }
    }
}

// The CancelRequest of an id. `None` where it is out of memory.
fn cancel_request(alloc: Global, version: Version, order: Order, id: u32) -> Option<Messages>
    ensures { IfSome result (λ messages. messages ≡ cancel_request version order id ∷ []) }
{
    let payload = OctetList::from_slice(alloc, &order.ulong_octets(id)).ok()?;
    Some(one_message(alloc, version, Kind::CancelRequest, order, payload))
}

// The version of an entry's call, where that may be cancelled: all of its reply hasn't come.
fn open_in(entry: &ClientEntry) -> Option<Version>
    ensures { result ≡ open_in entry.now }
{
    match entry {
        ClientEntry::Sending { call, .. }
        | ClientEntry::Waiting { call }
        | ClientEntry::Gathering { call } => Some(version_of(call)),
        _ => None,
    }
}

fn version_of(call: &Call) -> Version
    ensures { result ≡ version_of call.now }
{
    match call {
        Call::Request(request) => request.head.version,
        Call::Locate(request) => request.version,
    }
}

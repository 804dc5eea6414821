//! What a client's own program does: it calls, and asks where an object is (CORBA 3.3 Part 2, 9.4.2
//! and 9.4.5), as acts on the parts of an end that hasn't failed. Its meaning is `IsCall` and
//! `IsLocate` in specs/Acts/ClientCalls.antt: change both.
ghost use Rattle.std.specs.Prelude.{◌≡◌, ◌<◌, ◌^◌, None, Err, length, IfErr, IfOk};
ghost use Rattle.giop_cdr.specs.Ending.{ended};
ghost use Rattle.giop_msg.specs.declared.kind.Kind.TheVariants as message;
ghost use Rattle.giop_msg.specs.Cut.{IsCut};
ghost use Rattle.giop_msg.specs.Locate.{locate_request};
ghost use Rattle.giop_msg.specs.Messages.Request as requests;
ghost use Rattle.giop_calls.specs.ClientTable as table;
ghost use Rattle.giop_end.specs.declared.session_fault.SessionFault.TheVariants.{NoMemory};
ghost use Rattle.giop_end.specs.Acts.ClientCalls.{begin_fault, call_fault, locate_fault, locate_octets, PutsCall, PutsLocate, request_octets};
ghost use Rattle.giop_table.specs.CallTable.{entry_at};
ghost use Rattle.giop_end.specs.Acts.Form.{IsForm};
ghost use Rattle.giop_end.specs.Acts.Refused.{IsRefusal};
ghost use Rattle.giop_end.specs.Acts.Sent.{InRange};

use crate::acts::form::Form;
use crate::acts::local::{act_result, messages_to_send};
use crate::acts::outgoing::Outgoing;
use crate::acts::putting::put;
use crate::limits::Limits;
use crate::session_fault::SessionFault;
use giop_calls::{Aside, Call, CallFault, ClientEvent, ClientRule, with_target_aside};
use giop_msg::{Kind, LocateRequest, Request};
use giop_table::{CallTable, Messages, Plan, Planned};
use giop_types::Interface;
use std::alloc::Global;

/// Calls at an end that hasn't failed, of which these are parts, as `End::call`.
#[tactic(auto, using(crate::proofs::OnActs::ActedLemmas::acted, crate::proofs::OnActs::QuietLemmas::call_quiet, crate::proofs::OnActs::LocalLemmas::refused_puts))]
pub fn call(
    alloc: Global,
    interface: &Interface,
    limits: Limits,
    calls: &mut CallTable<ClientRule>,
    outgoing: &mut Outgoing,
    request: Request,
    form: Form,
) -> Result<(), SessionFault>
    requires { IsForm form }
    ensures { PutsCall interface.now limits request form calls.old outgoing.old result calls.new
        outgoing.new }
{
    let id = request.head.id;
    let messages = pieces_of_request(alloc, interface, limits, calls, &request, form)?;
    let Ok(request) = Aside::new(alloc, request) else {
        return Err(SessionFault::NoMemory);
    };
    let event = ClientEvent::Call {
        pieces: messages.len() as u32,
        call: Call::Request(request),
    };
    let planned = Planned {
        event,
        plan: Plan::Put(messages),
    };
    act_result(id, put(calls, outgoing, id, planned))
}

/// Asks where an object is at an end that hasn't failed, of which these are parts, as
/// `End::locate`.
#[tactic(auto, using(crate::proofs::OnActs::ActedLemmas::acted, crate::proofs::OnActs::QuietLemmas::call_quiet, crate::proofs::OnActs::LocalLemmas::refused_puts))]
pub fn locate(
    alloc: Global,
    limits: Limits,
    calls: &mut CallTable<ClientRule>,
    outgoing: &mut Outgoing,
    request: LocateRequest,
    form: Form,
) -> Result<(), SessionFault>
    requires { IsForm form }
    ensures { PutsLocate limits request form calls.old outgoing.old result calls.new outgoing.new }
{
    let id = request.id;
    let messages = pieces_of_locate(alloc, limits, calls, &request, form)?;
    let Ok(request) = with_target_aside(alloc, request) else {
        return Err(SessionFault::NoMemory);
    };
    let event = ClientEvent::Call {
        pieces: messages.len() as u32,
        call: Call::Locate(request),
    };
    let planned = Planned {
        event,
        plan: Plan::Put(messages),
    };
    act_result(id, put(calls, outgoing, id, planned))
}

// The messages that a Request is sent in.
#[tactic(auto, using(crate::proofs::OnActs::LocalLemmas::refused_unsent))]
fn pieces_of_request(
    alloc: Global,
    interface: &Interface,
    limits: Limits,
    calls: &CallTable<ClientRule>,
    request: &Request,
    form: Form,
) -> Result<Messages, SessionFault>
    requires { IsForm form }
    ensures ok { IfOk result (λ messages. call_fault interface.now limits
        (entry_at calls.now request.now.head.id) request.now form ≡ None) }
    ensures cut { IfOk result (λ messages. IsCut request.now.head.version message.Request
        form.order (request_octets interface.now request.now form.order) form.piece
        messages) }
    ensures held { IfOk result (λ messages. InRange
        (requests.request interface.now request.now.head.version) request.now
        form) }
    ensures few { IfOk result (λ messages. length messages < 2 ^ 32) }
    ensures err { IfErr result (IsRefusal request.now.head.id (call_fault interface.now limits
        (entry_at calls.now request.now.head.id) request.now form)) }
{
    let head = &request.head;
    if let Some(fault) = begin_fault(interface, calls, request) {
        return Err(SessionFault::Call { id: head.id, fault });
    }
    let encoded = request.encode(alloc, interface, form.order);
    let version = head.version;
    messages_to_send(
        alloc,
        limits,
        version,
        Kind::Request,
        form,
        head.id,
        encoded,
    )
}

// The messages that a LocateRequest is sent in.
#[tactic(auto, unfolding(giop_cdr::specs::Ending::ended), using(crate::proofs::OnActs::LocalLemmas::refused_unsent))]
fn pieces_of_locate(
    alloc: Global,
    limits: Limits,
    calls: &CallTable<ClientRule>,
    request: &LocateRequest,
    form: Form,
) -> Result<Messages, SessionFault>
    requires { IsForm form }
    ensures ok { IfOk result (λ messages. locate_fault limits (entry_at calls.now request.now.id)
        request.now form ≡ None) }
    ensures cut { IfOk result (λ messages. IsCut request.now.version message.LocateRequest
        form.order (locate_octets request.now form.order) form.piece messages) }
    ensures held { IfOk result (λ messages. InRange
        (ended (locate_request request.now.version)) request.now form) }
    ensures few { IfOk result (λ messages. length messages < 2 ^ 32) }
    ensures err { IfErr result (IsRefusal request.now.id (locate_fault limits
        (entry_at calls.now request.now.id) request.now form)) }
{
    let id = request.id;
    if !is_free(calls, id) {
        let fault = CallFault::IdInUse;
        return Err(SessionFault::Call { id, fault });
    }
    let encoded = request.encode(alloc, form.order);
    let version = request.version;
    messages_to_send(
        alloc,
        limits,
        version,
        Kind::LocateRequest,
        form,
        id,
        encoded,
    )
}

// Why no call of the operation may take the id, where something forbids it.
fn begin_fault(
    interface: &Interface,
    calls: &CallTable<ClientRule>,
    request: &Request,
) -> Option<CallFault>
    ensures { result ≡ begin_fault interface.now (entry_at calls.now request.now.head.id)
        request.now }
{
    if !is_free(calls, request.head.id) {
        Some(CallFault::IdInUse)
    } else if request.head.operation_asked(interface).is_none() {
        Some(CallFault::UnknownOperation)
    } else {
        None
    }
}

// Whether a call may take the id.
fn is_free(calls: &CallTable<ClientRule>, id: u32) -> bool
    ensures { result ≡ table.is_free (entry_at calls.now id) }
{
    match calls.slot(id) {
        Some(slot) => slot.entry.is_closed(),
        None => true,
    }
}

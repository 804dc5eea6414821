//! What a client's own program does: it cancels a call (CORBA 3.3 Part 2, 9.4.4), as an act on the
//! parts of an end that hasn't failed. Its meaning is `IsCancel` in specs/Acts/ClientCalls.antt:
//! change both.
ghost use Rattle.std.specs.Prelude.{◌≡◌, [], ◌∷◌, None, Err, IfSome};
ghost use Rattle.giop_table.specs.CallTable.{entry_at};
ghost use Rattle.giop_end.specs.declared.session_fault.SessionFault.TheVariants.{NoMemory};
ghost use Rattle.giop_end.specs.Acts.ClientCalls.{cancel_fault, open_in, open_version, PutsCancel, version_of};
ghost use Rattle.giop_end.specs.Acts.Sent.{cancel_request};

use crate::acts::local::act_result;
use crate::acts::outgoing::Outgoing;
use crate::acts::putting::put;
use crate::acts::sendable::one_message;
use crate::session_fault::SessionFault;
use giop_calls::{Call, CallFault, ClientEntry, ClientEvent, ClientRule};
use giop_cdr::{OctetList, Order};
use giop_msg::{Kind, Version};
use giop_table::{CallTable, Messages, Plan, Planned};
use std::alloc::Global;

/// Cancels a call at an end that hasn't failed, of which these are parts, as `End::cancel`.
#[tactic(auto, using(crate::proofs::OnActs::ActedLemmas::acted, crate::proofs::OnActs::QuietLemmas::cancel_quiet, crate::proofs::OnActs::LocalLemmas::refused_puts))]
pub fn cancel(
    alloc: Global,
    calls: &mut CallTable<ClientRule>,
    outgoing: &mut Outgoing,
    id: u32,
    order: Order,
) -> Result<(), SessionFault>
    ensures last { result ≡ Err NoMemory
        → cancel_fault (open_version (entry_at calls.old id)) ≡ None }
    ensures cancelled { PutsCancel id order calls.old outgoing.old result calls.new outgoing.new }
{
    let Some(version) = open_version(calls, id) else {
        let fault = CallFault::NotOpen;
        return Err(SessionFault::Call { id, fault });
    };
    let Some(messages) = cancel_request(alloc, version, order, id) else {
        return Err(SessionFault::NoMemory);
    };
    let planned = Planned {
        event: ClientEvent::Cancel,
        plan: Plan::Put(messages),
    };
    act_result(id, put(calls, outgoing, id, planned))
}

// The version of an id's call, where that may be cancelled.
fn open_version(calls: &CallTable<ClientRule>, id: u32) -> Option<Version>
    ensures { result ≡ open_version (entry_at calls.now id) }
{
    open_in(&calls.slot(id)?.entry)
}

// The CancelRequest of an id. `None` where it is out of memory.
fn cancel_request(alloc: Global, version: Version, order: Order, id: u32) -> Option<Messages>
    ensures { IfSome result (λ messages. messages ≡ cancel_request version order id ∷ []) }
{
    let payload = OctetList::from_slice(alloc, &order.ulong_octets(id)).ok()?;
    Some(one_message(alloc, version, Kind::CancelRequest, order, payload))
}

// The version of an entry's call, where that may be cancelled: all of its reply hasn't come.
fn open_in(entry: &ClientEntry) -> Option<Version>
    ensures { result ≡ open_in entry.now }
{
    match entry {
        ClientEntry::Sending { call, .. }
        | ClientEntry::Waiting { call }
        | ClientEntry::Gathering { call } => Some(version_of(call)),
        _ => None,
    }
}

fn version_of(call: &Call) -> Version
    ensures { result ≡ version_of call.now }
{
    match call {
        Call::Request(request) => request.head.version,
        Call::Locate(request) => request.version,
    }
}

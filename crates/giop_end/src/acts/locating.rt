//! What a server's own program answers to a LocateRequest: a LocateReply (CORBA 3.3 Part 2, 9.4.6),
//! as an act on the parts of an end that hasn't failed. Its meaning is `IsLocateAnswer` in
//! specs/Acts/ServerAnswers.antt: change both.
ghost use Rattle.std.specs.Prelude.{◌≡◌, [], ◌∷◌, Err, IfSome, IsOk};
ghost use Rattle.giop_calls.specs.ServerTable as table;
ghost use Rattle.giop_calls.specs.declared.server.event.ServerEvent.TheVariants as event;
ghost use Rattle.giop_end.specs.declared.session_fault.SessionFault.TheVariants.{NoMemory};
ghost use Rattle.giop_table.specs.CallTable.{entry_at};
ghost use Rattle.giop_end.specs.Acts.ServerAnswers.{locate_in, locate_of, located, PutsLocateAnswer};

use crate::acts::local::act_result;
use crate::acts::outgoing::Outgoing;
use crate::acts::putting::put;
use crate::acts::sendable::one_message;
use crate::hearing::heard::silently;
use crate::session_fault::SessionFault;
use giop_calls::{CallKind, ServerEntry, ServerEvent, ServerRule};
use giop_cdr::{OctetList, Order};
use giop_msg::{Kind, LocateReply, LocateReplyHead, Version};
use giop_table::{CallTable, Messages, Plan, Planned};
use std::alloc::Global;

/// Answers a LocateRequest at an end that hasn't failed, of which these are parts, as
/// `End::answer_locate`.
#[tactic(auto, using(crate::proofs::OnActs::ActedLemmas::acted, crate::proofs::OnActs::QuietLemmas::answer_locate_quiet, crate::proofs::OnActs::LastLemmas::locate_accepted, crate::proofs::OnActs::LastLemmas::wanted_accepted))]
pub fn answer_locate(
    alloc: Global,
    calls: &mut CallTable<ServerRule>,
    outgoing: &mut Outgoing,
    id: u32,
    here: bool,
    order: Order,
) -> Result<(), SessionFault>
    ensures last { result ≡ Err NoMemory
        → IsOk (table.server_step (entry_at calls.old id) (event.AnswerLocate here)).outcome }
    ensures answered { PutsLocateAnswer id here order calls.old outgoing.old result calls.new
        outgoing.new }
{
    let event = ServerEvent::AnswerLocate { here };
    let planned = match locate_version(calls, id, here) {
        Some(version) => {
            let Some(messages) = located(alloc, version, order, id, here) else {
                return Err(SessionFault::NoMemory);
            };
            Planned {
                event,
                plan: Plan::Put(messages),
            }
        }
        None => silently(event),
    };
    act_result(id, put(calls, outgoing, id, planned))
}

// The version of the LocateRequest of an id that waits for this LocateReply, where one does.
fn locate_version(calls: &CallTable<ServerRule>, id: u32, here: bool) -> Option<Version>
    ensures { result ≡ locate_of here (entry_at calls.now id) }
{
    locate_in(here, &calls.slot(id)?.entry)
}

// The LocateReply to a LocateRequest. `None` where it is out of memory.
#[tactic(auto, using(crate::proofs::OnActs::LocatedLemmas::located_short))]
fn located(alloc: Global, version: Version, order: Order, id: u32, here: bool) -> Option<Messages>
    ensures { IfSome result (λ messages. messages ≡ located version order id here ∷ []) }
{
    let reply = LocateReply {
        head: LocateReplyHead {
            version,
            id,
            status: here as u32,
        },
        rest: OctetList::new(alloc),
    };
    let Ok(joined) = reply.encode(alloc, order) else {
        return None;
    };
    let payload = OctetList::from(joined);
    Some(one_message(alloc, version, Kind::LocateReply, order, payload))
}

// The version of the LocateRequest of an entry that waits for this LocateReply, where one does. To
// one that couldn't be decoded, the object is never here.
fn locate_in(here: bool, entry: &ServerEntry) -> Option<Version>
    ensures { result ≡ locate_in here entry.now }
{
    match entry {
        ServerEntry::LocateAsked { request } => Some(request.version),
        ServerEntry::Undecoded { call } => match call.expects {
            Some(CallKind::Locate) if !here => Some(call.version),
            _ => None,
        },
        _ => None,
    }
}

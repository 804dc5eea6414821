//! What an end puts out: the message of an event, once the event is accepted. Its meaning is
//! specs/Acts/Putting.antt.
ghost use Rattle.std.specs.Prelude.{◌≡◌, ◌++◌, false, None, IfNone, IfSome, IsOk, IsSome, OnErr, OnOk};
ghost use Rattle.std.specs.FinMap as finite;
ghost use Rattle.giop_table.specs.CallTable.{DoesEvent, gathers, gathers_at, Nothing, stepped};
ghost use Rattle.giop_end.specs.Acts.Putting.{octets_of, put_out};
ghost use Rattle.giop_table.specs.Sending.{message_of, sends_of, unsent_of};

use crate::acts::outgoing::Outgoing;
use giop_mux::Side;
use giop_table::{CallTable, Plan, Planned, TableFault};
use std::alloc::AllocError;

/// An event that brings no octets happens to the call of an id, and the message that it sends is
/// put out behind what is outgoing.
///
/// Refusals, in this order: the rule's fault; `TooManyCalls`; `NoMemory`. In place of any of these
/// it is `None` where it is out of memory for the message that is to be put out. A refusal changes
/// nothing, and nor does `None`.
#[inline(always)]
pub fn put<R: Side>(
    calls: &mut CallTable<R>,
    outgoing: &mut Outgoing,
    id: u32,
    planned: Planned<R::Event>,
) -> Option<Result<R::Answer, TableFault<R::Fault>>>
    requires quiet { gathers_at R.Side calls.old id ≡ false
        → gathers R.gathering (stepped R.Side calls.old id planned).entry ≡ false }
    ensures does { IfSome result (λ answered.
        DoesEvent R.Side calls.old id planned Nothing answered calls.new) }
    ensures puts { let unsent = unsent_of (finite.get calls.old.table id) in
        IfSome result (λ answered.
        outgoing.new ≡ outgoing.old ++ put_out (sends_of planned.plan unsent answered)) }
    ensures some { message_of planned.plan (unsent_of (finite.get calls.old.table id)) ≡ None
        → IsSome result }
    ensures none { IfNone result ((calls.new ≡ calls.old) × (outgoing.new ≡ outgoing.old)) }
{
    let before = outgoing.as_slice().len();
    if put_message(calls, outgoing, id, &planned.plan).is_err() {
        return None;
    }
    let answered = calls.apply(id, planned);
    if answered.is_err() {
        outgoing.back_to(before);
    }
    Some(answered)
}

// Puts out the message that an event with this plan sends, if it sends one. Where it is out of
// memory, nothing changes.
#[inline(always)]
fn put_message<R: Side>(
    calls: &CallTable<R>,
    outgoing: &mut Outgoing,
    id: u32,
    plan: &Plan,
) -> Result<(), AllocError>
    ensures ok { OnOk result (outgoing.new ≡ outgoing.old
        ++ octets_of (message_of plan.now (unsent_of (finite.get calls.now.table id)))) }
    ensures none { message_of plan.now (unsent_of (finite.get calls.now.table id)) ≡ None
        → IsOk result }
    ensures err { OnErr result (outgoing.new ≡ outgoing.old) }
{
    match plan.message(calls, id) {
        Some(message) => outgoing.put(message),
        None => Ok(()),
    }
}

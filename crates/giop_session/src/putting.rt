//! What an end puts out: the message of an event, once the event is accepted.
ghost use Rattle.std.specs.Prelude.{◌≡◌, ◌++◌, false, IfNone, IfSome};
ghost use Rattle.std.specs.FinMap as finite;
ghost use Rattle.giop_ids.specs.Runs.{Does};
ghost use Rattle.giop_session.specs.CallTable.{event_reply, gathers, Hears, Nothing, rules_of};
ghost use Rattle.giop_session.specs.Putting.{put_out};
ghost use Rattle.giop_session.specs.Sending.{sending_step};

use crate::call_table::CallTable;
use crate::outgoing::Outgoing;
use crate::plan::Planned;
use crate::sending::Sends;
use crate::side::Side;
use crate::table_fault::TableFault;

/// An event befalls a call that brings no octets, and the message that it sends is put out behind
/// what is outgoing.
///
/// Refusals, in this order: the rule's fault; `TooManyCalls`; `NoMemory`, which may stand in place
/// of these where a message is to be put out. A refusal changes nothing.
#[inline(always)]
pub fn put<R: Side>(
    calls: &mut CallTable<R>,
    outgoing: &mut Outgoing,
    id: u32,
    planned: Planned<R::Event>,
) -> Option<Result<Sends<R::Answer>, TableFault<R::Fault>>>
    requires quiet { gathers R.gathering (finite.get calls.old.table id) ≡ false
        → gathers R.gathering (sending_step (R.next calls.old.rule)
        (finite.get calls.old.table id) planned).entry ≡ false }
    ensures does { IfSome result (λ answered. Does (rules_of (R.next calls.old.rule)
        (R.closed calls.old.rule) R.gathering)
        calls.old (record { id = id; what = Hears planned Nothing }) (event_reply answered)
        calls.new) }
    ensures puts { IfSome result (λ answered. outgoing.new ≡ outgoing.old ++ put_out answered) }
    ensures none { IfNone result ((calls.new ≡ calls.old) × (outgoing.new ≡ outgoing.old)) }
{
    let before = outgoing.as_slice().len();
    if let Some(message) = planned.plan.message(calls.slot(id)) {
        if outgoing.put(message).is_err() {
            return None;
        }
    }
    let answered = calls.hear(id, planned);
    if answered.is_err() {
        outgoing.back_to(before);
    }
    Some(answered)
}

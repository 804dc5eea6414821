//! What an event of a message comes to, at an end of either side: it happens to the call of its id,
//! and the end returns why it was refused. Its meaning is `IsHeardBy` in specs/Hearing/Heard.antt.
ghost use Rattle.std.specs.Prelude.{◌≡◌, true, false, IsOk};
ghost use Rattle.giop_table.specs.CallTable.{First, gathers, gathers_at, Hears, Nothing, stepped};
ghost use Rattle.giop_end.specs.Hearing.Heard.{ActsOn, IsHeardBy, silently};

use crate::hearing::heard::{result_of, silently};
use crate::session_fault::SessionFault;
use giop_calls::CallFault;
use giop_msg::Msg;
use giop_mux::Side;
use giop_table::CallTable;

/// An event that sends nothing and brings no octets happens to the call of an id.
#[tactic(auto, using(crate::proofs::OnHearing::EventLemmas::event_heard))]
#[inline(always)]
pub fn happen<R: Side<Answer = (), Fault = CallFault>>(
    calls: &mut CallTable<R>,
    id: u32,
    event: R::Event,
) -> Result<(), SessionFault>
    requires quiet { gathers_at R.Side calls.old id ≡ false
        → gathers R.gathering (stepped R.Side calls.old id (silently event)).entry ≡ false }
    ensures { IsHeardBy R.Side (ActsOn id (Hears (silently event) Nothing)) calls.old result
        calls.new }
{
    match calls.apply(id, silently(event)) {
        Ok(()) => Ok(()),
        Err(fault) => result_of(id, Err(fault)),
    }
}

/// The first piece of a message comes by this event, with more to come: its octets are gathered
/// from now on.
#[tactic(auto, using(crate::proofs::OnHearing::EventLemmas::event_heard))]
pub fn begin<R: Side<Answer = (), Fault = CallFault>>(
    calls: &mut CallTable<R>,
    id: u32,
    first: R::Event,
    message: &Msg,
) -> Result<(), SessionFault>
    requires away { gathers_at R.Side calls.old id ≡ false }
    requires accepted { IsOk (stepped R.Side calls.old id (silently first)).outcome }
    requires gathers { gathers R.gathering (stepped R.Side calls.old id (silently first)).entry
        ≡ true }
    ensures { IsHeardBy R.Side (ActsOn id (Hears (silently first)
        (First message.now.order message.now.payload))) calls.old result calls.new }
{
    let octets = message.payload.as_slice();
    result_of(id, calls.begin(id, silently(first), message.order, octets))
}

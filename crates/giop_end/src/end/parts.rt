//! What an end's parts undergo when it is fed, closed, asked for its MessageError, or when an entry
//! is taken out of it, whether the end is attached to its interface or not. What feeding does is
//! `Fed` in specs/Hearing/Feeding.antt.
ghost use Rattle.std.specs.Prelude.{◌≡◌, ◌≤◌, ◌^◌, ◌++◌, None, Some, Err, Ok, length, IfErr, IfOk, OnErr, OnOk};
ghost use Rattle.std.specs.FinMap as finite;
ghost use Rattle.giop_cdr.specs.declared.order.Order.TheVariants.{Big};
ghost use Rattle.giop_msg.specs.Msg.{message_octets};
ghost use Rattle.giop_end.specs.declared.session_fault.SessionFault.TheVariants.{Closed, NoMemory, StillOpen};
ghost use Rattle.giop_table.specs.CallTable.{DoesTo, entry_at, Gives, IsTaken, IsOpenAt, without};
ghost use Rattle.giop_end.specs.Hearing.Feeding.{Fed, standing, with_octets};
ghost use Rattle.giop_end.specs.Hearing.Heard.{hears_in};
ghost use Rattle.giop_end.specs.Acts.Sent.{close_connection};
ghost use Rattle.giop_end.specs.Ends.SessionFaults.{error_message_of};

use crate::acts::outgoing::Outgoing;
use crate::hearing::Hearing;
use crate::session_fault::SessionFault;
use giop_cdr::{OctetList, Order};
use giop_msg::{Framer, Kind, Msg, Version};
use giop_mux::CallRule;
use giop_table::CallTable;
use giop_types::Interface;
use std::alloc::Global;

/// Takes in octets of the peer, as `End::feed`.
pub fn feed<R: Hearing>(
    alloc: Global,
    interface: &Interface,
    framer: &mut Framer,
    calls: &mut CallTable<R>,
    stands: &mut Option<SessionFault>,
    octets: &[u8],
) -> Result<(), SessionFault>
    ensures failed { (why : _) → stands.old ≡ Some why → (result ≡ Err why)
        × (framer.new ≡ framer.old) × (calls.new ≡ calls.old) × (stands.new ≡ stands.old) }
    ensures fed { stands.old ≡ None → Fed (hears_in R.Hearing interface.now)
        (with_octets framer.old octets.now) calls.old result framer.new calls.new }
    ensures stands { stands.old ≡ None → stands.new ≡ standing result }
{
    if let Some(fault) = *stands {
        return Err(fault);
    }
    if let Err(fault) = hear_all(alloc, interface, framer, calls, octets) {
        *stands = Some(fault);
        return Err(fault);
    }
    Ok(())
}

/// Closes the connection, as `End::close`.
pub fn close(
    alloc: Global,
    outgoing: &mut Outgoing,
    stands: &mut Option<SessionFault>,
) -> Result<(), SessionFault>
    ensures failed { (why : _) → stands.old ≡ Some why → result ≡ Err why }
    ensures ok { OnOk result ((stands.old ≡ None)
        × (outgoing.new ≡ outgoing.old ++ message_octets (close_connection Big))
        × (stands.new ≡ Some Closed)) }
    ensures want { stands.old ≡ None → IfErr result (λ why. why ≡ NoMemory) }
    ensures kept { OnErr result ((outgoing.new ≡ outgoing.old) × (stands.new ≡ stands.old)) }
{
    if let Some(fault) = *stands {
        return Err(fault);
    }
    let message = Msg {
        version: Version::V12,
        order: Order::Big,
        more: false,
        kind: Kind::CloseConnection,
        payload: OctetList::new(alloc),
    };
    if outgoing.put(&message).is_err() {
        return Err(SessionFault::NoMemory);
    }
    *stands = Some(SessionFault::Closed);
    Ok(())
}

/// The MessageError that a fault asks for, as `End::error_message`.
pub fn error_message(fault: Option<SessionFault>) -> Option<[u8; 12]>
    ensures { result ≡ error_message_of fault }
{
    match fault? {
        SessionFault::Wire(_)
        | SessionFault::Call { .. }
        | SessionFault::WrongDirection
        | SessionFault::NoId(_) => Some(*b"GIOP\x01\x02\x00\x06\x00\x00\x00\x00"),
        _ => None,
    }
}

/// Takes out what is stored for the id, as `End::take`.
pub fn take<R: Hearing>(
    calls: &mut CallTable<R>,
    fault: Option<SessionFault>,
    id: u32,
) -> Result<Option<R::Entry>, SessionFault>
    ensures failed { (why : _) → fault ≡ Some why → result ≡ Err why }
    ensures value { IfOk result (λ taken. (taken ≡ entry_at calls.old id)
        × (calls.new ≡ without calls.old id)) }
    ensures does { IfOk result (λ taken. DoesTo R.Side calls.old id IsTaken
        (Ok (Gives (finite.get calls.old.table id))) calls.new) }
    ensures open { fault ≡ None → IfErr result (λ why. (why ≡ StillOpen)
        × IsOpenAt R.Side calls.old id) }
    ensures kept { IfErr result (λ why. calls.new ≡ calls.old) }
{
    if let Some(fault) = fault {
        return Err(fault);
    }
    match calls.take(id) {
        Ok(slot) => Ok(slot.map(|slot| slot.entry)),
        Err(_) => Err(SessionFault::StillOpen),
    }
}

// Hears each message that is whole in the unread octets and these behind them.
fn hear_all<R: Hearing>(
    alloc: Global,
    interface: &Interface,
    framer: &mut Framer,
    calls: &mut CallTable<R>,
    octets: &[u8],
) -> Result<(), SessionFault>
    ensures { Fed (hears_in R.Hearing interface.now) (with_octets framer.old octets.now) calls.old
        result framer.new calls.new }
{
    framer.feed(octets)?;
    while let Some(message) = framer.next()? {
        hear(alloc, interface, framer, calls, message)?;
    }
    Ok(())
}

// Hears a message. Its memory then serves the next one.
#[inline(always)]
fn hear<R: Hearing>(
    alloc: Global,
    interface: &Interface,
    framer: &mut Framer,
    calls: &mut CallTable<R>,
    message: Msg,
) -> Result<(), SessionFault>
    requires { length message.payload ≤ 2 ^ 62 }
    ensures hears { hears_in R.Hearing interface.now message calls.old result calls.new }
    ensures framer { framer.new ≡ framer.old }
{
    R::hear(alloc, interface, calls, &message)?;
    framer.reuse(message);
    Ok(())
}

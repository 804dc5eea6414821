//! What hearing a message (CORBA 3.3 Part 2, 9.4) has in common at a client and at a server: the id
//! that it names, the octets of a Fragment, and what the end returns. Its meaning is
//! specs/Hearing/Heard.antt: change both.
ghost use Rattle.std.specs.Prelude.{◌≡◌, ◌≤◌, ◌^◌, length};
ghost use Rattle.giop_msg.specs.RequestId.{request_id_of};
ghost use Rattle.giop_end.specs.Hearing.Heard.{behind_id, ending_of, id_named, in_call, silently, result_of};

use crate::session_fault::SessionFault;
use giop_calls::CallFault;
use giop_msg::{Kind, Msg};
use giop_table::{Plan, Planned, TableFault};

/// The request id that a message names. Refused as NoId where it can't be read, and as
/// WrongDirection for a kind that has none.
#[inline(always)]
pub fn named_id(message: &Msg) -> Result<u32, SessionFault>
    requires { length message.now.payload ≤ 2 ^ 62 }
    ensures { result ≡ id_named (request_id_of message.now) }
{
    match message.request_id() {
        Some(Ok(id)) => Ok(id),
        Some(Err(fault)) => Err(SessionFault::NoId(fault)),
        None => Err(SessionFault::WrongDirection),
    }
}

/// Why a message of a kind ends the session that isn't for the calls of a side.
pub fn ending_of(kind: Kind) -> SessionFault
    ensures { result ≡ ending_of kind }
{
    match kind {
        Kind::CloseConnection => SessionFault::Closed,
        Kind::MessageError => SessionFault::PeerError,
        _ => SessionFault::WrongDirection,
    }
}

/// The octets of a Fragment behind its request id.
pub fn behind_id(message: &Msg) -> &[u8]
    ensures { result.now ≡ behind_id message.now }
{
    match message.payload.as_slice().get(4..) {
        Some(octets) => octets,
        None => &[],
    }
}

/// An event that sends nothing: the messages of its call stay unsent.
#[inline(always)]
pub fn silently<V>(event: V) -> Planned<V>
    ensures { result ≡ silently event }
{
    Planned {
        event,
        plan: Plan::Leave,
    }
}

/// What an end returns for an event of the call of an id, by what the table of calls answered.
#[inline(never)]
pub fn result_of(id: u32, answered: Result<(), TableFault<CallFault>>) -> Result<(), SessionFault>
    ensures { result ≡ result_of (in_call id) answered }
{
    match answered {
        Ok(()) => Ok(()),
        Err(TableFault::Rule(fault)) => Err(SessionFault::Call { id, fault }),
        Err(TableFault::TooManyCalls) => Err(SessionFault::TooManyCalls),
        Err(TableFault::GatherFull) => Err(SessionFault::GatherFull),
        Err(TableFault::StillOpen) => Err(SessionFault::StillOpen),
        Err(TableFault::NoMemory) => Err(SessionFault::NoMemory),
    }
}

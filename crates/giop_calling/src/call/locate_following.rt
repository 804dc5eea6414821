//! `locate --follow`: an object that is elsewhere is asked for again where the reference says, in a
//! session of its own (CORBA 3.3 Part 2, 9.4.6). Its meaning is specs/Call/LocateFollowing.antt:
//! change both.
ghost use Rattle.std.specs.Prelude.{◌≡◌, ◌≤◌, ◌^◌, [], IfOk, length, option_copied};
ghost use Rattle.giop_calling.specs.Call.Calling.{entry_at};
ghost use Rattle.giop_calling.specs.Call.LocateFollowing.{LocatesBetween, is_elsewhere, located_place, place_behind, place_by};
ghost use Rattle.giop_end.specs.Ends.View.{IsTurned};

use crate::call::given::Calling;
use crate::call::locating::{ID, locate_all};
use crate::call::talk;
use giop_calls::ClientEntry;
use giop_cdr::{CdrIn, CdrKind, Order, SliceOctets};
use giop_commands::session::target::{Endpoint, place_in};
use giop_end::{ClientEnd, SessionFault};
use giop_ior::read_ior;
use giop_show::failure::Failure;
use std::alloc::Global;
use std::io::{Read, Write};

// The most octets that are read as a reference.
const MOST: usize = 1 << 62;

// The offset behind the status of a LocateReply, from the first octet of its header on.
const BEHIND_STATUS: usize = 20;

/// Asks where the object of `calling` is at a client's end, and waits for the answer, as
/// `locate_over` does at a new one. Nothing is told. Returns the fault of a LocateRequest that is
/// refused at this end; nothing is written then.
pub fn locate_at<R: Read, W: Write>(
    alloc: Global,
    end: &mut ClientEnd<'_>,
    calling: Calling<'_>,
    reader: &mut R,
    writer: &mut W,
) -> Result<Option<SessionFault>, Failure>
    requires interface { end.old.interface.now ≡ calling.interface.now }
    requires limits { end.old.limits ≡ calling.limits }
    ensures located { IfOk result (λ refused. LocatesBetween calling.entry (R.remaining reader.old)
        (W.contents writer.old) end.old refused (R.remaining reader.new) (W.contents writer.new)
        end.new) }
    ensures others { IsTurned end.old end.new }
{
    let refused = locate_all(alloc, end, calling)?;
    talk(alloc, end, refused, reader, writer)?;
    Ok(refused)
}

/// Where the object of a LocateRequest that `locate_at` made is to be asked for again: the first
/// IIOP profile of the reference behind the status of the LocateReply, where it is OBJECT_FORWARD
/// or OBJECT_FORWARD_PERM. The reference is read in the byte order in which the octets there are
/// one.
pub fn located_place(alloc: Global, end: &ClientEnd<'_>) -> Result<Option<Endpoint>, Failure>
    ensures { IfOk result (λ place. place ≡ located_place (entry_at end.now.calls 1)) }
{
    entry_place(alloc, end.entry(ID))
}

fn entry_place(alloc: Global, entry: Option<&ClientEntry>) -> Result<Option<Endpoint>, Failure>
    ensures { IfOk result (λ place. place ≡ located_place (option_copied entry.entry)) }
{
    match entry {
        Some(ClientEntry::LocateDone { reply, .. }) if is_elsewhere(reply.head.status) => {
            place_behind(alloc, reply.rest.as_slice())
        }
        _ => Ok(None),
    }
}

// Whether the status of a LocateReply says that the object is elsewhere.
fn is_elsewhere(status: u32) -> bool
    ensures { result ≡ is_elsewhere status }
{
    status == 2 || status == 3
}

// Where an object is by the octets behind the status.
fn place_behind(alloc: Global, octets: &[u8]) -> Result<Option<Endpoint>, Failure>
    ensures { IfOk result (λ place. place ≡ place_behind octets.now) }
{
    if octets.len() > MOST {
        return Err(Failure::Memory);
    }
    match place_by(alloc, octets, Order::Big)? {
        Some(place) => Ok(Some(place)),
        None => place_by(alloc, octets, Order::Little),
    }
}

// Where an object is by octets that are a reference in a byte order.
fn place_by(alloc: Global, octets: &[u8], order: Order) -> Result<Option<Endpoint>, Failure>
    requires { length octets.now ≤ 2 ^ 62 }
    ensures { IfOk result (λ place. place ≡ place_by octets.now order) }
{
    let source = SliceOctets::new(octets);
    let mut input = CdrIn::new(&source, order, BEHIND_STATUS);
    match read_ior(alloc, &mut input) {
        Ok(ior) if input.remaining() == 0 => place_in(alloc, &ior),
        Err(fault) if fault.kind == CdrKind::NoMemory => Err(Failure::Memory),
        _ => Ok(None),
    }
}

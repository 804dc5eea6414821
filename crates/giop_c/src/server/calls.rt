//! The exported functions of a server's end. Each takes what the handle holds, calls it and puts it
//! back. Those that read an entry are entry_calls.rt, and those that answer answer_calls.rt.
ghost use Rattle.std.specs.Prelude.{◌≡◌, ◌≤◌, ◌+◌, ◌/◌, ◌⊎◌, None, length};
ghost use Rattle.std.specs.FinMap as finite;
ghost use Rattle.giop_end.specs.Ends.SessionFaults.{error_message_of};
ghost use Rattle.giop_c.specs.Acts.{ToldAt};
ghost use Rattle.giop_c.specs.Calls.{At, ok};
ghost use Rattle.giop_c.specs.Copying.{CopiesAt, CopiesFront, CopiesOctets, TellsIds};
ghost use Rattle.giop_c.specs.Server.Ends.{ClosesServer, FeedsServer, OpensServer, SendsAtServer, TakesAtServer, WritesAtServer};

use crate::InterfaceHandle;
use crate::copying::copy_octets;
use crate::end_records::{EndFault, EndLimits, told};
use crate::server::served::Served;
use crate::server::server_handle::ServerHandle;
use crate::shared::Shared;
use crate::status::{CLOSED, FAULT, NO_MEMORY, OK};
use giop_end::Limits;
use std::alloc::Global;
use std::sync::Arc;

/// Opens a handle: a server's end without calls, by the interface that a handle holds and within
/// limits. What the handle held is freed. It answers OK; FAULT where the limit `gathered` is above
/// 2^62; NO_MEMORY; or CLOSED where the interface's handle holds nothing. With all but OK the handle
/// is as it was.
#[unsafe(no_mangle)]
pub extern "C" fn giop_server_new(
    alloc: Global,
    server: &mut ServerHandle,
    interface: &mut InterfaceHandle,
    limits: &EndLimits,
) -> u32
    ensures opens { OpensServer interface.old.value limits.now server.old.value server.new.value
        result }
    ensures interface { interface.new.value ≡ interface.old.value }
{
    let Some(shared) = interface.take(alloc) else {
        return CLOSED;
    };
    let status = open(alloc, server, &shared, limits);
    *interface = InterfaceHandle::of(shared);
    status
}

// Opens a handle by an interface.
fn open(alloc: Global, server: &mut ServerHandle, shared: &Shared, limits: &EndLimits) -> u32
    ensures { OpensServer (Some shared.now) limits.now server.old.value server.new.value result }
{
    if limits.gathered > 1 << 62 {
        return FAULT;
    }
    let Ok(interface) = Arc::try_clone(&shared.interface) else {
        return NO_MEMORY;
    };
    let limits = Limits {
        calls: limits.calls,
        message: limits.message,
        gathered: limits.gathered,
    };
    let Ok(served) = Box::new(alloc, Served::new(alloc, interface, limits)) else {
        return NO_MEMORY;
    };
    *server = ServerHandle::of(served);
    OK
}

/// Takes in octets of the client, any number of them. It answers OK; FAULT or NO_MEMORY, and writes
/// the fault, which the end has from then on; or CLOSED.
#[unsafe(no_mangle)]
pub extern "C" fn giop_server_feed(
    alloc: Global,
    server: &mut ServerHandle,
    octets: &[u8],
    fault: &mut EndFault,
) -> u32
    ensures { ToldAt server.old.value server.new.value (FeedsServer octets.now) fault.old fault.new
        result }
{
    let Some(mut served) = server.take(alloc) else {
        return CLOSED;
    };
    let answer = served.feed(octets);
    *server = ServerHandle::of(served);
    told(answer, fault)
}

/// Copies the first octets that are to be sent, as many as the buffer has room for, and writes how
/// many there are in all. It answers OK or CLOSED.
#[unsafe(no_mangle)]
pub extern "C" fn giop_server_outgoing(
    alloc: Global,
    server: &mut ServerHandle,
    buffer: &mut [u8],
    size: &mut usize,
) -> u32
    ensures { At server.old.value server.new.value result
        ((buffer.new ≡ buffer.old) × (size.new ≡ size.old))
        (λ old new. (result ≡ ok) × (new ≡ old)
        × CopiesFront old.end.outgoing buffer.old buffer.new size.new) }
{
    let Some(served) = server.take(alloc) else {
        return CLOSED;
    };
    served.outgoing(buffer, size);
    *server = ServerHandle::of(served);
    OK
}

/// The first octets that are to be sent are written, so many of them. It answers OK; SMALL, where
/// fewer are to be sent, and nothing has changed; or CLOSED.
#[unsafe(no_mangle)]
pub extern "C" fn giop_server_wrote(alloc: Global, server: &mut ServerHandle, size: usize) -> u32
    ensures { At server.old.value server.new.value result (Unit {0})
        (λ old new. WritesAtServer size old new result) }
{
    let Some(mut served) = server.take(alloc) else {
        return CLOSED;
    };
    let status = served.wrote(size);
    *server = ServerHandle::of(served);
    status
}

/// Puts out the next piece of a Reply. It answers OK; FAULT or NO_MEMORY, and writes the fault; or
/// CLOSED.
#[unsafe(no_mangle)]
pub extern "C" fn giop_server_send(
    alloc: Global,
    server: &mut ServerHandle,
    id: u32,
    fault: &mut EndFault,
) -> u32
    ensures { ToldAt server.old.value server.new.value (SendsAtServer id) fault.old fault.new result }
{
    let Some(mut served) = server.take(alloc) else {
        return CLOSED;
    };
    let answer = served.send(id);
    *server = ServerHandle::of(served);
    told(answer, fault)
}

/// Closes the connection: a CloseConnection is put out. It answers OK; FAULT or NO_MEMORY, and
/// writes the fault; or CLOSED.
#[unsafe(no_mangle)]
pub extern "C" fn giop_server_close(
    alloc: Global,
    server: &mut ServerHandle,
    fault: &mut EndFault,
) -> u32
    ensures { ToldAt server.old.value server.new.value (ClosesServer) fault.old fault.new result }
{
    let Some(mut served) = server.take(alloc) else {
        return CLOSED;
    };
    let answer = served.close();
    *server = ServerHandle::of(served);
    told(answer, fault)
}

/// Takes what is stored for an id out, where its call is over. It answers OK, also where nothing is
/// stored; FAULT, and writes the fault; or CLOSED.
#[unsafe(no_mangle)]
pub extern "C" fn giop_server_take(
    alloc: Global,
    server: &mut ServerHandle,
    id: u32,
    fault: &mut EndFault,
) -> u32
    ensures { ToldAt server.old.value server.new.value (TakesAtServer id) fault.old fault.new result }
{
    let Some(mut served) = server.take(alloc) else {
        return CLOSED;
    };
    let answer = served.take(id);
    *server = ServerHandle::of(served);
    told(answer, fault)
}

/// Copies the MessageError that a peer is to be sent after the fault of the end. It answers OK;
/// SMALL, where the buffer has no room for it; WAITS, where no fault asks for one; or CLOSED.
#[unsafe(no_mangle)]
pub extern "C" fn giop_server_error_message(
    alloc: Global,
    server: &mut ServerHandle,
    buffer: &mut [u8],
    size: &mut usize,
) -> u32
    ensures { CopiesAt server.old.value server.new.value (λ old. CopiesOctets
        (error_message_of old.end.fault)) buffer.old buffer.new size.old size.new result }
{
    let Some(served) = server.take(alloc) else {
        return CLOSED;
    };
    let message = served.error_message();
    *server = ServerHandle::of(served);
    match &message {
        Some(message) => copy_octets(Some(message), buffer, size),
        None => copy_octets(None, buffer, size),
    }
}

/// Writes how many octets are unread. It answers OK or CLOSED.
#[unsafe(no_mangle)]
pub extern "C" fn giop_server_rest(
    alloc: Global,
    server: &mut ServerHandle,
    rest: &mut usize,
) -> u32
    ensures { At server.old.value server.new.value result (rest.new ≡ rest.old)
        (λ old new. (result ≡ ok) × (new ≡ old) × (rest.new ≡ length old.end.framer.octets)) }
{
    let Some(served) = server.take(alloc) else {
        return CLOSED;
    };
    *rest = served.rest();
    *server = ServerHandle::of(served);
    OK
}

/// Copies the first ids for which something is stored, ascending, as many as the buffer has room
/// for, and writes how many there are in all. It answers OK; NO_MEMORY, and nothing is written; or
/// CLOSED.
#[unsafe(no_mangle)]
pub extern "C" fn giop_server_ids(
    alloc: Global,
    server: &mut ServerHandle,
    ids: &mut [u32],
    count: &mut usize,
) -> u32
    ensures { CopiesAt server.old.value server.new.value
        (λ old. TellsIds (finite.keys old.end.calls.table)) ids.old ids.new count.old count.new result }
{
    let Some(served) = server.take(alloc) else {
        return CLOSED;
    };
    let done = served.ids(alloc, ids, count);
    *server = ServerHandle::of(served);
    match done {
        Ok(()) => OK,
        Err(_) => NO_MEMORY,
    }
}

/// Writes how many blocks of 512 octets the end has taken for pieces. It answers OK or CLOSED.
#[unsafe(no_mangle)]
pub extern "C" fn giop_server_blocks(
    alloc: Global,
    server: &mut ServerHandle,
    count: &mut usize,
) -> u32
    ensures { At server.old.value server.new.value result (count.new ≡ count.old)
        (λ old new. (result ≡ ok) × (new ≡ old)
        × (count.new ≤ old.end.calls.room / 512 + old.end.calls.calls)) }
{
    let Some(served) = server.take(alloc) else {
        return CLOSED;
    };
    *count = served.blocks();
    *server = ServerHandle::of(served);
    OK
}

/// Frees what the handle holds. A handle that holds nothing stays so.
#[unsafe(no_mangle)]
pub extern "C" fn giop_server_free(alloc: Global, server: &mut ServerHandle)
    ensures { server.new.value ≡ None }
{
    let _held = server.take(alloc);
}

//! The exported functions of a client's end. Each takes what the handle holds, calls it and puts it
//! back. Those that read an entry are entry_calls.rt, and those that ask ask_calls.rt.
ghost use Rattle.std.specs.Prelude.{◌≡◌, ◌⊎◌, ◌+◌, ◌/◌, ◌≤◌, None, length};
ghost use Rattle.std.specs.FinMap as finite;
ghost use Rattle.giop_end.specs.Ends.SessionFaults.{error_message_of};
ghost use Rattle.giop_c.specs.Acts.{ToldAt};
ghost use Rattle.giop_c.specs.Calls.{At, ok};
ghost use Rattle.giop_c.specs.Copying.{CopiesAt, CopiesFront, CopiesOctets, TellsIds};
ghost use Rattle.giop_c.specs.Client.Ends.{ClosesClient, FeedsClient, OpensClient, SendsAtClient, TakesAtClient, WritesAtClient};

use crate::InterfaceHandle;
use crate::client::caller::Caller;
use crate::client::client_handle::ClientHandle;
use crate::copying::copy_octets;
use crate::end_records::{EndFault, EndLimits, told};
use crate::shared::Shared;
use crate::status::{CLOSED, FAULT, NO_MEMORY, OK};
use giop_end::Limits;
use std::alloc::Global;
use std::sync::Arc;

/// Opens a handle: a client's end without calls, by the interface that a handle holds and within
/// limits. What the handle held is freed. It answers OK; FAULT where the limit `gathered` is above
/// 2^62; NO_MEMORY; or CLOSED where the interface's handle holds nothing. With all but OK the handle
/// is as it was.
#[unsafe(no_mangle)]
pub extern "C" fn giop_client_new(
    alloc: Global,
    client: &mut ClientHandle,
    interface: &mut InterfaceHandle,
    limits: &EndLimits,
) -> u32
    ensures opens { OpensClient interface.old.value limits.now client.old.value client.new.value
        result }
    ensures interface { interface.new.value ≡ interface.old.value }
{
    let Some(shared) = interface.take(alloc) else {
        return CLOSED;
    };
    let status = open(alloc, client, &shared, limits);
    *interface = InterfaceHandle::of(shared);
    status
}

// Opens a handle by an interface.
fn open(alloc: Global, client: &mut ClientHandle, shared: &Shared, limits: &EndLimits) -> u32
    ensures { OpensClient (Some shared.now) limits.now client.old.value client.new.value result }
{
    if limits.gathered > 1 << 62 {
        return FAULT;
    }
    let Ok(interface) = Arc::try_clone(&shared.interface) else {
        return NO_MEMORY;
    };
    let limits = Limits {
        calls: limits.calls,
        message: limits.message,
        gathered: limits.gathered,
    };
    let Ok(caller) = Box::new(alloc, Caller::new(alloc, interface, limits)) else {
        return NO_MEMORY;
    };
    *client = ClientHandle::of(caller);
    OK
}

/// Takes in octets of the server, any number of them. It answers OK; FAULT or NO_MEMORY, and writes
/// the fault, which the end has from then on; or CLOSED.
#[unsafe(no_mangle)]
pub extern "C" fn giop_client_feed(
    alloc: Global,
    client: &mut ClientHandle,
    octets: &[u8],
    fault: &mut EndFault,
) -> u32
    ensures { ToldAt client.old.value client.new.value (FeedsClient octets.now) fault.old fault.new
        result }
{
    let Some(mut caller) = client.take(alloc) else {
        return CLOSED;
    };
    let answer = caller.feed(octets);
    *client = ClientHandle::of(caller);
    told(answer, fault)
}

/// Copies the first octets that are to be sent, as many as the buffer has room for, and writes how
/// many there are in all. It answers OK or CLOSED.
#[unsafe(no_mangle)]
pub extern "C" fn giop_client_outgoing(
    alloc: Global,
    client: &mut ClientHandle,
    buffer: &mut [u8],
    size: &mut usize,
) -> u32
    ensures { At client.old.value client.new.value result
        ((buffer.new ≡ buffer.old) × (size.new ≡ size.old))
        (λ old new. (result ≡ ok) × (new ≡ old)
        × CopiesFront old.end.outgoing buffer.old buffer.new size.new) }
{
    let Some(caller) = client.take(alloc) else {
        return CLOSED;
    };
    caller.outgoing(buffer, size);
    *client = ClientHandle::of(caller);
    OK
}

/// The first octets that are to be sent are written, so many of them. It answers OK; SMALL, where
/// fewer are to be sent, and nothing has changed; or CLOSED.
#[unsafe(no_mangle)]
pub extern "C" fn giop_client_wrote(alloc: Global, client: &mut ClientHandle, size: usize) -> u32
    ensures { At client.old.value client.new.value result (Unit {0})
        (λ old new. WritesAtClient size old new result) }
{
    let Some(mut caller) = client.take(alloc) else {
        return CLOSED;
    };
    let status = caller.wrote(size);
    *client = ClientHandle::of(caller);
    status
}

/// Puts out the next piece of a call. It answers OK; FAULT or NO_MEMORY, and writes the fault; or
/// CLOSED.
#[unsafe(no_mangle)]
pub extern "C" fn giop_client_send(
    alloc: Global,
    client: &mut ClientHandle,
    id: u32,
    fault: &mut EndFault,
) -> u32
    ensures { ToldAt client.old.value client.new.value (SendsAtClient id) fault.old fault.new result }
{
    let Some(mut caller) = client.take(alloc) else {
        return CLOSED;
    };
    let answer = caller.send(id);
    *client = ClientHandle::of(caller);
    told(answer, fault)
}

/// Closes the connection: a CloseConnection is put out. It answers OK; FAULT or NO_MEMORY, and
/// writes the fault; or CLOSED.
#[unsafe(no_mangle)]
pub extern "C" fn giop_client_close(
    alloc: Global,
    client: &mut ClientHandle,
    fault: &mut EndFault,
) -> u32
    ensures { ToldAt client.old.value client.new.value (ClosesClient) fault.old fault.new result }
{
    let Some(mut caller) = client.take(alloc) else {
        return CLOSED;
    };
    let answer = caller.close();
    *client = ClientHandle::of(caller);
    told(answer, fault)
}

/// Takes what is stored for an id out, where its call is over. It answers OK, also where nothing is
/// stored; FAULT, and writes the fault; or CLOSED.
#[unsafe(no_mangle)]
pub extern "C" fn giop_client_take(
    alloc: Global,
    client: &mut ClientHandle,
    id: u32,
    fault: &mut EndFault,
) -> u32
    ensures { ToldAt client.old.value client.new.value (TakesAtClient id) fault.old fault.new result }
{
    let Some(mut caller) = client.take(alloc) else {
        return CLOSED;
    };
    let answer = caller.take(id);
    *client = ClientHandle::of(caller);
    told(answer, fault)
}

/// Copies the MessageError that a peer is to be sent after the fault of the end. It answers OK;
/// SMALL, where the buffer has no room for it; WAITS, where no fault asks for one; or CLOSED.
#[unsafe(no_mangle)]
pub extern "C" fn giop_client_error_message(
    alloc: Global,
    client: &mut ClientHandle,
    buffer: &mut [u8],
    size: &mut usize,
) -> u32
    ensures { CopiesAt client.old.value client.new.value (λ old. CopiesOctets
        (error_message_of old.end.fault)) buffer.old buffer.new size.old size.new result }
{
    let Some(caller) = client.take(alloc) else {
        return CLOSED;
    };
    let message = caller.error_message();
    *client = ClientHandle::of(caller);
    match &message {
        Some(message) => copy_octets(Some(message), buffer, size),
        None => copy_octets(None, buffer, size),
    }
}

/// Writes how many octets are unread. It answers OK or CLOSED.
#[unsafe(no_mangle)]
pub extern "C" fn giop_client_rest(
    alloc: Global,
    client: &mut ClientHandle,
    rest: &mut usize,
) -> u32
    ensures { At client.old.value client.new.value result (rest.new ≡ rest.old)
        (λ old new. (result ≡ ok) × (new ≡ old) × (rest.new ≡ length old.end.framer.octets)) }
{
    let Some(caller) = client.take(alloc) else {
        return CLOSED;
    };
    *rest = caller.rest();
    *client = ClientHandle::of(caller);
    OK
}

/// Copies the first ids for which something is stored, ascending, as many as the buffer has room
/// for, and writes how many there are in all. It answers OK; NO_MEMORY, and nothing is written; or
/// CLOSED.
#[unsafe(no_mangle)]
pub extern "C" fn giop_client_ids(
    alloc: Global,
    client: &mut ClientHandle,
    ids: &mut [u32],
    count: &mut usize,
) -> u32
    ensures { CopiesAt client.old.value client.new.value
        (λ old. TellsIds (finite.keys old.end.calls.table)) ids.old ids.new count.old count.new result }
{
    let Some(caller) = client.take(alloc) else {
        return CLOSED;
    };
    let done = caller.ids(alloc, ids, count);
    *client = ClientHandle::of(caller);
    match done {
        Ok(()) => OK,
        Err(_) => NO_MEMORY,
    }
}

/// Writes how many blocks of 512 octets the end has taken for pieces. It answers OK or CLOSED.
#[unsafe(no_mangle)]
pub extern "C" fn giop_client_blocks(
    alloc: Global,
    client: &mut ClientHandle,
    count: &mut usize,
) -> u32
    ensures { At client.old.value client.new.value result (count.new ≡ count.old)
        (λ old new. (result ≡ ok) × (new ≡ old)
        × (count.new ≤ old.end.calls.room / 512 + old.end.calls.calls)) }
{
    let Some(caller) = client.take(alloc) else {
        return CLOSED;
    };
    *count = caller.blocks();
    *client = ClientHandle::of(caller);
    OK
}

/// Frees what the handle holds. A handle that holds nothing stays so.
#[unsafe(no_mangle)]
pub extern "C" fn giop_client_free(alloc: Global, client: &mut ClientHandle)
    ensures { client.new.value ≡ None }
{
    let _held = client.take(alloc);
}

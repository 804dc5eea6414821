//! The exported functions that say what is stored for the id of a call at a client's end, and what
//! its Reply brought.
ghost use Rattle.std.specs.Prelude.{◌≡◌};
ghost use Rattle.std_alloc.specs.Arc.{arc_value};
ghost use Rattle.giop_table.specs.CallTable.{entry_at};
ghost use Rattle.giop_c.specs.Calls.{At, ok};
ghost use Rattle.giop_c.specs.Client.Entries.{CopiesMembers, CopiesOuts, CopiesReference, body_of, c_client_row, contexts_of, exception_in, forward_in};
ghost use Rattle.giop_c.specs.Contexts.{CopiesContextAt, context_at};
ghost use Rattle.giop_c.specs.Copying.{CopiesAt, CopiesOctets};
ghost use Rattle.giop_c.specs.Values.{c_value_form};

use crate::client::client_handle::ClientHandle;
use crate::client::entries::ClientRow;
use crate::status::{CLOSED, OK};
use crate::value_form::value_form_of;
use std::alloc::Global;

/// Writes what is stored for an id: kind 0 where nothing is. It answers OK or CLOSED.
#[unsafe(no_mangle)]
pub extern "C" fn giop_client_entry_of(
    alloc: Global,
    client: &mut ClientHandle,
    id: u32,
    entry: &mut ClientRow,
) -> u32
    ensures { At client.old.value client.new.value result (entry.new ≡ entry.old)
        (λ old new. (result ≡ ok) × (new ≡ old)
        × (entry.new ≡ c_client_row (entry_at old.end.calls id))) }
{
    let Some(caller) = client.take(alloc) else {
        return CLOSED;
    };
    *entry = caller.row(id);
    *client = ClientHandle::of(caller);
    OK
}

/// Copies what the Reply under an id brought without an exception, in a form, and writes how many
/// octets it is. It answers OK; SMALL, where the buffer has no room for it; WAITS, where there is no
/// such Reply; NO_MEMORY; FAULT, where it isn't values of the operation; or CLOSED.
#[unsafe(no_mangle)]
pub extern "C" fn giop_client_outs(
    alloc: Global,
    client: &mut ClientHandle,
    id: u32,
    value_form: u32,
    buffer: &mut [u8],
    size: &mut usize,
) -> u32
    ensures { CopiesAt client.old.value client.new.value (λ old. CopiesOuts
        (arc_value old.interface) (entry_at old.end.calls id) (c_value_form value_form)) buffer.old
        buffer.new size.old size.new result }
{
    let Some(caller) = client.take(alloc) else {
        return CLOSED;
    };
    let status = caller.outs(alloc, id, value_form_of(value_form), buffer, size);
    *client = ClientHandle::of(caller);
    status
}

/// Copies the repository id of the exception that the Reply under an id brought, without its null,
/// and writes its size. It answers OK; SMALL; WAITS, where there is no such Reply; or CLOSED.
#[unsafe(no_mangle)]
pub extern "C" fn giop_client_exception(
    alloc: Global,
    client: &mut ClientHandle,
    id: u32,
    buffer: &mut [u8],
    size: &mut usize,
) -> u32
    ensures { CopiesAt client.old.value client.new.value (λ old. CopiesOctets (exception_in (body_of
        (entry_at old.end.calls id)))) buffer.old buffer.new size.old size.new result }
{
    let Some(caller) = client.take(alloc) else {
        return CLOSED;
    };
    let status = caller.exception(id, buffer, size);
    *client = ClientHandle::of(caller);
    status
}

/// Copies the members of the exception of the interface that the Reply under an id brought, in a
/// form, and writes how many octets they are. It answers as `giop_client_outs`.
#[unsafe(no_mangle)]
pub extern "C" fn giop_client_members(
    alloc: Global,
    client: &mut ClientHandle,
    id: u32,
    value_form: u32,
    buffer: &mut [u8],
    size: &mut usize,
) -> u32
    ensures { CopiesAt client.old.value client.new.value (λ old. CopiesMembers
        (arc_value old.interface) (body_of (entry_at old.end.calls id)) (c_value_form value_form))
        buffer.old buffer.new size.old size.new result }
{
    let Some(caller) = client.take(alloc) else {
        return CLOSED;
    };
    let status = caller.members(alloc, id, value_form_of(value_form), buffer, size);
    *client = ClientHandle::of(caller);
    status
}

/// Writes the id of a service context of the Reply under an id, the first at index 0, copies its
/// octets, and writes their number. It answers OK; SMALL, where the buffer has no room for them;
/// WAITS, where there is no such context; or CLOSED.
#[unsafe(no_mangle)]
pub extern "C" fn giop_client_context(
    alloc: Global,
    client: &mut ClientHandle,
    id: u32,
    index: usize,
    service: &mut u32,
    buffer: &mut [u8],
    size: &mut usize,
) -> u32
    ensures { CopiesContextAt client.old.value client.new.value
        (λ old. context_at index (contexts_of (entry_at old.end.calls id)))
        service.old service.new buffer.old buffer.new size.old size.new result }
{
    let Some(caller) = client.take(alloc) else {
        return CLOSED;
    };
    let status = caller.context(id, index, service, buffer, size);
    *client = ClientHandle::of(caller);
    status
}

/// Copies the reference to which the Reply under an id forwards, as a text without a null, and
/// writes its size. It answers OK; SMALL; WAITS, where there is no such Reply; NO_MEMORY; FAULT,
/// where no octets spell the reference; or CLOSED.
#[unsafe(no_mangle)]
pub extern "C" fn giop_client_forward(
    alloc: Global,
    client: &mut ClientHandle,
    id: u32,
    buffer: &mut [u8],
    size: &mut usize,
) -> u32
    ensures { CopiesAt client.old.value client.new.value (λ old. CopiesReference (forward_in
        (body_of (entry_at old.end.calls id)))) buffer.old buffer.new size.old size.new result }
{
    let Some(caller) = client.take(alloc) else {
        return CLOSED;
    };
    let status = caller.forward(alloc, id, buffer, size);
    *client = ClientHandle::of(caller);
    status
}

//! The exported functions that say what is stored for the id of a call at a server's end.
ghost use Rattle.std.specs.Prelude.{◌≡◌};
ghost use Rattle.std_alloc.specs.Arc.{arc_value};
ghost use Rattle.giop_table.specs.CallTable.{entry_at};
ghost use Rattle.giop_c.specs.Calls.{At, ok};
ghost use Rattle.giop_c.specs.Contexts.{CopiesContextAt, context_at};
ghost use Rattle.giop_c.specs.Server.Entries.{c_server_row, contexts_in, key_in, operation_in, request_of, target_of};
ghost use Rattle.giop_c.specs.Copying.{CopiesAt, CopiesOctets};
ghost use Rattle.giop_c.specs.Values.{CopiesIns, c_value_form};

use crate::server::entries::ServerRow;
use crate::server::server_handle::ServerHandle;
use crate::status::{CLOSED, OK};
use crate::value_form::value_form_of;
use std::alloc::Global;

/// Writes what is stored for an id: kind 0 where nothing is. It answers OK or CLOSED.
#[unsafe(no_mangle)]
pub extern "C" fn giop_server_entry_of(
    alloc: Global,
    server: &mut ServerHandle,
    id: u32,
    entry: &mut ServerRow,
) -> u32
    ensures { At server.old.value server.new.value result (entry.new ≡ entry.old)
        (λ old new. (result ≡ ok) × (new ≡ old)
        × (entry.new ≡ c_server_row (entry_at old.end.calls id))) }
{
    let Some(served) = server.take(alloc) else {
        return CLOSED;
    };
    *entry = served.row(id);
    *server = ServerHandle::of(served);
    OK
}

/// Copies the operation of the Request under an id, without its null, and writes its size. It
/// answers OK; SMALL, where the buffer has no room for it; WAITS, where no Request is known; or
/// CLOSED.
#[unsafe(no_mangle)]
pub extern "C" fn giop_server_operation(
    alloc: Global,
    server: &mut ServerHandle,
    id: u32,
    buffer: &mut [u8],
    size: &mut usize,
) -> u32
    ensures { CopiesAt server.old.value server.new.value (λ old. CopiesOctets (operation_in
        (request_of (entry_at old.end.calls id)))) buffer.old buffer.new size.old size.new result }
{
    let Some(served) = server.take(alloc) else {
        return CLOSED;
    };
    let status = served.operation(id, buffer, size);
    *server = ServerHandle::of(served);
    status
}

/// Copies the key of the object of the Request or the LocateRequest under an id, and writes its
/// size; none where the target is no key. It answers as `giop_server_operation`; WAITS, where
/// neither is known.
#[unsafe(no_mangle)]
pub extern "C" fn giop_server_key(
    alloc: Global,
    server: &mut ServerHandle,
    id: u32,
    buffer: &mut [u8],
    size: &mut usize,
) -> u32
    ensures { CopiesAt server.old.value server.new.value (λ old. CopiesOctets (key_in (target_of
        (entry_at old.end.calls id)))) buffer.old buffer.new size.old size.new result }
{
    let Some(served) = server.take(alloc) else {
        return CLOSED;
    };
    let status = served.key(id, buffer, size);
    *server = ServerHandle::of(served);
    status
}

/// Writes the id of a service context of the Request under an id, the first at index 0, copies its
/// octets, and writes their number. It answers OK; SMALL, where the buffer has no room for them;
/// WAITS, where there is no such context; or CLOSED.
#[unsafe(no_mangle)]
pub extern "C" fn giop_server_context(
    alloc: Global,
    server: &mut ServerHandle,
    id: u32,
    index: usize,
    service: &mut u32,
    buffer: &mut [u8],
    size: &mut usize,
) -> u32
    ensures { CopiesContextAt server.old.value server.new.value
        (λ old. context_at index (contexts_in (request_of (entry_at old.end.calls id))))
        service.old service.new buffer.old buffer.new size.old size.new result }
{
    let Some(served) = server.take(alloc) else {
        return CLOSED;
    };
    let status = served.context(id, index, service, buffer, size);
    *server = ServerHandle::of(served);
    status
}

/// Copies the ins of the Request under an id in a form, and writes how many octets they are. It
/// answers OK; SMALL, where the buffer has no room for them; WAITS, where no Request is known;
/// NO_MEMORY; FAULT, where they aren't values of the operation; or CLOSED.
#[unsafe(no_mangle)]
pub extern "C" fn giop_server_ins(
    alloc: Global,
    server: &mut ServerHandle,
    id: u32,
    value_form: u32,
    buffer: &mut [u8],
    size: &mut usize,
) -> u32
    ensures { CopiesAt server.old.value server.new.value (λ old. CopiesIns (arc_value old.interface)
        (request_of (entry_at old.end.calls id)) (c_value_form value_form)) buffer.old buffer.new
        size.old size.new result }
{
    let Some(served) = server.take(alloc) else {
        return CLOSED;
    };
    let status = served.ins(alloc, id, value_form_of(value_form), buffer, size);
    *server = ServerHandle::of(served);
    status
}

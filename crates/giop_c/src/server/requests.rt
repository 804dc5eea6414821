//! What the Request or the LocateRequest under an id says, copied into the caller's buffers.
ghost use Rattle.std.specs.Prelude.{◌≡◌, Some, option_copied};
ghost use Rattle.std_alloc.specs.Arc.{arc_value};
ghost use Rattle.giop_table.specs.CallTable.{entry_at};
ghost use Rattle.giop_c.specs.Contexts.{CopiesContext, context_at};
ghost use Rattle.giop_c.specs.Copying.{CopiesOctets};
ghost use Rattle.giop_c.specs.Server.Entries.{contexts_in, key_in, operation_in, request_of, target_of};
ghost use Rattle.giop_c.specs.Values.{CopiesIns};

use crate::contexts::{context_at, copy_context};
use crate::copying::copy_octets;
use crate::server::entries::{contexts_in, key_in, operation_in, request_of, target_of};
use crate::server::served::Served;
use crate::status::WAITS;
use crate::value_form::ValueForm;
use crate::values::copy_values;
use giop_msg::Request;
use giop_types::Interface;
use std::alloc::Global;

impl Served {
    /// Copies the operation of the Request under an id. It answers OK; SMALL, where the buffer has
    /// no room for it; or WAITS, where no Request is known. It takes no memory.
    pub fn operation(&self, id: u32, buffer: &mut [u8], size: &mut usize) -> u32
        ensures copies { CopiesOctets
            (operation_in (request_of (entry_at self.now.end.calls id)))
            buffer.old buffer.new size.old size.new result }
    {
        copy_octets(operation_in(request_of(self.end.entry(id))), buffer, size)
    }

    /// Copies the key of the object of the Request or the LocateRequest under an id, as `operation`.
    pub fn key(&self, id: u32, buffer: &mut [u8], size: &mut usize) -> u32
        ensures copies { CopiesOctets (key_in (target_of (entry_at self.now.end.calls id)))
            buffer.old buffer.new size.old size.new result }
    {
        copy_octets(key_in(target_of(self.end.entry(id))), buffer, size)
    }

    /// Writes the id of a service context of the Request under an id, the first at index 0, and
    /// copies its octets. It answers as `operation`; WAITS also where there are no more. It takes no
    /// memory.
    pub fn context(
        &self,
        id: u32,
        index: usize,
        service: &mut u32,
        buffer: &mut [u8],
        size: &mut usize,
    ) -> u32
        ensures copies { CopiesContext (context_at index
            (contexts_in (request_of (entry_at self.now.end.calls id))))
            service.old service.new buffer.old buffer.new size.old size.new result }
    {
        let context = context_at(contexts_in(request_of(self.end.entry(id))), index);
        copy_context(context, service, buffer, size)
    }

    /// Copies the ins of the Request under an id in a form. It answers as `operation`; or NO_MEMORY;
    /// or FAULT, where the values aren't of their descriptions.
    pub fn ins(
        &self,
        alloc: Global,
        id: u32,
        form: ValueForm,
        buffer: &mut [u8],
        size: &mut usize,
    ) -> u32
        ensures copies { CopiesIns (arc_value self.now.interface)
            (request_of (entry_at self.now.end.calls id)) form
            buffer.old buffer.new size.old size.new result }
    {
        let request = request_of(self.end.entry(id));
        copy_ins(alloc, &self.interface, request, form, buffer, size)
    }
}

// Copies the ins of a Request in a form, where there is one.
fn copy_ins(
    alloc: Global,
    interface: &Interface,
    request: Option<&Request>,
    form: ValueForm,
    buffer: &mut [u8],
    size: &mut usize,
) -> u32
    ensures { CopiesIns interface.now (option_copied request.entry) form
        buffer.old buffer.new size.old size.new result }
{
    match request {
        Some(request) => copy_ins_of(alloc, interface, request, form, buffer, size),
        None => WAITS,
    }
}

// Copies the ins of a Request in a form.
fn copy_ins_of(
    alloc: Global,
    interface: &Interface,
    request: &Request,
    form: ValueForm,
    buffer: &mut [u8],
    size: &mut usize,
) -> u32
    ensures { CopiesIns interface.now (Some request.now) form
        buffer.old buffer.new size.old size.new result }
{
    let Some(operation) = request.head.operation_asked(interface) else {
        return WAITS;
    };
    copy_values(
        alloc,
        operation.ins.as_slice(),
        request.body.as_slice(),
        form,
        buffer,
        size,
    )
}

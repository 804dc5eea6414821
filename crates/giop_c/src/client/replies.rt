//! What the Reply to a call brought, copied into the caller's buffers: values in a form, and a
//! reference as its text.
ghost use Rattle.std.specs.Prelude.{◌≡◌, Some, map, option_copied};
ghost use Rattle.giop_types.specs.Values.Views.{value_view};
ghost use Rattle.giop_msg.specs.Messages.Reply.{exception_of, listed, outs_for};
ghost use Rattle.giop_c.specs.Client.Entries.{CopiesMembers, CopiesOuts, CopiesOutsOf, CopiesReference};
ghost use Rattle.giop_c.specs.Values.{CopiesValues};

use crate::copying::copy_octets;
use crate::parameters::members_of;
use crate::status::{FAULT, NO_MEMORY, WAITS};
use crate::value_form::ValueForm;
use crate::values::copy_values;
use giop_calls::ClientEntry;
use giop_ior::{Ior, ior_to_text};
use giop_msg::{ReplyBody, Request, outs_for};
use giop_types::{Interface, Parameter, Value};
use std::alloc::Global;

/// Copies what a Reply brought without an exception, where the entry is of one.
pub fn copy_outs(
    alloc: Global,
    interface: &Interface,
    entry: Option<&ClientEntry>,
    form: ValueForm,
    buffer: &mut [u8],
    size: &mut usize,
) -> u32
    ensures { CopiesOuts interface.now (option_copied entry.entry) form
        buffer.old buffer.new size.old size.new result }
{
    match entry {
        Some(entry) => copy_outs_in(alloc, interface, entry, form, buffer, size),
        None => WAITS,
    }
}

// Copies what a Reply brought without an exception, where an entry is of one.
fn copy_outs_in(
    alloc: Global,
    interface: &Interface,
    entry: &ClientEntry,
    form: ValueForm,
    buffer: &mut [u8],
    size: &mut usize,
) -> u32
    ensures { CopiesOuts interface.now (Some entry.now) form
        buffer.old buffer.new size.old size.new result }
{
    match entry {
        ClientEntry::Done { request, reply } => {
            copy_outs_to(alloc, interface, request, &reply.body, form, buffer, size)
        }
        _ => WAITS,
    }
}

// Copies the outs of a body that has no exception and answers a Request.
fn copy_outs_to(
    alloc: Global,
    interface: &Interface,
    request: &Request,
    body: &ReplyBody,
    form: ValueForm,
    buffer: &mut [u8],
    size: &mut usize,
) -> u32
    ensures { CopiesOutsOf (outs_for interface.now (Some request.now)) body.now form
        buffer.old buffer.new size.old size.new result }
{
    let parameters = outs_for(interface, Some(request));
    copy_outs_of(alloc, parameters, body, form, buffer, size)
}

// Copies the outs of a body that has no exception.
fn copy_outs_of(
    alloc: Global,
    parameters: &[Parameter],
    body: &ReplyBody,
    form: ValueForm,
    buffer: &mut [u8],
    size: &mut usize,
) -> u32
    ensures { CopiesOutsOf parameters.now body.now form
        buffer.old buffer.new size.old size.new result }
{
    match body {
        ReplyBody::NoException(outs) => {
            copy_values(alloc, parameters, outs.as_slice(), form, buffer, size)
        }
        _ => WAITS,
    }
}

/// Copies the members of an exception of the interface, where the body is one.
pub fn copy_members(
    alloc: Global,
    interface: &Interface,
    body: Option<&ReplyBody>,
    form: ValueForm,
    buffer: &mut [u8],
    size: &mut usize,
) -> u32
    ensures { CopiesMembers interface.now (option_copied body.entry) form
        buffer.old buffer.new size.old size.new result }
{
    match body {
        Some(body) => copy_members_in(alloc, interface, body, form, buffer, size),
        None => WAITS,
    }
}

// Copies the members of an exception of the interface, where a body is one.
fn copy_members_in(
    alloc: Global,
    interface: &Interface,
    body: &ReplyBody,
    form: ValueForm,
    buffer: &mut [u8],
    size: &mut usize,
) -> u32
    ensures { CopiesMembers interface.now (Some body.now) form
        buffer.old buffer.new size.old size.new result }
{
    match body {
        ReplyBody::UserException { id, members } => {
            let (id, members) = (id.as_slice(), members.as_slice());
            copy_members_of(alloc, interface, id, members, form, buffer, size)
        }
        _ => WAITS,
    }
}

// Copies the members of the exception of an id.
fn copy_members_of(
    alloc: Global,
    interface: &Interface,
    id: &[u8],
    members: &[Value],
    form: ValueForm,
    buffer: &mut [u8],
    size: &mut usize,
) -> u32
    ensures { CopiesValues (listed (exception_of interface.now id.now))
        (map value_view members.now) form buffer.old buffer.new size.old size.new result }
{
    let parameters = members_of(interface, id);
    copy_values(alloc, parameters, members, form, buffer, size)
}

/// Copies the text of a reference, where there is one.
pub fn copy_reference(alloc: Global, ior: Option<&Ior>, buffer: &mut [u8], size: &mut usize) -> u32
    ensures { CopiesReference (option_copied ior.entry) buffer.old buffer.new size.old size.new
        result }
{
    match ior {
        Some(ior) => copy_text(alloc, ior, buffer, size),
        None => WAITS,
    }
}

// Copies the text of a reference.
fn copy_text(alloc: Global, ior: &Ior, buffer: &mut [u8], size: &mut usize) -> u32
    ensures { CopiesReference (Some ior.now) buffer.old buffer.new size.old size.new result }
{
    if !ior.is_writable() {
        return FAULT;
    }
    match ior_to_text(alloc, ior) {
        Ok(text) => copy_octets(Some(text.as_slice()), buffer, size),
        Err(_) => NO_MEMORY,
    }
}

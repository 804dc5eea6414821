//! What the program of a client's end does with a call: it calls by CDR octets, and has the outs as
//! CDR octets.
use crate::c_calls::answering::values_of;
use crate::c_calls::{copied, mixed};
use giop_calls::ClientEntry;
use giop_cdr::{OctetList, Order};
use giop_end::{ClientEnd, Form};
use giop_msg::{
    ReplyBody, Request, RequestHead, ServiceContexts, Target, Version, outs_for, values_to_octets,
};
use giop_types::Interface;
use std::alloc::Global;

/// Calls `add` under an id: it adds the id to 2.
pub fn calls(alloc: Global, interface: &Interface, end: &mut ClientEnd<'_>, id: u32) -> Option<()> {
    let mut ins = [0u8; 8];
    ins[..4].copy_from_slice(&2u32.to_be_bytes());
    ins[4..].copy_from_slice(&id.to_be_bytes());
    let request = request_of(alloc, interface, id, &ins)?;
    end.call(request, Form::default()).ok()
}

// The Request of `add` whose ins these octets are.
fn request_of(alloc: Global, interface: &Interface, id: u32, octets: &[u8]) -> Option<Request> {
    let head = RequestHead {
        version: Version::V12,
        id,
        flags: 3,
        target: Target::Key(OctetList::from_slice(alloc, b"k").ok()?),
        operation: OctetList::from_slice(alloc, b"add").ok()?,
        contexts: ServiceContexts::new(alloc),
    };
    let operation = head.operation_asked(interface)?;
    let body = values_of(alloc, operation.ins.as_slice(), octets)?;
    Some(Request { head, body })
}

/// Takes the call of an id out, with its result.
pub fn takes(
    alloc: Global,
    interface: &Interface,
    end: &mut ClientEnd<'_>,
    id: u32,
    sum: u64,
) -> Option<u64> {
    let mut outs = [0u8; 4];
    if outs_in(alloc, interface, end.entry(id)?, &mut outs)? != 4 {
        return None;
    }
    end.take(id).ok()?;
    Some(mixed(sum, u64::from(outs[3])))
}

// Copies the outs of a Reply as CDR octets into a buffer. How many they are.
fn outs_in(
    alloc: Global,
    interface: &Interface,
    entry: &ClientEntry,
    buffer: &mut [u8],
) -> Option<usize> {
    let ClientEntry::Done { request, reply } = entry else {
        return None;
    };
    let ReplyBody::NoException(values) = &reply.body else {
        return None;
    };
    let outs = outs_for(interface, Some(request));
    let octets = values_to_octets(alloc, outs, values.as_slice(), Order::Big).ok()?;
    copied(octets.as_slice(), buffer)
}

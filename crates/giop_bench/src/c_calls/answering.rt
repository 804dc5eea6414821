//! What the program of a server's end does with a call: it looks at its entry, has its ins as CDR
//! octets, and answers by CDR octets.
use crate::c_calls::row::{ASKED, Row};
use crate::c_calls::{copied, mixed, of_big};
use giop_calls::{Question, ServerEntry};
use giop_cdr::Order;
use giop_end::{Form, ServerEnd};
use giop_msg::{
    Reply, ReplyBody, Request, ServiceContexts, outs_for, values_from_octets, values_to_octets,
};
use giop_types::{Interface, Parameter, ValueList};
use std::alloc::Global;

/// Looks at all of an entry, and answers the call by the sum of its ins. The checksum, and how many
/// octets the ins were.
pub fn answers(
    alloc: Global,
    interface: &Interface,
    end: &mut ServerEnd<'_>,
    id: u32,
    sum: u64,
) -> Option<(u64, usize)> {
    let row = Row::of(end.entry(id));
    if row.kind != ASKED {
        return None;
    }
    let mut ins = [0u8; 8];
    let size = ins_of(alloc, interface, end.entry(id), &mut ins)?;
    let mut outs = [0u8; 4];
    if size == 8 {
        let (a, b) = of_big(ins);
        outs = a.wrapping_add(b).to_be_bytes();
    }
    let reply = reply_of(alloc, interface, end.entry(id), id, outs.get(..size / 2)?)?;
    end.answer(reply, Form::default()).ok()?;
    Some((mixed(sum, row.all()), size))
}

// The Request of an entry, where it has one that could be decoded.
fn request_of(entry: Option<&ServerEntry>) -> Option<&Request> {
    match entry? {
        ServerEntry::Asked { request } => Some(request),
        ServerEntry::Delivered { request } => Some(request),
        ServerEntry::Answered {
            asked: Question::Request(request),
            ..
        } => Some(request),
        _ => None,
    }
}

// Copies the ins of a Request as CDR octets into a buffer. How many they are.
fn ins_of(
    alloc: Global,
    interface: &Interface,
    entry: Option<&ServerEntry>,
    buffer: &mut [u8],
) -> Option<usize> {
    let request = request_of(entry)?;
    let operation = request.head.operation_asked(interface)?;
    let (ins, values) = (operation.ins.as_slice(), request.body.as_slice());
    let octets = values_to_octets(alloc, ins, values, Order::Big).ok()?;
    copied(octets.as_slice(), buffer)
}

// The Reply to a Request whose outs these octets are.
fn reply_of(
    alloc: Global,
    interface: &Interface,
    entry: Option<&ServerEntry>,
    id: u32,
    octets: &[u8],
) -> Option<Reply> {
    let request = request_of(entry)?;
    let outs = outs_for(interface, Some(request));
    Some(Reply {
        version: request.head.version,
        id,
        contexts: ServiceContexts::new(alloc),
        body: ReplyBody::NoException(values_of(alloc, outs, octets)?),
    })
}

/// The values of parameters that CDR octets are.
pub fn values_of(alloc: Global, parameters: &[Parameter], octets: &[u8]) -> Option<ValueList> {
    if octets.len() > 8 {
        return None;
    }
    values_from_octets(alloc, parameters, octets, Order::Big).ok()
}

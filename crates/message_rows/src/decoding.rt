//! Whole messages that are decoded, and encoded again.
ghost use Rattle.std.specs.Prelude.{◌≤◌, ◌^◌, length};

use crate::names::version;
use crate::shown::{reply_text, request_text};
use anyhow::Result;
use giop_cdr::{EncodeFault, SliceOctets};
use giop_msg::{LocateReply, LocateRequest, Reply, Request, RequestFault, Version};
use giop_types::Interface;
use rows::{octets, order};
use std::alloc::Global;

/// A Request, by the octets behind its header; and it itself. What it says is printed, and then how
/// it is encoded in the same order, or the fault.
pub fn request(
    alloc: Global,
    interface: &Interface,
    of_version: &str,
    of_order: &str,
    digits: &str,
) -> Result<(String, Option<Request>)> {
    let octets = octets(alloc, digits)?;
    let joined = SliceOctets::new(front(octets.as_slice()));
    let of_order = order(of_order)?;
    match Request::decode(alloc, interface, &joined, version(of_version)?, of_order) {
        Ok(request) => {
            let again = request.encode(alloc, interface, of_order);
            let again = encoded(alloc, request.is_writable(interface), again)?;
            let said = request_text(alloc, &request)?;
            Ok((format!(in alloc; "{said}; {again}")?, Some(request)))
        }
        Err(fault) => Ok((fault_text(alloc, fault)?, None)),
    }
}

// `header FAULT`, `operation` or `body FAULT`.
fn fault_text(alloc: Global, fault: RequestFault) -> Result<String> {
    Ok(match fault {
        RequestFault::Header(fault) => format!(in alloc; "header {fault}")?,
        RequestFault::Operation => "operation".to_string(alloc)?,
        RequestFault::Body(fault) => format!(in alloc; "body {fault}")?,
    })
}

/// A Reply to a Request, in the words version, order and octets; likewise.
pub fn reply(
    alloc: Global,
    interface: &Interface,
    asked: Option<&Request>,
    words: [&str; 3],
) -> Result<String> {
    let [of_version, of_order, digits] = words;
    let octets = octets(alloc, digits)?;
    let joined = SliceOctets::new(front(octets.as_slice()));
    let of_order = order(of_order)?;
    let found = Reply::decode(
        alloc,
        interface,
        asked,
        &joined,
        version(of_version)?,
        of_order,
    );
    match found {
        Ok(reply) => {
            let again = reply.encode(alloc, interface, asked, of_order);
            let again = encoded(alloc, reply.is_writable(interface, asked), again)?;
            let said = reply_text(alloc, &reply)?;
            Ok(format!(in alloc; "{said}; {again}")?)
        }
        Err(fault) => Ok(format!(in alloc; "{fault}")?),
    }
}

/// A LocateRequest; likewise.
pub fn locate_request(
    alloc: Global,
    of_version: &str,
    of_order: &str,
    digits: &str,
) -> Result<String> {
    let octets = octets(alloc, digits)?;
    let joined = SliceOctets::new(front(octets.as_slice()));
    let of_order = order(of_order)?;
    match LocateRequest::decode(alloc, &joined, version(of_version)?, of_order) {
        Ok(request) => {
            let again = request.encode(alloc, of_order);
            let again = encoded(alloc, request.is_writable(), again)?;
            Ok(format!(in alloc; "{}; {again}", request.id)?)
        }
        Err(fault) => Ok(format!(in alloc; "{fault}")?),
    }
}

/// A LocateReply of 1.2, which is encoded in another order; likewise.
pub fn locate_reply(alloc: Global, of_order: &str, again_in: &str, digits: &str) -> Result<String> {
    let octets = octets(alloc, digits)?;
    let joined = SliceOctets::new(front(octets.as_slice()));
    match LocateReply::decode(alloc, &joined, Version::V12, order(of_order)?) {
        Ok(reply) => {
            let again = encoded(alloc, true, reply.encode(alloc, order(again_in)?))?;
            let head = reply.head;
            Ok(format!(in alloc; "{} {}; {again}", head.id, head.status)?)
        }
        Err(fault) => Ok(format!(in alloc; "{fault}")?),
    }
}

/// At most a megabyte of octets.
pub fn front(octets: &[u8]) -> &[u8]
    ensures { length result.now ≤ 2 ^ 62 }
{
    &octets[..octets.len().min(1 << 20)]
}

/// What was encoded, or `Unfit`, where that agrees with whether it can be.
pub fn encoded(
    alloc: Global,
    writable: bool,
    again: Result<Vec<u8>, EncodeFault>,
) -> Result<String> {
    Ok(match (writable, again) {
        (true, Ok(octets)) => hex::encode(alloc, octets.as_slice())?,
        (false, Err(EncodeFault::Unfit)) => "Unfit".to_string(alloc)?,
        _ => "two answers".to_string(alloc)?,
    })
}

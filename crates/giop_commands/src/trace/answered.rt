//! What the answer of a call is.
ghost use Rattle.std.specs.Prelude.{◌^◌, ◌≤◌, length};

use crate::failure::Failure;
use giop_cdr::{CdrFault, CdrIn, CdrKind, SliceOctets};
use giop_msg::{Kind, LocateReplyHead, Msg, Reply, ReplyHead, Request};
use giop_types::Interface;
use std::alloc::Global;

// The most octets of a message that are decoded.
const MOST: usize = 1 << 62;

/// What a message of the server is.
#[derive(Drop)]
pub enum Answered {
    /// A Reply or a LocateReply, of which pieces are still to come.
    Pieces,
    /// A Reply.
    Reply(Reply),
    /// A LocateReply, of this status.
    Located(u32),
    /// One of them that can't be decoded.
    Undecoded {
        /// Why, and where.
        fault: CdrFault,
        /// The repository id of its user exception, where it has one that can be read.
        exception: Option<Vec<u8>>,
    },
    /// A message that answers nothing.
    Other,
}

/// What a message of the server is, decoded by an interface and the Request that it answers, where
/// that was decoded.
#[inline(always)]
pub fn answered_by(
    alloc: Global,
    interface: &Interface,
    request: Option<&Request>,
    message: &Msg,
) -> Result<Answered, Failure> {
    if message.payload.len() > MOST {
        return Err(Failure::Memory);
    }
    match message.kind {
        Kind::Reply | Kind::LocateReply if message.more => Ok(Answered::Pieces),
        Kind::Reply => reply_in(alloc, interface, request, message),
        Kind::LocateReply => located_in(message),
        _ => Ok(Answered::Other),
    }
}

#[inline(always)]
fn reply_in(
    alloc: Global,
    interface: &Interface,
    request: Option<&Request>,
    message: &Msg,
) -> Result<Answered, Failure>
    requires { length message.now.payload ≤ 2 ^ 62 }
{
    let joined = SliceOctets::new(message.payload.as_slice());
    let (version, order) = (message.version, message.order);
    match Reply::decode(alloc, interface, request, &joined, version, order) {
        Ok(reply) => Ok(Answered::Reply(reply)),
        Err(fault) if fault.kind == CdrKind::NoMemory => Err(Failure::Memory),
        Err(fault) => {
            let exception = exception_in(alloc, message)?;
            Ok(Answered::Undecoded { fault, exception })
        }
    }
}

fn located_in(message: &Msg) -> Result<Answered, Failure>
    requires { length message.now.payload ≤ 2 ^ 62 }
{
    let joined = SliceOctets::new(message.payload.as_slice());
    match LocateReplyHead::view(&joined, message.version, message.order) {
        Ok((head, _)) => Ok(Answered::Located(head.status)),
        Err(fault) => Ok(Answered::Undecoded {
            fault,
            exception: None,
        }),
    }
}

// The repository id of the user exception that a Reply begins its body with, if it can be read.
fn exception_in(alloc: Global, message: &Msg) -> Result<Option<Vec<u8>>, Failure>
    requires { length message.now.payload ≤ 2 ^ 62 }
{
    let octets = message.payload.as_slice();
    let joined = SliceOctets::new(octets);
    let (status, place) = match ReplyHead::view(&joined, message.version, message.order) {
        Ok((head, place)) => (head.status, place),
        Err(_) => return Ok(None),
    };
    let body = match octets.get(place.saturating_sub(12)..) {
        Some(body) if body.len() <= MOST => SliceOctets::new(body),
        _ => return Ok(None),
    };
    // No number is aligned to more than 8.
    let mut input = CdrIn::new(&body, message.order, place % 8);
    match input.read_string(alloc, u32::MAX) {
        Ok(exception) if status == 1 => Ok(Some(exception)),
        Err(fault) if fault.kind == CdrKind::NoMemory => Err(Failure::Memory),
        _ => Ok(None),
    }
}

//! What the message that begins a call is.
ghost use Rattle.std.specs.Prelude.{◌^◌, ◌≤◌, length};

use crate::failure::Failure;
use giop_cdr::{CdrKind, SliceOctets};
use giop_msg::{Kind, LocateRequest, Msg, Request, RequestFault};
use giop_types::Interface;
use std::alloc::Global;

// The most octets of a message that are decoded.
const MOST: usize = 1 << 62;

/// What a message of the client is.
#[derive(Drop)]
pub enum Asked {
    /// None came.
    Nothing,
    /// A Request or a LocateRequest, of which pieces are still to come.
    Pieces,
    /// A Request of the interface.
    Request(Request),
    /// A LocateRequest.
    Locate(LocateRequest),
    /// One of them that can't be decoded.
    Undecoded(RequestFault),
    /// A message that asks for nothing.
    Other,
}

impl Asked {
    /// Whether it begins a call.
    pub fn is_call(&self) -> bool {
        match self {
            Asked::Nothing | Asked::Other => false,
            _ => true,
        }
    }
}

/// What a message of the client is, decoded by an interface.
#[inline(always)]
pub fn asked_of(
    alloc: Global,
    interface: &Interface,
    message: &Option<Msg>,
) -> Result<Asked, Failure> {
    let Some(message) = message else {
        return Ok(Asked::Nothing);
    };
    if message.payload.len() > MOST {
        return Err(Failure::Memory);
    }
    match message.kind {
        Kind::Request | Kind::LocateRequest if message.more => Ok(Asked::Pieces),
        Kind::Request => request_of(alloc, interface, message),
        Kind::LocateRequest => locate_of(alloc, message),
        _ => Ok(Asked::Other),
    }
}

#[inline(always)]
fn request_of(alloc: Global, interface: &Interface, message: &Msg) -> Result<Asked, Failure>
    requires { length message.now.payload ≤ 2 ^ 62 }
{
    let joined = SliceOctets::new(message.payload.as_slice());
    match Request::decode(alloc, interface, &joined, message.version, message.order) {
        Ok(request) => Ok(Asked::Request(request)),
        Err(fault) if is_want(fault) => Err(Failure::Memory),
        Err(fault) => Ok(Asked::Undecoded(fault)),
    }
}

fn locate_of(alloc: Global, message: &Msg) -> Result<Asked, Failure>
    requires { length message.now.payload ≤ 2 ^ 62 }
{
    let joined = SliceOctets::new(message.payload.as_slice());
    match LocateRequest::decode(alloc, &joined, message.version, message.order) {
        Ok(request) => Ok(Asked::Locate(request)),
        Err(fault) if fault.kind == CdrKind::NoMemory => Err(Failure::Memory),
        Err(fault) => Ok(Asked::Undecoded(RequestFault::Header(fault))),
    }
}

// Whether the fault is that it was out of memory.
fn is_want(fault: RequestFault) -> bool {
    match fault {
        RequestFault::Header(fault) => fault.kind == CdrKind::NoMemory,
        RequestFault::Operation => false,
        RequestFault::Body(fault) => fault.kind == CdrKind::NoMemory,
    }
}

/// The Request, where it was decoded.
pub fn request_in(asked: &Asked) -> Option<&Request> {
    match asked {
        Asked::Request(request) => Some(request),
        _ => None,
    }
}

/// Whether a message of this kind answers a call.
pub fn is_answer(kind: Kind) -> bool {
    match kind {
        Kind::Reply | Kind::LocateReply => true,
        _ => false,
    }
}

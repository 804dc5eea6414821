//! What the message that begins a call is. Its meaning is specs/Trace/Calls.antt: change both.
ghost use Rattle.std.specs.Prelude.{◌≡◌, ◌^◌, ◌≤◌, false, length, IfOk, option_copied};
ghost use Rattle.giop_msg.specs.Joined.{whole_of_joined};
ghost use Rattle.giop_msg.specs.Locate.{locate_request};
ghost use Rattle.giop_msg.specs.Messages.RequestAnswer.{IsWholeWant, request_of_joined};
ghost use Rattle.giop_trace.specs.Flows.{is_answer};
ghost use Rattle.giop_tracing.specs.Trace.Calls.{asked_locate, asked_of, asked_request, is_call, request_in};

use giop_cdr::{CdrKind, SliceOctets};
use giop_msg::{Kind, LocateRequest, Msg, Request, RequestFault};
use giop_show::failure::Failure;
use giop_types::Interface;
use std::alloc::Global;

// The most octets of a message that are decoded.
const MOST: usize = 1 << 62;

/// What a message of the client is.
#[derive(Drop)]
pub enum Asked {
    /// None came.
    Nothing,
    /// A Request or a LocateRequest, of which pieces are still to come.
    Pieces,
    /// A Request of the interface.
    Request(Request),
    /// A LocateRequest.
    Locate(LocateRequest),
    /// One of them that can't be decoded.
    Undecoded(RequestFault),
    /// A message that asks for nothing.
    Other,
}

impl Asked {
    /// Whether it begins a call.
    pub fn is_call(&self) -> bool
        ensures { result ≡ is_call self.now }
    {
        match self {
            Asked::Nothing | Asked::Other => false,
            _ => true,
        }
    }
}

/// What a message of the client is, decoded by an interface.
#[inline(always)]
pub fn asked_of(
    alloc: Global,
    interface: &Interface,
    message: &Option<Msg>,
) -> Result<Asked, Failure>
    ensures { IfOk result (λ asked. asked ≡ asked_of interface.now message.now) }
{
    let Some(message) = message else {
        return Ok(Asked::Nothing);
    };
    if message.payload.len() > MOST {
        return Err(Failure::Memory);
    }
    match message.kind {
        Kind::Request | Kind::LocateRequest if message.more => Ok(Asked::Pieces),
        Kind::Request => request_of(alloc, interface, message),
        Kind::LocateRequest => locate_of(alloc, message),
        _ => Ok(Asked::Other),
    }
}

#[inline(always)]
fn request_of(alloc: Global, interface: &Interface, message: &Msg) -> Result<Asked, Failure>
    requires { length message.now.payload ≤ 2 ^ 62 }
    ensures { IfOk result (λ asked. asked ≡ asked_request
        (request_of_joined interface.now message.now.version message.now.order
        message.now.payload)) }
{
    let joined = SliceOctets::new(message.payload.as_slice());
    match Request::decode(alloc, interface, &joined, message.version, message.order) {
        Ok(request) => Ok(Asked::Request(request)),
        Err(fault) if is_want(fault) => Err(Failure::Memory),
        Err(fault) => Ok(Asked::Undecoded(fault)),
    }
}

fn locate_of(alloc: Global, message: &Msg) -> Result<Asked, Failure>
    requires { length message.now.payload ≤ 2 ^ 62 }
    ensures { IfOk result (λ asked. asked ≡ asked_locate
        (whole_of_joined (locate_request message.now.version) message.now.order
        message.now.payload)) }
{
    let joined = SliceOctets::new(message.payload.as_slice());
    match LocateRequest::decode(alloc, &joined, message.version, message.order) {
        Ok(request) => Ok(Asked::Locate(request)),
        Err(fault) if fault.kind == CdrKind::NoMemory => Err(Failure::Memory),
        Err(fault) => Ok(Asked::Undecoded(RequestFault::Header(fault))),
    }
}

// Whether the fault is that it was out of memory.
fn is_want(fault: RequestFault) -> bool
    ensures { result ≡ false → IsWholeWant fault → ⊥ }
{
    match fault {
        RequestFault::Header(fault) => fault.kind == CdrKind::NoMemory,
        RequestFault::Operation => false,
        RequestFault::Body(fault) => fault.kind == CdrKind::NoMemory,
    }
}

/// The Request, where it was decoded.
pub fn request_in(asked: &Asked) -> Option<&Request>
    ensures { option_copied result ≡ request_in asked.now }
{
    match asked {
        Asked::Request(request) => Some(request),
        _ => None,
    }
}

/// Whether a message of this kind answers a call.
pub fn is_answer(kind: Kind) -> bool
    ensures { result ≡ is_answer kind }
{
    match kind {
        Kind::Reply | Kind::LocateReply => true,
        _ => false,
    }
}

//! Reading a whole Request (9.4.2): its head, and its body by its operation. The layout is
//! specs/Messages/Request.antt. When out of memory a second pass without memory looks for a fault,
//! so that a refusal doesn't depend on memory.
ghost use Rattle.std.specs.Prelude.{◌≡◌, ◌≤◌, ◌^◌, length, option_copied, IfOk, IfErr, IfNone, IfSome};
ghost use Rattle.giop_msg.specs.Messages.Outcome.{Checks};
ghost use Rattle.giop_msg.specs.Messages.Request.{operation_asked, request};
ghost use Rattle.giop_msg.specs.Messages.RequestAnswer.{DecodesRequest, FollowsRequest, IsRequestTold, IsWant, IsWholeWant, request_of_joined};

use crate::joined::no_memory;
use crate::messages::body::read_body;
use crate::messages::body_checking::check_body;
use crate::messages::request_fault::RequestFault;
use crate::request_head::{RequestHead, RequestHeadAt, view_head};
use crate::request_head_copying::read_head;
use crate::version::Version;
use giop_cdr::{CdrIn, CdrKind, Octets, Order};
use giop_types::{Interface, Operation, ValueList};
use std::alloc::Global;

/// A Request (CORBA 3.3 Part 2, 9.4.2): its head, and the values of its body.
#[derive(Debug, Drop)]
pub struct Request {
    /// The version, the id, the flags, the target, the operation and the contexts.
    pub head: RequestHead,
    /// The in and inout parameters of the operation, in their order.
    pub body: ValueList,
}

impl Request {
    /// The Request of an interface that joined octets are, which are as for `RequestHead::view`.
    /// The body is that of the operation's ins, behind the head. In 1.2 it is from the first
    /// multiple of 8 at or past the end of the head on, where octets before that are padding,
    /// whether all of them are there or not; before 1.2 it is at that end.
    ///
    /// Refused by the first of these that holds:
    ///
    /// - Header: at the first field of the head that is refused
    /// - Operation: the interface hasn't the operation
    /// - Body: at the first field of the ins that is refused, in reading order, or as Trailing at
    ///   the first octet that is left behind them
    ///
    /// When out of memory for the head or for the body, and nothing is refused, it is NoMemory at
    /// 12 of that part.
    pub fn decode<S: Octets>(
        alloc: Global,
        interface: &Interface,
        octets: &S,
        version: Version,
        order: Order,
    ) -> Result<Request, RequestFault>
        requires { length (S.octets octets.now) ≤ 2 ^ 62 }
        // What is returned is what the octets spell, and what they spell is returned.
        ensures found { IfOk result (λ q.
            (request interface.now version).spells order 12 q (S.octets octets.now)) }
        ensures only { (q : _)
            → (request interface.now version).spells order 12 q (S.octets octets.now)
            → IsRequestTold result q }

        // Which refusal it is.
        ensures exact { DecodesRequest result
            (request_of_joined interface.now version order (S.octets octets.now)) }
    {
        decode_request(alloc, interface, octets, version, order)
    }
}

// Reads the Request in one pass where all goes well. Out of memory is reported last: a second pass,
// which takes no memory, looks for a fault first.
fn decode_request<S: Octets>(
    alloc: Global,
    interface: &Interface,
    octets: &S,
    version: Version,
    order: Order,
) -> Result<Request, RequestFault>
    requires { length (S.octets octets.now) ≤ 2 ^ 62 }
    ensures { DecodesRequest result
        (request_of_joined interface.now version order (S.octets octets.now)) }
{
    let read = read_request(alloc, interface, octets, version, order);
    // Returned as it lies: to move a Request takes a part of the time of its reading.
    let Some(want) = want_in(&read) else {
        return read;
    };
    check_request(interface, octets, version, order)?;
    Err(want)
}

// Out of memory as it is reported, where it is what was read; else None.
fn want_in(read: &Result<Request, RequestFault>) -> Option<RequestFault>
    ensures some { IfSome result IsWholeWant }
    ensures none { IfNone result (IfErr read.now (λ fault. IsWant fault → ⊥)) }
{
    match read {
        Ok(_) => None,
        Err(fault) => want_of(*fault),
    }
}

// Out of memory as it is reported, at offset 12, where a fault is that; else None.
fn want_of(fault: RequestFault) -> Option<RequestFault>
    ensures some { IfSome result IsWholeWant }
    ensures none { IfNone result (IsWant fault → ⊥) }
{
    match fault {
        RequestFault::Header(fault) if fault.kind == CdrKind::NoMemory => {
            Some(RequestFault::Header(no_memory()))
        }
        RequestFault::Body(fault) if fault.kind == CdrKind::NoMemory => {
            Some(RequestFault::Body(no_memory()))
        }
        _ => None,
    }
}

// Reads the head, finds its operation, and reads the body by that.
#[tactic(auto, unfolding(crate::specs::Messages::Request::request_body, crate::specs::Messages::RequestAnswer::request_of_joined, giop_cdr::specs::Ending::made_of))]
fn read_request<S: Octets>(
    alloc: Global,
    interface: &Interface,
    octets: &S,
    version: Version,
    order: Order,
) -> Result<Request, RequestFault>
    requires { length (S.octets octets.now) ≤ 2 ^ 62 }
    ensures { FollowsRequest result
        (request_of_joined interface.now version order (S.octets octets.now)) }
{
    let mut input = CdrIn::new(octets, order, 12);
    let head = match read_head(alloc, version, &mut input) {
        Ok(head) => head,
        Err(fault) => return Err(RequestFault::Header(fault)),
    };
    let Some(operation) = head.operation_asked(interface) else {
        return Err(RequestFault::Operation);
    };
    match read_body(alloc, version, operation.ins.as_slice(), &mut input) {
        Ok(body) => Ok(Request { head, body }),
        Err(fault) => Err(RequestFault::Body(fault)),
    }
}

// The operation that a head asks for, which lies where it was read.
fn operation_at<'a, S: Octets>(
    interface: &'a Interface,
    head: &RequestHeadAt<S>,
) -> Option<&'a Operation>
    ensures { option_copied result ≡ operation_asked interface.now head.now }
{
    head.target
        .offer_among(interface)
        .operation_at(&head.operation)
}

// The fault of the octets that `read_request` would report if memory were there; none where they
// are a Request.
#[tactic(auto, unfolding(crate::specs::Messages::Request::request_body, crate::specs::Messages::RequestAnswer::request_of_joined, giop_cdr::specs::Ending::made_of))]
fn check_request<S: Octets>(
    interface: &Interface,
    octets: &S,
    version: Version,
    order: Order,
) -> Result<(), RequestFault>
    requires { length (S.octets octets.now) ≤ 2 ^ 62 }
    ensures { Checks result
        (request_of_joined interface.now version order (S.octets octets.now)) }
{
    let mut passed = CdrIn::new(octets, order, 12);
    let head = match view_head(version, &mut passed) {
        Ok(head) => head,
        Err(fault) => return Err(RequestFault::Header(fault)),
    };
    let Some(operation) = operation_at(interface, &head) else {
        return Err(RequestFault::Operation);
    };
    match check_body(version, operation.ins.as_slice(), &mut passed) {
        Ok(()) => Ok(()),
        Err(fault) => Err(RequestFault::Body(fault)),
    }
}

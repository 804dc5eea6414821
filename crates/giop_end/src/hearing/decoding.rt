//! What a message of a client comes to, once its last piece is there: a Request or a LocateRequest
//! (CORBA 3.3 Part 2, 9.4.2 and 9.4.5), or why it can't be decoded. Its meaning is `heard_call` in
//! specs/Hearing/Decoding.antt: change both.
ghost use Rattle.std.specs.Prelude.{◌≡◌, ◌≤◌, ◌^◌, length, IfSome, true, false};
ghost use Rattle.giop_msg.specs.Joined.{whole_of_joined};
ghost use Rattle.giop_msg.specs.Locate.{locate_request};
ghost use Rattle.giop_msg.specs.Messages.RequestAnswer.{IsWant, request_of_joined};
ghost use Rattle.giop_end.specs.Hearing.Decoding.{expected, heard_call, heard_locate_by, heard_request_by, undecoded};

use giop_calls::{Aside, CallKind, HeardCall, UndecodedCall, with_target_aside};
use giop_cdr::{CdrKind, Octets, Order};
use giop_msg::{LocateRequest, Request, RequestFault, RequestHead, Version};
use giop_types::Interface;
use std::alloc::Global;

/// What the joined octets of a message of a client come to: a Request or a LocateRequest, or one
/// that can't be decoded. `None` where it is out of memory.
pub fn heard_call<S: Octets>(
    alloc: Global,
    interface: &Interface,
    kind: CallKind,
    version: Version,
    order: Order,
    joined: &S,
) -> Option<HeardCall>
    requires { length (S.octets joined.now) ≤ 2 ^ 62 }
    ensures { IfSome result (λ call.
        call ≡ heard_call interface.now kind version order (S.octets joined.now)) }
{
    match kind {
        CallKind::Request => heard_request(alloc, interface, version, order, joined),
        CallKind::Locate => heard_locate(alloc, version, order, joined),
    }
}

fn heard_request<S: Octets>(
    alloc: Global,
    interface: &Interface,
    version: Version,
    order: Order,
    joined: &S,
) -> Option<HeardCall>
    requires { length (S.octets joined.now) ≤ 2 ^ 62 }
    ensures { IfSome result (λ call. call
        ≡ heard_request_by version (expected version order (S.octets joined.now))
        (request_of_joined interface.now version order (S.octets joined.now))) }
{
    match Request::decode(alloc, interface, joined, version, order) {
        Ok(request) => Some(HeardCall::Request(Aside::new(alloc, request).ok()?)),
        Err(fault) if is_want(fault) => None,
        Err(fault) => Some(undecoded_call(version, expected_answer(version, order, joined), fault)),
    }
}

fn heard_locate<S: Octets>(
    alloc: Global,
    version: Version,
    order: Order,
    joined: &S,
) -> Option<HeardCall>
    requires { length (S.octets joined.now) ≤ 2 ^ 62 }
    ensures { IfSome result (λ call. call ≡ heard_locate_by version
        (whole_of_joined (locate_request version) order (S.octets joined.now))) }
{
    match LocateRequest::decode(alloc, joined, version, order) {
        Ok(request) => Some(HeardCall::Locate(with_target_aside(alloc, request).ok()?)),
        Err(fault) if fault.kind == CdrKind::NoMemory => None,
        Err(fault) => {
            let fault = RequestFault::Header(fault);
            Some(undecoded_call(version, Some(CallKind::Locate), fault))
        }
    }
}

fn undecoded_call(version: Version, expects: Option<CallKind>, fault: RequestFault) -> HeardCall
    ensures { result ≡ undecoded version expects fault }
{
    HeardCall::Undecoded(UndecodedCall {
        version,
        expects,
        fault,
    })
}

// Whether the fault is that it was out of memory.
fn is_want(fault: RequestFault) -> bool
    ensures yes { result ≡ true → IsWant fault }
    ensures no { result ≡ false → IsWant fault → ⊥ }
{
    match fault {
        RequestFault::Header(fault) => fault.kind == CdrKind::NoMemory,
        RequestFault::Operation => false,
        RequestFault::Body(fault) => fault.kind == CdrKind::NoMemory,
    }
}

// Which reply a Request expects, by its head; where that can't be read, a Reply.
fn expected_answer<S: Octets>(version: Version, order: Order, joined: &S) -> Option<CallKind>
    requires { length (S.octets joined.now) ≤ 2 ^ 62 }
    ensures { result ≡ expected version order (S.octets joined.now) }
{
    match RequestHead::view(joined, version, order) {
        Ok((head, _)) if head.flags == 0 => None,
        _ => Some(CallKind::Request),
    }
}

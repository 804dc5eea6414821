//! What a message of a server comes to, once its last piece is there: a Reply or a LocateReply
//! (CORBA 3.3 Part 2, 9.4.3 and 9.4.6), or why it can't be decoded. Its meaning is `heard_reply` in
//! specs/Hearing/ClientHears.antt: change both.
ghost use Rattle.std.specs.Prelude.{◌≡◌, ◌≤◌, ◌^◌, length, IfSome, Some};
ghost use Rattle.giop_msg.specs.Joined.{joined_from};
ghost use Rattle.giop_msg.specs.Messages.LocateReply.{locate_reply};
ghost use Rattle.giop_msg.specs.Messages.Reply.{reply};
ghost use Rattle.giop_end.specs.Hearing.ClientHears.{heard_located_by, heard_reply, heard_reply_by};

use giop_calls::{Aside, Call, HeardReply};
use giop_cdr::{CdrKind, Octets, Order};
use giop_msg::{LocateReply, Reply, Request, Version};
use giop_types::Interface;
use std::alloc::Global;

/// What the joined octets of a message come to that answers a call: a Reply to its Request or a
/// LocateReply to its LocateRequest, or one that can't be decoded. `None` where it is out of
/// memory.
pub fn heard_reply<S: Octets>(
    alloc: Global,
    interface: &Interface,
    call: &Call,
    version: Version,
    order: Order,
    joined: &S,
) -> Option<HeardReply>
    requires { length (S.octets joined.now) ≤ 2 ^ 62 }
    ensures { IfSome result (λ heard.
        heard ≡ heard_reply interface.now call.now version order (S.octets joined.now)) }
{
    match call {
        Call::Request(request) => {
            heard_request_reply(alloc, interface, request, version, order, joined)
        }
        Call::Locate(_) => heard_located(alloc, version, order, joined),
    }
}

fn heard_request_reply<S: Octets>(
    alloc: Global,
    interface: &Interface,
    request: &Request,
    version: Version,
    order: Order,
    joined: &S,
) -> Option<HeardReply>
    requires { length (S.octets joined.now) ≤ 2 ^ 62 }
    ensures { IfSome result (λ heard. heard ≡ heard_reply_by
        ((reply interface.now (Some request.now) version).read
        (joined_from order (S.octets joined.now)))) }
{
    match Reply::decode(alloc, interface, Some(request), joined, version, order) {
        Ok(reply) => Some(HeardReply::Reply(Aside::new(alloc, reply).ok()?)),
        Err(fault) if fault.kind == CdrKind::NoMemory => None,
        Err(fault) => Some(HeardReply::Undecoded(fault)),
    }
}

fn heard_located<S: Octets>(
    alloc: Global,
    version: Version,
    order: Order,
    joined: &S,
) -> Option<HeardReply>
    requires { length (S.octets joined.now) ≤ 2 ^ 62 }
    ensures { IfSome result (λ heard. heard ≡ heard_located_by
        ((locate_reply version).read (joined_from order (S.octets joined.now)))) }
{
    match LocateReply::decode(alloc, joined, version, order) {
        Ok(reply) => Some(HeardReply::Locate(reply)),
        Err(fault) if fault.kind == CdrKind::NoMemory => None,
        Err(fault) => Some(HeardReply::Undecoded(fault)),
    }
}

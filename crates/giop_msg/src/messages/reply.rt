//! Reading a whole Reply (9.4.3): its head, and its body by its status. The layout is
//! specs/Messages/Reply.antt. When out of memory a second pass without memory looks for a fault, so
//! that a refusal doesn't depend on memory.
#![tactic(auto, unfolding(crate::specs::Messages::Reply::reply, crate::specs::Messages::Reply::allowed, giop_cdr::specs::Ending::nothing, giop_cdr::specs::Ending::leads, giop_cdr::specs::Ending::made_of))]

ghost use Rattle.std.specs.Prelude.{◌≡◌, ◌≤◌, ◌^◌, false, length, IfErr};
ghost use Rattle.std.specs.Option.{option_copied};
ghost use Rattle.giop_msg.specs.Joined.{joined_from};
ghost use Rattle.giop_msg.specs.Messages.Outcome.{Checks, Decodes, DecodesMessage, FollowsToEnd};
ghost use Rattle.giop_msg.specs.Messages.Reply.{reply};

use crate::joined::no_memory;
use crate::messages::reply_body::ReplyBody;
use crate::messages::reply_checking::check_reply_body;
use crate::messages::reply_reading::{may_answer, offer_for, outs_for, read_reply_body};
use crate::messages::request::Request;
use crate::reply_head::{read_head, view_head};
use crate::service_contexts::ServiceContexts;
use crate::version::Version;
use giop_cdr::{CdrFault, CdrIn, CdrKind, Octets, Order};
use giop_types::Interface;
use std::alloc::Global;

/// A Reply (CORBA 3.3 Part 2, 9.4.3).
#[derive(Debug, Drop)]
pub struct Reply {
    /// The version in which it is laid out: that of its request.
    pub version: Version,
    /// The id of the request that is answered.
    pub id: u32,
    /// The service contexts, in their order.
    pub contexts: ServiceContexts,
    /// What is answered; its number is the status.
    pub body: ReplyBody,
}

impl Reply {
    /// The Reply to a Request of an interface that joined octets are, which are as for
    /// `RequestHead::view`. The body is where that of a Request is, and by the status:
    ///
    /// - 0: the operation's outs, and none where the flags of the request are 1
    /// - 1: the id of an exception of the interface, and its members
    /// - 2: an id, a minor code and a completion
    /// - 3 and 4: a reference
    /// - 5: a short
    ///
    /// Without a request, as where it could not be decoded, it is of status 2.
    ///
    /// Refused as the first field that is refused, in reading order, each as its own reader says. A
    /// status or a completion that there isn't is BadLabel, and so is an id of an exception that
    /// the interface hasn't. A status other than 2 without a request is BadLabel at the end of the
    /// head. Octets that are left are Trailing at the first of them. It is NoMemory at 12 when out
    /// of memory, where nothing is refused.
    pub fn decode<S: Octets>(
        alloc: Global,
        interface: &Interface,
        request: Option<&Request>,
        octets: &S,
        version: Version,
        order: Order,
    ) -> Result<Reply, CdrFault>
        requires { length (S.octets octets.now) ≤ 2 ^ 62 }
        ensures { DecodesMessage (reply interface.now (option_copied request.entry) version) order
            (S.octets octets.now) result }
    {
        decode_reply(alloc, interface, request, octets, version, order)
    }
}

// Reads the Reply in one pass where all goes well. Out of memory is reported last: a second pass,
// which takes no memory, looks for a fault first.
fn decode_reply<S: Octets>(
    alloc: Global,
    interface: &Interface,
    request: Option<&Request>,
    octets: &S,
    version: Version,
    order: Order,
) -> Result<Reply, CdrFault>
    requires { length (S.octets octets.now) ≤ 2 ^ 62 }
    ensures { Decodes result
        ((reply interface.now (option_copied request.entry) version).read
        (joined_from order (S.octets octets.now))) }
{
    let read = read_reply(alloc, interface, request, octets, version, order);
    // Returned as it lies: to move a Reply takes a part of the time of its reading.
    if !is_want(&read) {
        return read;
    }
    check_reply(interface, request, octets, version, order)?;
    Err(no_memory())
}

// Whether it was out of memory.
fn is_want(read: &Result<Reply, CdrFault>) -> bool
    ensures { result ≡ false → IfErr read.now (λ fault. fault.kind ≡ CdrKind.NoMemory → ⊥) }
{
    match read {
        Ok(_) => false,
        Err(fault) => fault.kind == CdrKind::NoMemory,
    }
}

// Reads the head, and the body by its status.
fn read_reply<S: Octets>(
    alloc: Global,
    interface: &Interface,
    request: Option<&Request>,
    octets: &S,
    version: Version,
    order: Order,
) -> Result<Reply, CdrFault>
    requires { length (S.octets octets.now) ≤ 2 ^ 62 }
    ensures { FollowsToEnd result
        ((reply interface.now (option_copied request.entry) version).read
        (joined_from order (S.octets octets.now))) }
{
    let mut input = CdrIn::new(octets, order, 12);
    let head = read_head(alloc, version, &mut input)?;
    if !may_answer(request, head.status) {
        return Err(CdrFault {
            at: input.position(),
            kind: CdrKind::BadLabel,
        });
    }
    let outs = outs_for(interface, request);
    let offer = offer_for(interface, request);
    match read_reply_body(alloc, version, offer, outs, head.status, &mut input) {
        Ok(body) => Ok(Reply {
            version: head.version,
            id: head.id,
            contexts: head.contexts,
            body,
        }),
        Err(fault) => Err(fault),
    }
}

// The fault of the octets that `read_reply` would report if memory were there; none where they are
// a Reply.
fn check_reply<S: Octets>(
    interface: &Interface,
    request: Option<&Request>,
    octets: &S,
    version: Version,
    order: Order,
) -> Result<(), CdrFault>
    requires { length (S.octets octets.now) ≤ 2 ^ 62 }
    ensures { Checks result
        ((reply interface.now (option_copied request.entry) version).read
        (joined_from order (S.octets octets.now))) }
{
    let mut input = CdrIn::new(octets, order, 12);
    let head = view_head(version, &mut input)?;
    if !may_answer(request, head.status) {
        return Err(CdrFault {
            at: input.position(),
            kind: CdrKind::BadLabel,
        });
    }
    let outs = outs_for(interface, request);
    let offer = offer_for(interface, request);
    check_reply_body(version, offer, outs, head.status, &mut input)
}

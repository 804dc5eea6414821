//! What the answer of a call is. Its meaning is specs/Trace/Calls.antt: change both.
ghost use Rattle.std.specs.Prelude.{◌≡◌, ◌^◌, ◌≤◌, length, IfOk, option_copied};
ghost use Rattle.giop_cdr.specs.Layout.{text};
ghost use Rattle.giop_msg.specs.Joined.{head_of_joined, joined_from, right_behind};
ghost use Rattle.giop_msg.specs.Locate.{locate_reply_head};
ghost use Rattle.giop_msg.specs.Messages.Reply.{reply};
ghost use Rattle.giop_tracing.specs.Trace.Calls.{answered_by, answered_located, answered_reply, body_at, exception_of, read_text};

use giop_cdr::{CdrFault, CdrIn, CdrKind, OctetList, SliceOctets};
use giop_msg::{Kind, LocateReplyHead, Msg, Reply, ReplyHead, Request};
use giop_show::failure::Failure;
use giop_types::Interface;
use std::alloc::Global;

// The most octets of a message that are decoded.
const MOST: usize = 1 << 62;

/// What a message of the server is.
#[derive(Drop)]
pub enum Answered {
    /// A Reply or a LocateReply, of which pieces are still to come.
    Pieces,
    /// A Reply.
    Reply(Reply),
    /// A LocateReply, of this status.
    Located(u32),
    /// One of them that can't be decoded.
    Undecoded {
        /// Why, and where.
        fault: CdrFault,
        /// The repository id of its user exception, where it has one that can be read.
        exception: Option<OctetList>,
    },
    /// A message that answers nothing.
    Other,
}

/// What a message of the server is, decoded by an interface and the Request that it answers, where
/// that was decoded.
#[inline(always)]
pub fn answered_by(
    alloc: Global,
    interface: &Interface,
    request: Option<&Request>,
    message: &Msg,
) -> Result<Answered, Failure>
    ensures { IfOk result (λ answered. answered
        ≡ answered_by interface.now (option_copied request.entry) message.now) }
{
    if message.payload.len() > MOST {
        return Err(Failure::Memory);
    }
    match message.kind {
        Kind::Reply | Kind::LocateReply if message.more => Ok(Answered::Pieces),
        Kind::Reply => reply_in(alloc, interface, request, message),
        Kind::LocateReply => located_in(message),
        _ => Ok(Answered::Other),
    }
}

#[inline(always)]
fn reply_in(
    alloc: Global,
    interface: &Interface,
    request: Option<&Request>,
    message: &Msg,
) -> Result<Answered, Failure>
    requires { length message.now.payload ≤ 2 ^ 62 }
    ensures { IfOk result (λ answered. answered ≡ answered_reply message.now
        ((reply interface.now (option_copied request.entry) message.now.version).read
        (joined_from message.now.order message.now.payload))) }
{
    let joined = SliceOctets::new(message.payload.as_slice());
    let (version, order) = (message.version, message.order);
    match Reply::decode(alloc, interface, request, &joined, version, order) {
        Ok(reply) => Ok(Answered::Reply(reply)),
        Err(fault) if fault.kind == CdrKind::NoMemory => Err(Failure::Memory),
        Err(fault) => {
            let exception = exception_in(alloc, message)?;
            Ok(Answered::Undecoded { fault, exception })
        }
    }
}

fn located_in(message: &Msg) -> Result<Answered, Failure>
    requires { length message.now.payload ≤ 2 ^ 62 }
    ensures { IfOk result (λ answered. answered ≡ answered_located
        (head_of_joined (locate_reply_head message.now.version) right_behind message.now.order
        message.now.payload)) }
{
    let joined = SliceOctets::new(message.payload.as_slice());
    match LocateReplyHead::view(&joined, message.version, message.order) {
        Ok((head, _)) => Ok(Answered::Located(head.status)),
        Err(fault) => Ok(Answered::Undecoded {
            fault,
            exception: None,
        }),
    }
}

// The repository id of a Reply's user exception, if it can be read.
fn exception_in(alloc: Global, message: &Msg) -> Result<Option<OctetList>, Failure>
    requires { length message.now.payload ≤ 2 ^ 62 }
    ensures { IfOk result (λ exception. exception ≡ exception_of message.now) }
{
    let joined = SliceOctets::new(message.payload.as_slice());
    match ReplyHead::view(&joined, message.version, message.order) {
        Ok((head, place)) if head.status == 1 => exception_behind(alloc, message, place),
        _ => Ok(None),
    }
}

// The text with which the body begins that stands at an offset of the joined octets.
#[tactic(auto, unfolding(giop_cdr::specs::Layout::text), using(crate::proofs::IncomingLemmas::none_past))]
fn exception_behind(
    alloc: Global,
    message: &Msg,
    place: usize,
) -> Result<Option<OctetList>, Failure>
    requires { length message.now.payload ≤ 2 ^ 62 }
    ensures { IfOk result (λ exception.
        exception ≡ read_text (text.read (body_at message.now place))) }
{
    let octets = message.payload.as_slice();
    let body = octets.get(place.saturating_sub(12)..).unwrap_or(&[]);
    let body = SliceOctets::new(body);
    let mut input = CdrIn::new(&body, message.order, place % 8);
    match input.read_string(alloc, 0) {
        Ok(exception) => Ok(Some(OctetList::from(exception))),
        Err(fault) if fault.kind == CdrKind::NoMemory => Err(Failure::Memory),
        Err(_) => Ok(None),
    }
}

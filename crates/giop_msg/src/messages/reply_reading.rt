//! Reading the body of a Reply, by its status (9.4.3.1). The layout is specs/Messages/Reply.antt;
//! reply_checking.rt refuses the same octets without memory: change them together.
#![tactic(auto, unfolding(crate::specs::Messages::Reply::completion, crate::specs::Messages::Reply::no_exception, crate::specs::Messages::Reply::user_exception, crate::specs::Messages::Reply::system_exception, crate::specs::Messages::Reply::forward, crate::specs::Messages::Reply::needs_addressing, crate::specs::Messages::Reply::reply_body, crate::specs::Messages::Body::values, giop_cdr::specs::Layout::field, giop_cdr::specs::Layout::such, giop_cdr::specs::Layout::number, giop_cdr::specs::Layout::signed, giop_cdr::specs::Layout::text, giop_cdr::specs::Layout::gives, giop_cdr::specs::Layout::chosen, giop_cdr::specs::Reading::Values::such_at))]

ghost use Rattle.std.specs.Prelude.{◌≡◌, Some};
ghost use Rattle.std.specs.Option.{option_copied};
ghost use Rattle.giop_cdr.specs.Reading.Outcome.{Exactly, Follows};
ghost use Rattle.giop_cdr.specs.declared.fault.CdrKind.TheVariants.{BadLabel};
ghost use Rattle.giop_cdr.specs.Ending.{ended};
ghost use Rattle.giop_cdr.specs.Layout.{such, text};
ghost use Rattle.giop_msg.specs.Messages.Body.{body_of};
ghost use Rattle.giop_msg.specs.Messages.Outcome.{FollowsToEnd};
ghost use Rattle.giop_msg.specs.Messages.Reply.{completion, exception_in, forward, is_known, listed, may_answer, needs_addressing, no_exception, offer_for, outs_for, reply_body, system_exception, user_exception};
ghost use Rattle.giop_msg.specs.declared.messages.reply_body.ReplyBody.TheVariants.{Forward, ForwardPerm};

use crate::joined::no_memory;
use crate::messages::body::{align_body, read_values};
use crate::messages::completion::Completion;
use crate::messages::reply_body::ReplyBody;
use crate::messages::request::Request;
use crate::version::Version;
use giop_cdr::{CdrFault, CdrIn, CdrKind, OctetList, Octets};
use giop_ior::read_ior;
use giop_types::{Interface, Offer, Parameter};
use std::alloc::Global;

// Reads the outs of an operation.
fn read_no_exception<S: Octets>(
    alloc: Global,
    outs: &[Parameter],
    input: &mut CdrIn<S>,
) -> Result<ReplyBody, CdrFault>
    ensures { Follows (λ body. body) result input.new ((no_exception outs.now).read input.old) }
{
    match read_values(alloc, outs, input) {
        Ok(values) => Ok(ReplyBody::NoException(values)),
        Err(fault) => Err(fault),
    }
}

/// Reads whether the operation was completed.
pub fn read_completion<S: Octets>(input: &mut CdrIn<S>) -> Result<Completion, CdrFault>
    ensures { Exactly result input.new (completion.read input.old) }
{
    let at = input.place::<4>();
    match input.read_ulong()? {
        0 => Ok(Completion::Yes),
        1 => Ok(Completion::No),
        2 => Ok(Completion::Maybe),
        _ => Err(CdrFault {
            at,
            kind: CdrKind::BadLabel,
        }),
    }
}

// Reads an exception of the broker.
fn read_system_exception<S: Octets>(
    alloc: Global,
    input: &mut CdrIn<S>,
) -> Result<ReplyBody, CdrFault>
    ensures { Follows (λ body. body) result input.new (system_exception.read input.old) }
{
    let id = input.view_string(0)?;
    let minor = input.read_ulong()?;
    let completion = read_completion(input)?;
    let Ok(id) = id.to_list(alloc) else {
        return Err(no_memory());
    };
    Ok(ReplyBody::SystemException {
        id,
        minor,
        completion,
    })
}

// Reads the disposition in which the target has to be addressed.
fn read_needs_addressing<S: Octets>(input: &mut CdrIn<S>) -> Result<ReplyBody, CdrFault>
    ensures { Follows (λ body. body) result input.new (needs_addressing.read input.old) }
{
    let disposition = input.read_short()?;
    Ok(ReplyBody::NeedsAddressing(disposition))
}

// Reads a reference: where the object is, for this request.
fn read_forward<S: Octets>(alloc: Global, input: &mut CdrIn<S>) -> Result<ReplyBody, CdrFault>
    ensures { Follows (λ body. body) result input.new
        ((forward (λ ior. Forward ior)).read input.old) }
{
    let ior = read_ior(alloc, input)?;
    Ok(ReplyBody::Forward(ior))
}

// Reads a reference: where the object is from now on.
fn read_forward_perm<S: Octets>(alloc: Global, input: &mut CdrIn<S>) -> Result<ReplyBody, CdrFault>
    ensures { Follows (λ body. body) result input.new
        ((forward (λ ior. ForwardPerm ior)).read input.old) }
{
    let ior = read_ior(alloc, input)?;
    Ok(ReplyBody::ForwardPerm(ior))
}

// Reads the id of an exception, which the object must offer.
fn read_exception_id<S: Octets>(
    alloc: Global,
    offer: &Offer,
    input: &mut CdrIn<S>,
) -> Result<OctetList, CdrFault>
    ensures { Follows (λ id. id) result input.new
        ((such (λ id. is_known (exception_in offer.now id)) 4 BadLabel text).read input.old) }
{
    let at = input.place::<4>();
    let id = input.view_string(0)?;
    let Ok(id) = id.to_list(alloc) else {
        return Err(no_memory());
    };
    if !is_known(offer, id.as_slice()) {
        return Err(CdrFault {
            at,
            kind: CdrKind::BadLabel,
        });
    }
    Ok(id)
}

/// Whether an object offers an exception of this id.
pub fn is_known(offer: &Offer, id: &[u8]) -> bool
    ensures { result ≡ is_known (exception_in offer.now id.now) }
{
    match offer.exception(id) {
        Some(_) => true,
        None => false,
    }
}

/// The members of the exception of this id; none where the object doesn't offer it.
pub fn members_of<'a>(offer: &'a Offer, id: &[u8]) -> &'a [Parameter]
    ensures { result.now ≡ listed (exception_in offer.now id.now) }
{
    match offer.exception(id) {
        Some(members) => members.as_slice(),
        None => &[],
    }
}

// Reads an exception that an object offers: its id, and its members.
fn read_user_exception<S: Octets>(
    alloc: Global,
    offer: &Offer,
    input: &mut CdrIn<S>,
) -> Result<ReplyBody, CdrFault>
    ensures { Follows (λ body. body) result input.new
        ((user_exception offer.now).read input.old) }
{
    let id = match read_exception_id(alloc, offer, input) {
        Ok(id) => id,
        Err(fault) => return Err(fault),
    };
    match read_values(alloc, members_of(offer, id.as_slice()), input) {
        Ok(members) => Ok(ReplyBody::UserException { id, members }),
        Err(fault) => Err(fault),
    }
}

// Reads a body, by its status.
fn read_by_status<S: Octets>(
    alloc: Global,
    offer: &Offer,
    outs: &[Parameter],
    status: u32,
    input: &mut CdrIn<S>,
) -> Result<ReplyBody, CdrFault>
    ensures { Follows (λ body. body) result input.new
        ((reply_body offer.now outs.now status).read input.old) }
{
    match status {
        0 => read_no_exception(alloc, outs, input),
        1 => read_user_exception(alloc, offer, input),
        2 => read_system_exception(alloc, input),
        3 => read_forward(alloc, input),
        4 => read_forward_perm(alloc, input),
        _ => read_needs_addressing(input),
    }
}

// Reads a body, and refuses what is left behind it.
#[tactic(auto, unfolding(giop_cdr::specs::Ending::ended))]
fn read_last<S: Octets>(
    alloc: Global,
    offer: &Offer,
    outs: &[Parameter],
    status: u32,
    input: &mut CdrIn<S>,
) -> Result<ReplyBody, CdrFault>
    ensures { FollowsToEnd result
        ((ended (reply_body offer.now outs.now status)).read input.old) }
{
    let body = match read_by_status(alloc, offer, outs, status, input) {
        Ok(body) => body,
        Err(fault) => return Err(fault),
    };
    if input.remaining() > 0 {
        return Err(CdrFault {
            at: input.position(),
            kind: CdrKind::Trailing,
        });
    }
    Ok(body)
}

/// Reads the body behind a head, by the status of the head. `input` is at the end of that head.
#[tactic(auto, using(crate::proofs::WholeMessages::BodyLemmas::body_read))]
pub fn read_reply_body<S: Octets>(
    alloc: Global,
    version: Version,
    offer: &Offer,
    outs: &[Parameter],
    status: u32,
    input: &mut CdrIn<S>,
) -> Result<ReplyBody, CdrFault>
    ensures { FollowsToEnd result
        ((body_of version (ended (reply_body offer.now outs.now status))).read input.old) }
{
    align_body(version, input);
    read_last(alloc, offer, outs, status, input)
}

/// The outs that a reply to a request has where there is no exception: none where the flags of the
/// request are 1, or where it could not be decoded.
pub fn outs_for<'a>(interface: &'a Interface, request: Option<&Request>) -> &'a [Parameter]
    ensures { result.now ≡ outs_for interface.now (option_copied request.entry) }
{
    match request {
        Some(request) => outs_of(interface, request),
        None => &[],
    }
}

// The outs of the operation of a request; none where its flags are 1.
fn outs_of<'a>(interface: &'a Interface, request: &Request) -> &'a [Parameter]
    ensures { result.now ≡ outs_for interface.now (Some request.now) }
{
    if request.head.flags == 1 {
        return &[];
    }
    match request.head.operation_asked(interface) {
        Some(operation) => operation.outs.as_slice(),
        None => &[],
    }
}

/// What the object offers that a request asked; where it could not be decoded, what is general.
pub fn offer_for<'a>(interface: &'a Interface, request: Option<&Request>) -> &'a Offer
    ensures { result.now ≡ offer_for interface.now (option_copied request.entry) }
{
    match request {
        Some(request) => request.head.target.offer_in(interface),
        None => interface.general(),
    }
}

/// Whether a reply of this status may answer a request: one that could not be decoded is answered
/// by SYSTEM_EXCEPTION alone.
pub fn may_answer(request: Option<&Request>, status: u32) -> bool
    ensures { result ≡ may_answer (option_copied request.entry) status }
{
    match request {
        Some(_) => true,
        None => status == 2,
    }
}

//! What the bodies of Requests and Replies hold, as the text of lines: values as JSON, each by its
//! description, and the reference that a Reply forwards to. It is specs/Bodies.antt: change both.
ghost use Rattle.std.specs.Prelude.{◌≡◌, map, IfOk};
ghost use Rattle.std.specs.String.{string_bytes};
ghost use Rattle.giop_types.specs.Values.Views.{value_view};
ghost use Rattle.giop_json.specs.ValuesText.{values_text};
ghost use Rattle.giop_msg.specs.Messages.Reply.{exception_in, listed, outs_of};
ghost use Rattle.giop_msg.specs.Messages.Request.{operation_asked};
ghost use Rattle.giop_show.specs.Bodies.{brought_by, forward_text, request_ins};

use giop_cdr::{EncodeFault, OctetList};
use giop_ior::{Ior, ior_to_text};
use giop_json::{NumberForm, values_to_text};
use giop_msg::{ReplyBody, Request};
use giop_types::{Interface, Offer, Value};
use percent_encoding::ascii_str;
use std::alloc::{AllocError, Global};

/// The ins of a Request, as a JSON list.
pub fn request_ins(
    alloc: Global,
    numbers: NumberForm,
    interface: &Interface,
    request: &Request,
) -> Result<String, AllocError>
    ensures { IfOk result (λ text. string_bytes text ≡ request_ins numbers interface.now request.now) }
{
    let values = request.body.as_slice();
    match request.head.operation_asked(interface) {
        Some(operation) => values_to_text(alloc, numbers, operation.ins.as_slice(), values),
        None => values_to_text(alloc, numbers, &[], values),
    }
}

/// What a Reply to a Request brought, as text; empty where its status has no values.
pub fn brought_by(
    alloc: Global,
    numbers: NumberForm,
    interface: &Interface,
    request: &Request,
    body: &ReplyBody,
) -> Result<String, AllocError>
    ensures { IfOk result (λ text. string_bytes text
        ≡ brought_by numbers interface.now request.now body.now) }
{
    match body {
        ReplyBody::NoException(outs) => outs_text(
            alloc,
            numbers,
            interface,
            request,
            outs.as_slice(),
        ),
        ReplyBody::UserException { id, members } => {
            let offer = request.head.target.offer_in(interface);
            members_text(alloc, numbers, offer, id, members.as_slice())
        }
        ReplyBody::SystemException { .. } => Ok(String::new(alloc)),
        ReplyBody::Forward(ior) => forward_text(alloc, ior),
        ReplyBody::ForwardPerm(ior) => forward_text(alloc, ior),
        ReplyBody::NeedsAddressing(_) => Ok(String::new(alloc)),
    }
}

fn outs_text(
    alloc: Global,
    numbers: NumberForm,
    interface: &Interface,
    request: &Request,
    values: &[Value],
) -> Result<String, AllocError>
    ensures { IfOk result (λ text. string_bytes text ≡ values_text numbers
        (outs_of (operation_asked interface.now request.now.head))
        (map value_view values.now)) }
{
    match request.head.operation_asked(interface) {
        Some(operation) => values_to_text(alloc, numbers, operation.outs.as_slice(), values),
        None => values_to_text(alloc, numbers, &[], values),
    }
}

fn members_text(
    alloc: Global,
    numbers: NumberForm,
    offer: &Offer,
    id: &OctetList,
    values: &[Value],
) -> Result<String, AllocError>
    ensures { IfOk result (λ text. string_bytes text ≡ values_text numbers
        (listed (exception_in offer.now id.now)) (map value_view values.now)) }
{
    match offer.exception(id.as_slice()) {
        Some(members) => values_to_text(alloc, numbers, members.as_slice(), values),
        None => values_to_text(alloc, numbers, &[], values),
    }
}

/// The text of the reference that a Reply forwards to.
pub fn forward_text(alloc: Global, ior: &Ior) -> Result<String, AllocError>
    ensures { IfOk result (λ text. string_bytes text ≡ forward_text ior.now) }
{
    match ior_to_text(alloc, ior) {
        Ok(text) => String::from_str(alloc, ascii_str(text.as_slice())),
        Err(EncodeFault::Unfit) => String::from_str(alloc, "-"),
        Err(EncodeFault::NoMemory) => Err(AllocError),
    }
}

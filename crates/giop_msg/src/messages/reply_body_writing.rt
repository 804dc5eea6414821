//! Writing the body of a Reply, by its kind, and the status of each kind (9.4.3.1). The layout is
//! specs/Messages/Reply.antt, and reply_reading.rt reads it: change them together.
#![tactic(auto, unfolding(crate::specs::Messages::Reply::completion, crate::specs::Messages::Reply::no_exception, crate::specs::Messages::Reply::user_exception, crate::specs::Messages::Reply::system_exception, crate::specs::Messages::Reply::forward, crate::specs::Messages::Reply::needs_addressing, crate::specs::Messages::Reply::reply_body, crate::specs::Messages::Body::values, giop_cdr::specs::Layout::field, giop_cdr::specs::Layout::such, giop_cdr::specs::Layout::number, giop_cdr::specs::Layout::signed, giop_cdr::specs::Layout::text, giop_cdr::specs::Layout::gives, giop_cdr::specs::Layout::chosen), using(giop_cdr::proofs::Writing::WriterLemmas::grows_then, giop_cdr::proofs::Writing::WriterLemmas::grows_not))]

ghost use Rattle.std.specs.Prelude.{◌≡◌, true, map, OnOk};
ghost use Rattle.giop_cdr.specs.Ending.{ended, unless_empty};
ghost use Rattle.giop_cdr.specs.Layout.{is_spellable};
ghost use Rattle.giop_cdr.specs.Writing.Output.{padding_out};
ghost use Rattle.giop_cdr.specs.Writing.Outcome.{Appends};
ghost use Rattle.giop_types.specs.Values.Views.{value_view};
ghost use Rattle.giop_msg.specs.Messages.Body.{body_of};
ghost use Rattle.giop_msg.specs.Messages.Reply.{completion_number, exception_in, listed, no_exception, reply_body, status_of, system_exception, user_exception};
ghost use Rattle.giop_msg.specs.declared.messages.reply_body.ReplyBody.TheVariants.{NoException, SystemException, UserException};

use crate::messages::body_writing::{append_values, are_fitting};
use crate::messages::completion::Completion;
use crate::messages::reply_body::ReplyBody;
use crate::messages::reply_reading::{is_known, members_of};
use crate::request_head_writing::is_text;
use crate::target_writing::append_reference;
use crate::version::Version;
use giop_cdr::CdrOut;
use giop_types::{Offer, Parameter, Value};
use std::alloc::AllocError;

impl ReplyBody {
    /// The reply status of the body (CORBA 3.3 Part 2, 9.4.3.1).
    pub fn status(&self) -> u32
        ensures { result ≡ status_of self.now }
    {
        match self {
            ReplyBody::NoException(_) => 0,
            ReplyBody::UserException { .. } => 1,
            ReplyBody::SystemException { .. } => 2,
            ReplyBody::Forward(_) => 3,
            ReplyBody::ForwardPerm(_) => 4,
            ReplyBody::NeedsAddressing(_) => 5,
        }
    }
}

// The number of a completion.
fn completion_number(completion: Completion) -> u32
    ensures { result ≡ completion_number completion }
{
    match completion {
        Completion::Yes => 0,
        Completion::No => 1,
        Completion::Maybe => 2,
    }
}

// Whether an exception that an object offers has this id, and these members.
fn is_fitting_exception(offer: &Offer, id: &[u8], members: &[Value]) -> bool
    ensures { result ≡ (user_exception offer.now).fits
        (UserException id.now (map value_view members.now)) }
{
    is_text(id) && is_known(offer, id) && are_fitting(members_of(offer, id), members)
}

/// Whether octets spell a body. Its values are of their descriptions, an exception that an object offers
/// is known, no null is in an id, and each text and list is short enough for its count.
pub fn is_fitting_body(offer: &Offer, outs: &[Parameter], body: &ReplyBody) -> bool
    ensures { result ≡ (reply_body offer.now outs.now (status_of body.now)).fits body.now }
{
    match body {
        ReplyBody::NoException(values) => are_fitting(outs, values.as_slice()),
        ReplyBody::UserException { id, members } => {
            is_fitting_exception(offer, id.as_slice(), members.as_slice())
        }
        ReplyBody::SystemException { id, .. } => is_text(id.as_slice()),
        ReplyBody::Forward(ior) | ReplyBody::ForwardPerm(ior) => ior.is_writable(),
        ReplyBody::NeedsAddressing(_) => true,
    }
}

// Appends an exception that an object offers: its id and its members.
fn append_user_exception(
    offer: &Offer,
    id: &[u8],
    members: &[Value],
    out: &mut CdrOut,
) -> Result<(), AllocError>
    requires { (user_exception offer.now).fits
        (UserException id.now (map value_view members.now)) ≡ true }
    ensures written { Appends out.old result out.new ((user_exception offer.now).written
        (UserException id.now (map value_view members.now)) out.old) }
    ensures held { OnOk result ((user_exception offer.now).holds
        (UserException id.now (map value_view members.now))) }
{
    out.write_string(id)?;
    append_values(members_of(offer, id), members, out)
}

// Appends an exception of the broker: its id, its minor code and the completion.
fn append_system_exception(
    id: &[u8],
    minor: u32,
    completion: Completion,
    out: &mut CdrOut,
) -> Result<(), AllocError>
    requires { is_spellable id.now ≡ true }
    ensures written { Appends out.old result out.new
        (system_exception.written (SystemException id.now minor completion) out.old) }
    ensures held { OnOk result (system_exception.holds (SystemException id.now minor completion)) }
{
    out.write_string(id)?;
    out.write_ulong(minor)?;
    out.write_ulong(completion_number(completion))
}

// Appends the fields of a body, by its kind. Out of memory, a part of them is left.
fn append_fields(
    offer: &Offer,
    outs: &[Parameter],
    body: &ReplyBody,
    out: &mut CdrOut,
) -> Result<(), AllocError>
    requires { (reply_body offer.now outs.now (status_of body.now)).fits body.now ≡ true }
    ensures written { Appends out.old result out.new
        ((reply_body offer.now outs.now (status_of body.now)).written body.now out.old) }
    ensures held { OnOk result
        ((reply_body offer.now outs.now (status_of body.now)).holds body.now) }
{
    match body {
        ReplyBody::NoException(values) => append_values(outs, values.as_slice(), out),
        ReplyBody::UserException { id, members } => {
            append_user_exception(offer, id.as_slice(), members.as_slice(), out)
        }
        ReplyBody::SystemException {
            id,
            minor,
            completion,
        } => append_system_exception(id.as_slice(), *minor, *completion, out),
        ReplyBody::Forward(ior) | ReplyBody::ForwardPerm(ior) => append_reference(ior, out),
        ReplyBody::NeedsAddressing(disposition) => out.write_short(*disposition),
    }
}

// Appends the body from the next multiple of 8 on, and no padding where it takes no octets.
#[tactic(auto, using(giop_cdr::proofs::Writing::WriterLemmas::grows_then, giop_cdr::proofs::Writing::WriterLemmas::grows_not))]
fn append_aligned(
    offer: &Offer,
    outs: &[Parameter],
    body: &ReplyBody,
    out: &mut CdrOut,
) -> Result<(), AllocError>
    requires { (reply_body offer.now outs.now (status_of body.now)).fits body.now ≡ true }
    ensures written { Appends out.old result out.new (unless_empty out.old (padding_out 8 out.old)
        ((reply_body offer.now outs.now (status_of body.now)).written body.now
        (padding_out 8 out.old))) }
    ensures held { OnOk result
        ((reply_body offer.now outs.now (status_of body.now)).holds body.now) }
{
    let point = out.checkpoint();
    out.align(8)?;
    let padded = out.as_slice().len();
    append_fields(offer, outs, body, out)?;
    if out.as_slice().len() == padded {
        out.back_to(point);
    }
    Ok(())
}

/// Appends the body behind a head, where its version has it. Out of memory, a part of it is left.
#[tactic(auto, unfolding(crate::specs::Messages::Body::body_of, giop_cdr::specs::Ending::ended, giop_cdr::specs::Ending::from_multiple_of_8))]
pub fn append_reply_body(
    version: Version,
    offer: &Offer,
    outs: &[Parameter],
    body: &ReplyBody,
    out: &mut CdrOut,
) -> Result<(), AllocError>
    requires { (reply_body offer.now outs.now (status_of body.now)).fits body.now ≡ true }
    ensures written { Appends out.old result out.new
        ((body_of version (ended (reply_body offer.now outs.now (status_of body.now)))).written
        body.now out.old) }
    ensures held { OnOk result
        ((body_of version (ended (reply_body offer.now outs.now (status_of body.now)))).holds
        body.now) }
{
    match version {
        Version::V10 | Version::V11 => append_fields(offer, outs, body, out),
        Version::V12 => append_aligned(offer, outs, body, out),
    }
}

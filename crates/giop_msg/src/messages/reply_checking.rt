//! The body of a Reply passed over without memory. When memory runs out while a Reply is read, this
//! finds the fault that the octets have. It refuses what reply_reading.rt refuses, at the same
//! places: change them together.
#![tactic(auto, unfolding(crate::specs::Messages::Reply::no_exception, crate::specs::Messages::Reply::user_exception, crate::specs::Messages::Reply::system_exception, crate::specs::Messages::Reply::forward, crate::specs::Messages::Reply::needs_addressing, crate::specs::Messages::Reply::reply_body, crate::specs::Messages::Body::values, giop_cdr::specs::Layout::field, giop_cdr::specs::Layout::such, giop_cdr::specs::Layout::number, giop_cdr::specs::Layout::signed, giop_cdr::specs::Layout::text, giop_cdr::specs::Layout::gives, giop_cdr::specs::Layout::chosen, giop_cdr::specs::Reading::Values::such_at))]

ghost use Rattle.std.specs.Prelude.{IfOk};
ghost use Rattle.giop_cdr.specs.Reading.Outcome.{Exactly, Skips};
ghost use Rattle.giop_cdr.specs.declared.fault.CdrKind.TheVariants.{BadLabel};
ghost use Rattle.giop_cdr.specs.Ending.{ended};
ghost use Rattle.giop_cdr.specs.Layout.{such, text};
ghost use Rattle.giop_msg.specs.Messages.Body.{body_of};
ghost use Rattle.giop_msg.specs.Messages.Outcome.{Checks};
ghost use Rattle.giop_msg.specs.Messages.Reply.{exception_in, forward, is_known, needs_addressing, no_exception, reply_body, system_exception, user_exception};
ghost use Rattle.giop_msg.specs.declared.messages.reply_body.ReplyBody.TheVariants.{Forward, ForwardPerm};

use crate::messages::body::align_body;
use crate::messages::body_checking::skip_values;
use crate::messages::reply_reading::read_completion;
use crate::version::Version;
use giop_cdr::{CdrFault, CdrIn, CdrKind, Octets, OctetsAt};
use giop_ior::view_ior;
use giop_types::{Offer, Parameter};

// Passes over the outs of an operation.
fn skip_no_exception<S: Octets>(outs: &[Parameter], input: &mut CdrIn<S>) -> Result<(), CdrFault>
    ensures { Skips result input.new ((no_exception outs.now).read input.old) }
{
    skip_values(outs, input)
}

// Passes over an exception that an object offers: its id, at which `input` is, and the members that it
// has by that id.
fn skip_user_exception<S: Octets>(offer: &Offer, input: &mut CdrIn<S>) -> Result<(), CdrFault>
    ensures { Skips result input.new ((user_exception offer.now).read input.old) }
{
    let at = input.place::<4>();
    let id = input.view_string(0)?;
    let Some(members) = offer.exception_at(&id) else {
        return Err(CdrFault {
            at,
            kind: CdrKind::BadLabel,
        });
    };
    skip_values(members.as_slice(), input)
}

// Passes over an exception of the broker.
fn skip_system_exception<S: Octets>(input: &mut CdrIn<S>) -> Result<(), CdrFault>
    ensures { Skips result input.new (system_exception.read input.old) }
{
    input.view_string(0)?;
    input.read_ulong()?;
    read_completion(input)?;
    Ok(())
}

// Passes over a reference: where the object is, for this request.
fn skip_forward<S: Octets>(input: &mut CdrIn<S>) -> Result<(), CdrFault>
    ensures { Skips result input.new ((forward (λ ior. Forward ior)).read input.old) }
{
    view_ior(input)?;
    Ok(())
}

// Passes over a reference: where the object is from now on.
fn skip_forward_perm<S: Octets>(input: &mut CdrIn<S>) -> Result<(), CdrFault>
    ensures { Skips result input.new ((forward (λ ior. ForwardPerm ior)).read input.old) }
{
    view_ior(input)?;
    Ok(())
}

// Passes over the disposition in which the target has to be addressed.
fn skip_needs_addressing<S: Octets>(input: &mut CdrIn<S>) -> Result<(), CdrFault>
    ensures { Skips result input.new (needs_addressing.read input.old) }
{
    input.read_short()?;
    Ok(())
}

// Passes over a body, by its status.
fn skip_by_status<S: Octets>(
    offer: &Offer,
    outs: &[Parameter],
    status: u32,
    input: &mut CdrIn<S>,
) -> Result<(), CdrFault>
    ensures { Skips result input.new
        ((reply_body offer.now outs.now status).read input.old) }
{
    match status {
        0 => skip_no_exception(outs, input),
        1 => skip_user_exception(offer, input),
        2 => skip_system_exception(input),
        3 => skip_forward(input),
        4 => skip_forward_perm(input),
        _ => skip_needs_addressing(input),
    }
}

// Checks a body, and that nothing is behind it.
#[tactic(auto, unfolding(giop_cdr::specs::Ending::ended))]
fn check_last<S: Octets>(
    offer: &Offer,
    outs: &[Parameter],
    status: u32,
    input: &mut CdrIn<S>,
) -> Result<(), CdrFault>
    ensures { Checks result
        ((ended (reply_body offer.now outs.now status)).read input.old) }
{
    skip_by_status(offer, outs, status, input)?;
    if input.remaining() > 0 {
        return Err(CdrFault {
            at: input.position(),
            kind: CdrKind::Trailing,
        });
    }
    Ok(())
}

/// Checks the body behind a head, by the status of the head. `input` is at the end of that head.
#[tactic(auto, using(crate::proofs::WholeMessages::BodyLemmas::body_read))]
pub fn check_reply_body<S: Octets>(
    version: Version,
    offer: &Offer,
    outs: &[Parameter],
    status: u32,
    input: &mut CdrIn<S>,
) -> Result<(), CdrFault>
    ensures { Checks result
        ((body_of version (ended (reply_body offer.now outs.now status))).read input.old) }
{
    align_body(version, input);
    check_last(offer, outs, status, input)
}

//! Heads of messages that are read, viewed and written again.
ghost use Rattle.std.specs.Prelude.{◌≤◌, ◌^◌, length};

use crate::decoding::front;
use crate::names::version;
use anyhow::{Result, bail};
use giop_cdr::{CdrFault, CdrOut, EncodeFault, Order, SliceOctets};
use giop_msg::{
    LocateReplyHead, LocateRequest, ReplyHead, RequestHead, ServiceContexts, Target, Version,
};
use rows::{octets, order, shown};
use std::alloc::{AllocError, Global};
use std::fmt::Write;

/// The head of a message, by its kind, and by the words version, order and octets behind the
/// header: what it says, the place of the body, and how it is written again; or the fault.
pub fn head(alloc: Global, kind: &str, of: [&str; 3]) -> Result<String> {
    let octets = octets(alloc, of[2])?;
    let joined = SliceOctets::new(front(octets.as_slice()));
    let (of_version, of_order) = (version(of[0])?, order(of[1])?);
    match kind {
        "request" => request(alloc, &joined, of_version, of_order),
        "reply" => reply(alloc, &joined, of_version, of_order),
        "locate-request" => locate_request(alloc, &joined, of_version, of_order),
        "locate-reply" => locate_reply(alloc, &joined, of_version, of_order),
        _ => bail!("no head: {kind}"),
    }
}

fn request(alloc: Global, joined: &SliceOctets, version: Version, order: Order) -> Result<String>
    requires { length joined.now ≤ 2 ^ 62 }
{
    let viewed = RequestHead::view(joined, version, order);
    let (head, body) = match RequestHead::decode(alloc, joined, version, order) {
        Ok(found) => found,
        Err(fault) => return refused(alloc, fault, viewed.err()),
    };
    let (view, place) = match viewed {
        Ok(found) => found,
        Err(_) => bail!("two answers"),
    };
    if body != place || head != view.to_owned(alloc)? {
        bail!("two heads");
    }
    let mut out = CdrOut::new(alloc, order, 12);
    let answer = head.write(&mut out);
    let again = written(alloc, head.is_writable(), answer, &out)?;
    let said = request_text(alloc, head)?;
    Ok(format!(in alloc; "{said}, body at {body}; {again}")?)
}

fn request_text(alloc: Global, head: RequestHead) -> Result<String, AllocError> {
    let (minor, id, flags) = (head.version.minor(), head.id, head.flags);
    let target = target_text(alloc, &head.target)?;
    let operation = String::from_utf8_lossy(alloc, head.operation.as_slice())?;
    let contexts = contexts_text(alloc, head.contexts)?;
    format!(in alloc; "1.{minor} id {id} flags {flags} {target} {operation}{contexts}")
}

fn reply(alloc: Global, joined: &SliceOctets, version: Version, order: Order) -> Result<String>
    requires { length joined.now ≤ 2 ^ 62 }
{
    let viewed = ReplyHead::view(joined, version, order);
    let (head, body) = match ReplyHead::decode(alloc, joined, version, order) {
        Ok(found) => found,
        Err(fault) => return refused(alloc, fault, viewed.err()),
    };
    let (view, place) = match viewed {
        Ok(found) => found,
        Err(_) => bail!("two answers"),
    };
    if body != place || head != view.to_owned(alloc)? {
        bail!("two heads");
    }
    let mut out = CdrOut::new(alloc, order, 12);
    let answer = head.write(&mut out);
    let again = written(alloc, head.is_writable(), answer, &out)?;
    let ReplyHead {
        version,
        id,
        status,
        contexts,
    } = head;
    let minor = version.minor();
    let contexts = contexts_text(alloc, contexts)?;
    Ok(format!(in alloc; "1.{minor} id {id} status {status}{contexts}, body at {body}; {again}")?)
}

fn locate_request(
    alloc: Global,
    joined: &SliceOctets,
    version: Version,
    order: Order,
) -> Result<String>
    requires { length joined.now ≤ 2 ^ 62 }
{
    let request = match LocateRequest::decode(alloc, joined, version, order) {
        Ok(request) => request,
        Err(fault) => return Ok(format!(in alloc; "{fault}")?),
    };
    let mut out = CdrOut::new(alloc, order, 12);
    let answer = request.write(&mut out);
    let again = written(alloc, request.is_writable(), answer, &out)?;
    let target = target_text(alloc, &request.target)?;
    let (minor, id) = (request.version.minor(), request.id);
    Ok(format!(in alloc; "1.{minor} id {id} {target}; {again}")?)
}

fn locate_reply(
    alloc: Global,
    joined: &SliceOctets,
    version: Version,
    order: Order,
) -> Result<String>
    requires { length joined.now ≤ 2 ^ 62 }
{
    let (head, body) = match LocateReplyHead::view(joined, version, order) {
        Ok(found) => found,
        Err(fault) => return Ok(format!(in alloc; "{fault}")?),
    };
    let mut out = CdrOut::new(alloc, order, 12);
    let answer = head.write(&mut out);
    let again = written(alloc, head.is_writable(), answer, &out)?;
    let LocateReplyHead {
        version,
        id,
        status,
    } = head;
    let minor = version.minor();
    Ok(format!(in alloc; "1.{minor} id {id} status {status}, body at {body}; {again}")?)
}

// The fault of a head that is read, which has to be that of the view.
fn refused(alloc: Global, fault: CdrFault, other: Option<CdrFault>) -> Result<String> {
    if other != Some(fault) {
        bail!("two answers");
    }
    Ok(format!(in alloc; "{fault}")?)
}

/// What was written, or `Unfit`, where that agrees with whether it can be.
pub fn written(
    alloc: Global,
    writable: bool,
    answer: Result<(), EncodeFault>,
    out: &CdrOut,
) -> Result<String> {
    match (writable, answer) {
        (true, Ok(())) => Ok(shown(alloc, out.as_slice())?),
        (false, Err(EncodeFault::Unfit)) if out.as_slice().is_empty() => {
            Ok("Unfit".to_string(alloc)?)
        }
        _ => bail!("two answers"),
    }
}

// `key KEY`, `profile TAG=OCTETS`, or `reference INDEX TYPE` and the number of its profiles.
fn target_text(alloc: Global, target: &Target) -> Result<String, AllocError> {
    match target {
        Target::Key(key) => format!(in alloc; "key {}", shown(alloc, key.as_slice())?),
        Target::Profile(profile) => {
            let octets = shown(alloc, profile.octets.as_slice())?;
            format!(in alloc; "profile {}={octets}", profile.tag)
        }
        Target::Reference { index, ior } => {
            let type_id = shown(alloc, ior.type_id.as_slice())?;
            format!(in alloc; "reference {index} {type_id} {}", ior.profiles.len())
        }
    }
}

// ` ID=OCTETS` of each.
fn contexts_text(alloc: Global, contexts: ServiceContexts) -> Result<String, AllocError> {
    let mut text = String::new(alloc);
    for context in &contexts.into_vec() {
        write!(
            text,
            " {}={}",
            context.id,
            shown(alloc, context.octets.as_slice())?
        )?;
    }
    Ok(text)
}

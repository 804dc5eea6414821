//! Heads and messages that are made, which octets may spell or not.

use crate::decoding::encoded;
use crate::heads::written;
use crate::names::version;
use anyhow::{Result, bail};
use giop_cdr::{CdrOut, OctetList, Order};
use giop_ior::{Ior, Sequence, TaggedProfile};
use giop_msg::{
    LocateReplyHead, LocateRequest, Reply, ReplyBody, ReplyHead, Request, RequestHead,
    ServiceContexts, Target,
};
use giop_types::{Interface, ValueList};
use rows::{number, octets, order, parsed, small};
use std::alloc::Global;

/// The octets of a head of id 1 without contexts, or `Unfit`; by its kind and what it says.
pub fn head(alloc: Global, words: &[&str]) -> Result<String> {
    let mut out = CdrOut::new(alloc, Order::Big, 12);
    let (writable, answer) = match words {
        ["request", rest @ ..] => {
            let head = request_head(alloc, rest)?;
            (head.is_writable(), head.write(&mut out))
        }
        ["reply", of, status] => {
            let head = ReplyHead {
                version: version(of)?,
                id: 1,
                status: number(status)?,
                contexts: ServiceContexts::new(alloc),
            };
            (head.is_writable(), head.write(&mut out))
        }
        ["locate-request", of, to] => {
            let request = LocateRequest {
                version: version(of)?,
                id: 1,
                target: target(alloc, to)?,
            };
            (request.is_writable(), request.write(&mut out))
        }
        ["locate-reply", of, status] => {
            let head = LocateReplyHead {
                version: version(of)?,
                id: 1,
                status: number(status)?,
            };
            (head.is_writable(), head.write(&mut out))
        }
        _ => bail!("no head"),
    };
    written(alloc, writable, answer, &out)
}

// By its version, flags, target and operation.
fn request_head(alloc: Global, words: &[&str]) -> Result<RequestHead> {
    let [of, flags, to, operation] = words else {
        bail!("a head of a Request is VERSION FLAGS TARGET OPERATION");
    };
    Ok(RequestHead {
        version: version(of)?,
        id: 1,
        flags: small(flags)?,
        target: target(alloc, to)?,
        operation: OctetList::from(octets(alloc, operation)?),
        contexts: ServiceContexts::new(alloc),
    })
}

// The key `6b`, a profile without octets, or profile 0 of the nil reference.
fn target(alloc: Global, word: &str) -> Result<Target> {
    Ok(match word {
        "key" => Target::Key(OctetList::from_slice(alloc, b"k")?),
        "profile" => Target::Profile(TaggedProfile {
            tag: 0,
            octets: OctetList::new(alloc),
        }),
        "reference" => Target::Reference {
            index: 0,
            ior: Ior {
                type_id: OctetList::new(alloc),
                profiles: Sequence::new(alloc),
            },
        },
        _ => bail!("no target: {word}"),
    })
}

/// How a Request of such a head, without values, is encoded.
pub fn request(alloc: Global, interface: &Interface, words: &[&str]) -> Result<String> {
    let request = Request {
        head: request_head(alloc, words)?,
        body: ValueList::new(alloc),
    };
    let again = request.encode(alloc, interface, Order::Big);
    encoded(alloc, request.is_writable(interface), again)
}

/// How a Reply of id 4 without contexts is encoded, to the Request that was asked; by the words
/// version and order, and its body.
pub fn reply(
    alloc: Global,
    interface: &Interface,
    asked: Option<&Request>,
    of: [&str; 2],
    body: &[&str],
) -> Result<String> {
    let reply = Reply {
        version: version(of[0])?,
        id: 4,
        contexts: ServiceContexts::new(alloc),
        body: reply_body(alloc, body)?,
    };
    let again = reply.encode(alloc, interface, asked, order(of[1])?);
    let text = encoded(alloc, reply.is_writable(interface, asked), again)?;
    Ok(format!(in alloc; "status {}; {text}", reply.body.status())?)
}

// No outs, an exception without members, a reference of a type without profiles, or a disposition.
fn reply_body(alloc: Global, words: &[&str]) -> Result<ReplyBody> {
    Ok(match words {
        ["outs"] => ReplyBody::NoException(ValueList::new(alloc)),
        ["user", id] => ReplyBody::UserException {
            id: OctetList::from(octets(alloc, id)?),
            members: ValueList::new(alloc),
        },
        ["forward-perm", type_id] => ReplyBody::ForwardPerm(Ior {
            type_id: OctetList::from(octets(alloc, type_id)?),
            profiles: Sequence::new(alloc),
        }),
        ["address", disposition] => ReplyBody::NeedsAddressing(parsed(disposition)?),
        _ => bail!("no body of a reply"),
    })
}

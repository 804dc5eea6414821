//! Whether an answer can go out as answers are sent. Its meaning is `is_let_out` in
//! specs/Serve/LetOut.antt: change both.
ghost use Rattle.std.specs.Prelude.{◌≡◌, ◌<◌, ◌≤◌, ◌^◌, length, IfOk};
ghost use Rattle.giop_end.specs.Acts.Form.{is_fragmented, is_sendable, largest};
ghost use Rattle.giop_serving.specs.Serve.LetOut.{asking, goes_out, goes_out_in_some, in_version, is_let_out};

use crate::serve::answers::AnswerGiven;
use crate::serve::given::Sending;
use crate::serve::reply::given_body;
use giop_cdr::{EncodeFault, OctetList};
use giop_ior::TaggedProfile;
use giop_msg::{Reply, Request, RequestHead, ServiceContexts, Target, Version};
use giop_types::{Interface, ValueList};
use std::alloc::{AllocError, Global};

/// Whether the Reply of an answer to an operation of this name can be sent in some version.
pub fn is_let_out(
    alloc: Global,
    interface: &Interface,
    sending: Sending,
    name: &[u8],
    given: AnswerGiven,
) -> Result<bool, AllocError>
    ensures { IfOk result (λ out. out ≡ is_let_out interface.now sending name.now given) }
{
    let mut reply = Reply {
        version: Version::V12,
        id: 0,
        contexts: ServiceContexts::new(alloc),
        body: given_body(alloc, &[], Some(given))?,
    };
    goes_out_in_some(alloc, interface, sending, name, &mut reply)
}

// Whether a Reply to a Request of an operation can be sent in some version.
fn goes_out_in_some(
    alloc: Global,
    interface: &Interface,
    sending: Sending,
    name: &[u8],
    reply: &mut Reply,
) -> Result<bool, AllocError>
    ensures { IfOk result (λ out.
        out ≡ goes_out_in_some interface.now sending name.now (in_version reply.old)) }
{
    reply.version = Version::V12;
    if goes_out(alloc, interface, sending, name, reply)? {
        return Ok(true);
    }
    reply.version = Version::V11;
    if goes_out(alloc, interface, sending, name, reply)? {
        return Ok(true);
    }
    reply.version = Version::V10;
    goes_out(alloc, interface, sending, name, reply)
}

// Whether a Reply to a Request of an operation can be sent, in the version that it has.
fn goes_out(
    alloc: Global,
    interface: &Interface,
    sending: Sending,
    name: &[u8],
    reply: &Reply,
) -> Result<bool, AllocError>
    ensures { IfOk result (λ out. out ≡ goes_out interface.now sending name.now reply.now) }
{
    let request = asking(alloc, reply.version, name)?;
    match reply.encode(alloc, interface, Some(&request), sending.form.order) {
        Ok(octets) => Ok(is_sendable(sending, reply.version, octets.len())),
        Err(EncodeFault::Unfit) => Ok(false),
        Err(EncodeFault::NoMemory) => Err(AllocError),
    }
}

// A Request of a general operation, which wants its outs.
fn asking(alloc: Global, version: Version, name: &[u8]) -> Result<Request, AllocError>
    ensures { IfOk result (λ request. request ≡ asking version name.now) }
{
    let profile = TaggedProfile {
        tag: 0,
        octets: OctetList::new(alloc),
    };
    Ok(Request {
        head: RequestHead {
            version,
            id: 0,
            flags: 3,
            target: Target::Profile(profile),
            operation: OctetList::from_slice(alloc, name)?,
            contexts: ServiceContexts::new(alloc),
        },
        body: ValueList::new(alloc),
    })
}

// Whether so many joined octets of a Reply are within the limits.
fn is_sendable(sending: Sending, version: Version, n: usize) -> bool
    ensures { result ≡ is_sendable sending.limits.gathered sending.limits.message version n
        sending.form.piece }
{
    n >= 4
        && n < 1 << 32
        && n as u64 <= sending.limits.gathered
        && largest(version, n, sending.form.piece) <= sending.limits.message as usize
}

// The message_size of the largest message that so many joined octets are sent in, in octets.
fn largest(version: Version, n: usize, piece: u32) -> usize
    requires large { 24 ≤ piece }
    requires short { n < 2 ^ 32 }
    ensures { result ≡ largest version n piece }
{
    if version.has_fragments() && (piece as usize) < n + 12 {
        piece as usize - 12
    } else {
        n
    }
}

//! Reading the head of a Reply (9.4.3). Its layout is specs/ReplyHead.antt, and
//! reply_head_writing.rt writes it, in the order of the fields: change them together.
#![tactic(auto, unfolding(crate::specs::ReplyHead::reply_head, crate::specs::ReplyHead::reply_head_1_2, crate::specs::ReplyHead::early_reply_head, crate::specs::ReplyHead::reply_status, giop_ior::specs::ServiceContext::service_contexts, giop_ior::specs::ServiceContext::service_context, giop_cdr::specs::Layout::field, giop_cdr::specs::Layout::such, giop_cdr::specs::Layout::number, giop_cdr::specs::Layout::octets, giop_cdr::specs::Layout::gives, giop_cdr::specs::Layout::sequence, giop_cdr::specs::Layout::tagged, giop_cdr::specs::Reading::Values::such_at, giop_cdr::specs::Reading::View::tagged_at))]

ghost use Rattle.std.specs.Prelude.{◌≡◌, ◌≤◌, ◌^◌, length, IfOk};
ghost use Rattle.giop_cdr.specs.Reading.Outcome.{Exactly, Follows};
ghost use Rattle.giop_msg.specs.Heads.{DecodesHead, ViewsHead};
ghost use Rattle.giop_msg.specs.Joined.{body_place};
ghost use Rattle.giop_msg.specs.ReplyHead.{early_reply_head, last_reply_status, reply_head, reply_head_1_2};

use crate::joined::{body_place, no_memory};
use crate::service_contexts::{ServiceContexts, ServiceContextsAt, read_contexts};
use crate::status::read_status;
use crate::version::Version;
use giop_cdr::{CdrFault, CdrIn, Octets, Order};
use std::alloc::{AllocError, Global};

/// What a Reply says before its body (9.4.3): with its contexts on their own, or, as a
/// `ReplyHeadAt`, where they lie. Contracts see both as one value.
#[derive(Debug, Drop, PartialEq, Eq)]
pub struct ReplyHead<C = ServiceContexts> {
    /// The version in which the head is laid out.
    pub version: Version,
    /// The id of the request that is answered.
    pub id: u32,
    /// What the body is: 0 NO_EXCEPTION, 1 USER_EXCEPTION, 2 SYSTEM_EXCEPTION, 3 LOCATION_FORWARD;
    /// and in 1.2 alone 4 LOCATION_FORWARD_PERM, 5 NEEDS_ADDRESSING_MODE.
    pub status: u32,
    /// The service contexts, in their order.
    pub contexts: C,
}

/// A head whose contexts lie where they were read. It takes no memory.
pub type ReplyHeadAt<'a, S> = ReplyHead<ServiceContextsAt<'a, S>>;

impl ReplyHead {
    /// The head that joined octets begin with, where it lies, and the offset of the body behind it.
    /// In 1.2 that is the first multiple of 8 at or past the end of the fields, whether octets are
    /// there or not; before 1.2 it is the end of the fields. It takes no memory.
    ///
    /// The joined octets are as for `RequestHead::view`. Refused as the first field that is
    /// refused, in reading order: each as its own reader says, and a status that the version hasn't
    /// as BadLabel.
    pub fn view<'a, S: Octets>(
        octets: &'a S,
        version: Version,
        order: Order,
    ) -> Result<(ReplyHeadAt<'a, S>, usize), CdrFault>
        requires { length (S.octets octets.now) ≤ 2 ^ 62 }
        ensures { ViewsHead (reply_head version) (body_place version) order
            (S.octets octets.now) result }
    {
        let mut input = CdrIn::new(octets, order, 12);
        let head = view_head(version, &mut input)?;
        Ok((head, body_place(version, &input)))
    }

    /// The head that joined octets begin with, on its own, and the offset of the body behind it.
    /// Refused as `view` refuses. It is NoMemory at 12 when out of memory, and only for octets that
    /// no field refuses.
    #[tactic(auto, using(crate::proofs::HeadLemmas::head_wanted))]
    pub fn decode<S: Octets>(
        alloc: Global,
        octets: &S,
        version: Version,
        order: Order,
    ) -> Result<(ReplyHead, usize), CdrFault>
        requires { length (S.octets octets.now) ≤ 2 ^ 62 }
        ensures { DecodesHead (reply_head version) (body_place version) order
            (S.octets octets.now) result }
    {
        let (head, body) = ReplyHead::view(octets, version, order)?;
        match head.to_owned(alloc) {
            Ok(head) => Ok((head, body)),
            Err(_) => Err(no_memory()),
        }
    }
}

impl<'a, S: Octets> ReplyHeadAt<'a, S> {
    /// A copy of the head on its own. It takes memory for its contexts.
    pub fn to_owned(&self, alloc: Global) -> Result<ReplyHead, AllocError>
        ensures { IfOk result (λ head. head ≡ self.now) }
    {
        Ok(ReplyHead {
            version: self.version,
            id: self.id,
            status: self.status,
            contexts: ServiceContexts::from(self.contexts.to_vec(alloc)?),
        })
    }
}

// The greatest reply status of a version.
pub(crate) fn last_reply_status(version: Version) -> u32
    ensures { result ≡ last_reply_status version }
{
    match version {
        Version::V10 | Version::V11 => 3,
        Version::V12 => 5,
    }
}

// Reads the fields of a head of 1.2 in their order.
fn view_head_1_2<'a, S: Octets>(input: &mut CdrIn<'a, S>) -> Result<ReplyHeadAt<'a, S>, CdrFault>
    ensures { Exactly result input.new (reply_head_1_2.read input.old) }
{
    let id = input.read_ulong()?;
    let status = read_status(last_reply_status(Version::V12), input)?;
    let contexts = input.view_tagged_list()?;
    Ok(ReplyHead {
        version: Version::V12,
        id,
        status,
        contexts,
    })
}

// Reads the fields of a head before 1.2 in their order.
fn view_early_head<'a, S: Octets>(
    version: Version,
    input: &mut CdrIn<'a, S>,
) -> Result<ReplyHeadAt<'a, S>, CdrFault>
    ensures { Exactly result input.new ((early_reply_head version).read input.old) }
{
    let contexts = input.view_tagged_list()?;
    let id = input.read_ulong()?;
    let status = read_status(last_reply_status(version), input)?;
    Ok(ReplyHead {
        version,
        id,
        status,
        contexts,
    })
}

/// Reads the fields of a head in their order.
pub fn view_head<'a, S: Octets>(
    version: Version,
    input: &mut CdrIn<'a, S>,
) -> Result<ReplyHeadAt<'a, S>, CdrFault>
    ensures { Exactly result input.new ((reply_head version).read input.old) }
{
    match version {
        Version::V10 => view_early_head(Version::V10, input),
        Version::V11 => view_early_head(Version::V11, input),
        Version::V12 => view_head_1_2(input),
    }
}

// Reads the fields of a head of 1.2 in their order, with copies of its contexts, by a reader of its
// own: one that only inlined calls borrow needs no place in memory.
#[inline(always)]
fn read_head_1_2<S: Octets>(alloc: Global, input: &mut CdrIn<S>) -> Result<ReplyHead, CdrFault>
    ensures { Follows (λ head. head) result input.new (reply_head_1_2.read input.old) }
{
    let mut ahead = input.fork();
    let id = ahead.read_ulong()?;
    let status = read_status(last_reply_status(Version::V12), &mut ahead)?;
    let contexts = read_contexts(alloc, &mut ahead)?;
    *input = ahead;
    Ok(ReplyHead {
        version: Version::V12,
        id,
        status,
        contexts,
    })
}

// Reads a head before 1.2, which is copied from its view: few are.
fn read_early_head<S: Octets>(
    alloc: Global,
    version: Version,
    input: &mut CdrIn<S>,
) -> Result<ReplyHead, CdrFault>
    ensures { Follows (λ head. head) result input.new ((early_reply_head version).read input.old) }
{
    let head = view_early_head(version, input)?;
    match head.to_owned(alloc) {
        Ok(head) => Ok(head),
        Err(_) => Err(no_memory()),
    }
}

// Reads an early head by a reader of its own, so that only inlined calls borrow the reader of the
// Reply.
#[inline(always)]
fn read_early_head_ahead<S: Octets>(
    alloc: Global,
    version: Version,
    input: &mut CdrIn<S>,
) -> Result<ReplyHead, CdrFault>
    ensures { Follows (λ head. head) result input.new ((early_reply_head version).read input.old) }
{
    let mut ahead = input.fork();
    let head = read_early_head(alloc, version, &mut ahead)?;
    *input = ahead;
    Ok(head)
}

/// Reads the fields of a head in their order, with copies of its contexts.
#[inline(always)]
pub fn read_head<S: Octets>(
    alloc: Global,
    version: Version,
    input: &mut CdrIn<S>,
) -> Result<ReplyHead, CdrFault>
    ensures { Follows (λ head. head) result input.new ((reply_head version).read input.old) }
{
    match version {
        Version::V10 => read_early_head_ahead(alloc, Version::V10, input),
        Version::V11 => read_early_head_ahead(alloc, Version::V11, input),
        Version::V12 => read_head_1_2(alloc, input),
    }
}

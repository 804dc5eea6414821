//! Reading the head of a Request (9.4.2). Its layout is specs/RequestHead.antt, and
//! request_head_writing.rt writes it, in the order of the fields: change them together.
#![tactic(auto, unfolding(crate::specs::RequestHead::request_head, crate::specs::RequestHead::request_head_1_2, crate::specs::RequestHead::early_request_head, crate::specs::RequestHead::response_flags, crate::specs::RequestHead::response_expected, crate::specs::RequestHead::reserved_of, crate::specs::RequestHead::reserved_octets, crate::specs::RequestHead::reserved_octet, crate::specs::RequestHead::principal, crate::specs::Meaning::meaning, giop_ior::specs::ServiceContext::service_contexts, giop_ior::specs::ServiceContext::service_context, giop_cdr::specs::Layout::field, giop_cdr::specs::Layout::such, giop_cdr::specs::Layout::number, giop_cdr::specs::Layout::boolean, giop_cdr::specs::Layout::octets, giop_cdr::specs::Layout::text, giop_cdr::specs::Layout::reserved, giop_cdr::specs::Layout::gives, giop_cdr::specs::Layout::sequence, giop_cdr::specs::Layout::tagged, giop_cdr::specs::Reading::Values::such_at, giop_cdr::specs::Reading::View::tagged_at))]

ghost use Rattle.std.specs.Prelude.{◌≡◌, ◌≤◌, ◌^◌, length, option_copied, IfOk};
ghost use Rattle.giop_cdr.specs.Reading.Outcome.{Reads, Exactly, Skips};
ghost use Rattle.giop_msg.specs.Heads.{DecodesHead, ViewsHead};
ghost use Rattle.giop_msg.specs.Joined.{body_place};
ghost use Rattle.giop_msg.specs.Messages.Request.{operation_asked};
ghost use Rattle.giop_msg.specs.RequestHead.{response_expected, response_flags, reserved_of, reserved_octets, early_request_head, request_head, request_head_1_2};

use crate::joined::{body_place, no_memory};
use crate::service_contexts::{ServiceContexts, ServiceContextsAt};
use crate::target::{Target, TargetAt};
use crate::target_reading::{view_object_key, view_target};
use crate::version::Version;
use giop_cdr::{CdrFault, CdrIn, CdrKind, OctetList, Octets, OctetsAt, Order};
use giop_types::{Interface, Operation};
use std::alloc::{AllocError, Global};

/// What a Request says before its body (9.4.2): with its octets and contexts on their own, or, as a
/// `RequestHeadAt`, where they lie. Contracts see both as one value.
#[derive(Debug, Drop, PartialEq, Eq)]
pub struct RequestHead<O = OctetList, C = ServiceContexts, T = Target> {
    /// The version in which the head is laid out.
    pub version: Version,
    /// The id by which the reply, a cancel and the fragments name this request.
    pub id: u32,
    /// The response flags: 0 for no reply, 1 for a reply whose body is empty unless it is an
    /// exception, 3 for a reply. Before 1.2 it is 3 where a response is expected, else 0.
    pub flags: u8,
    /// The object that is called: before 1.2 a key.
    pub target: T,
    /// The name of the operation, without its null.
    pub operation: O,
    /// The service contexts, in their order.
    pub contexts: C,
}

/// A head whose octets and contexts lie where they were read. It takes no memory.
pub type RequestHeadAt<'a, S> = RequestHead<
    OctetsAt<'a, S>,
    ServiceContextsAt<'a, S>,
    TargetAt<'a, S>,
>;

impl RequestHead {
    /// The operation that is asked for, where its object offers it. It takes no memory.
    pub fn operation_asked<'a>(&self, interface: &'a Interface) -> Option<&'a Operation>
        ensures { option_copied result ≡ operation_asked interface.now self.now }
    {
        self.target
            .offer_in(interface)
            .operation(self.operation.as_slice())
    }

    /// The head that joined octets begin with, where it lies, and the offset of the body behind it.
    /// In 1.2 that is the first multiple of 8 at or past the end of the fields, whether octets are
    /// there or not; before 1.2 it is the end of the fields. It takes no memory.
    ///
    /// The joined octets are those of the message from offset 12 on and then those of its
    /// fragments, each from offset 16 on, behind its request id. The first of them has offset 12,
    /// and all are in the byte order of the message.
    ///
    /// Refused as the first field that is refused, in reading order: each as its own reader says.
    /// In 1.2 flags other than 0, 1 and 3 are BadLabel, and so is a disposition other than 0, 1 and
    /// 2; before 1.2 a `response_expected` other than 0 and 1 is BadBoolean. Reserved octets may be
    /// any, and before 1.2 so may be the principal, which isn't kept.
    pub fn view<'a, S: Octets>(
        octets: &'a S,
        version: Version,
        order: Order,
    ) -> Result<(RequestHeadAt<'a, S>, usize), CdrFault>
        requires { length (S.octets octets.now) ≤ 2 ^ 62 }
        ensures { ViewsHead (request_head version) (body_place version) order
            (S.octets octets.now) result }
    {
        let mut input = CdrIn::new(octets, order, 12);
        let head = view_head(version, &mut input)?;
        Ok((head, body_place(version, &input)))
    }

    /// The head that joined octets begin with, on its own, and the offset of the body behind it.
    /// Refused as `view` refuses. It is NoMemory at 12 when out of memory, and only for octets that
    /// no field refuses.
    #[tactic(auto, using(crate::proofs::HeadLemmas::head_wanted))]
    pub fn decode<S: Octets>(
        alloc: Global,
        octets: &S,
        version: Version,
        order: Order,
    ) -> Result<(RequestHead, usize), CdrFault>
        requires { length (S.octets octets.now) ≤ 2 ^ 62 }
        ensures { DecodesHead (request_head version) (body_place version) order
            (S.octets octets.now) result }
    {
        let (head, body) = RequestHead::view(octets, version, order)?;
        match head.to_owned(alloc) {
            Ok(head) => Ok((head, body)),
            Err(_) => Err(no_memory()),
        }
    }
}

impl<'a, S: Octets> RequestHeadAt<'a, S> {
    /// A copy of the head on its own. It takes memory for its octets and contexts.
    #[inline(always)]
    pub fn to_owned(&self, alloc: Global) -> Result<RequestHead, AllocError>
        ensures { IfOk result (λ head. head ≡ self.now) }
    {
        Ok(RequestHead {
            version: self.version,
            id: self.id,
            flags: self.flags,
            target: self.target.to_owned(alloc)?,
            operation: self.operation.to_list(alloc)?,
            contexts: ServiceContexts::from(self.contexts.to_vec(alloc)?),
        })
    }
}

// Reads the response flags of 1.2: 0, 1 or 3.
#[inline(always)]
pub(crate) fn read_flags<S: Octets>(input: &mut CdrIn<S>) -> Result<u8, CdrFault>
    ensures { Reads input.old result input.new (response_flags.read input.old) }
{
    let mut ahead = input.fork();
    let flags = ahead.read_octet()?;
    if !matches!(flags, 0 | 1 | 3) {
        return Err(CdrFault {
            at: input.place::<1>(),
            kind: CdrKind::BadLabel,
        });
    }
    *input = ahead;
    Ok(flags)
}

// Reads the boolean that is there before 1.2 as response flags.
fn read_expected<S: Octets>(input: &mut CdrIn<S>) -> Result<u8, CdrFault>
    ensures { Exactly result input.new (response_expected.read input.old) }
{
    let expected = input.read_boolean()?;
    Ok(if expected { 3 } else { 0 })
}

// Passes over the three reserved octets, whatever they are.
#[inline(always)]
pub(crate) fn read_reserved<S: Octets>(input: &mut CdrIn<S>) -> Result<(), CdrFault>
    ensures { Skips result input.new (reserved_octets.read input.old) }
{
    input.read_octet()?;
    input.read_octet()?;
    input.read_octet()?;
    Ok(())
}

// Passes over the reserved octets of a version, of which 1.0 has none.
fn read_reserved_of<S: Octets>(version: Version, input: &mut CdrIn<S>) -> Result<(), CdrFault>
    ensures { Skips result input.new ((reserved_of version).read input.old) }
{
    match version {
        Version::V10 => Ok(()),
        Version::V11 | Version::V12 => read_reserved(input),
    }
}

// Reads the fields of a head of 1.2 in their order, by a reader of its own: one that only inlined
// calls borrow needs no place in memory.
#[inline(always)]
fn view_head_1_2<'a, S: Octets>(input: &mut CdrIn<'a, S>) -> Result<RequestHeadAt<'a, S>, CdrFault>
    ensures { Exactly result input.new (request_head_1_2.read input.old) }
{
    let mut ahead = input.fork();
    let id = ahead.read_ulong()?;
    let flags = read_flags(&mut ahead)?;
    read_reserved(&mut ahead)?;
    let target = view_target(&mut ahead)?;
    let operation = ahead.view_string(0)?;
    let contexts = ahead.view_tagged_list()?;
    *input = ahead;
    Ok(RequestHead {
        version: Version::V12,
        id,
        flags,
        target,
        operation,
        contexts,
    })
}

// Reads the fields of a head before 1.2 in their order, and passes over the principal.
pub(crate) fn view_early_head<'a, S: Octets>(
    version: Version,
    input: &mut CdrIn<'a, S>,
) -> Result<RequestHeadAt<'a, S>, CdrFault>
    ensures { Exactly result input.new ((early_request_head version).read input.old) }
{
    let contexts = input.view_tagged_list()?;
    let id = input.read_ulong()?;
    let flags = read_expected(input)?;
    read_reserved_of(version, input)?;
    let target = view_object_key(input)?;
    let operation = input.view_string(0)?;
    input.view_octets(0)?;
    Ok(RequestHead {
        version,
        id,
        flags,
        target,
        operation,
        contexts,
    })
}

// Reads the fields of a head in their order.
#[inline(always)]
pub(crate) fn view_head<'a, S: Octets>(
    version: Version,
    input: &mut CdrIn<'a, S>,
) -> Result<RequestHeadAt<'a, S>, CdrFault>
    ensures { Exactly result input.new ((request_head version).read input.old) }
{
    match version {
        Version::V10 => view_early_head(Version::V10, input),
        Version::V11 => view_early_head(Version::V11, input),
        Version::V12 => view_head_1_2(input),
    }
}

//! Reading the head of a Request (9.4.2) on its own, in one pass: each part is copied as it is
//! read, so that no view of the whole head is kept beside it. Its layout is specs/RequestHead.antt,
//! as for request_head.rt: change them together.
#![tactic(auto, unfolding(crate::specs::RequestHead::request_head, crate::specs::RequestHead::request_head_1_2, giop_cdr::specs::Layout::field, giop_cdr::specs::Layout::number, giop_cdr::specs::Layout::text, giop_cdr::specs::Layout::gives))]

ghost use Rattle.std.specs.Prelude.{◌≡◌};
ghost use Rattle.giop_cdr.specs.Reading.Outcome.{Follows};
ghost use Rattle.giop_msg.specs.RequestHead.{early_request_head, request_head, request_head_1_2};

use crate::joined::no_memory;
use crate::request_head::{RequestHead, read_flags, read_reserved, view_early_head};
use crate::service_contexts::read_contexts;
use crate::target_reading::read_target;
use crate::version::Version;
use giop_cdr::{CdrFault, CdrIn, OctetList, Octets};
use std::alloc::Global;

// Reads the fields of a head of 1.2 in their order, by a reader of its own, as `view_head_1_2`
// does.
#[inline(always)]
fn read_head_1_2<S: Octets>(alloc: Global, input: &mut CdrIn<S>) -> Result<RequestHead, CdrFault>
    ensures { Follows (λ head. head) result input.new (request_head_1_2.read input.old) }
{
    let mut ahead = input.fork();
    let id = ahead.read_ulong()?;
    let flags = read_flags(&mut ahead)?;
    read_reserved(&mut ahead)?;
    let target = read_target(alloc, &mut ahead)?;
    let operation = ahead.read_string(alloc, 0)?;
    let contexts = read_contexts(alloc, &mut ahead)?;
    *input = ahead;
    Ok(RequestHead {
        version: Version::V12,
        id,
        flags,
        target,
        operation: OctetList::from(operation),
        contexts,
    })
}

// Reads a head before 1.2, which is copied from its view: few are.
fn read_early_head<S: Octets>(
    alloc: Global,
    version: Version,
    input: &mut CdrIn<S>,
) -> Result<RequestHead, CdrFault>
    ensures { Follows (λ head. head) result input.new
        ((early_request_head version).read input.old) }
{
    let head = view_early_head(version, input)?;
    match head.to_owned(alloc) {
        Ok(head) => Ok(head),
        Err(_) => Err(no_memory()),
    }
}

// Reads an early head by a reader of its own, so that only inlined calls borrow the reader of the
// Request.
#[inline(always)]
fn read_early_head_ahead<S: Octets>(
    alloc: Global,
    version: Version,
    input: &mut CdrIn<S>,
) -> Result<RequestHead, CdrFault>
    ensures { Follows (λ head. head) result input.new
        ((early_request_head version).read input.old) }
{
    let mut ahead = input.fork();
    let head = read_early_head(alloc, version, &mut ahead)?;
    *input = ahead;
    Ok(head)
}

/// Reads the fields of a head in their order, each with a copy of its octets.
#[inline(always)]
pub fn read_head<S: Octets>(
    alloc: Global,
    version: Version,
    input: &mut CdrIn<S>,
) -> Result<RequestHead, CdrFault>
    ensures { Follows (λ head. head) result input.new ((request_head version).read input.old) }
{
    match version {
        Version::V10 => read_early_head_ahead(alloc, Version::V10, input),
        Version::V11 => read_early_head_ahead(alloc, Version::V11, input),
        Version::V12 => read_head_1_2(alloc, input),
    }
}

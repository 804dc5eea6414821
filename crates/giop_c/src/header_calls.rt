//! The exported function that reads a header, and the request id behind it, out of the caller's
//! octets. It takes no handle and no memory.
ghost use Rattle.std.specs.Prelude.{◌≡◌, ◌≤◌, ◌^◌, length, take};
ghost use Rattle.giop_cdr.specs.Reading.Outcome.{Exactly};
ghost use Rattle.giop_msg.specs.RequestId.{begins_with_contexts, id_behind_contexts, request_id_layout};
ghost use Rattle.giop_c.specs.Headers.{ReadsHeader, c_header, id_behind};

use crate::records::{Fault, Message, has_id, id_told};
use crate::status::{FAULT, OK, WAITS};
use giop_cdr::{CdrFault, CdrIn, SliceOctets};
use giop_ior::ServiceContext;
use giop_msg::{Header, Kind, Version};

/// Reads the header at the front of octets, and the request id behind it, as far as they are there.
/// It answers OK, and writes both; WAITS, where the octets are fewer than twelve; or FAULT, and
/// writes the fault.
///
/// `limit` is the greatest message size that is accepted; it doesn't count the header. Places are
/// counted from the first of the octets.
#[unsafe(no_mangle)]
pub extern "C" fn giop_header(
    octets: &[u8],
    limit: u32,
    message: &mut Message,
    fault: &mut Fault,
) -> u32
    requires { length octets.now ≤ 2 ^ 62 }
    ensures { ReadsHeader limit octets.now message.old message.new fault.old fault.new result }
{
    let Some((front, behind)) = octets.split_first_chunk::<12>() else {
        return WAITS;
    };
    match Header::judge(front, limit) {
        Ok(header) => {
            *message = written(&header, behind);
            OK
        }
        Err(refused) => {
            *fault = Fault::of(refused);
            FAULT
        }
    }
}

// What is written of a header for C, and of the octets behind it, of which some may be wanting.
fn written(header: &Header, behind: &[u8]) -> Message
    requires { length behind.now ≤ 2 ^ 62 }
    ensures { result ≡ c_header header.now behind.now }
{
    let id = id_behind(header, part_of(behind, header.size));
    Message {
        minor: header.version.minor(),
        little_endian: header.order.octet(),
        more: if header.more { 1 } else { 0 },
        kind: header.kind.number(),
        size: header.size,
        id: id_told(&id),
        has_id: has_id(&id),
    }
}

// The octets of a message of a size; those that are there, where some are wanting.
fn part_of(octets: &[u8], size: u32) -> &[u8]
    ensures { result.now ≡ take size octets.now }
{
    if size as usize <= octets.len() {
        &octets[..size as usize]
    } else {
        octets
    }
}

// The request id of a message of a header, or the first fault before it.
#[tactic(auto, using(giop_msg::proofs::RequestIdLemmas::value_exact))]
fn id_behind(header: &Header, payload: &[u8]) -> Option<Result<u32, CdrFault>>
    requires { length payload.now ≤ 2 ^ 62 }
    ensures { result ≡ id_behind header.now payload.now }
{
    if !header.kind.has_request_id() {
        return None;
    }
    let octets = SliceOctets::new(payload);
    let mut input = CdrIn::new(&octets, header.order, 12);
    Some(read_id(header.version, header.kind, &mut input))
}

// Whether a message has its service contexts before its request id.
fn begins_with_contexts(version: Version, kind: Kind) -> bool
    ensures { result ≡ begins_with_contexts version kind }
{
    match version {
        Version::V10 | Version::V11 => matches!(kind, Kind::Request | Kind::Reply),
        Version::V12 => false,
    }
}

// Reads the request id of a message. `input` is at the first field, behind the header.
#[tactic(auto, unfolding(giop_msg::specs::RequestId::request_id_layout, giop_cdr::specs::Layout::chosen, giop_cdr::specs::Layout::number))]
fn read_id(
    version: Version,
    kind: Kind,
    input: &mut CdrIn<SliceOctets<'_>>,
) -> Result<u32, CdrFault>
    ensures { Exactly result input.new ((request_id_layout version kind).read input.old) }
{
    if begins_with_contexts(version, kind) {
        read_id_behind_contexts(input)
    } else {
        input.read_ulong()
    }
}

#[tactic(auto, unfolding(giop_msg::specs::RequestId::id_behind_contexts, giop_msg::specs::RequestId::passed_contexts, giop_ior::specs::ServiceContext::service_contexts, giop_ior::specs::ServiceContext::service_context, giop_cdr::specs::Layout::field, giop_cdr::specs::Layout::number, giop_cdr::specs::Layout::octets, giop_cdr::specs::Layout::reserved, giop_cdr::specs::Layout::gives, giop_cdr::specs::Layout::sequence, giop_cdr::specs::Layout::tagged, giop_cdr::specs::Reading::View::tagged_at))]
fn read_id_behind_contexts(input: &mut CdrIn<SliceOctets<'_>>) -> Result<u32, CdrFault>
    ensures { Exactly result input.new (id_behind_contexts.read input.old) }
{
    input.view_tagged_list::<ServiceContext>()?;
    let id = input.read_ulong()?;
    Ok(id)
}

//! The request id of a message (9.4.2 to 9.4.9): at offset 12, or in a Request or a Reply before
//! 1.2 behind the service contexts. specs/RequestId.antt has its place.
#![tactic(auto, unfolding(crate::specs::RequestId::request_id_layout, crate::specs::RequestId::id_behind_contexts, crate::specs::RequestId::passed_contexts, giop_ior::specs::ServiceContext::service_contexts, giop_ior::specs::ServiceContext::service_context, giop_cdr::specs::Layout::chosen, giop_cdr::specs::Layout::field, giop_cdr::specs::Layout::number, giop_cdr::specs::Layout::octets, giop_cdr::specs::Layout::reserved, giop_cdr::specs::Layout::gives, giop_cdr::specs::Layout::sequence, giop_cdr::specs::Layout::tagged, giop_cdr::specs::Reading::View::tagged_at))]

ghost use Rattle.std.specs.Prelude.{◌≡◌};
ghost use Rattle.giop_cdr.specs.Reading.Outcome.{Exactly};
ghost use Rattle.giop_msg.specs.RequestId.{begins_with_contexts, id_behind_contexts, request_id_layout};

use crate::{Kind, ServiceContext, Version};
use giop_cdr::{CdrFault, CdrIn, Octets};

// Whether a message has its service contexts before its request id.
fn begins_with_contexts(version: Version, kind: Kind) -> bool
    ensures { result ≡ begins_with_contexts version kind }
{
    match version {
        Version::V10 | Version::V11 => matches!(kind, Kind::Request | Kind::Reply),
        Version::V12 => false,
    }
}

// Reads the request id of a message. `input` is at the first field, behind the header.
pub(crate) fn read_request_id<S: Octets>(
    version: Version,
    kind: Kind,
    input: &mut CdrIn<S>,
) -> Result<u32, CdrFault>
    ensures { Exactly result input.new ((request_id_layout version kind).read input.old) }
{
    if begins_with_contexts(version, kind) {
        read_id_behind_contexts(input)
    } else {
        input.read_ulong()
    }
}

fn read_id_behind_contexts<S: Octets>(input: &mut CdrIn<S>) -> Result<u32, CdrFault>
    ensures { Exactly result input.new (id_behind_contexts.read input.old) }
{
    input.view_tagged_list::<ServiceContext>()?;
    let id = input.read_ulong()?;
    Ok(id)
}

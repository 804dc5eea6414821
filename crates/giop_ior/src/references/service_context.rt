//! Service contexts (CORBA 3.3 Part 2, 7.7) as values, and a list of them written. A `CdrIn` reads
//! one by `view_tagged_list`. The layout of both is `specs/ServiceContext.antt`.
ghost use Rattle.std.specs.Prelude.{◌≡◌, true, OnOk, refl};
ghost use Rattle.giop_cdr.specs.Writing.Outcome.{Appends};
ghost use Rattle.giop_ior.specs.ServiceContext.{service_contexts};

use crate::references::ior_writing::{append_tagged, are_writable};
use crate::references::tagged_profile::TaggedParts;
use giop_cdr::{CdrOut, OctetList, Tagged};
use std::alloc::AllocError;

/// What a service of the broker sends along with a request or a reply (CORBA 3.3 Part 2, 7.7):
/// octets that are carried unread.
#[derive(Debug, Drop, PartialEq, Eq)]
pub struct ServiceContext {
    /// The id of the service that it belongs to.
    pub id: u32,
    /// Its octets, as they came.
    pub octets: OctetList,
}

impl Tagged for ServiceContext {
    ghost made = { λ id contents. record { id = id; octets = contents } };

    fn from_parts(id: u32, octets: OctetList) -> ServiceContext {
        ServiceContext { id, octets }
    }
}

impl TaggedParts for ServiceContext {
    ghost tag_of = { λ context. context.id };

    ghost contents_of = { λ context. context.octets };

    ghost is_made = { λ context. refl };

    fn tag(&self) -> u32 {
        self.id
    }

    fn contents(&self) -> &[u8] {
        self.octets.as_slice()
    }
}

/// Whether octets spell these contexts: they are few enough for their count, and so are the octets
/// of each. It takes no memory.
#[tactic(auto, unfolding(crate::specs::ServiceContext::service_contexts, crate::specs::ServiceContext::service_context))]
pub fn are_writable_contexts(contexts: &[ServiceContext]) -> bool
    ensures { result ≡ service_contexts.fits contexts.now }
{
    are_writable(contexts)
}

/// Writes service contexts that are writable: their count, and each. Out of memory, a part of them
/// is left.
#[tactic(auto, unfolding(crate::specs::ServiceContext::service_contexts, crate::specs::ServiceContext::service_context))]
pub fn append_contexts(contexts: &[ServiceContext], out: &mut CdrOut) -> Result<(), AllocError>
    requires { service_contexts.fits contexts.now ≡ true }
    ensures written { Appends out.old result out.new
        (service_contexts.written contexts.now out.old) }
    ensures held { OnOk result (service_contexts.holds contexts.now) }
{
    append_tagged(contexts, out)
}

//! A LocateRequest (CORBA 3.3 Part 2, 9.4.5) as entries and events hold it.
ghost use Rattle.std.specs.Prelude.{◌≡◌, IfOk};

use crate::aside::Aside;
use giop_msg::{LocateRequest, Target};
use std::alloc::{AllocError, Global};

/// A LocateRequest (CORBA 3.3 Part 2, 9.4.5) whose target lies aside. Contracts see it as any
/// other LocateRequest.
pub type LocateCall = LocateRequest<Aside<Target>>;

/// Lays the target of a LocateRequest aside. `alloc` gives the memory for it. Where it is out of
/// memory, the request is dropped, and AllocError is returned.
pub fn with_target_aside(alloc: Global, request: LocateRequest) -> Result<LocateCall, AllocError>
    ensures { IfOk result (λ call. call ≡ request) }
{
    Ok(LocateRequest {
        version: request.version,
        id: request.id,
        target: Aside::new(alloc, request.target)?,
    })
}

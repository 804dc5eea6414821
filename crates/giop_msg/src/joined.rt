//! The joined octets of a message: its octets from offset 12 on, and those of its Fragments behind
//! their request ids (9.4.9). Here is where they begin, and where a body in them does.
ghost use Rattle.std.specs.Prelude.{◌≡◌, IfOk};
ghost use Rattle.giop_msg.specs.Joined.{body_place, no_memory};
ghost use Rattle.giop_msg.specs.Messages.Outcome.{joined_into};

use crate::version::Version;
use giop_cdr::{CdrFault, CdrIn, CdrKind, CdrOut, Octets, Order};
use std::alloc::{AllocError, Global};

// As many octets as most messages have, so that they are written without growing.
const ROOM: usize = 64;

// An output for the joined octets of a message, whose first octet has offset 12.
pub(crate) fn joined_output(alloc: Global, order: Order) -> Result<CdrOut, AllocError>
    ensures { IfOk result (λ out. out ≡ joined_into order) }
{
    CdrOut::with_room(alloc, order, 12, ROOM)
}

// The offset of a body, for a reader that is at the end of the head. In 1.2 it is the first
// multiple of 8 at or past the reader's place (9.4.2.2), before that the reader's place.
pub(crate) fn body_place<S: Octets>(version: Version, input: &CdrIn<S>) -> usize
    ensures { result ≡ body_place version input.now.at }
{
    match version {
        Version::V10 | Version::V11 => input.position(),
        Version::V12 => input.place::<8>(),
    }
}

/// Out of memory, reported of a message as a whole: at offset 12, where its joined octets begin.
pub(crate) fn no_memory() -> CdrFault
    ensures { result ≡ no_memory }
{
    CdrFault {
        at: 12,
        kind: CdrKind::NoMemory,
    }
}

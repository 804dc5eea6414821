//! A reference read where a `CdrIn` stands (CORBA 3.3 Part 2, 7.6.2): viewed first, then copied.
//! The fields are those of `specs/Ior.antt`, in its order.
ghost use Rattle.std.specs.Prelude.{◌≡◌, IfOk};
ghost use Rattle.giop_cdr.specs.Reading.Outcome.{Reads, Allocates};
ghost use Rattle.giop_ior.specs.Ior.{ior_layout};

use crate::references::ior::{Ior, IorAt};
use crate::references::sequence::Sequence;
use giop_cdr::{CdrFault, CdrIn, CdrKind, Octets};
use std::alloc::{AllocError, Global};

/// A reference at which the reader stands (CORBA 3.3 Part 2, 7.6.2), where it lies: it takes no
/// memory.
///
/// Refused as the first field that is refused, in reading order: the type id as `view_string` says,
/// the profiles as `view_tagged_list`. The reader then stays where it was.
#[tactic(auto, unfolding(crate::specs::Ior::ior_layout, crate::specs::Ior::tagged_profile, giop_cdr::specs::Layout::field, giop_cdr::specs::Layout::number, giop_cdr::specs::Layout::octets, giop_cdr::specs::Layout::text, giop_cdr::specs::Layout::sequence, giop_cdr::specs::Layout::tagged, giop_cdr::specs::Layout::gives, giop_cdr::specs::Reading::View::tagged_at))]
pub fn view_ior<'a, S: Octets>(input: &mut CdrIn<'a, S>) -> Result<IorAt<'a, S>, CdrFault>
    ensures { Reads input.old result input.new (ior_layout.read input.old) }
{
    let mut ahead = input.fork();
    let type_id = ahead.view_string(0)?;
    let profiles = ahead.view_tagged_list()?;
    *input = ahead;
    Ok(Ior { type_id, profiles })
}

/// A reference at which the reader stands (7.6.2), which owns its octets and profiles.
///
/// Refused as `view_ior` refuses it. When out of memory, for a reference that is there, it is
/// NoMemory at the reader's place. After a refusal the reader stays where it was.
pub fn read_ior<S: Octets>(alloc: Global, input: &mut CdrIn<S>) -> Result<Ior, CdrFault>
    ensures { Allocates (λ ior. ior) input.old result input.new (ior_layout.read input.old) }
{
    let mut ahead = input.fork();
    let view = view_ior(&mut ahead)?;
    let Ok(ior) = view.to_owned(alloc) else {
        return Err(CdrFault {
            at: input.position(),
            kind: CdrKind::NoMemory,
        });
    };
    *input = ahead;
    Ok(ior)
}

impl<'a, S: Octets> IorAt<'a, S> {
    /// A copy of the reference, which owns its octets and profiles. It takes memory for these.
    pub fn to_owned(&self, alloc: Global) -> Result<Ior, AllocError>
        ensures { IfOk result (λ ior. ior ≡ self.now) }
    {
        Ok(Ior {
            type_id: self.type_id.to_list(alloc)?,
            profiles: Sequence::from(self.profiles.to_vec(alloc)?),
        })
    }
}

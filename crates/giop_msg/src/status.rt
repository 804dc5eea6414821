//! Reading the status of a Reply and of a LocateReply (9.4.3, 9.4.6). Its layout is
//! specs/Status.antt.
#![tactic(auto, unfolding(giop_cdr::specs::Layout::such, giop_cdr::specs::Layout::number, giop_cdr::specs::Reading::Values::such_at))]

ghost use Rattle.giop_cdr.specs.Reading.Outcome.{Exactly};
ghost use Rattle.giop_msg.specs.Status.{status_up_to};

use giop_cdr::{CdrFault, CdrIn, CdrKind, Octets};

/// Reads a status, which is at most the last one that there is.
#[inline(always)]
pub fn read_status<S: Octets>(last: u32, input: &mut CdrIn<S>) -> Result<u32, CdrFault>
    ensures { Exactly result input.new ((status_up_to last).read input.old) }
{
    let at = input.place::<4>();
    let status = input.read_ulong()?;
    if status > last {
        return Err(CdrFault {
            at,
            kind: CdrKind::BadLabel,
        });
    }
    Ok(status)
}

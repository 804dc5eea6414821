//! What the calls of an end's own program have in common at a client and at a server: joined octets
//! are cut into messages, and what the table of calls answered becomes what the end returns. Why a
//! call is refused is specs/Acts/Refused.antt.
ghost use Rattle.std.specs.Prelude.{◌≡◌, ◌⊎◌, ◌<◌, ◌^◌, true, length, IfErr, IfNone, IfOk, IfSome, IsErrOf, IsOk, Err};
ghost use Rattle.giop_msg.specs.Cut.{IsCut, is_continued};
ghost use Rattle.giop_calls.specs.declared.fault.CallFault.TheVariants.{Unfit};
ghost use Rattle.giop_end.specs.Acts.Form.{is_sendable, IsForm};
ghost use Rattle.giop_end.specs.Hearing.Heard.{in_call, result_of};
ghost use Rattle.giop_end.specs.Acts.Refused.{IsNotSent};
ghost use Rattle.giop_end.specs.declared.session_fault.SessionFault.TheVariants.{NoMemory};

use crate::acts::form::Form;
use crate::acts::sendable::messages;
use crate::hearing::heard::result_of;
use crate::limits::Limits;
use crate::session_fault::SessionFault;
use giop_calls::CallFault;
use giop_cdr::EncodeFault;
use giop_msg::{Kind, Version};
use giop_table::{Messages, TableFault};
use std::alloc::Global;

/// What an end returns for an event of its own program, by what the table of calls answered; that
/// is `None` where it was out of memory for the event's message.
#[inline(always)]
pub fn act_result(
    id: u32,
    answered: Option<Result<(), TableFault<CallFault>>>,
) -> Result<(), SessionFault>
    ensures returned { IfSome answered (λ answered. result ≡ result_of (in_call id) answered) }
    ensures want { IfNone answered (result ≡ Err NoMemory) }
{
    match answered {
        Some(Ok(())) => Ok(()),
        Some(Err(fault)) => result_of(id, Err(fault)),
        None => Err(SessionFault::NoMemory),
    }
}

/// The messages of a kind that encoded joined octets are sent in, within the limits of an end, for
/// the call of an id. Refused as Unfit where there are no such octets, or where the end doesn't
/// send them; as NoMemory where it is out of memory.
#[inline(always)]
pub fn messages_to_send(
    alloc: Global,
    limits: Limits,
    version: Version,
    kind: Kind,
    form: Form,
    id: u32,
    encoded: Result<Vec<u8>, EncodeFault>,
) -> Result<Messages, SessionFault>
    requires kind { is_continued kind ≡ true }
    requires form { IsForm form }
    ensures there { IsOk result → IsOk encoded }
    ensures sendable { IfOk result (λ messages. IfOk encoded (λ octets.
        is_sendable limits.gathered limits.message version (length octets.items) form.piece
        ≡ true)) }
    ensures cut { IfOk result (λ messages. IfOk encoded (λ octets.
        IsCut version kind form.order octets.items form.piece messages)) }
    ensures few { IfOk result (λ messages. length messages < 2 ^ 32) }
    ensures want { result ≡ Err NoMemory → IsErrOf encoded EncodeFault.Unfit → ⊥ }
    ensures err { IfErr result (λ e. (e ≡ NoMemory) ⊎ ((e ≡ in_call id Unfit)
        × IsNotSent (λ octets. is_sendable limits.gathered limits.message version
        (length octets.items) form.piece) encoded)) }
{
    let refused = SessionFault::Call {
        id,
        fault: CallFault::Unfit,
    };
    let joined = match encoded {
        Ok(joined) => joined,
        Err(EncodeFault::Unfit) => return Err(refused),
        Err(EncodeFault::NoMemory) => return Err(SessionFault::NoMemory),
    };
    match messages(alloc, limits, version, kind, form, joined) {
        Ok(Some(messages)) => Ok(messages),
        Ok(None) => Err(refused),
        Err(_) => Err(SessionFault::NoMemory),
    }
}

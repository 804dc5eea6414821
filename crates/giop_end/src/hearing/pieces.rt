//! What both ends make of a Fragment (CORBA 3.3 Part 2, 9.4.9): it continues what is gathered for
//! its id, or is refused. Its meaning is `continues` in specs/Hearing/Pieces.antt: change both.
ghost use Rattle.std.specs.Prelude.{◌≡◌, ◌≤◌, ◌^◌, ◌+◌, length, is_some, true, IfSome};
ghost use Rattle.std.specs.FinMap as finite;
ghost use Rattle.giop_frag.specs.Gathered.{octets_in};
ghost use Rattle.giop_msg.specs.RequestId.{request_id_of};
ghost use Rattle.giop_end.specs.Hearing.Heard.{ActsOn, behind_id, IsHeardBy, named};
ghost use Rattle.giop_end.specs.Hearing.Pieces.{completes, continued_at, continues_at, goes_on, OfGathered, whole_with};

use crate::hearing::events::happen;
use crate::hearing::heard::{behind_id, named_id, result_of, silently};
use crate::hearing::with_last::WithLast;
use crate::session_fault::SessionFault;
use giop_calls::CallFault;
use giop_cdr::Order;
use giop_frag::Chain;
use giop_msg::Msg;
use giop_mux::{CallRule, Side};
use giop_table::CallTable;
use giop_types::Interface;
use std::alloc::Global;

/// A side that joins the pieces of the messages that it hears. Of a message that is gathered it
/// knows something: a server its kind, a client the call that it answers.
pub trait Joins: Side<Answer = (), Fault = CallFault> {
    ghost use Rattle.std.specs.Prelude.{◌≡◌, ◌≤◌, ◌^◌, length, option_copied, IfSome};
    ghost use Rattle.giop_end.specs.Hearing.Pieces.{JoinsBy, PiecesOf};

    /// What is known of a message that is gathered.
    type Known;

    /// What the joined octets of a message come to.
    type Whole: Drop;

    ghost pieces: { PiecesOf Self.Entry Self.Event Self.Known Self.Whole };

    /// What an entry knows of the message that is gathered for it, if one is. It takes no memory.
    fn known(entry: &Self::Entry) -> Option<&Self::Known>
        ensures { option_copied result ≡ pieces.known entry.now };

    /// What joined octets come to, at the message that brings the last of them. `None` where it is
    /// out of memory.
    fn whole(
        alloc: Global,
        interface: &Interface,
        known: &Self::Known,
        message: &Msg,
        joined: &WithLast<'_, Chain<'_>>,
    ) -> Option<Self::Whole>
        requires { length joined.now ≤ 2 ^ 62 }
        ensures { IfSome result (λ whole.
            whole ≡ pieces.whole interface.now known.now message.now joined.now) };

    /// The event of the last piece of a message that comes to this.
    fn last(whole: Self::Whole) -> Self::Event
        ensures { result ≡ pieces.last whole };

    /// The event of a Fragment that continues nothing.
    fn stray(message: &Msg) -> Self::Event
        ensures { result ≡ pieces.stray message.now };

    // The rule goes by what its entries know.
    ghost joins: { (side : Self) → JoinsBy (⟦<Self as CallRule>⟧.next side)
        ⟦<Self as Side>⟧.gathering pieces };
}

/// A Fragment comes.
pub fn go_on<R: Joins>(
    alloc: Global,
    interface: &Interface,
    calls: &mut CallTable<R>,
    message: &Msg,
) -> Result<(), SessionFault>
    requires { length message.now.payload ≤ 2 ^ 62 }
    ensures { IsHeardBy R.Side (named (request_id_of message.now)
        (continues_at R.pieces interface.now message.now calls.old)) calls.old result calls.new }
{
    let id = named_id(message)?;
    match (is_continued(calls, id, message.order), message.more) {
        (true, true) => add(calls, id, message),
        (true, false) => complete(alloc, interface, calls, id, message),
        (false, _) => happen(calls, id, R::stray(message)),
    }
}

// Whether pieces of this byte order continue what is gathered for the id.
fn is_continued<R: Joins>(calls: &CallTable<R>, id: u32, order: Order) -> bool
    ensures { result ≡ is_some (continued_at R.pieces calls.now id order) }
{
    let (Some(slot), Some((held, _))) = (calls.slot(id), calls.pieces(id)) else {
        return false;
    };
    order == held && R::known(&slot.entry).is_some()
}

// A Fragment comes that continues what is gathered, with more to come.
fn add<R: Joins>(calls: &mut CallTable<R>, id: u32, message: &Msg) -> Result<(), SessionFault>
    requires { is_some (continued_at R.pieces calls.old id message.now.order) ≡ true }
    ensures { IsHeardBy R.Side (ActsOn id (goes_on R.pieces message.now)) calls.old result
        calls.new }
{
    match calls.go_on(id, message.order, behind_id(message)) {
        Ok(()) => Ok(()),
        Err(fault) => result_of(id, Err(fault)),
    }
}

// The last Fragment of what is gathered comes.
fn complete<R: Joins>(
    alloc: Global,
    interface: &Interface,
    calls: &mut CallTable<R>,
    id: u32,
    message: &Msg,
) -> Result<(), SessionFault>
    requires { is_some (continued_at R.pieces calls.old id message.now.order) ≡ true }
    ensures { OfGathered R.pieces calls.old id (λ known pieces. IsHeardBy R.Side (ActsOn id
        (completes R.pieces interface.now known message.now pieces.octets)) calls.old result
        calls.new) }
{
    if !calls.has_room(behind_id(message).len()) {
        return Err(SessionFault::GatherFull);
    }
    let Some(whole) = joined(alloc, interface, calls, id, message) else {
        return Err(SessionFault::NoMemory);
    };
    calls.finish(id, silently(R::last(whole)));
    Ok(())
}

// What the gathered pieces and the last one come to, read where they lie. `None` where it is out of
// memory.
fn joined<R: Joins>(
    alloc: Global,
    interface: &Interface,
    calls: &CallTable<R>,
    id: u32,
    message: &Msg,
) -> Option<R::Whole>
    requires { octets_in (finite.get calls.now.gathered id)
        + length (behind_id message.now) ≤ 2 ^ 62 }
    ensures { IfSome result (λ whole. OfGathered R.pieces calls.now id (λ known pieces.
        whole ≡ whole_with R.pieces interface.now known message.now pieces.octets)) }
{
    let known = R::known(&calls.slot(id)?.entry)?;
    let (_, gathered) = calls.pieces(id)?;
    let joined = WithLast::new(&gathered, behind_id(message));
    R::whole(alloc, interface, known, message, &joined)
}

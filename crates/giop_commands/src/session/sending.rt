//! Pieces of calls and of answers (CORBA 3.3 Part 2, 9.4.9) are put out, one of each id in turn.
//! The order is `SendsAll` in specs/Session/Acts.antt: change both.
ghost use Rattle.std.specs.Prelude.{◌≡◌, map, max, IfOk};
ghost use Rattle.giop_commands.specs.Session.Acts.{left_at, most, outbox_of, SendsAll, SendsNext, SendsPiece, SendsRound};
ghost use Rattle.giop_end.specs.Ends.View.{IsActedOn};
ghost use Rattle.giop_end.specs.Hearing.Heard.{in_call};

use crate::session::told_of;
use giop_calls::{ClientEntry, ClientRule, ServerEntry, ServerRule};
use giop_end::{End, SendsPieces, SessionFault};
use giop_show::failure::Failure;
use std::alloc::Global;

/// A side of a connection of whose messages it is known how many pieces are left.
pub trait Sender: SendsPieces {
    ghost use Rattle.std.specs.Prelude.{◌≡◌, ℕ};

    ghost left_in: { Self.Entry → ℕ };

    /// How many pieces of a call with this entry aren't put out yet.
    fn left(entry: &Self::Entry) -> u32
        ensures { result ≡ left_in entry.now };
}

impl Sender for ClientRule {
    ghost use Rattle.giop_calls.specs.ClientTable.{left_of};

    ghost left_in = { left_of };

    fn left(entry: &ClientEntry) -> u32 {
        entry.left()
    }
}

impl Sender for ServerRule {
    ghost use Rattle.giop_calls.specs.ServerTable.{left_of};

    ghost left_in = { left_of };

    fn left(entry: &ServerEntry) -> u32 {
        entry.left()
    }
}

/// Puts out one piece of each id that has pieces left, in ascending order of the ids, and so on
/// until none is left. Returns the fault of a refused one, at which it stops.
pub fn send_all<R: Sender>(
    alloc: Global,
    end: &mut End<'_, R>,
) -> Result<Option<SessionFault>, Failure>
    ensures sends { IfOk result (λ refused. SendsAll R.next R.closed R.gathering in_call R.sends
        end.old.fault R.left_in (outbox_of end.old) refused (outbox_of end.new)) }
    ensures others { IsActedOn end.old end.new }
{
    let ids = end.ids(alloc)?;
    let most = most_left(end, ids.as_slice());
    'rounds: for done in 0..most {
        if let Some(fault) = send_each(end, ids.as_slice())? {
            return Ok(Some(fault));
        }
    }
    Ok(None)
}

// How many pieces are left of the id that has the most of them.
fn most_left<R: Sender>(end: &End<'_, R>, ids: &[u32]) -> u32
    ensures { result ≡ most (map (left_at R.next R.closed R.gathering in_call R.sends
        end.now.fault R.left_in end.now.calls) ids.now) }
{
    let mut most = 0;
    for id in ids {
        most = greater(most, left_of(end, *id));
    }
    most
}

// The greater of two counts.
fn greater(one: u32, other: u32) -> u32
    ensures { result ≡ max one other }
{
    if one < other { other } else { one }
}

// How many pieces are left of an id.
fn left_of<R: Sender>(end: &End<'_, R>, id: u32) -> u32
    ensures { result ≡ left_at R.next R.closed R.gathering in_call R.sends end.now.fault R.left_in
        end.now.calls id }
{
    match end.entry(id) {
        Some(entry) => R::left(entry),
        None => 0,
    }
}

// Puts out one piece of each id that has some left.
fn send_each<R: Sender>(end: &mut End<'_, R>, ids: &[u32]) -> Result<Option<SessionFault>, Failure>
    ensures sends { IfOk result (λ refused. SendsRound R.next R.closed R.gathering in_call R.sends
        end.old.fault R.left_in ids.now 0 (outbox_of end.old) refused (outbox_of end.new)) }
    ensures others { IsActedOn end.old end.new }
{
    'ids: for id in ids {
        if let Some(fault) = send_next(end, *id)? {
            return Ok(Some(fault));
        }
    }
    Ok(None)
}

// Puts out the next piece of an id, where it has some left.
fn send_next<R: Sender>(end: &mut End<'_, R>, id: u32) -> Result<Option<SessionFault>, Failure>
    ensures sends { IfOk result (λ refused. SendsNext R.next R.closed R.gathering in_call R.sends
        end.old.fault R.left_in id (outbox_of end.old) refused (outbox_of end.new)) }
    ensures others { IsActedOn end.old end.new }
{
    if left_of(end, id) == 0 {
        return Ok(None);
    }
    told_of(send_piece(end, id))
}

// Puts out the next piece of the message of an id.
fn send_piece<R: Sender>(end: &mut End<'_, R>, id: u32) -> Result<(), SessionFault>
    ensures sent { SendsPiece R.next R.closed R.gathering in_call R.sends end.old.fault id
        (outbox_of end.old) result (outbox_of end.new) }
    ensures others { IsActedOn end.old end.new }
{
    end.send(id)
}

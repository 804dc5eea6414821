//! A turn of `call --stream`: calls are made as there is room for them, what is outgoing is
//! written, the peer is read once, and the calls that are over are told. Its meaning is `Goes` in
//! specs/Call/Streaming.antt: change both.
ghost use Rattle.std.specs.Prelude.{◌≡◌, ◌&&◌, None, IfOk, OnOk};
ghost use Rattle.std.specs.Io.KnownBytes.{Appends};
ghost use Rattle.giop_end.specs.Ends.View.{IsActedOn, IsTurned};
ghost use Rattle.giop_calls.specs.ClientTable.{is_closed};
ghost use Rattle.giop_commands.specs.Session.Acts.{outbox_of};
ghost use Rattle.giop_calling.specs.Call.Calling.{asked_of};
ghost use Rattle.giop_calling.specs.Call.Streaming.{CallsNext, GoesOver, Makes, TakesNext, TurnsAt, all_over_well, has_room, is_done, next_has_room, still_open};
ghost use Rattle.giop_commands.specs.Session.Streaming.{over_text};
ghost use Rattle.giop_commands.specs.Session.Tables.Table.{client_entry_in};
ghost use Rattle.giop_commands.specs.Session.Traffic.{traffic};

use crate::call::call_one;
use crate::call::given::Calling;
use crate::call::well::{all_over_well, are_over};
use giop_asked_calls::calls::CallLine;
use giop_commands::session::given::{Pipes, Showing};
use giop_commands::session::sending::send_all;
use giop_commands::session::streaming::tell_over;
use giop_commands::session::{SessionTurn, TURNS, goes_on, write_all_out};
use giop_end::{ClientEnd, Limits, SessionFault};
use giop_show::failure::Failure;
use std::alloc::{AllocError, Global};
use std::collections::VecDeque;
use std::io::{Read, Write};

// Another call is made while fewer octets are outgoing: as many as one read may give.
const MOST_OUTGOING: usize = 4_096;

/// Makes calls, takes a turn, and tells the calls that are over; unless no call is left, the input
/// ends, the end fails, or a call is refused.
pub fn turn_of_calls<R: Read, W: Write, O: Write>(
    alloc: Global,
    end: &mut ClientEnd<'_>,
    calling: Calling<'_>,
    left: &mut VecDeque<CallLine>,
    well: &mut bool,
    pipes: &mut Pipes<R, W, O>,
) -> Result<SessionTurn, Failure>
    requires interface { end.old.interface.now ≡ calling.interface.now }
    requires limits { end.old.limits ≡ calling.limits }
    requires fault { end.old.fault ≡ None }
    ensures goes { (all : _) → IfOk result (λ turn. GoesOver calling.entry all end.old end.new
        left.old.items left.new.items well.old well.new turn
        (traffic R.remaining W.contents O.contents pipes.old pipes.new)) }
    ensures fault { IfOk result (λ turn. turn ≡ SessionTurn.GoesOn → end.new.fault ≡ None) }
    ensures others { OnOk result (IsTurned end.old end.new) }
{
    if is_done(alloc, end, left)? {
        return Ok(SessionTurn::Ends(None));
    }
    if let Some(fault) = call_next(alloc, end, calling, left)? {
        return Ok(SessionTurn::Ends(Some(fault)));
    }
    if !take_turn(alloc, end, &mut pipes.reader, &mut pipes.writer)? {
        return Ok(SessionTurn::Ends(None));
    }
    let (lines, interface) = (calling.lines, calling.interface);
    let showing = Showing { lines, interface };
    *well = tell_turn(alloc, showing, end, *well, &mut pipes.out)?;
    Ok(SessionTurn::GoesOn)
}

// Whether no call is left to be made, and none is open.
fn is_done(
    alloc: Global,
    end: &ClientEnd<'_>,
    left: &VecDeque<CallLine>,
) -> Result<bool, AllocError>
    ensures { IfOk result (λ done. done ≡ is_done left.now.items end.now.calls) }
{
    Ok(left.is_empty() && end.ids(alloc)?.is_empty())
}

// Makes the calls that there is room for, and puts out the pieces that are left of them. Returns
// the fault of a refused one, at which it stops.
fn call_next(
    alloc: Global,
    end: &mut ClientEnd<'_>,
    calling: Calling<'_>,
    left: &mut VecDeque<CallLine>,
) -> Result<Option<SessionFault>, Failure>
    requires interface { end.old.interface.now ≡ calling.interface.now }
    requires limits { end.old.limits ≡ calling.limits }
    ensures calls { (all : _) → IfOk result (λ refused. CallsNext (asked_of calling.entry all)
        end.old.fault left.old.items left.new.items (outbox_of end.old) refused (outbox_of end.new)) }
    ensures others { IsActedOn end.old end.new }
{
    if let Some(fault) = make_calls(alloc, end, calling, left)? {
        return Ok(Some(fault));
    }
    send_all(alloc, end)
}

// Makes calls while there is room for the next. Returns the fault of a refused one, at which it
// stops.
fn make_calls(
    alloc: Global,
    end: &mut ClientEnd<'_>,
    calling: Calling<'_>,
    left: &mut VecDeque<CallLine>,
) -> Result<Option<SessionFault>, Failure>
    requires interface { end.old.interface.now ≡ calling.interface.now }
    requires limits { end.old.limits ≡ calling.limits }
    ensures calls { (all : _) → IfOk result (λ refused. Makes (asked_of calling.entry all)
        end.old.fault left.old.items left.new.items (outbox_of end.old) refused (outbox_of end.new)) }
    ensures others { IsActedOn end.old end.new }
{
    'calls: for done in 0..TURNS {
        let Some(call) = next_call(alloc, calling.limits, end, left)? else {
            return Ok(None);
        };
        if let Some(fault) = call_one(alloc, end, calling, call)? {
            return Ok(Some(fault));
        }
    }
    Err(Failure::TurnsSpent)
}

// Takes the next call, where there is room for it.
fn next_call(
    alloc: Global,
    limits: Limits,
    end: &ClientEnd<'_>,
    left: &mut VecDeque<CallLine>,
) -> Result<Option<CallLine>, AllocError>
    ensures { IfOk result (λ next. TakesNext limits left.old.items (outbox_of end.now) next
        left.new.items) }
{
    if !next_has_room(alloc, limits, end, left)? {
        return Ok(None);
    }
    Ok(left.pop_front())
}

// Whether there is a next call, and room for it.
fn next_has_room(
    alloc: Global,
    limits: Limits,
    end: &ClientEnd<'_>,
    left: &VecDeque<CallLine>,
) -> Result<bool, AllocError>
    ensures { IfOk result (λ room. room ≡ next_has_room limits left.now.items (outbox_of end.now)) }
{
    match left.front() {
        Some(call) => has_room(alloc, limits, end, call),
        None => Ok(false),
    }
}

// Whether there is room for a call: none is open; or fewer than the limit are, none under its id,
// and little is outgoing.
fn has_room(
    alloc: Global,
    limits: Limits,
    end: &ClientEnd<'_>,
    call: &CallLine,
) -> Result<bool, AllocError>
    ensures { IfOk result (λ room. room ≡ has_room limits call.now (outbox_of end.now)) }
{
    let open = end.ids(alloc)?.len();
    Ok(
        open == 0
            || open < limits.calls as usize
                && end.entry(call.id).is_none()
                && end.outgoing().len() < MOST_OUTGOING,
    )
}

// Writes what is outgoing, and reads once unless all calls are over. Returns whether the session
// continues.
fn take_turn<R: Read, W: Write>(
    alloc: Global,
    end: &mut ClientEnd<'_>,
    reader: &mut R,
    writer: &mut W,
) -> Result<bool, Failure>
    ensures turns { IfOk result (λ goes. TurnsAt end.old.interface.now (R.remaining reader.old)
        (W.contents writer.old) end.old goes (R.remaining reader.new) (W.contents writer.new)
        end.new) }
    ensures others { IsTurned end.old end.new }
{
    let ids = end.ids(alloc)?;
    if are_over(end, ids.as_slice()) {
        write_all_out(end, writer)?;
        return Ok(true);
    }
    goes_on(end, reader, writer)
}

// Tells the calls that are over and takes them out. Returns whether they and all before went well.
fn tell_turn<O: Write>(
    alloc: Global,
    showing: Showing<'_>,
    end: &mut ClientEnd<'_>,
    well: bool,
    out: &mut O,
) -> Result<bool, Failure>
    requires { end.old.fault ≡ None }
    ensures well { IfOk result (λ all. all ≡ (well && all_over_well end.old.calls.table)) }
    ensures text { OnOk result (Appends (O.contents out.old) (O.contents out.new)
        (over_text is_closed (client_entry_in showing.entry.lines showing.entry.interface.now)
        end.old.calls.table)) }
    ensures left { OnOk result (end.new ≡ record end.old { calls = still_open end.old.calls }) }
{
    let over_well = all_over_well(alloc, end)?;
    tell_over(alloc, showing, end, out)?;
    Ok(well && over_well)
}

//! `call --stream`: calls are made as there is room for them, and told as soon as they are over.
//! Its meaning is specs/CallStreaming.antt: change both.
ghost use Rattle.std.specs.Prelude.{◌≡◌, ◌&&◌, ◌==◌, None, Some, Ok, true, IfOk, OnOk, length};
ghost use Rattle.std.specs.FinMap as finite;
ghost use Rattle.std.specs.List.{list_all};
ghost use Rattle.std.specs.Io.KnownBytes.{Appends};
ghost use Rattle.giop_end.specs.Acts.Form.{IsForm};
ghost use Rattle.giop_end.specs.Pumping.{between};
ghost use Rattle.giop_calls.specs.ClientTable.{is_closed};
ghost use Rattle.giop_commands.specs.Acts.{outbox};
ghost use Rattle.giop_commands.specs.CallStreaming.{CallsNext, Makes, Streams, TakesNext, Turns, all_done, all_over_well, course, has_room, is_done, is_over_well, left_text, next_has_room, still_open, stream_status, unsent_text};
ghost use Rattle.giop_commands.specs.Calling.{asked_of};
ghost use Rattle.giop_commands.specs.Endings.{CallsStreamEnd, Ends};
ghost use Rattle.giop_commands.specs.Sessions.{told, wire};
ghost use Rattle.giop_commands.specs.Streaming.{over_text};
ghost use Rattle.giop_commands.specs.Table.{client_entry_in};

pub mod feeding;

use crate::call::calls::CallLine;
use crate::call::given::Calling;
use crate::call::{all_well, are_over, call_one, is_well_at};
use crate::session::broken::broken_status;
use crate::session::ending::{Ending, ending_of};
use crate::session::sending::send_all;
use crate::session::streaming::{Streamed, tell_left, tell_over};
use crate::session::table::Tabled;
use crate::session::{TURNS, goes_on, told, write_all_out, write_fault};
use giop_calls::{ClientEntry, ClientRule};
use giop_end::{ClientEnd, Limits, SessionFault};
use giop_lines::{UnsentJson, UnsentLine};
use giop_show::failure::Failure;
use giop_show::form::{LineForm, write_line};
use giop_show::status::Status;
use giop_types::Interface;
use std::alloc::{AllocError, Global};
use std::collections::VecDeque;
use std::io::{Read, Write};

// Another call is made while fewer octets are outgoing: as many as one read may give.
const MOST_OUTGOING: usize = 4_096;

impl Streamed for ClientRule {
    ghost use Rattle.giop_commands.specs.Table.{client_entry_in};

    ghost told = { client_entry_in };

    fn is_over(entry: &ClientEntry) -> bool {
        entry.is_closed()
    }

    fn told_text(
        alloc: Global,
        lines: LineForm,
        interface: &Interface,
        id: u32,
        entry: &ClientEntry,
    ) -> Result<String, AllocError> {
        ClientRule::entry_text(alloc, lines, interface, id, entry)
    }
}

/// Calls as `call_over` does, and tells the calls in a form as they end. A call is made as soon as there is
/// room: fewer calls than the limit are open, none has its id, and little is outgoing. After each
/// read, each call that is over has its line, in ascending order of the ids, and is taken out. So
/// any number of calls takes the memory of those that are open. At the end there are the lines of
/// the calls that are open, and those of the calls that weren't made, `ID Unsent`; and then the
/// fault, where one ended the session. `out` is flushed before each read.
///
/// It is `Done` where no call was refused, and each got its result, or was sent and has none;
/// `LimitPassed` where a limit kept one from it; else `Refused`. Where something fails, what failed
/// is returned; where that is the connection, what is left has its lines before. Beside the status
/// it tells which calls are open where the input ended.
pub fn call_stream<R: Read, W: Write, O: Write>(
    alloc: Global,
    calling: Calling<'_>,
    calls: Vec<CallLine>,
    lines: LineForm,
    reader: &mut R,
    writer: &mut W,
    out: &mut O,
) -> Result<Ending, Failure>
    ensures { IfOk result (CallsStreamEnd (asked_of calling.entry calls.items) lines
        (wire (R.remaining reader.old) (W.contents writer.old))
        (wire (R.remaining reader.new) (W.contents writer.new))
        (O.contents out.old) (O.contents out.new)) }
{
    let mut end = ClientEnd::new(alloc, calling.interface, calling.limits);
    let mut left = VecDeque::from(calls);
    let mut well = true;
    match converse(
        alloc, &mut end, calling, lines, &mut left, &mut well, reader, writer, out,
    ) {
        Ok(refused) => tell_end(
            alloc,
            lines,
            calling.interface,
            &end,
            &left,
            well,
            refused,
            out,
        ),
        Err(failure) => {
            tell_open(alloc, lines, calling.interface, &end, &left, None, out)?;
            Err(failure)
        }
    }
}

// Makes calls, takes turns, and tells the calls that are over, until none is left, the input ends
// or the end fails. Returns the fault of a call that was refused, at which it stops.
fn converse<R: Read, W: Write, O: Write>(
    alloc: Global,
    end: &mut ClientEnd<'_>,
    calling: Calling<'_>,
    lines: LineForm,
    left: &mut VecDeque<CallLine>,
    well: &mut bool,
    reader: &mut R,
    writer: &mut W,
    out: &mut O,
) -> Result<Option<SessionFault>, Failure>
    requires interface { end.old.interface.now ≡ calling.interface.now }
    requires limits { end.old.limits ≡ calling.limits }
    requires fault { end.old.fault ≡ None }
    ensures { IfOk result (λ refused. Streams (asked_of calling.entry left.old.items) lines
        (course (between (R.remaining reader.old) (W.contents writer.old) end.old.outgoing
        end.old.framer end.old.calls end.old.fault) (O.contents out.old) left.old.items well.old)
        refused
        (course (between (R.remaining reader.new) (W.contents writer.new) end.new.outgoing
        end.new.framer end.new.calls end.new.fault) (O.contents out.new) left.new.items well.new)) }
{
    'turns: for done in 0..TURNS {
        if is_done(alloc, end, left)? {
            return Ok(None);
        }
        if let Some(fault) = call_next(alloc, end, calling, left)? {
            return Ok(Some(fault));
        }
        if !take_turn(alloc, end, reader, writer)? {
            return Ok(None);
        }
        *well = tell_turn(alloc, lines, calling.interface, end, *well, out)?;
    }
    Err(Failure::TurnsSpent)
}

// Whether no call is left to be made, and none is open.
fn is_done(
    alloc: Global,
    end: &ClientEnd<'_>,
    left: &VecDeque<CallLine>,
) -> Result<bool, AllocError>
    ensures { IfOk result (λ done. done ≡ is_done left.now.items end.now.calls) }
{
    Ok(left.is_empty() && end.ids(alloc)?.is_empty())
}

// Makes the calls that there is room for, and puts out the pieces that are left of them. Returns
// the fault of a refused one, at which it stops.
fn call_next(
    alloc: Global,
    end: &mut ClientEnd<'_>,
    calling: Calling<'_>,
    left: &mut VecDeque<CallLine>,
) -> Result<Option<SessionFault>, Failure>
    requires interface { end.old.interface.now ≡ calling.interface.now }
    requires limits { end.old.limits ≡ calling.limits }
    ensures calls { (all : _) → IfOk result (λ refused. CallsNext (asked_of calling.entry all)
        end.old.fault left.old.items left.new.items (outbox end.old.calls end.old.outgoing) refused
        (outbox end.new.calls end.new.outgoing)) }
    ensures others { end.new ≡ record end.old {
      calls = end.new.calls;
      outgoing = end.new.outgoing;
    } }
{
    if let Some(fault) = make_calls(alloc, end, calling, left)? {
        return Ok(Some(fault));
    }
    send_all(alloc, end)
}

// Makes calls while there is room for the next. Returns the fault of a refused one, at which it
// stops.
fn make_calls(
    alloc: Global,
    end: &mut ClientEnd<'_>,
    calling: Calling<'_>,
    left: &mut VecDeque<CallLine>,
) -> Result<Option<SessionFault>, Failure>
    requires interface { end.old.interface.now ≡ calling.interface.now }
    requires limits { end.old.limits ≡ calling.limits }
    ensures calls { (all : _) → IfOk result (λ refused. Makes (asked_of calling.entry all)
        end.old.fault left.old.items left.new.items (outbox end.old.calls end.old.outgoing) refused
        (outbox end.new.calls end.new.outgoing)) }
    ensures others { end.new ≡ record end.old {
      calls = end.new.calls;
      outgoing = end.new.outgoing;
    } }
{
    'calls: for done in 0..TURNS {
        let Some(call) = next_call(alloc, calling.limits, end, left)? else {
            return Ok(None);
        };
        let (key, version, form) = (calling.key, calling.version, calling.form);
        if let Some(fault) = call_one(alloc, end, call, key, version, form)? {
            return Ok(Some(fault));
        }
    }
    Err(Failure::TurnsSpent)
}

// Takes the next call, where there is room for it.
fn next_call(
    alloc: Global,
    limits: Limits,
    end: &ClientEnd<'_>,
    left: &mut VecDeque<CallLine>,
) -> Result<Option<CallLine>, AllocError>
    ensures { IfOk result (λ next. TakesNext limits left.old.items
        (outbox end.now.calls end.now.outgoing) next left.new.items) }
{
    if !next_has_room(alloc, limits, end, left)? {
        return Ok(None);
    }
    Ok(left.pop_front())
}

// Whether there is a next call, and room for it.
fn next_has_room(
    alloc: Global,
    limits: Limits,
    end: &ClientEnd<'_>,
    left: &VecDeque<CallLine>,
) -> Result<bool, AllocError>
    ensures { IfOk result (λ room. room
        ≡ next_has_room limits left.now.items (outbox end.now.calls end.now.outgoing)) }
{
    match left.front() {
        Some(call) => has_room(alloc, limits, end, call),
        None => Ok(false),
    }
}

// Whether there is room for a call: none is open; or fewer than the limit are, none under its id,
// and little is outgoing.
fn has_room(
    alloc: Global,
    limits: Limits,
    end: &ClientEnd<'_>,
    call: &CallLine,
) -> Result<bool, AllocError>
    ensures { IfOk result (λ room. room
        ≡ has_room limits call.now (outbox end.now.calls end.now.outgoing)) }
{
    let open = end.ids(alloc)?.len();
    Ok(
        open == 0
            || open < limits.calls as usize
                && end.entry(call.id).is_none()
                && end.outgoing().len() < MOST_OUTGOING,
    )
}

// Writes what is outgoing, and reads once unless all calls are over. Returns whether the session
// continues.
fn take_turn<R: Read, W: Write>(
    alloc: Global,
    end: &mut ClientEnd<'_>,
    reader: &mut R,
    writer: &mut W,
) -> Result<bool, Failure>
    ensures turns { IfOk result (λ goes. Turns end.old.interface.now
        (between (R.remaining reader.old) (W.contents writer.old) end.old.outgoing end.old.framer
        end.old.calls end.old.fault)
        goes
        (between (R.remaining reader.new) (W.contents writer.new) end.new.outgoing end.new.framer
        end.new.calls end.new.fault)) }
    ensures others { end.new ≡ record end.old {
      outgoing = end.new.outgoing;
      framer = end.new.framer;
      calls = end.new.calls;
      fault = end.new.fault;
    } }
{
    let ids = end.ids(alloc)?;
    if are_over(end, ids.as_slice()) {
        write_all_out(end, writer)?;
        return Ok(true);
    }
    goes_on(end, reader, writer)
}

// Tells the calls that are over and takes them out. Returns whether they and all before went well.
fn tell_turn<O: Write>(
    alloc: Global,
    lines: LineForm,
    interface: &Interface,
    end: &mut ClientEnd<'_>,
    well: bool,
    out: &mut O,
) -> Result<bool, Failure>
    requires { end.old.fault ≡ None }
    ensures well { IfOk result (λ all. all ≡ (well && all_over_well end.old.calls.table)) }
    ensures text { OnOk result (Appends (O.contents out.old) (O.contents out.new)
        (over_text is_closed (client_entry_in lines interface.now) end.old.calls.table)) }
    ensures left { OnOk result (end.new ≡ record end.old { calls = still_open end.old.calls }) }
{
    let over_well = all_over_well(alloc, end)?;
    tell_over(alloc, lines, interface, end, out)?;
    Ok(well && over_well)
}

// Whether all calls that are over went well.
fn all_over_well(alloc: Global, end: &ClientEnd<'_>) -> Result<bool, AllocError>
    ensures { IfOk result (λ well. well ≡ all_over_well end.now.calls.table) }
{
    let ids = end.ids(alloc)?;
    Ok(are_over_well(end, ids.as_slice()))
}

// Whether those of all ids whose calls are over went well.
fn are_over_well(end: &ClientEnd<'_>, ids: &[u32]) -> bool
    ensures { result ≡ list_all (is_over_well end.now.calls.table) ids.now }
{
    ids.iter().all(|id| is_over_well(end, *id))
}

// Whether the call of an id went well, where it is over.
fn is_over_well(end: &ClientEnd<'_>, id: u32) -> bool
    ensures { result ≡ is_over_well end.now.calls.table id }
{
    match end.entry(id) {
        Some(entry) if entry.is_closed() => is_well_at(end, id),
        _ => true,
    }
}

// Writes what is left, and returns what the session came to.
fn tell_end<O: Write>(
    alloc: Global,
    lines: LineForm,
    interface: &Interface,
    end: &ClientEnd<'_>,
    left: &VecDeque<CallLine>,
    well: bool,
    refused: Option<SessionFault>,
    out: &mut O,
) -> Result<Ending, Failure>
    ensures text { OnOk result (Appends (O.contents out.old) (O.contents out.new)
        (left_text lines interface.now end.now.calls left.now.items (told refused end.now.fault))) }
    ensures ok { IfOk result (λ ending. ending.status ≡ stream_status refused end.now.fault
        (all_done well end.now.calls left.now.items)) }
    ensures ends { IfOk result (Ends is_closed (told refused end.now.fault) end.now.calls.table
        end.now.framer) }
{
    let fault = told(refused, end.fault());
    tell_open(alloc, lines, interface, end, left, fault, out)?;
    let done = well && all_well(alloc, end)? && left.is_empty();
    let status = stream_status(refused, end.fault(), done);
    Ok(ending_of(alloc, end, fault, status)?)
}

// Writes the lines of the calls that are open, those of the calls that weren't made, and the fault.
fn tell_open<O: Write>(
    alloc: Global,
    lines: LineForm,
    interface: &Interface,
    end: &ClientEnd<'_>,
    left: &VecDeque<CallLine>,
    fault: Option<SessionFault>,
    out: &mut O,
) -> Result<(), Failure>
    ensures { OnOk result (Appends (O.contents out.old) (O.contents out.new)
        (left_text lines interface.now end.now.calls left.now.items fault)) }
{
    tell_left(alloc, lines, interface, end, out)?;
    tell_unsent(lines, left, out)?;
    write_fault(lines, fault, out)?;
    out.flush()?;
    Ok(())
}

// Writes a line for each call that wasn't made.
#[tactic(auto, using(crate::proofs::CallStreamingLemmas::unsent_on))]
fn tell_unsent<O: Write>(
    lines: LineForm,
    left: &VecDeque<CallLine>,
    out: &mut O,
) -> Result<(), Failure>
    ensures { OnOk result (Appends (O.contents out.old) (O.contents out.new)
        (unsent_text lines left.now.items)) }
{
    let (front, back) = left.as_slices();
    tell_each_unsent(lines, front, out)?;
    tell_each_unsent(lines, back, out)
}

// Writes a line for each of these calls.
fn tell_each_unsent<O: Write>(
    lines: LineForm,
    calls: &[CallLine],
    out: &mut O,
) -> Result<(), Failure>
    ensures { OnOk result (Appends (O.contents out.old) (O.contents out.new)
        (unsent_text lines calls.now)) }
{
    for call in calls {
        write_line(lines, UnsentLine(call.id), UnsentJson(call.id), out)?;
    }
    Ok(())
}

/// The status of calls: whether one was refused at this end, and whether all went well.
pub fn stream_status(
    refused: Option<SessionFault>,
    fault: Option<SessionFault>,
    done: bool,
) -> Status
    ensures { result ≡ stream_status refused fault done }
{
    match (refused, fault) {
        (Some(why), _) => broken_status(why),
        (None, _) if done => Status::Done,
        (None, Some(why)) => broken_status(why),
        (None, None) => Status::Refused,
    }
}

//! `call --stream`: calls are made as there is room for them, and told as soon as they are over.
//! Its meaning is specs/Call/Streaming.antt: change both.
ghost use Rattle.std.specs.Prelude.{◌≡◌, None, IfOk, OnOk};
ghost use Rattle.std.specs.Io.KnownBytes.{Appends};
ghost use Rattle.giop_calls.specs.ClientTable.{is_closed};
ghost use Rattle.giop_calling.specs.Call.Calling.{IsNew};
ghost use Rattle.giop_calling.specs.Call.Streaming.{StreamsOver, all_done, left_text, stream_status, unsent_text};
ghost use Rattle.giop_calling.specs.Call.Endings.{CallsStreamEndOver};
ghost use Rattle.giop_commands.specs.Session.Endings.{Ends};
ghost use Rattle.giop_commands.specs.Session.Printed.{told};
ghost use Rattle.giop_commands.specs.Session.Traffic.{traffic};

pub mod feeding;
mod turns;

use crate::call::given::Calling;
use crate::call::streaming::turns::turn_of_calls;
use crate::call::well::all_well;
use giop_asked_calls::calls::CallLine;
use giop_call_lines::{UnsentJson, UnsentLine};
use giop_commands::session::ending::{Ending, ending_of};
use giop_commands::session::faults::broken::broken_status;
use giop_commands::session::given::{Pipes, Showing};
use giop_commands::session::streaming::tell_left;
use giop_commands::session::{SessionTurn, TURNS, told, write_fault};
use giop_end::{ClientEnd, SessionFault};
use giop_forms::LineForm;
use giop_show::failure::Failure;
use giop_show::form::write_line;
use giop_show::status::Status;
use std::alloc::Global;
use std::collections::VecDeque;
use std::io::{Read, Write};

/// Calls as `call_over` does, and tells the calls in a form as they end. A call is made as soon as
/// there is room: fewer calls than the limit are open, none has its id, and little is outgoing.
/// After each read, each call that is over has its line, in ascending order of the ids, and is
/// taken out. So any number of calls takes the memory of those that are open. At the end there are
/// the lines of the calls that are open, and those of the calls that weren't made, `ID Unsent`; and
/// then the fault, where one ended the session. What is printed is flushed before each read.
///
/// It is `Done` where no call was refused, and each got its result, or was sent and has none;
/// `LimitPassed` where a limit kept one from it; else `Refused`. Where something fails, what failed
/// is returned; where that is the connection, what is left has its lines before. Beside the status
/// it tells which calls are open where the input ended.
pub fn call_stream<R: Read, W: Write, O: Write>(
    alloc: Global,
    calling: Calling<'_>,
    calls: Vec<CallLine>,
    pipes: &mut Pipes<R, W, O>,
) -> Result<Ending, Failure>
    ensures { IfOk result (CallsStreamEndOver calling.entry calls.items
        (traffic R.remaining W.contents O.contents pipes.old pipes.new)) }
{
    let mut end = ClientEnd::new(alloc, calling.interface, calling.limits);
    let mut left = VecDeque::from(calls);
    stream_with(alloc, &mut end, calling, &mut left, pipes)
}

// Calls by a new end, and prints each call when it is over.
fn stream_with<R: Read, W: Write, O: Write>(
    alloc: Global,
    end: &mut ClientEnd<'_>,
    calling: Calling<'_>,
    left: &mut VecDeque<CallLine>,
    pipes: &mut Pipes<R, W, O>,
) -> Result<Ending, Failure>
    requires { IsNew calling end.old }
    ensures { IfOk result (CallsStreamEndOver calling.entry left.old.items
        (traffic R.remaining W.contents O.contents pipes.old pipes.new)) }
{
    let (lines, interface) = (calling.lines, calling.interface);
    let showing = Showing { lines, interface };
    let mut well = true;
    match stream_calls(alloc, end, calling, left, &mut well, pipes) {
        Ok(refused) => tell_end(alloc, showing, end, left, well, refused, &mut pipes.out),
        Err(failure) => {
            tell_open(alloc, showing, end, left, None, &mut pipes.out)?;
            Err(failure)
        }
    }
}

// Makes calls, takes turns, and tells the calls that are over, until none is left, the input ends
// or the end fails. Returns the fault of a call that was refused, at which it stops.
fn stream_calls<R: Read, W: Write, O: Write>(
    alloc: Global,
    end: &mut ClientEnd<'_>,
    calling: Calling<'_>,
    left: &mut VecDeque<CallLine>,
    well: &mut bool,
    pipes: &mut Pipes<R, W, O>,
) -> Result<Option<SessionFault>, Failure>
    requires interface { end.old.interface.now ≡ calling.interface.now }
    requires limits { end.old.limits ≡ calling.limits }
    requires fault { end.old.fault ≡ None }
    ensures { IfOk result (λ refused. StreamsOver calling.entry end.old end.new
        left.old.items left.new.items well.old well.new refused
        (traffic R.remaining W.contents O.contents pipes.old pipes.new)) }
{
    'turns: for done in 0..TURNS {
        if let SessionTurn::Ends(refused) = turn_of_calls(alloc, end, calling, left, well, pipes)? {
            return Ok(refused);
        }
    }
    Err(Failure::TurnsSpent)
}

// Writes what is left, and returns what the session came to.
fn tell_end<O: Write>(
    alloc: Global,
    showing: Showing<'_>,
    end: &ClientEnd<'_>,
    left: &VecDeque<CallLine>,
    well: bool,
    refused: Option<SessionFault>,
    out: &mut O,
) -> Result<Ending, Failure>
    ensures text { OnOk result (Appends (O.contents out.old) (O.contents out.new)
        (left_text showing.entry.lines showing.entry.interface.now end.now.calls left.now.items
        (told refused end.now.fault))) }
    ensures ok { IfOk result (λ ending. ending.status ≡ stream_status refused end.now.fault
        (all_done well end.now.calls left.now.items)) }
    ensures ends { IfOk result (Ends is_closed (told refused end.now.fault) end.now.calls.table
        end.now.framer) }
{
    let fault = told(refused, end.fault());
    tell_open(alloc, showing, end, left, fault, out)?;
    let done = well && all_well(alloc, end)? && left.is_empty();
    let status = stream_status(refused, end.fault(), done);
    Ok(ending_of(alloc, end, fault, status)?)
}

// Writes the lines of the calls that are open, those of the calls that weren't made, and the fault.
fn tell_open<O: Write>(
    alloc: Global,
    showing: Showing<'_>,
    end: &ClientEnd<'_>,
    left: &VecDeque<CallLine>,
    fault: Option<SessionFault>,
    out: &mut O,
) -> Result<(), Failure>
    ensures { OnOk result (Appends (O.contents out.old) (O.contents out.new)
        (left_text showing.entry.lines showing.entry.interface.now end.now.calls left.now.items
        fault)) }
{
    tell_left(alloc, showing, end, out)?;
    tell_unsent(showing.lines, left, out)?;
    write_fault(showing.lines, fault, out)?;
    out.flush()?;
    Ok(())
}

// Writes a line for each call that wasn't made.
#[tactic(auto, using(crate::proofs::OnCall::StreamingLemmas::unsent_on))]
fn tell_unsent<O: Write>(
    lines: LineForm,
    left: &VecDeque<CallLine>,
    out: &mut O,
) -> Result<(), Failure>
    ensures { OnOk result (Appends (O.contents out.old) (O.contents out.new)
        (unsent_text lines left.now.items)) }
{
    let (front, back) = left.as_slices();
    tell_each_unsent(lines, front, out)?;
    tell_each_unsent(lines, back, out)
}

// Writes a line for each of these calls.
fn tell_each_unsent<O: Write>(
    lines: LineForm,
    calls: &[CallLine],
    out: &mut O,
) -> Result<(), Failure>
    ensures { OnOk result (Appends (O.contents out.old) (O.contents out.new)
        (unsent_text lines calls.now)) }
{
    for call in calls {
        write_line(lines, UnsentLine(call.id), UnsentJson(call.id), out)?;
    }
    Ok(())
}

/// The status of calls: whether one was refused at this end, and whether all went well.
pub fn stream_status(
    refused: Option<SessionFault>,
    fault: Option<SessionFault>,
    done: bool,
) -> Status
    ensures { result ≡ stream_status refused fault done }
{
    match (refused, fault) {
        (Some(why), _) => broken_status(why),
        (None, _) if done => Status::Done,
        (None, Some(why)) => broken_status(why),
        (None, None) => Status::Refused,
    }
}

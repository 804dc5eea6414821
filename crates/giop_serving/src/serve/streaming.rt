//! `serve --stream`: a connection whose calls are told as soon as they are over, and taken out. Its
//! meaning is specs/Serve/Streaming.antt: change both.
ghost use Rattle.std.specs.Prelude.{◌≡◌, IfOk, None, OnOk};
ghost use Rattle.std.specs.Io.KnownBytes.{Appends};
ghost use Rattle.giop_calls.specs.ServerTable.{is_closed};
ghost use Rattle.giop_show.specs.Forms.{ended};
ghost use Rattle.giop_commands.specs.Session.Endings.{Ends};
ghost use Rattle.giop_serving.specs.Serve.Serving.{IsNew};
ghost use Rattle.giop_serving.specs.Serve.Endings.{ServesStreamEndOver};
ghost use Rattle.giop_commands.specs.Session.Faults.Lines.{last_in};
ghost use Rattle.giop_serving.specs.Serve.Printed.{connection_in, serve_status};
ghost use Rattle.giop_serving.specs.Serve.Streaming.{StreamsOver, left_text};
ghost use Rattle.giop_commands.specs.Session.Traffic.{traffic};

use crate::serve::given::Serving;
use crate::serve::in_turn::Passed;
use crate::serve::turns::turn_of_answers;
use crate::serve::{serve_status, write_connection};
use giop_commands::session::ending::{Ending, ending_of};
use giop_commands::session::given::{Pipes, Showing};
use giop_commands::session::streaming::{tell_left, tell_over};
use giop_commands::session::{SessionTurn, TURNS, told, write_session_fault};
use giop_end::{ServerEnd, SessionFault};
use giop_forms::LineForm;
use giop_lines::{RestJson, RestLine};
use giop_show::failure::Failure;
use giop_show::form::write_line;
use std::alloc::Global;
use std::io::{Read, Write};

/// Serves a connection of this number as `serve_over` does, and tells its calls in a form as they
/// end. The line of the connection is written at first. After the answers to each read, each call
/// that is over has its line, in ascending order of the ids, and is taken out. So a connection of
/// any number of calls takes the memory of those that are open. At the end there are the lines of
/// the calls that are left, and then how many octets are unread, or the fault. `out` is flushed
/// before each read.
///
/// What it comes to is that of `serve_over`, and so are the failures. Where the connection fails,
/// the calls that are left have their lines before the failure is returned.
pub fn stream_over<R: Read, W: Write, O: Write>(
    alloc: Global,
    number: u32,
    serving: Serving<'_>,
    passed: &mut Passed,
    pipes: &mut Pipes<R, W, O>,
) -> Result<Ending, Failure>
    ensures { IfOk result (ServesStreamEndOver number serving.entry passed.old passed.new
        (traffic R.remaining W.contents O.contents pipes.old pipes.new)) }
{
    let mut end = ServerEnd::new(alloc, serving.interface, serving.limits);
    stream_with(alloc, number, &mut end, serving, passed, pipes)
}

// Answers by a new end, and prints each call when it is over.
fn stream_with<R: Read, W: Write, O: Write>(
    alloc: Global,
    number: u32,
    end: &mut ServerEnd<'_>,
    serving: Serving<'_>,
    passed: &mut Passed,
    pipes: &mut Pipes<R, W, O>,
) -> Result<Ending, Failure>
    requires { IsNew serving end.old }
    ensures { IfOk result (ServesStreamEndOver number serving.entry passed.old passed.new
        (traffic R.remaining W.contents O.contents pipes.old pipes.new)) }
{
    let (lines, interface) = (serving.lines, serving.interface);
    let showing = Showing { lines, interface };
    tell_begin(lines, number, &mut pipes.out)?;
    match stream_answers(alloc, end, serving, passed, pipes) {
        Ok(refused) => {
            let ended = told(refused, end.fault());
            tell_end(alloc, showing, end, ended, &mut pipes.out)
        }
        Err(failure) => {
            tell_left(alloc, showing, end, &mut pipes.out)?;
            pipes.out.flush()?;
            Err(failure)
        }
    }
}

// Writes the line of the connection.
fn tell_begin<O: Write>(lines: LineForm, number: u32, out: &mut O) -> Result<(), Failure>
    ensures { OnOk result (Appends (O.contents out.old) (O.contents out.new)
        (ended (connection_in lines number))) }
{
    write_connection(lines, number, out)?;
    out.flush()?;
    Ok(())
}

// Writes the lines of the calls that are left, and the last line, and returns what the connection
// came to.
fn tell_end<O: Write>(
    alloc: Global,
    showing: Showing<'_>,
    end: &ServerEnd<'_>,
    fault: Option<SessionFault>,
    out: &mut O,
) -> Result<Ending, Failure>
    ensures text { OnOk result (Appends (O.contents out.old) (O.contents out.new)
        (left_text showing.entry.lines showing.entry.interface.now end.now.calls fault
        end.now.framer)) }
    ensures ok { IfOk result (λ ending. ending.status ≡ serve_status fault) }
    ensures ends { IfOk result (Ends is_closed fault end.now.calls.table end.now.framer) }
{
    tell_left(alloc, showing, end, out)?;
    write_last(showing.lines, fault, end.rest(), out)?;
    Ok(ending_of(alloc, end, fault, serve_status(fault))?)
}

// The last line: the fault, or how many octets are unread.
fn write_last<W: Write>(
    lines: LineForm,
    fault: Option<SessionFault>,
    rest: usize,
    writer: &mut W,
) -> Result<(), Failure>
    ensures { OnOk result (Appends (W.contents writer.old) (W.contents writer.new)
        (ended (last_in lines fault rest))) }
{
    match fault {
        Some(fault) => write_session_fault(lines, fault, writer),
        None => write_line(lines, RestLine(rest), RestJson(rest), writer),
    }
}

// Takes turns, answers after each, and tells the calls that are over, until the input ends or the
// end fails. Returns the fault of what could not be sent, at which it stops.
fn stream_answers<R: Read, W: Write, O: Write>(
    alloc: Global,
    end: &mut ServerEnd<'_>,
    serving: Serving<'_>,
    passed: &mut Passed,
    pipes: &mut Pipes<R, W, O>,
) -> Result<Option<SessionFault>, Failure>
    requires { end.old.interface.now ≡ serving.interface.now }
    ensures { IfOk result (λ refused. StreamsOver serving.entry end.old end.new passed.old
        passed.new refused (traffic R.remaining W.contents O.contents pipes.old pipes.new)) }
{
    let (lines, interface) = (serving.lines, serving.interface);
    let showing = Showing { lines, interface };
    'turns: for done in 0..TURNS {
        if let SessionTurn::Ends(refused) = turn_of_answers(alloc, end, serving, passed, pipes)? {
            return Ok(refused);
        }
        tell_over(alloc, showing, end, &mut pipes.out)?;
    }
    Err(Failure::TurnsSpent)
}

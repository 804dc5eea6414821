//! `serve`: a server's end between a reader and a writer. Its meaning is specs/Serve/Serving.antt,
//! and specs/Serve/Printed.antt for what is printed: change both.
ghost use Rattle.std.specs.Prelude.{◌≡◌, IfOk, OnOk};
ghost use Rattle.std.specs.Io.KnownBytes.{Appends};
ghost use Rattle.giop_end.specs.Ends.View.{IsTurned};
ghost use Rattle.giop_calls.specs.ServerTable.{is_closed};
ghost use Rattle.giop_show.specs.Forms.{ended};
ghost use Rattle.giop_commands.specs.Session.Endings.{Ends};
ghost use Rattle.giop_serving.specs.Serve.Endings.{ServesEndOver};
ghost use Rattle.giop_serving.specs.Serve.Serving.{ConversesOver, IsNew};
ghost use Rattle.giop_serving.specs.Serve.Printed.{connection_in, serve_status, served_text, Serves, ServesOver};
ghost use Rattle.giop_commands.specs.Session.Traffic.{traffic};

pub mod answering;
pub mod answers;
pub mod given;
pub mod in_turn;
pub mod is_a;
pub mod objects;
pub mod reference;
pub mod reply;
pub mod streaming;
mod turns;

use crate::serve::given::Serving;
use crate::serve::in_turn::Passed;
use crate::serve::turns::turn_of_answers;
use giop_call_lines::{ConnectionJson, ConnectionLine};
use giop_commands::session::ending::{Ending, ending_of};
use giop_commands::session::faults::broken::broken_status;
use giop_commands::session::given::{Pipes, Showing};
use giop_commands::session::{SessionTurn, TURNS, told, write_session};
use giop_end::{ServerEnd, SessionFault};
use giop_forms::LineForm;
use giop_show::failure::Failure;
use giop_show::form::write_line;
use giop_show::status::Status;
use std::alloc::Global;
use std::io::{Read, Write};

/// Serves a connection of this number by a new server's end with these limits. After each
/// read, what waits for an answer is answered in a form, in ascending order of the ids. A Request
/// whose target is the key of an object is answered by what is given for its operation, else by the
/// exception that says what is wrong with it. A LocateRequest is answered by whether its target is
/// the key of an object.
/// Then the pieces that are left are put out, one of each id in turn. At the end of the input, or
/// at a fault, the line of the connection is printed, the table, and the fault, where
/// there is one.
///
/// Of an operation's answers in turn the first that isn't passed is given, and is passed where
/// another stands behind it. Each object passes its own.
///
/// A peer that breaks the protocol is sent a MessageError. An answer that can't be sent, such as
/// one that passes a limit, ends the session with its fault.
///
/// It is `Done` where there is no fault, or the peer closed the connection; `LimitPassed` where a
/// limit ended it; else `Refused`. Where reading or writing fails, it is `InputOutput`. Where it is
/// out of memory, it is `Memory`. After either, a part of the text may be written.
#[tactic(auto, using(crate::proofs::OnServe::PrintedLemmas::serves_told))]
pub fn serve_session<R: Read, W: Write, O: Write>(
    alloc: Global,
    number: u32,
    serving: Serving<'_>,
    passed: &mut Passed,
    pipes: &mut Pipes<R, W, O>,
) -> Status
    ensures { ServesOver number serving.entry passed.old passed.new
        (traffic R.remaining W.contents O.contents pipes.old pipes.new) result }
{
    match serve_over(alloc, number, serving, passed, pipes) {
        Ok(ending) => ending.status,
        Err(failure) => failure.status(),
    }
}

/// Does what `serve_session` does, told in a form, and tells besides which calls are open where the
/// input ended, and how many octets were read that are no whole message. Where something fails,
/// what failed is returned in place of that; where that is the connection, its line and the table
/// are written before.
pub fn serve_over<R: Read, W: Write, O: Write>(
    alloc: Global,
    number: u32,
    serving: Serving<'_>,
    passed: &mut Passed,
    pipes: &mut Pipes<R, W, O>,
) -> Result<Ending, Failure>
    ensures { IfOk result (ServesEndOver number serving.entry passed.old passed.new
        (traffic R.remaining W.contents O.contents pipes.old pipes.new)) }
{
    let mut end = ServerEnd::new(alloc, serving.interface, serving.limits);
    serve_with(alloc, number, &mut end, serving, passed, pipes)
}

// Answers by a new end, and prints its table.
fn serve_with<R: Read, W: Write, O: Write>(
    alloc: Global,
    number: u32,
    end: &mut ServerEnd<'_>,
    serving: Serving<'_>,
    passed: &mut Passed,
    pipes: &mut Pipes<R, W, O>,
) -> Result<Ending, Failure>
    requires { IsNew serving end.old }
    ensures { IfOk result (ServesEndOver number serving.entry passed.old passed.new
        (traffic R.remaining W.contents O.contents pipes.old pipes.new)) }
{
    let (lines, interface) = (serving.lines, serving.interface);
    let showing = Showing { lines, interface };
    match converse(alloc, end, serving, passed, pipes) {
        Ok(refused) => {
            let ended = told(refused, end.fault());
            tell(alloc, number, showing, end, ended, &mut pipes.out)
        }
        Err(Failure::Memory) => Err(Failure::Memory),
        Err(failure) => {
            write_connection(lines, number, &mut pipes.out)?;
            write_session(alloc, showing, end, None, &mut pipes.out)?;
            pipes.out.flush()?;
            Err(failure)
        }
    }
}

// Writes the line of a connection, its table and its fault, and returns what it came to.
fn tell<O: Write>(
    alloc: Global,
    number: u32,
    showing: Showing<'_>,
    end: &ServerEnd<'_>,
    fault: Option<SessionFault>,
    out: &mut O,
) -> Result<Ending, Failure>
    ensures text { OnOk result (Appends (O.contents out.old) (O.contents out.new)
        (served_text showing.entry.lines showing.entry.interface.now number end.now.calls.table
        fault)) }
    ensures ok { IfOk result (λ ending. ending.status ≡ serve_status fault) }
    ensures ends { IfOk result (Ends is_closed fault end.now.calls.table end.now.framer) }
{
    write_connection(showing.lines, number, out)?;
    write_session(alloc, showing, end, fault, out)?;
    Ok(ending_of(alloc, end, fault, serve_status(fault))?)
}

fn write_connection<W: Write>(lines: LineForm, number: u32, writer: &mut W) -> Result<(), Failure>
    ensures { OnOk result (Appends (W.contents writer.old) (W.contents writer.new)
        (ended (connection_in lines number))) }
{
    write_line(
        lines,
        ConnectionLine(number),
        ConnectionJson(number),
        writer,
    )
}

fn serve_status(fault: Option<SessionFault>) -> Status
    ensures { result ≡ serve_status fault }
{
    match fault {
        Some(SessionFault::Closed) | None => Status::Done,
        Some(fault) => broken_status(fault),
    }
}

// Takes turns, and answers after each, until the input ends or the end fails. Returns the fault of
// what could not be sent, at which it stops.
fn converse<R: Read, W: Write, O: Write>(
    alloc: Global,
    end: &mut ServerEnd<'_>,
    serving: Serving<'_>,
    passed: &mut Passed,
    pipes: &mut Pipes<R, W, O>,
) -> Result<Option<SessionFault>, Failure>
    requires { end.old.interface.now ≡ serving.interface.now }
    ensures converses { IfOk result (λ refused. ConversesOver serving.entry end.old end.new
        passed.old passed.new refused
        (traffic R.remaining W.contents O.contents pipes.old pipes.new)) }
    ensures others { IsTurned end.old end.new }
    ensures out { pipes.new.out ≡ pipes.old.out }
{
    'turns: for done in 0..TURNS {
        if let SessionTurn::Ends(refused) = turn_of_answers(alloc, end, serving, passed, pipes)? {
            return Ok(refused);
        }
    }
    Err(Failure::TurnsSpent)
}

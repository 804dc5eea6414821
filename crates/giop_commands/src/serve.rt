//! `serve`: a server's end between a reader and a writer. Its meaning is specs/Serving.antt, and
//! specs/Sessions.antt for what is printed: change both.
ghost use Rattle.std.specs.Prelude.{◌≡◌, ◌++◌, IfOk, OnOk};
ghost use Rattle.std.specs.Io.KnownBytes.{Appends};
ghost use Rattle.giop_end.specs.Pumping.{between};
ghost use Rattle.giop_end.specs.Ends.View.{IsActedOn, IsTurned};
ghost use Rattle.giop_calls.specs.ServerTable.{is_closed};
ghost use Rattle.giop_show.specs.Dump.{ended};
ghost use Rattle.giop_commands.specs.Endings.{Ends, ServesEndOver};
ghost use Rattle.giop_commands.specs.Serving.{AnswersAll, AnswersOne, Converses, desk_at, served_of, session, session_at};
ghost use Rattle.giop_commands.specs.Sessions.{change, connection_in, serve_status, Serves, ServesOver, session_text};
ghost use Rattle.giop_commands.specs.Steps.{Upto};
ghost use Rattle.giop_commands.specs.Table.{server_entry_in};

pub mod answering;
pub mod answers;
pub mod general;
pub mod given;
pub mod in_turn;
pub mod is_a;
pub mod let_out;
pub mod objects;
pub mod reference;
pub mod shown;
pub mod streaming;
pub mod table;

use crate::serve::answering::{Due, due_to, reply_to};
use crate::serve::given::Serving;
use crate::serve::in_turn::Passed;
use crate::session::broken::broken_status;
use crate::session::ending::{Ending, ending_of};
use crate::session::sending::send_all;
use crate::session::{TURNS, goes_on, told, told_of, write_session};
use giop_end::{ServerEnd, SessionFault};
use giop_lines::{ConnectionJson, ConnectionLine};
use giop_show::failure::Failure;
use giop_show::form::{LineForm, write_line};
use giop_show::status::Status;
use giop_types::{Interface, NumberForm};
use std::alloc::Global;
use std::io::{Read, Write};

/// Serves a connection of this number by a new server's end with these limits. After each
/// read, what waits for an answer is answered in a form, in ascending order of the ids. A Request
/// whose target is the key of an object is answered by what is given for its operation, else by the
/// exception that says what is wrong with it. A LocateRequest is answered by whether its target is
/// the key of an object.
/// Then the pieces that are left are put out, one of each id in turn. At the end of the input, or
/// at a fault, the line of the connection is written to `out`, the table, and the fault, where
/// there is one.
///
/// Of an operation's answers in turn the first that isn't passed is given, and is passed where another
/// stands behind it. Each object passes its own.
///
/// A peer that breaks the protocol is sent a MessageError. An answer that can't be sent, such as
/// one that passes a limit, ends the session with its fault.
///
/// It is `Done` where there is no fault, or the peer closed the connection; `LimitPassed` where a
/// limit ended it; else `Refused`. Where reading or writing fails, it is `InputOutput`. Where it is out of
/// memory, it is `Memory`. After either, a part of the text may be written.
#[tactic(auto, using(crate::proofs::SessionsLemmas::serves_told))]
pub fn serve_session<R: Read, W: Write, O: Write>(
    alloc: Global,
    number: u32,
    serving: Serving<'_>,
    passed: &mut Passed,
    reader: &mut R,
    writer: &mut W,
    out: &mut O,
) -> Status
    ensures { ServesOver number serving.entry (change R.remaining reader.old reader.new)
        (change W.contents writer.old writer.new) passed.old passed.new
        (change O.contents out.old out.new) result }
{
    let lines = LineForm::Text(NumberForm::Plain);
    match serve_over(alloc, number, serving, passed, lines, reader, writer, out) {
        Ok(ending) => ending.status,
        Err(failure) => failure.status(),
    }
}

/// Does what `serve_session` does, told in a form, and tells besides
/// which calls are open where the input ended, and how many octets were read that are no whole message. Where
/// something fails, what failed is returned in place of that; where that is the connection, its line
/// and the table are written before.
pub fn serve_over<R: Read, W: Write, O: Write>(
    alloc: Global,
    number: u32,
    serving: Serving<'_>,
    passed: &mut Passed,
    lines: LineForm,
    reader: &mut R,
    writer: &mut W,
    out: &mut O,
) -> Result<Ending, Failure>
    ensures { IfOk result (ServesEndOver number serving.entry lines
        (change R.remaining reader.old reader.new) (change W.contents writer.old writer.new)
        passed.old passed.new (change O.contents out.old out.new)) }
{
    let interface = serving.interface;
    let mut end = ServerEnd::new(alloc, interface, serving.limits);
    match converse(alloc, &mut end, serving, passed, reader, writer) {
        Ok(refused) => tell(
            alloc,
            lines,
            number,
            interface,
            &end,
            told(refused, end.fault()),
            out,
        ),
        Err(Failure::Memory) => Err(Failure::Memory),
        Err(failure) => {
            write_connection(lines, number, out)?;
            write_session(alloc, lines, interface, &end, None, out)?;
            out.flush()?;
            Err(failure)
        }
    }
}

// Writes the line of a connection, its table and its fault, and returns what it came to.
fn tell<O: Write>(
    alloc: Global,
    lines: LineForm,
    number: u32,
    interface: &Interface,
    end: &ServerEnd<'_>,
    fault: Option<SessionFault>,
    out: &mut O,
) -> Result<Ending, Failure>
    ensures text { OnOk result (Appends (O.contents out.old) (O.contents out.new)
        (ended (connection_in lines number)
        ++ session_text lines (server_entry_in lines interface.now) end.now.calls.table fault)) }
    ensures ok { IfOk result (λ ending. ending.status ≡ serve_status fault) }
    ensures ends { IfOk result (Ends is_closed fault end.now.calls.table end.now.framer) }
{
    write_connection(lines, number, out)?;
    write_session(alloc, lines, interface, end, fault, out)?;
    Ok(ending_of(alloc, end, fault, serve_status(fault))?)
}

fn write_connection<W: Write>(lines: LineForm, number: u32, writer: &mut W) -> Result<(), Failure>
    ensures { OnOk result (Appends (W.contents writer.old) (W.contents writer.new)
        (ended (connection_in lines number))) }
{
    write_line(
        lines,
        ConnectionLine(number),
        ConnectionJson(number),
        writer,
    )
}

fn serve_status(fault: Option<SessionFault>) -> Status
    ensures { result ≡ serve_status fault }
{
    match fault {
        Some(SessionFault::Closed) | None => Status::Done,
        Some(fault) => broken_status(fault),
    }
}

// Takes turns, and answers after each, until the input ends or the end fails. Returns the fault of
// what could not be sent, at which it stops.
fn converse<R: Read, W: Write>(
    alloc: Global,
    end: &mut ServerEnd<'_>,
    serving: Serving<'_>,
    passed: &mut Passed,
    reader: &mut R,
    writer: &mut W,
) -> Result<Option<SessionFault>, Failure>
    requires { end.old.interface.now ≡ serving.interface.now }
    ensures converses { IfOk result (λ refused. Converses (served_of serving.entry) end.old.limits
        (session_at (R.remaining reader.old) (W.contents writer.old) end.old passed.old) refused
        (session_at (R.remaining reader.new) (W.contents writer.new) end.new passed.new)) }
    ensures others { IsTurned end.old end.new }
{
    'turns: for done in 0..TURNS {
        if !goes_on(end, reader, writer)? {
            return Ok(None);
        }
        if let Some(fault) = answer_all(alloc, end, serving, passed)? {
            return Ok(Some(fault));
        }
    }
    Err(Failure::TurnsSpent)
}

// Answers all that waits for an answer, and puts out every piece. Returns the fault of what could
// not be sent, at which it stops.
fn answer_all(
    alloc: Global,
    end: &mut ServerEnd<'_>,
    serving: Serving<'_>,
    passed: &mut Passed,
) -> Result<Option<SessionFault>, Failure>
    requires { end.old.interface.now ≡ serving.interface.now }
    ensures answers { IfOk result (λ refused. AnswersAll (served_of serving.entry) end.old.limits
        end.old.fault (desk_at end.old passed.old) refused (desk_at end.new passed.new)) }
    ensures others { IsActedOn end.old end.new }
{
    let ids = end.ids(alloc)?;
    if let Some(fault) = answer_each(alloc, end, serving, passed, ids.as_slice())? {
        return Ok(Some(fault));
    }
    send_all(alloc, end)
}

// Answers what is stored for each of these ids. Returns the fault of an answer that could not be
// sent, at which it stops.
fn answer_each(
    alloc: Global,
    end: &mut ServerEnd<'_>,
    serving: Serving<'_>,
    passed: &mut Passed,
    ids: &[u32],
) -> Result<Option<SessionFault>, Failure>
    requires { end.old.interface.now ≡ serving.interface.now }
    ensures answers { IfOk result (λ refused. Upto (AnswersOne (served_of serving.entry)
        end.old.limits end.old.fault) ids.now (desk_at end.old passed.old) refused
        (desk_at end.new passed.new)) }
    ensures others { IsActedOn end.old end.new }
{
    'ids: for id in ids {
        if let Some(fault) = answer(alloc, end, serving, passed, *id)? {
            return Ok(Some(fault));
        }
    }
    Ok(None)
}

// Answers what is stored for an id, where something is due to it. Returns the fault of an answer
// that could not be sent.
fn answer(
    alloc: Global,
    end: &mut ServerEnd<'_>,
    serving: Serving<'_>,
    passed: &mut Passed,
    id: u32,
) -> Result<Option<SessionFault>, Failure>
    requires { end.old.interface.now ≡ serving.interface.now }
    ensures answers { IfOk result (λ refused. AnswersOne (served_of serving.entry) end.old.limits
        end.old.fault id (desk_at end.old passed.old) refused (desk_at end.new passed.new)) }
    ensures others { IsActedOn end.old end.new }
{
    let Some(entry) = end.entry(id) else {
        return Ok(None);
    };
    match due_to(serving.objects, entry) {
        Due::Nothing => Ok(None),
        Due::Locate { here } => told_of(end.answer_locate(id, here, serving.form.order)),
        Due::Reply { version, answer } => {
            let (interface, objects) = (serving.interface, serving.objects);
            let reply = reply_to(
                alloc, interface, objects, passed, id, entry, version, answer,
            )?;
            passed.pass(alloc, objects, entry, answer)?;
            told_of(end.answer(reply, serving.form))
        }
    }
}

//! What the sessions of `call` and `serve` have in common: a turn, the MessageError to a peer
//! (CORBA 3.3 Part 2, 9.4.8), and what is printed at the end. Its meaning is
//! specs/Session/Turns.antt and specs/Session/Printed.antt: change both.
ghost use Rattle.std.specs.Prelude.{◌≡◌, ◌≢◌, ◌⊎◌, [], false, Some, None, Ok, Err, IfOk, IfErr, OnOk};
ghost use Rattle.std.specs.Io.KnownBytes.{Appends};
ghost use Rattle.giop_end.specs.declared.session_fault.SessionFault.TheVariants.{NoMemory};
ghost use Rattle.giop_end.specs.Pumping.{Writes};
ghost use Rattle.giop_end.specs.Ends.SessionFaults.{error_message_of};
ghost use Rattle.giop_end.specs.Hearing.Heard.{hears_in};
ghost use Rattle.giop_end.specs.Ends.View.{IsTurned};
ghost use Rattle.giop_show.specs.declared.failure.Failure.TheVariants.{Memory};
ghost use Rattle.giop_commands.specs.Check.{answer_of};
ghost use Rattle.giop_show.specs.Forms.{ended};
ghost use Rattle.giop_commands.specs.Session.Faults.Lines.{session_fault_in};
ghost use Rattle.giop_commands.specs.Session.Printed.{fault_text, session_text, told};
ghost use Rattle.giop_commands.specs.Session.Turns.{CannotBeSent, GoesOnAt, IsOfConnection, peer_octets};

pub mod ahead;
pub mod ending;
pub mod faults;
pub mod given;
pub mod json;
pub mod sending;
pub mod streaming;
pub mod table;
pub mod target;
pub mod untold;

use crate::session::faults::json::SessionFaultJson;
use crate::session::faults::lines::SessionFaultLine;
use crate::session::given::Showing;
use crate::session::table::{Tabled, write_table};
use giop_end::{End, Hearing, PumpFault, SessionFault, turn, write_out};
use giop_forms::LineForm;
use giop_show::failure::Failure;
use giop_show::form::write_line;
use std::alloc::Global;
use std::io::{Read, Write};

/// A session has so many turns at most: none takes as many.
pub const TURNS: u64 = u64::MAX;

/// What a turn of a session came to.
#[derive(Clone, Copy, Debug, PartialEq, Eq)]
pub enum SessionTurn {
    /// The session goes on.
    GoesOn,
    /// It ends: no call is left, the input ended, the end failed, or what was to be sent was
    /// refused at this end for this fault.
    Ends(Option<SessionFault>),
}

/// Takes a turn, and returns whether the session continues: the input hasn't ended, and the end
/// hasn't failed. A peer that the fault is due to is sent a MessageError.
pub fn goes_on<R: Hearing, I: Read, W: Write>(
    end: &mut End<'_, R>,
    reader: &mut I,
    writer: &mut W,
) -> Result<bool, Failure>
    ensures goes { GoesOnAt (hears_in R.Hearing end.old.interface.now) (I.remaining reader.old)
        (W.contents writer.old) end.old result (I.remaining reader.new) (W.contents writer.new)
        end.new }
    ensures others { IsTurned end.old end.new }
{
    match turn(end, reader, writer) {
        Ok(read) => Ok(read > 0),
        Err(PumpFault::Session(why)) => break_off(end, why, writer),
        Err(PumpFault::Read(error)) => Err(Failure::connection(error)),
        Err(PumpFault::Write(error)) => Err(Failure::connection(error)),
        Err(PumpFault::TurnsSpent) => Err(Failure::TurnsSpent),
    }
}

/// Writes what is outgoing, without a read.
pub fn write_all_out<R: Hearing, W: Write>(
    end: &mut End<'_, R>,
    writer: &mut W,
) -> Result<(), Failure>
    ensures writes { Writes (W.contents writer.old) (W.contents writer.new) end.old.outgoing
        end.new.outgoing }
    ensures all { OnOk result (end.new.outgoing ≡ []) }
    ensures others { end.new ≡ record end.old { outgoing = end.new.outgoing } }
{
    match write_out(end, writer) {
        Ok(()) => Ok(()),
        Err(error) => Err(Failure::connection(error)),
    }
}

// Ends the session at a fault that a turn met, and returns that it doesn't continue.
fn break_off<R: Hearing, W: Write>(
    end: &End<'_, R>,
    why: SessionFault,
    writer: &mut W,
) -> Result<bool, Failure>
    ensures ok { IfOk result (λ goes. (goes ≡ false) × (why ≢ NoMemory)
        × Appends (W.contents writer.old) (W.contents writer.new) (peer_octets end.now.fault)) }
    ensures err { IfErr result (λ failure.
        ((failure ≡ Memory) × (why ≡ NoMemory)
        × (W.contents writer.new ≡ W.contents writer.old))
        ⊎ CannotBeSent why end.now.fault failure) }
{
    if why == SessionFault::NoMemory {
        return Err(Failure::Memory);
    }
    tell_peer(end, writer)?;
    Ok(false)
}

// Sends the MessageError to the peer, where the end's fault is one that the peer is sent one for.
fn tell_peer<R: Hearing, W: Write>(end: &End<'_, R>, writer: &mut W) -> Result<(), Failure>
    ensures tells { OnOk result (Appends (W.contents writer.old) (W.contents writer.new)
        (peer_octets end.now.fault)) }
    ensures err { IfErr result (λ failure. (error_message_of end.now.fault ≢ None)
        × IsOfConnection failure) }
{
    let Some(message) = end.error_message() else {
        return Ok(());
    };
    match writer.write_all(&message) {
        Ok(()) => Ok(()),
        Err(error) => Err(Failure::connection(error)),
    }
}

// The fault of a refused act of this end's own. Memory where it was out of memory.
fn refusal(fault: SessionFault) -> Result<SessionFault, Failure>
    ensures ok { OnOk result ((result ≡ Ok fault) × (fault ≢ NoMemory)) }
    ensures err { IfErr result (λ failure. (failure ≡ Memory) × (fault ≡ NoMemory)) }
{
    match fault {
        SessionFault::NoMemory => Err(Failure::Memory),
        _ => Ok(fault),
    }
}

/// What an act of this end's own came to: the fault that it was refused for, if it was. Memory
/// where it was out of memory.
pub fn told_of(acted: Result<(), SessionFault>) -> Result<Option<SessionFault>, Failure>
    ensures ok { IfOk result (λ why. (acted ≡ answer_of why) × (why ≢ Some NoMemory)) }
    ensures err { IfErr result (λ failure. (failure ≡ Memory) × (acted ≡ Err NoMemory)) }
{
    match acted {
        Ok(()) => Ok(None),
        Err(fault) => Ok(Some(refusal(fault)?)),
    }
}

/// The fault that is reported of a session: that of what was refused at this end, else the end's
/// own.
pub fn told(refused: Option<SessionFault>, fault: Option<SessionFault>) -> Option<SessionFault>
    ensures { result ≡ told refused fault }
{
    match refused {
        Some(refused) => Some(refused),
        None => fault,
    }
}

/// Writes the table of an end, a line for each of its calls, and the fault that ended its session,
/// where one did.
pub fn write_session<R: Tabled, W: Write>(
    alloc: Global,
    showing: Showing<'_>,
    end: &End<'_, R>,
    fault: Option<SessionFault>,
    writer: &mut W,
) -> Result<(), Failure>
    ensures { OnOk result (Appends (W.contents writer.old) (W.contents writer.new)
        (session_text showing.entry.lines (R.line showing.entry.lines showing.entry.interface.now)
        end.now.calls.table fault)) }
{
    write_table(alloc, showing.lines, showing.interface, end, writer)?;
    write_fault(showing.lines, fault, writer)
}

/// Writes the line of the fault that ended a session, in a form; nothing where none did.
pub fn write_fault<W: Write>(
    lines: LineForm,
    fault: Option<SessionFault>,
    writer: &mut W,
) -> Result<(), Failure>
    ensures { OnOk result (Appends (W.contents writer.old) (W.contents writer.new)
        (fault_text lines fault)) }
{
    match fault {
        Some(fault) => write_session_fault(lines, fault, writer),
        None => Ok(()),
    }
}

/// Writes the line of a fault that ended a session, in a form.
pub fn write_session_fault<W: Write>(
    lines: LineForm,
    fault: SessionFault,
    writer: &mut W,
) -> Result<(), Failure>
    ensures { OnOk result (Appends (W.contents writer.old) (W.contents writer.new)
        (ended (session_fault_in lines fault))) }
{
    write_line(
        lines,
        SessionFaultLine(fault),
        SessionFaultJson(fault),
        writer,
    )
}

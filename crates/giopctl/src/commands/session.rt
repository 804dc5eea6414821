//! What the sessions of `call` and `serve` have in common.
ghost use Rattle.std.specs.Prelude.{◌≡◌, ◌≢◌, Ok, OnOk};
ghost use Rattle.std.specs.Io.KnownBytes.{Appends};
ghost use Rattle.giop_session.specs.declared.session_fault.SessionFault.TheVariants.{NoMemory};
ghost use Rattle.giopctl.specs.Sessions.{fault_text, session_text, told};

use crate::commands::table::{Tabled, write_table};
use crate::failure::Failure;
use crate::lines::SessionFaultLine;
use giop_session::{End, Hearing, PumpFault, SessionFault, turn, write_out};
use giop_types::Interface;
use std::alloc::Global;
use std::io::{Read, Write};

/// A session has so many turns at most.
pub const TURNS: usize = 65_536;

/// Takes a turn, and tells whether the session goes on: the input hasn't ended, and no fault of the
/// peer stands. The peer is told of a fault that is its own by a MessageError.
pub fn goes_on<R: Hearing, I: Read, W: Write>(
    end: &mut End<'_, R>,
    reader: &mut I,
    writer: &mut W,
) -> Result<bool, Failure> {
    match turn(end, reader, writer) {
        Ok(read) => Ok(read > 0),
        Err(PumpFault::Session(SessionFault::NoMemory)) => Err(Failure::Memory),
        Err(PumpFault::Session(_)) => {
            tell_peer(end, writer)?;
            Ok(false)
        }
        Err(PumpFault::Read(error)) => Err(Failure::connection(error)),
        Err(PumpFault::Write(error)) => Err(Failure::connection(error)),
        Err(PumpFault::TurnsSpent) => Err(Failure::TurnsSpent),
    }
}

/// Writes what is outgoing, without a read.
pub fn write_all_out<R: Hearing, W: Write>(
    end: &mut End<'_, R>,
    writer: &mut W,
) -> Result<(), Failure> {
    match write_out(end, writer) {
        Ok(()) => Ok(()),
        Err(error) => Err(Failure::connection(error)),
    }
}

// The MessageError to a peer, where the fault that stands is one to be told of.
fn tell_peer<R: Hearing, W: Write>(end: &End<'_, R>, writer: &mut W) -> Result<(), Failure> {
    let Some(message) = end.error_message() else {
        return Ok(());
    };
    match writer.write_all(&message) {
        Ok(()) => Ok(()),
        Err(error) => Err(Failure::connection(error)),
    }
}

/// The fault of a refused call of this end's own, unless memory is wanting.
pub fn refusal(fault: SessionFault) -> Result<SessionFault, Failure>
    ensures { OnOk result ((result ≡ Ok fault) × (fault ≢ NoMemory)) }
{
    match fault {
        SessionFault::NoMemory => Err(Failure::Memory),
        _ => Ok(fault),
    }
}

/// The fault that is told of a session: that of what was refused at this end, else the one that
/// stands at the end.
pub fn told(refused: Option<SessionFault>, fault: Option<SessionFault>) -> Option<SessionFault>
    ensures { result ≡ told refused fault }
{
    match refused {
        Some(refused) => Some(refused),
        None => fault,
    }
}

/// Writes the table of an end, a line for each of its calls, and the fault that ended its session,
/// where one did.
pub fn write_session<R: Tabled, W: Write>(
    alloc: Global,
    interface: &Interface,
    end: &End<'_, R>,
    fault: Option<SessionFault>,
    writer: &mut W,
) -> Result<(), Failure>
    ensures { OnOk result (Appends (W.contents writer.old) (W.contents writer.new)
        (session_text (R.line interface.now) end.now.calls.table fault)) }
{
    write_table(alloc, interface, end, writer)?;
    write_fault(fault, writer)
}

fn write_fault<W: Write>(fault: Option<SessionFault>, writer: &mut W) -> Result<(), Failure>
    ensures { OnOk result (Appends (W.contents writer.old) (W.contents writer.new)
        (fault_text fault)) }
{
    match fault {
        Some(fault) => {
            writeln!(writer, "{}", SessionFaultLine(fault))?;
            Ok(())
        }
        None => Ok(()),
    }
}

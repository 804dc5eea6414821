//! `check`: a server's end that hears a file. Its meaning is specs/Check.antt: change both.
ghost use Rattle.std.specs.Prelude.{◌≡◌, ◌≢◌, [], IfOk, OnOk, Some, None, length};
ghost use Rattle.std.specs.Io.KnownBytes.{Appends, IsAtEnd};
ghost use Rattle.giop_end.specs.declared.session_fault.SessionFault.TheVariants.{NoMemory};
ghost use Rattle.giop_end.specs.Ends.Begun.{no_calls};
ghost use Rattle.giop_end.specs.Hearing.Heard.{hears_in};
ghost use Rattle.giop_commands.specs.Check.{AreLimits, Checks, ChecksKnown, HeardKnown, default_limits, fault_status, last_status};
ghost use Rattle.giop_show.specs.Forms.{ended};
ghost use Rattle.giop_commands.specs.Session.Faults.Lines.{last_in, session_fault_in};

pub mod strict;
pub mod text;

use crate::check::strict::strictly;
use crate::session::faults::broken::broken_status;
use crate::session::table::write_table;
use crate::session::write_session_fault;
use giop_end::{End, Hearing, Limits, ServerEnd, SessionFault};
use giop_forms::LineForm;
use giop_json::NumberForm;
use giop_show::failure::Failure;
use giop_show::pieces::{PieceBuffer, drain};
use giop_show::status::Status;
use giop_show::{BehindFault, write_rest};
use giop_types::Interface;
use std::alloc::Global;
use std::io;
use std::io::{ErrorKind, Read, Write};

/// How a file is checked.
#[derive(Clone, Copy)]
pub struct Checking {
    /// What the end holds at most.
    pub limits: Limits,
    /// Whether what can't be decoded is refused.
    pub strict: bool,
    /// The form of the lines that tell the calls.
    pub lines: LineForm,
    /// What is read behind a fault.
    pub behind: BehindFault,
}

/// Writes the table of a server's end that hears the octets of a file, a line for each of its
/// calls, and then how many octets are left, or the fault that ends it. It is `Done` where no
/// octets are left, and where the one fault is that the client closed the connection; `LimitPassed`
/// where a limit ended it; else `Refused`.
///
/// Where writing fails, it is `InputOutput`. Where it is out of memory, it is `Memory`. After
/// either, a part of the text may be written.
pub fn check_octets<W: Write>(
    alloc: Global,
    interface: &Interface,
    octets: &[u8],
    writer: &mut W,
) -> Status
    ensures { Checks interface.now default_limits octets.now (W.contents writer.old) (W.contents
        writer.new)
        result }
{
    let mut left = octets;
    let checking = Checking {
        limits: Limits::default(),
        strict: false,
        lines: LineForm::Text(NumberForm::Plain),
        behind: BehindFault::Read,
    };
    match check_stream(alloc, interface, checking, &mut left, writer) {
        Ok(status) => status,
        Err(failure) => failure.status(),
    }
}

/// Does what `check_octets` does, as `checking` says, for the octets that a reader gives. Where it
/// is strict, it is `Refused` also where anything can't be decoded. Where
/// something fails, what failed is returned in place of a status. No more octets are held than a
/// message, a piece, and the calls. Nothing is written before all is heard.
pub fn check_stream<R: Read, W: Write>(
    alloc: Global,
    interface: &Interface,
    checking: Checking,
    reader: &mut R,
    writer: &mut W,
) -> Result<Status, Failure>
    requires { AreLimits checking.limits }
    ensures text { IfOk result (ChecksKnown interface.now checking.limits checking.strict
        checking.lines (R.remaining reader.old) (W.contents writer.old) (W.contents writer.new)) }
    ensures end { OnOk result (checking.behind ≡ BehindFault.Read
        → IsAtEnd (R.remaining reader.new)) }
{
    let mut end = ServerEnd::new(alloc, interface, checking.limits);
    check_with(alloc, interface, checking, &mut end, reader, writer)
}

// Checks by a new end.
fn check_with<R: Read, W: Write>(
    alloc: Global,
    interface: &Interface,
    checking: Checking,
    end: &mut ServerEnd<'_>,
    reader: &mut R,
    writer: &mut W,
) -> Result<Status, Failure>
    requires interface { end.old.interface.now ≡ interface.now }
    requires calls { end.old.calls ≡ no_calls (record {}) checking.limits }
    requires unread { end.old.framer ≡ record { limit = checking.limits.message; octets = [] } }
    requires sound { end.old.fault ≡ None }
    ensures text { IfOk result (ChecksKnown interface.now checking.limits checking.strict
        checking.lines (R.remaining reader.old) (W.contents writer.old) (W.contents writer.new)) }
    ensures end { OnOk result (checking.behind ≡ BehindFault.Read
        → IsAtEnd (R.remaining reader.new)) }
{
    hear(alloc, end, reader, checking.behind)?;
    write_table(alloc, checking.lines, interface, end, writer)?;
    let status = write_last(checking.lines, end, writer)?;
    strictly(alloc, checking.strict, end, status)
}

// Feeds an end with what a reader gives, to its end or to the first fault.
fn hear<S: Hearing, R: Read>(
    alloc: Global,
    end: &mut End<'_, S>,
    reader: &mut R,
    behind: BehindFault,
) -> Result<(), Failure>
    requires begins { end.old.framer.octets ≡ [] }
    requires sound { end.old.fault ≡ None }
    ensures heard { OnOk result (HeardKnown (hears_in S.Hearing end.old.interface.now)
        (R.remaining reader.old) end.old.framer end.old.calls end.new.fault end.new.framer
        end.new.calls) }
    ensures memory { OnOk result (end.new.fault ≢ Some NoMemory) }
    ensures end { OnOk result (behind ≡ BehindFault.Read → IsAtEnd (R.remaining reader.new)) }
{
    let mut buffer = PieceBuffer::new(alloc)?;
    'pieces: for _ in 0..u64::MAX {
        let piece = buffer.fill(reader)?;
        if piece.is_empty() {
            return Ok(());
        }
        if let Err(fault) = end.feed(piece) {
            if fault == SessionFault::NoMemory {
                return Err(Failure::Memory);
            }
            if behind == BehindFault::Read {
                drain(&mut buffer, reader)?;
            }
            return Ok(());
        }
    }
    Err(Failure::Input(io::Error::from(ErrorKind::FileTooLarge)))
}

// The last line: the fault that ended the session, or how many octets are unread.
fn write_last<S: Hearing, W: Write>(
    form: LineForm,
    end: &End<'_, S>,
    writer: &mut W,
) -> Result<Status, Failure>
    ensures text { OnOk result (Appends (W.contents writer.old) (W.contents writer.new)
        (ended (last_in form end.now.fault (length end.now.framer.octets)))) }
    ensures ok { IfOk result (λ status. status
        ≡ last_status end.now.fault (length end.now.framer.octets)) }
{
    match end.fault() {
        Some(fault) => write_fault(form, fault, writer),
        None => write_rest(form, end.rest(), writer),
    }
}

// The last line of a session that a fault ended. That the client closed the connection is no
// refusal.
fn write_fault<W: Write>(
    form: LineForm,
    fault: SessionFault,
    writer: &mut W,
) -> Result<Status, Failure>
    ensures text { OnOk result (Appends (W.contents writer.old) (W.contents writer.new)
        (ended (session_fault_in form fault))) }
    ensures ok { IfOk result (λ status. status ≡ fault_status fault) }
{
    write_session_fault(form, fault, writer)?;
    Ok(match fault {
        SessionFault::Closed => Status::Done,
        fault => broken_status(fault),
    })
}

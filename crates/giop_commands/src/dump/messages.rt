//! The lines that `dump` writes: those of a message, and the last one.
ghost use Rattle.std.specs.Prelude.{◌≡◌, ◌≢◌, ◌^◌, ◌<◌, ◌==◌, length, OnOk, IfOk, if◌then◌else◌};
ghost use Rattle.std.specs.Io.KnownBytes.{Appends};
ghost use Rattle.giop_msg.specs.declared.fault.WireKind.TheVariants.{NoMemory};
ghost use Rattle.giop_commands.specs.Dump.{ended, message_text};
ghost use Rattle.giop_lines.specs.Lines.{fault_line, rest_line};
ghost use Rattle.giop_commands.specs.Status.{header_status};

use crate::dump::heads::write_second;
use crate::failure::Failure;
use crate::status::Status;
use giop_lines::{FaultLine, MessageLine, RestLine};
use giop_msg::{Msg, WireFault, WireKind};
use std::io::Write;

/// The lines of the message that begins at this offset of the file.
pub fn write_message<W: Write>(at: usize, message: &Msg, writer: &mut W) -> Result<(), Failure>
    requires { length message.now.payload < 2 ^ 32 }
    ensures { OnOk result
        (Appends (W.contents writer.old) (W.contents writer.new) (message_text at message.now)) }
{
    let id = message.request_id();
    writeln!(writer, "{}", MessageLine { at, message, id })?;
    if !message.more {
        write_second(message, writer)?;
    }
    Ok(())
}

/// The last line, where so many octets are left.
pub fn write_rest<W: Write>(rest: usize, writer: &mut W) -> Result<Status, Failure>
    ensures text { OnOk result
        (Appends (W.contents writer.old) (W.contents writer.new) (ended (rest_line rest))) }
    ensures ok { IfOk result (λ s. s ≡ (if rest == 0 then Status.Done else Status.Refused)) }
{
    writeln!(writer, "{}", RestLine(rest))?;
    Ok(if rest == 0 {
        Status::Done
    } else {
        Status::Refused
    })
}

/// The last line, where the header at this offset has a fault.
pub fn write_fault<W: Write>(at: usize, fault: WireFault, writer: &mut W) -> Result<Status, Failure>
    ensures text { OnOk result
        (Appends (W.contents writer.old) (W.contents writer.new) (ended (fault_line at fault))) }
    ensures ok { IfOk result (λ s. (s ≡ header_status fault.kind) × (fault.kind ≢ NoMemory)) }
{
    if fault.kind == WireKind::NoMemory {
        return Err(Failure::Memory);
    }
    writeln!(writer, "{}", FaultLine { at, fault })?;
    Ok(Status::of_header(fault.kind))
}

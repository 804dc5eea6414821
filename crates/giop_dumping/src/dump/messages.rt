//! What `dump` tells of a message but its body, and the last line.
ghost use Rattle.std.specs.Prelude.{◌≡◌, ◌≢◌, ◌^◌, ◌<◌, length, OnOk, IfOk};
ghost use Rattle.std.specs.Io.KnownBytes.{Appends};
ghost use Rattle.giop_msg.specs.declared.fault.WireKind.TheVariants.{NoMemory};
ghost use Rattle.giop_show.specs.Forms.{ended};
ghost use Rattle.giop_dumping.specs.Dump.Heads.{fault_in, message_text};
ghost use Rattle.giop_show.specs.Status.{IsJudged, header_status};

use crate::dump::heads::write_second;
use giop_forms::LineForm;
use giop_lines::{FaultJson, FaultLine, MessageJson, MessageLine};
use giop_msg::{Msg, WireFault, WireKind};
use giop_show::failure::Failure;
use giop_show::form::{write_line, write_part};
use giop_show::status::Status;
use std::io::Write;

/// What is told of the message that begins at this offset of the file, but for its body: its line,
/// and what its head says. In JSON the object is left open.
pub fn write_message<W: Write>(
    form: LineForm,
    at: usize,
    message: &Msg,
    writer: &mut W,
) -> Result<(), Failure>
    requires { length message.now.payload < 2 ^ 32 }
    ensures { OnOk result (Appends (W.contents writer.old) (W.contents writer.new)
        (message_text form at message.now)) }
{
    let id = message.request_id();
    let (text, json) = (
        MessageLine { at, message, id },
        MessageJson { at, message, id },
    );
    write_part(form, text, json, writer)?;
    if !message.more {
        write_second(form, message, writer)?;
    }
    Ok(())
}

/// The last line, where the header at this offset has a fault.
pub fn write_fault<W: Write>(
    form: LineForm,
    at: usize,
    fault: WireFault,
    writer: &mut W,
) -> Result<Status, Failure>
    ensures text { OnOk result
        (Appends (W.contents writer.old) (W.contents writer.new) (ended (fault_in form at fault))) }
    ensures ok { IfOk result (λ s. (s ≡ header_status fault.kind) × (fault.kind ≢ NoMemory)) }
    ensures judged { IfOk result IsJudged }
{
    if fault.kind == WireKind::NoMemory {
        return Err(Failure::Memory);
    }
    write_line(
        form,
        FaultLine { at, fault },
        FaultJson { at, fault },
        writer,
    )?;
    Ok(Status::of_header(fault.kind))
}

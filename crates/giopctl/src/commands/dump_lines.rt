//! The lines that `dump` writes.
ghost use Rattle.std.specs.Prelude.{◌≡◌, ◌≢◌, ◌^◌, ◌<◌, ◌==◌, length, OnOk, IfOk, if◌then◌else◌};
ghost use Rattle.std.specs.Io.KnownBytes.{Appends};
ghost use Rattle.giop_msg.specs.declared.fault.WireKind.TheVariants.{NoMemory};
ghost use Rattle.giop_msg.specs.RequestHead.{request_head_of};
ghost use Rattle.giopctl.specs.Dump.{ended, head_text, is_whole_request, message_text};
ghost use Rattle.giopctl.specs.Lines.{fault_line, rest_line};

use crate::failure::Failure;
use crate::lines::{FaultLine, HeadLine, MessageLine, RestLine};
use crate::status::Status;
use giop_cdr::SliceOctets;
use giop_msg::{Kind, Msg, RequestHead, Version, WireFault, WireKind};
use std::io::Write;

/// The lines of the message that begins at this offset of the file.
pub fn write_message<W: Write>(at: usize, message: &Msg, writer: &mut W) -> Result<(), Failure>
    requires { length message.now.payload < 2 ^ 32 }
    ensures { OnOk result
        (Appends (W.contents writer.old) (W.contents writer.new) (message_text at message.now)) }
{
    let id = message.request_id();
    writeln!(writer, "{}", MessageLine { at, message, id })?;
    if is_whole_request(message) {
        write_head(message, writer)?;
    }
    Ok(())
}

fn is_whole_request(message: &Msg) -> bool
    ensures { result ≡ is_whole_request message.now.version message.now.kind message.now.more }
{
    message.version == Version::V12 && message.kind == Kind::Request && !message.more
}

// The line of a Request's head, or none where the octets spell no head.
fn write_head<W: Write>(message: &Msg, writer: &mut W) -> Result<(), Failure>
    requires { length message.now.payload < 2 ^ 32 }
    ensures { OnOk result (Appends (W.contents writer.old) (W.contents writer.new)
        (head_text message.now (request_head_of message.now.order message.now.payload))) }
{
    let octets = message.payload.as_slice();
    let joined = SliceOctets::new(octets);
    let Ok((head, place)) = RequestHead::view(&joined, message.order) else {
        return Ok(());
    };
    let body = (12 + octets.len()).saturating_sub(place);
    writeln!(writer, "{}", HeadLine { head: &head, body })?;
    Ok(())
}

/// The last line, where so many octets are left.
pub fn write_rest<W: Write>(rest: usize, writer: &mut W) -> Result<Status, Failure>
    ensures text { OnOk result
        (Appends (W.contents writer.old) (W.contents writer.new) (ended (rest_line rest))) }
    ensures ok { IfOk result (λ s. s ≡ (if rest == 0 then Status.Done else Status.Refused)) }
{
    writeln!(writer, "{}", RestLine(rest))?;
    Ok(if rest == 0 {
        Status::Done
    } else {
        Status::Refused
    })
}

/// The last line, where the header at this offset has a fault.
pub fn write_fault<W: Write>(at: usize, fault: WireFault, writer: &mut W) -> Result<Status, Failure>
    ensures text { OnOk result
        (Appends (W.contents writer.old) (W.contents writer.new) (ended (fault_line at fault))) }
    ensures ok { IfOk result (λ s. (s ≡ Status.Refused) × (fault.kind ≢ NoMemory)) }
{
    if fault.kind == WireKind::NoMemory {
        return Err(Failure::Memory);
    }
    writeln!(writer, "{}", FaultLine { at, fault })?;
    Ok(Status::Refused)
}

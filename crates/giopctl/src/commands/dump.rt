ghost use Rattle.std.specs.Prelude.{◌≡◌, ◌≢◌, ◌+◌, ◌^◌, ◌<◌, ◌==◌, ◌++◌, ℕ, length, take, drop, OnOk, IfOk, if◌then◌else◌};
ghost use Rattle.std.specs.Io.KnownBytes.{Appends};
ghost use Rattle.giop_msg.specs.declared.fault.WireKind.TheVariants.{NoMemory};
ghost use Rattle.giopctl.specs.Dump.{Dumps, ended, head_text, is_whole_request, message_text};
ghost use Rattle.giop_msg.specs.RequestHead.{request_head_of};
ghost use Rattle.giopctl.specs.Lines.{fault_line, rest_line};

use crate::failure::Failure;
use crate::lines::{FaultLine, HeadLine, MessageLine, RestLine};
use crate::status::Status;
use giop_cdr::{CdrKind, SliceOctets};
use giop_msg::{Framer, Kind, Msg, RequestHead, WireFault, WireKind};
use std::alloc::Global;
use std::io::Write;

/// The greatest message size that the program takes, the header not counted.
pub const MESSAGE_LIMIT: u32 = 1_048_576;

// The framer is fed with so many octets at a time.
const PIECE: usize = 65_536;

/// Writes the messages of a file, and then how many octets are left, or the fault that ends it.
/// It is `Done` where the file is messages and nothing else.
pub fn dump_octets<W: Write>(alloc: Global, octets: &[u8], writer: &mut W) -> Status
    ensures { Dumps MESSAGE_LIMIT octets.now (W.contents writer.old) (W.contents writer.new) result }
{
    match write_dump(alloc, octets, writer) {
        Ok(status) => status,
        Err(failure) => failure.status(),
    }
}

fn write_dump<W: Write>(alloc: Global, octets: &[u8], writer: &mut W) -> Result<Status, Failure>
    ensures { IfOk result
        (Dumps MESSAGE_LIMIT octets.now (W.contents writer.old) (W.contents writer.new)) }
{
    let mut framer = Framer::new(alloc, MESSAGE_LIMIT);
    let mut left = octets;
    let mut at = 0;
    'messages: loop {
        match framer.next() {
            Ok(Some(message)) => {
                write_message(alloc, at, &message, writer)?;
                at += 12 + message.payload.len();
            }
            Ok(None) if left.is_empty() => return write_rest(framer.rest(), writer),
            Ok(None) => left = feed_piece(&mut framer, left)?,
            Err(fault) => return write_fault(at, fault, writer),
        }
    }
}

// Feeds some of the octets, and gives those that are left.
fn feed_piece<'a>(framer: &mut Framer, octets: &'a [u8]) -> Result<&'a [u8], Failure>
    requires { 0 < length octets.now }
    ensures { IfOk result (λ left. (n : ℕ) × (0 < n) × (left.now ≡ drop n octets.now)
        × (framer.new ≡ record framer.old { octets = framer.old.octets ++ take n octets.now })) }
{
    let (piece, left) = octets.split_at(octets.len().min(PIECE));
    match framer.feed(piece) {
        Ok(()) => Ok(left),
        Err(_) => Err(Failure::Memory),
    }
}

// The lines of the message that begins at this offset.
fn write_message<W: Write>(
    alloc: Global,
    at: usize,
    message: &Msg,
    writer: &mut W,
) -> Result<(), Failure>
    requires { length message.now.payload < 2 ^ 32 }
    ensures { OnOk result
        (Appends (W.contents writer.old) (W.contents writer.new) (message_text at message.now)) }
{
    writeln!(writer, "{}", MessageLine { at, message })?;
    if is_whole_request(message) {
        write_head(alloc, message, writer)?;
    }
    Ok(())
}

fn is_whole_request(message: &Msg) -> bool
    ensures { result ≡ is_whole_request message.now.kind message.now.more }
{
    matches!(message.kind, Kind::Request) && !message.more
}

// The line of a Request's head, or none where the octets spell no head.
fn write_head<W: Write>(alloc: Global, message: &Msg, writer: &mut W) -> Result<(), Failure>
    requires { length message.now.payload < 2 ^ 32 }
    ensures { OnOk result (Appends (W.contents writer.old) (W.contents writer.new)
        (head_text message.now (request_head_of message.now.order message.now.payload))) }
{
    let octets = message.payload.as_slice();
    let (head, place) = match RequestHead::decode(alloc, &SliceOctets::new(octets), message.order) {
        Ok(decoded) => decoded,
        Err(fault) if fault.kind == CdrKind::NoMemory => return Err(Failure::Memory),
        Err(_) => return Ok(()),
    };
    let body = (12 + octets.len()).saturating_sub(place);
    writeln!(writer, "{}", HeadLine { head: &head, body })?;
    Ok(())
}

// The last line, where so many octets are left.
fn write_rest<W: Write>(rest: usize, writer: &mut W) -> Result<Status, Failure>
    ensures text { OnOk result
        (Appends (W.contents writer.old) (W.contents writer.new) (ended (rest_line rest))) }
    ensures ok { IfOk result (λ s. s ≡ (if rest == 0 then Status.Done else Status.Refused)) }
{
    writeln!(writer, "{}", RestLine(rest))?;
    Ok(if rest == 0 {
        Status::Done
    } else {
        Status::Refused
    })
}

// The last line, where the header at this offset has a fault.
fn write_fault<W: Write>(at: usize, fault: WireFault, writer: &mut W) -> Result<Status, Failure>
    ensures text { OnOk result
        (Appends (W.contents writer.old) (W.contents writer.new) (ended (fault_line at fault))) }
    ensures ok { IfOk result (λ s. (s ≡ Status.Refused) × (fault.kind ≢ NoMemory)) }
{
    if fault.kind == WireKind::NoMemory {
        return Err(Failure::Memory);
    }
    writeln!(writer, "{}", FaultLine { at, fault })?;
    Ok(Status::Refused)
}

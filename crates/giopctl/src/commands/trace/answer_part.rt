//! What a call came to, in its line.
ghost use Rattle.std.specs.Prelude.{◌^◌, ◌≤◌, length};

use crate::commands::call::table::brought_by;
use crate::failure::Failure;
use crate::lines::{CdrFaultText, CompletionText, EscapedText, HexText, MinorText};
use giop_cdr::{CdrIn, CdrKind, SliceOctets};
use giop_msg::{Kind, LocateReplyHead, Msg, Reply, ReplyBody, ReplyHead, Request};
use giop_types::Interface;
use std::alloc::Global;
use std::io::Write;

// The most octets of a message that are decoded.
const MOST: usize = 1 << 62;

/// Writes what the answer of a call is, by the Request that it answers, where that was decoded.
pub fn write_answer<W: Write>(
    alloc: Global,
    interface: &Interface,
    request: Option<&Request>,
    message: &Msg,
    writer: &mut W,
) -> Result<(), Failure> {
    if message.payload.len() > MOST {
        return Err(Failure::Memory);
    }
    match message.kind {
        Kind::Reply | Kind::LocateReply if message.more => {
            write_octets("Unfinished", message, writer)
        }
        Kind::Reply => write_reply(alloc, interface, request, message, writer),
        Kind::LocateReply => write_located(message, writer),
        _ => write_octets("Server", message, writer),
    }
}

fn write_octets<W: Write>(name: &str, message: &Msg, writer: &mut W) -> Result<(), Failure> {
    let octets = HexText(message.payload.as_slice());
    write!(writer, " {name} {} {octets}", message.kind)?;
    Ok(())
}

fn write_reply<W: Write>(
    alloc: Global,
    interface: &Interface,
    request: Option<&Request>,
    message: &Msg,
    writer: &mut W,
) -> Result<(), Failure>
    requires { length message.now.payload ≤ 2 ^ 62 }
{
    let joined = SliceOctets::new(message.payload.as_slice());
    let (version, order) = (message.version, message.order);
    match Reply::decode(alloc, interface, request, &joined, version, order) {
        Ok(reply) => write_body(alloc, interface, request, &reply.body, writer),
        Err(fault) if fault.kind == CdrKind::NoMemory => Err(Failure::Memory),
        Err(fault) => {
            write!(writer, " Undecoded reply {}", CdrFaultText(fault))?;
            write_exception(alloc, message, writer)?;
            write!(writer, " {}", HexText(message.payload.as_slice()))?;
            Ok(())
        }
    }
}

// What a Reply says: its status, and by that what it brought.
fn write_body<W: Write>(
    alloc: Global,
    interface: &Interface,
    request: Option<&Request>,
    body: &ReplyBody,
    writer: &mut W,
) -> Result<(), Failure> {
    if let ReplyBody::SystemException {
        id,
        minor,
        completion,
    } = body
    {
        let id = EscapedText(id.as_slice());
        let completion = CompletionText(*completion);
        write!(writer, " Done 2 {id} {} {completion}", MinorText(*minor))?;
        return Ok(());
    }
    let Some(request) = request else {
        return Ok(());
    };
    let brought = brought_by(alloc, interface, request, body)?;
    let brought = brought.as_str();
    match body {
        ReplyBody::NoException(_) => write!(writer, " Done 0 {brought}")?,
        ReplyBody::UserException { id, .. } => {
            write!(writer, " Done 1 {} {brought}", EscapedText(id.as_slice()))?
        }
        ReplyBody::SystemException { .. } => {}
        ReplyBody::Forward(_) => write!(writer, " Done 3 {brought}")?,
        ReplyBody::ForwardPerm(_) => write!(writer, " Done 4 {brought}")?,
        ReplyBody::NeedsAddressing(disposition) => write!(writer, " Done 5 {}", *disposition)?,
    }
    Ok(())
}

fn write_located<W: Write>(message: &Msg, writer: &mut W) -> Result<(), Failure>
    requires { length message.now.payload ≤ 2 ^ 62 }
{
    let joined = SliceOctets::new(message.payload.as_slice());
    match LocateReplyHead::view(&joined, message.version, message.order) {
        Ok((head, _)) => write!(writer, " LocateDone {}", head.status)?,
        Err(fault) => {
            let octets = HexText(message.payload.as_slice());
            write!(writer, " Undecoded reply {} {octets}", CdrFaultText(fault))?
        }
    }
    Ok(())
}

// Writes the repository id of the user exception that a Reply begins its body with, if it can be
// read.
fn write_exception<W: Write>(alloc: Global, message: &Msg, writer: &mut W) -> Result<(), Failure>
    requires { length message.now.payload ≤ 2 ^ 62 }
{
    let octets = message.payload.as_slice();
    let joined = SliceOctets::new(octets);
    let (status, place) = match ReplyHead::view(&joined, message.version, message.order) {
        Ok((head, place)) => (head.status, place),
        Err(_) => return Ok(()),
    };
    let body = match octets.get(place.saturating_sub(12)..) {
        Some(body) if body.len() <= MOST => SliceOctets::new(body),
        _ => return Ok(()),
    };
    // No number is aligned to more than 8.
    let mut input = CdrIn::new(&body, message.order, place % 8);
    match input.read_string(alloc, u32::MAX) {
        Ok(exception) if status == 1 => {
            write!(writer, " exception {}", EscapedText(exception.as_slice()))?
        }
        Err(fault) if fault.kind == CdrKind::NoMemory => return Err(Failure::Memory),
        _ => {}
    }
    Ok(())
}

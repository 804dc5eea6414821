//! What a call came to, in its line.

use crate::call::table::brought_by;
use crate::failure::Failure;
use crate::trace::answered::Answered;
use giop_cdr::CdrFault;
use giop_lines::{CdrFaultText, CompletionText, EscapedText, HexText, MinorText};
use giop_msg::{Msg, ReplyBody, Request};
use giop_types::{Interface, NumberForm};
use std::alloc::Global;
use std::io::Write;

/// Writes what the answer of a call is, by the Request that it answers, where that was decoded.
pub fn write_answer<W: Write>(
    alloc: Global,
    numbers: NumberForm,
    interface: &Interface,
    request: Option<&Request>,
    message: &Msg,
    answered: &Answered,
    writer: &mut W,
) -> Result<(), Failure> {
    match answered {
        Answered::Pieces => write_octets("Unfinished", message, writer),
        Answered::Reply(reply) => write_body(
            alloc,
            numbers,
            interface,
            request,
            &reply.body,
            writer,
        ),
        Answered::Located(status) => {
            write!(writer, " LocateDone {}", *status)?;
            Ok(())
        }
        Answered::Undecoded { fault, exception } => {
            write_undecoded(*fault, exception, message, writer)
        }
        Answered::Other => write_octets("Server", message, writer),
    }
}

fn write_octets<W: Write>(name: &str, message: &Msg, writer: &mut W) -> Result<(), Failure> {
    let octets = HexText(message.payload.as_slice());
    write!(writer, " {name} {} {octets}", message.kind)?;
    Ok(())
}

// What a Reply says: its status, and by that what it brought.
fn write_body<W: Write>(
    alloc: Global,
    numbers: NumberForm,
    interface: &Interface,
    request: Option<&Request>,
    body: &ReplyBody,
    writer: &mut W,
) -> Result<(), Failure> {
    if let ReplyBody::SystemException {
        id,
        minor,
        completion,
    } = body
    {
        let id = EscapedText(id.as_slice());
        let completion = CompletionText(*completion);
        write!(writer, " Done 2 {id} {} {completion}", MinorText(*minor))?;
        return Ok(());
    }
    let Some(request) = request else {
        return Ok(());
    };
    let brought = brought_by(alloc, numbers, interface, request, body)?;
    let brought = brought.as_str();
    match body {
        ReplyBody::NoException(_) => write!(writer, " Done 0 {brought}")?,
        ReplyBody::UserException { id, .. } => {
            write!(writer, " Done 1 {} {brought}", EscapedText(id.as_slice()))?
        }
        ReplyBody::SystemException { .. } => {}
        ReplyBody::Forward(_) => write!(writer, " Done 3 {brought}")?,
        ReplyBody::ForwardPerm(_) => write!(writer, " Done 4 {brought}")?,
        ReplyBody::NeedsAddressing(disposition) => write!(writer, " Done 5 {}", *disposition)?,
    }
    Ok(())
}

fn write_undecoded<W: Write>(
    fault: CdrFault,
    exception: &Option<Vec<u8>>,
    message: &Msg,
    writer: &mut W,
) -> Result<(), Failure> {
    write!(writer, " Undecoded reply {}", CdrFaultText(fault))?;
    if let Some(exception) = exception {
        write!(writer, " exception {}", EscapedText(exception.as_slice()))?;
    }
    write!(writer, " {}", HexText(message.payload.as_slice()))?;
    Ok(())
}

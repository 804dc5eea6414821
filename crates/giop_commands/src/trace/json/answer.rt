//! The answer of a call, in its JSON line.

use crate::call::table::brought_by;
use crate::failure::Failure;
use crate::trace::answered::Answered;
use crate::trace::json::{write_message, write_null};
use giop_cdr::CdrFault;
use giop_lines::{CdrFaultJson, HexJson, OutcomeJson, TextJson};
use giop_msg::{Msg, ReplyBody, Request};
use giop_types::{Interface, NumberForm};
use std::alloc::Global;
use std::io::Write;

/// Writes what the answer of a call is, by the Request that it answers, where that was decoded.
pub fn write_answer_json<W: Write>(
    alloc: Global,
    numbers: NumberForm,
    interface: &Interface,
    request: Option<&Request>,
    message: &Msg,
    answered: &Answered,
    writer: &mut W,
) -> Result<(), Failure> {
    match answered {
        Answered::Pieces => write_message("unfinished", message, writer),
        Answered::Reply(reply) => {
            write_body(alloc, numbers, interface, request, &reply.body, writer)
        }
        Answered::Located(status) => {
            write!(writer, "{{\"what\":\"located\",\"status\":{}}}", *status)?;
            Ok(())
        }
        Answered::Undecoded { fault, exception } => {
            write_undecoded(*fault, exception, message, writer)
        }
        Answered::Other => write_message("other", message, writer),
    }
}

// What a Reply says, and what it brought; null where that isn't known without its Request.
fn write_body<W: Write>(
    alloc: Global,
    numbers: NumberForm,
    interface: &Interface,
    request: Option<&Request>,
    body: &ReplyBody,
    writer: &mut W,
) -> Result<(), Failure> {
    if let ReplyBody::SystemException { .. } = body {
        return write_outcome(body, "", writer);
    }
    let Some(request) = request else {
        return write_null(writer);
    };
    let brought = brought_by(alloc, numbers, interface, request, body)?;
    write_outcome(body, brought.as_str(), writer)
}

// An object of what a Reply says, with its values as a JSON list or the text of its reference.
fn write_outcome<W: Write>(body: &ReplyBody, brought: &str, writer: &mut W) -> Result<(), Failure> {
    write!(writer, "{{\"what\":{}}}", OutcomeJson(body, brought))?;
    Ok(())
}

fn write_undecoded<W: Write>(
    fault: CdrFault,
    exception: &Option<Vec<u8>>,
    message: &Msg,
    writer: &mut W,
) -> Result<(), Failure> {
    write!(
        writer,
        "{{\"what\":\"undecoded\",\"fault\":{}",
        CdrFaultJson(fault)
    )?;
    if let Some(exception) = exception {
        write!(writer, ",\"exception\":{}", TextJson(exception.as_slice()))?;
    }
    write!(
        writer,
        ",\"octets\":{}}}",
        HexJson(message.payload.as_slice())
    )?;
    Ok(())
}

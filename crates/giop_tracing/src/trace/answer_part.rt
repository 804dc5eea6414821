//! What a call came to, in its line. Its text is `answer_text` in specs/Trace/Lines.antt: change
//! both.
ghost use Rattle.std.specs.Prelude.{Some, OnOk, option_copied};
ghost use Rattle.std.specs.Io.KnownBytes.{Appends};
ghost use Rattle.giop_tracing.specs.Trace.Lines.{answer_text, body_text, done_text, exception_text, named_text, undecoded_reply_text};

use crate::trace::answered::Answered;
use crate::trace::message_part::write_message;
use giop_call_lines::{CompletionText, ReplyText};
use giop_cdr::{CdrFault, OctetList};
use giop_json::NumberForm;
use giop_lines::{CdrFaultText, EscapedText, HexText, MinorText};
use giop_msg::{Completion, Msg, ReplyBody, Request};
use giop_show::bodies::brought_by;
use giop_show::failure::Failure;
use giop_types::Interface;
use std::alloc::Global;
use std::io::Write;

/// Writes what the answer of a call is, by the Request that it answers, where that was decoded.
pub fn write_answer<W: Write>(
    alloc: Global,
    numbers: NumberForm,
    interface: &Interface,
    request: Option<&Request>,
    message: &Msg,
    answered: &Answered,
    writer: &mut W,
) -> Result<(), Failure>
    ensures { OnOk result (Appends (W.contents writer.old) (W.contents writer.new)
        (answer_text numbers interface.now (option_copied request.entry) message.now
        answered.now)) }
{
    match answered {
        Answered::Pieces => write_message("Unfinished", message, writer),
        Answered::Reply(reply) => write_body(
            alloc,
            numbers,
            interface,
            request,
            &reply.body,
            writer,
        ),
        Answered::Located(status) => {
            write!(writer, " LocateDone {}", *status)?;
            Ok(())
        }
        Answered::Undecoded { fault, exception } => {
            write_undecoded(*fault, exception, message, writer)
        }
        Answered::Other => write_message("Server", message, writer),
    }
}

// What a Reply says: its status, and by that what it brought.
fn write_body<W: Write>(
    alloc: Global,
    numbers: NumberForm,
    interface: &Interface,
    request: Option<&Request>,
    body: &ReplyBody,
    writer: &mut W,
) -> Result<(), Failure>
    ensures { OnOk result (Appends (W.contents writer.old) (W.contents writer.new)
        (body_text numbers interface.now (option_copied request.entry) body.now)) }
{
    match (body, request) {
        (
            ReplyBody::SystemException {
                id,
                minor,
                completion,
            },
            _,
        ) => { write_exception(id, *minor, *completion, writer) }
        (_, Some(request)) => write_done(alloc, numbers, interface, request, body, writer),
        (_, None) => Ok(()),
    }
}

// A system exception, its minor code in hexadecimal too.
fn write_exception<W: Write>(
    id: &OctetList,
    minor: u32,
    completion: Completion,
    writer: &mut W,
) -> Result<(), Failure>
    ensures { OnOk result (Appends (W.contents writer.old) (W.contents writer.new)
        (exception_text id.now minor completion)) }
{
    let (id, completion) = (EscapedText(id.as_slice()), CompletionText(completion));
    write!(writer, " Done 2 {id} {} {completion}", MinorText(minor))?;
    Ok(())
}

// What a Reply brought to a Request that was decoded.
fn write_done<W: Write>(
    alloc: Global,
    numbers: NumberForm,
    interface: &Interface,
    request: &Request,
    body: &ReplyBody,
    writer: &mut W,
) -> Result<(), Failure>
    ensures { OnOk result (Appends (W.contents writer.old) (W.contents writer.new)
        (done_text numbers interface.now body.now (Some request.now))) }
{
    let brought = brought_by(alloc, numbers, interface, request, body)?;
    write!(writer, " Done {}", ReplyText(body, brought.as_str()))?;
    Ok(())
}

fn write_undecoded<W: Write>(
    fault: CdrFault,
    exception: &Option<OctetList>,
    message: &Msg,
    writer: &mut W,
) -> Result<(), Failure>
    ensures { OnOk result (Appends (W.contents writer.old) (W.contents writer.new)
        (undecoded_reply_text fault exception.now message.now)) }
{
    write!(writer, " Undecoded reply {}", CdrFaultText(fault))?;
    write_named(exception, writer)?;
    write!(writer, " {}", HexText(message.payload.as_slice()))?;
    Ok(())
}

// The user exception that a Reply names.
fn write_named<W: Write>(exception: &Option<OctetList>, writer: &mut W) -> Result<(), Failure>
    ensures { OnOk result (Appends (W.contents writer.old) (W.contents writer.new)
        (named_text exception.now)) }
{
    match exception {
        Some(exception) => write!(writer, " exception {}", EscapedText(exception.as_slice()))?,
        None => {}
    }
    Ok(())
}

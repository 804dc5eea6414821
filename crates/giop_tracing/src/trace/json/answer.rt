//! The answer of a call, in its JSON line. Its text is `answer_json` in specs/Trace/Json.antt:
//! change both.
ghost use Rattle.std.specs.Prelude.{OnOk, Some, option_copied};
ghost use Rattle.std.specs.Io.KnownBytes.{Appends};
ghost use Rattle.giop_tracing.specs.Trace.Json.{answer_json, body_json, done_json, named_json, result_json, undecoded_reply_json};

use crate::trace::answered::Answered;
use crate::trace::json::{write_message, write_null};
use giop_call_lines::OutcomeJson;
use giop_cdr::{CdrFault, OctetList};
use giop_json::NumberForm;
use giop_lines::{CdrFaultJson, HexJson, TextJson};
use giop_msg::{Msg, ReplyBody, Request};
use giop_show::bodies::brought_by;
use giop_show::failure::Failure;
use giop_types::Interface;
use std::alloc::Global;
use std::io::Write;

/// Writes what the answer of a call is, by the Request that it answers, where that was decoded.
pub fn write_answer_json<W: Write>(
    alloc: Global,
    numbers: NumberForm,
    interface: &Interface,
    request: Option<&Request>,
    message: &Msg,
    answered: &Answered,
    writer: &mut W,
) -> Result<(), Failure>
    ensures { OnOk result (Appends (W.contents writer.old) (W.contents writer.new)
        (answer_json numbers interface.now (option_copied request.entry) message.now
        answered.now)) }
{
    match answered {
        Answered::Pieces => write_message("unfinished", message, writer),
        Answered::Reply(reply) => {
            write_body(alloc, numbers, interface, request, &reply.body, writer)
        }
        Answered::Located(status) => {
            write!(writer, "{{\"what\":\"located\",\"status\":{}}}", *status)?;
            Ok(())
        }
        Answered::Undecoded { fault, exception } => {
            write_undecoded(*fault, exception, message, writer)
        }
        Answered::Other => write_message("other", message, writer),
    }
}

// What a Reply says, and what it brought; null where that isn't known without its Request.
fn write_body<W: Write>(
    alloc: Global,
    numbers: NumberForm,
    interface: &Interface,
    request: Option<&Request>,
    body: &ReplyBody,
    writer: &mut W,
) -> Result<(), Failure>
    ensures { OnOk result (Appends (W.contents writer.old) (W.contents writer.new)
        (body_json numbers interface.now (option_copied request.entry) body.now)) }
{
    match (body, request) {
        (ReplyBody::SystemException { .. }, _) => write_outcome(body, "", writer),
        (_, Some(request)) => write_result(alloc, numbers, interface, request, body, writer),
        (_, None) => write_null(writer),
    }
}

// What a Reply says to a Request that was decoded.
fn write_result<W: Write>(
    alloc: Global,
    numbers: NumberForm,
    interface: &Interface,
    request: &Request,
    body: &ReplyBody,
    writer: &mut W,
) -> Result<(), Failure>
    ensures { OnOk result (Appends (W.contents writer.old) (W.contents writer.new)
        (result_json numbers interface.now body.now (Some request.now))) }
{
    let brought = brought_by(alloc, numbers, interface, request, body)?;
    write_outcome(body, brought.as_str(), writer)
}

// An object of what a Reply says, with its values as a JSON list or the text of its reference.
fn write_outcome<W: Write>(body: &ReplyBody, brought: &str, writer: &mut W) -> Result<(), Failure>
    ensures { OnOk result (Appends (W.contents writer.old) (W.contents writer.new)
        (done_json body.now brought.now)) }
{
    write!(writer, "{{\"what\":{}}}", OutcomeJson(body, brought))?;
    Ok(())
}

fn write_undecoded<W: Write>(
    fault: CdrFault,
    exception: &Option<OctetList>,
    message: &Msg,
    writer: &mut W,
) -> Result<(), Failure>
    ensures { OnOk result (Appends (W.contents writer.old) (W.contents writer.new)
        (undecoded_reply_json fault exception.now message.now)) }
{
    let fault = CdrFaultJson(fault);
    write!(writer, "{{\"what\":\"undecoded\",\"fault\":{fault}")?;
    write_named(exception, writer)?;
    let octets = HexJson(message.payload.as_slice());
    write!(writer, ",\"octets\":{octets}}}")?;
    Ok(())
}

// The user exception that a Reply names.
fn write_named<W: Write>(exception: &Option<OctetList>, writer: &mut W) -> Result<(), Failure>
    ensures { OnOk result (Appends (W.contents writer.old) (W.contents writer.new)
        (named_json exception.now)) }
{
    match exception {
        Some(exception) => write!(writer, ",\"exception\":{}", TextJson(exception.as_slice()))?,
        None => {}
    }
    Ok(())
}

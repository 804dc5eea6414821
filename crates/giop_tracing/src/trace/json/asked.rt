//! What was asked, in the JSON line of a call. Its text is `asked_json` in specs/Trace/Json.antt:
//! change both.
ghost use Rattle.std.specs.Prelude.{OnOk};
ghost use Rattle.std.specs.Io.KnownBytes.{Appends};
ghost use Rattle.giop_tracing.specs.Trace.Json.{asked_json, request_json, unasked_json, undecoded_json};

use crate::trace::asked::{Asked, is_answer};
use crate::trace::json::{write_message, write_null, write_what};
use giop_json::NumberForm;
use giop_lines::{HexJson, RequestFaultJson, TargetJson, TextJson};
use giop_msg::{Msg, Request, RequestFault};
use giop_show::bodies::request_ins;
use giop_show::failure::Failure;
use giop_trace::Flow;
use giop_types::Interface;
use std::alloc::Global;
use std::io::Write;

/// Writes what was asked; null where a message of the server has no place in a call.
pub fn write_asked_json<W: Write>(
    alloc: Global,
    numbers: NumberForm,
    interface: &Interface,
    flow: &Flow,
    asked: &Asked,
    writer: &mut W,
) -> Result<(), Failure>
    ensures { OnOk result (Appends (W.contents writer.old) (W.contents writer.new)
        (asked_json numbers interface.now flow.now asked.now)) }
{
    match (asked, &flow.asked) {
        (Asked::Request(request), _) => {
            write_request(alloc, numbers, interface, request, writer)
        }
        (Asked::Locate(request), _) => {
            let target = TargetJson(&request.target);
            write!(writer, "{{\"what\":\"locate\",{target}}}")?;
            Ok(())
        }
        (Asked::Undecoded(fault), Some(message)) => write_undecoded(*fault, message, writer),
        (Asked::Pieces, Some(message)) => write_message("unfinished", message, writer),
        (_, Some(message)) => write_message("other", message, writer),
        (_, None) => write_unasked(&flow.answer, writer),
    }
}

fn write_request<W: Write>(
    alloc: Global,
    numbers: NumberForm,
    interface: &Interface,
    request: &Request,
    writer: &mut W,
) -> Result<(), Failure>
    ensures { OnOk result (Appends (W.contents writer.old) (W.contents writer.new)
        (request_json numbers interface.now request.now)) }
{
    let ins = request_ins(alloc, numbers, interface, request)?;
    let target = TargetJson(&request.head.target);
    let operation = TextJson(request.head.operation.as_slice());
    write!(
        writer,
        "{{\"what\":\"request\",{target},\"operation\":{operation},\"ins\":{}}}",
        ins.as_str()
    )?;
    Ok(())
}

// That no one asked for an answer.
fn write_unasked<W: Write>(answer: &Option<Msg>, writer: &mut W) -> Result<(), Failure>
    ensures { OnOk result (Appends (W.contents writer.old) (W.contents writer.new)
        (unasked_json answer.now)) }
{
    match answer {
        Some(message) if is_answer(message.kind) => write_what("nothing", writer),
        _ => write_null(writer),
    }
}

fn write_undecoded<W: Write>(
    fault: RequestFault,
    message: &Msg,
    writer: &mut W,
) -> Result<(), Failure>
    ensures { OnOk result (Appends (W.contents writer.old) (W.contents writer.new)
        (undecoded_json fault message.now)) }
{
    let fault = RequestFaultJson(fault);
    let octets = HexJson(message.payload.as_slice());
    write!(
        writer,
        "{{\"what\":\"undecoded\",{fault},\"octets\":{octets}}}"
    )?;
    Ok(())
}

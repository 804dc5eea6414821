//! What was asked, in the line of a call. Its text is `asked_text` in specs/Trace/Lines.antt:
//! change both.
ghost use Rattle.std.specs.Prelude.{OnOk};
ghost use Rattle.std.specs.Io.KnownBytes.{Appends};
ghost use Rattle.giop_tracing.specs.Trace.Lines.{asked_text, request_text, unasked_text, undecoded_text};

use crate::trace::asked::{Asked, is_answer};
use crate::trace::message_part::write_message;
use giop_json::NumberForm;
use giop_lines::{EscapedText, HexText, OwnTargetText, RequestFaultText};
use giop_msg::{Msg, Request, RequestFault};
use giop_show::bodies::request_ins;
use giop_show::failure::Failure;
use giop_trace::Flow;
use giop_types::Interface;
use std::alloc::Global;
use std::io::Write;

/// Writes what was asked.
pub fn write_asked<W: Write>(
    alloc: Global,
    numbers: NumberForm,
    interface: &Interface,
    flow: &Flow,
    asked: &Asked,
    writer: &mut W,
) -> Result<(), Failure>
    ensures { OnOk result (Appends (W.contents writer.old) (W.contents writer.new)
        (asked_text numbers interface.now flow.now asked.now)) }
{
    match (asked, &flow.asked) {
        (Asked::Request(request), _) => write_request(alloc, numbers, interface, request, writer),
        (Asked::Locate(request), _) => {
            write!(writer, " LocateAsked {}", OwnTargetText(&request.target))?;
            Ok(())
        }
        (Asked::Undecoded(fault), Some(message)) => write_undecoded(*fault, message, writer),
        (Asked::Pieces, Some(message)) => write_message("Unfinished", message, writer),
        (_, Some(message)) => write_message("Client", message, writer),
        (_, None) => write_unasked(&flow.answer, writer),
    }
}

// A Request or a LocateRequest that can't be decoded.
fn write_undecoded<W: Write>(
    fault: RequestFault,
    message: &Msg,
    writer: &mut W,
) -> Result<(), Failure>
    ensures { OnOk result (Appends (W.contents writer.old) (W.contents writer.new)
        (undecoded_text fault message.now)) }
{
    let octets = HexText(message.payload.as_slice());
    write!(writer, " Undecoded {} {octets}", RequestFaultText(fault))?;
    Ok(())
}

// That no one asked for an answer.
fn write_unasked<W: Write>(answer: &Option<Msg>, writer: &mut W) -> Result<(), Failure>
    ensures { OnOk result (Appends (W.contents writer.old) (W.contents writer.new)
        (unasked_text answer.now)) }
{
    match answer {
        Some(message) if is_answer(message.kind) => write!(writer, " Unasked")?,
        _ => {}
    }
    Ok(())
}

fn write_request<W: Write>(
    alloc: Global,
    numbers: NumberForm,
    interface: &Interface,
    request: &Request,
    writer: &mut W,
) -> Result<(), Failure>
    ensures { OnOk result (Appends (W.contents writer.old) (W.contents writer.new)
        (request_text numbers interface.now request.now)) }
{
    let ins = request_ins(alloc, numbers, interface, request)?;
    let target = OwnTargetText(&request.head.target);
    let operation = EscapedText(request.head.operation.as_slice());
    write!(writer, " Asked {target} {operation} {}", ins.as_str())?;
    Ok(())
}

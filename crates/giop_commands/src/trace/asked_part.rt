//! What was asked, in the line of a call.

use crate::failure::Failure;
use crate::serve::table::request_ins;
use crate::trace::asked::{Asked, is_answer};
use giop_lines::{EscapedText, HexText, OwnTargetText, RequestFaultText};
use giop_msg::{Msg, Request};
use giop_trace::Flow;
use giop_types::{Interface, NumberForm};
use std::alloc::Global;
use std::io::Write;

/// Writes what was asked.
pub fn write_asked<W: Write>(
    alloc: Global,
    numbers: NumberForm,
    interface: &Interface,
    flow: &Flow,
    asked: &Asked,
    writer: &mut W,
) -> Result<(), Failure> {
    match (asked, &flow.asked) {
        (Asked::Request(request), _) => write_request(alloc, numbers, interface, request, writer),
        (Asked::Locate(request), _) => {
            write!(writer, " LocateAsked {}", OwnTargetText(&request.target))?;
            Ok(())
        }
        (Asked::Undecoded(fault), Some(message)) => {
            let octets = HexText(message.payload.as_slice());
            write!(writer, " Undecoded {} {octets}", RequestFaultText(*fault))?;
            Ok(())
        }
        (Asked::Pieces, Some(message)) => {
            let octets = HexText(message.payload.as_slice());
            write!(writer, " Unfinished {} {octets}", message.kind)?;
            Ok(())
        }
        (_, Some(message)) => {
            let octets = HexText(message.payload.as_slice());
            write!(writer, " Client {} {octets}", message.kind)?;
            Ok(())
        }
        (_, None) => write_unasked(&flow.answer, writer),
    }
}

// That no one asked for an answer.
fn write_unasked<W: Write>(answer: &Option<Msg>, writer: &mut W) -> Result<(), Failure> {
    match answer {
        Some(message) if is_answer(message.kind) => write!(writer, " Unasked")?,
        _ => {}
    }
    Ok(())
}

fn write_request<W: Write>(
    alloc: Global,
    numbers: NumberForm,
    interface: &Interface,
    request: &Request,
    writer: &mut W,
) -> Result<(), Failure> {
    let ins = request_ins(alloc, numbers, interface, request)?;
    let target = OwnTargetText(&request.head.target);
    let operation = EscapedText(request.head.operation.as_slice());
    write!(writer, " Asked {target} {operation} {}", ins.as_str())?;
    Ok(())
}

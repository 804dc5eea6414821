//! The JSON line of a call (docs/FORMATS.md, "Lines of trace").

mod answer;
mod asked;

use crate::failure::Failure;
use crate::trace::asked::request_in;
use crate::trace::call_line::{Told, Unanswered};
use crate::trace::json::answer::write_answer_json;
use crate::trace::json::asked::write_asked_json;
use giop_lines::{HexJson, IdJson};
use giop_msg::Msg;
use giop_types::Interface;
use std::alloc::Global;
use std::io::Write;

/// Writes the line of a call: an object of its id, what was asked, and its outcome.
pub fn write_call_json<W: Write>(
    alloc: Global,
    interface: &Interface,
    told: Told<'_>,
    writer: &mut W,
) -> Result<(), Failure> {
    write!(writer, "{{\"id\":{},\"asked\":", IdJson(told.id))?;
    write_asked_json(
        alloc,
        told.numbers,
        interface,
        told.flow,
        told.asked,
        writer,
    )?;
    write!(writer, ",\"outcome\":")?;
    write_outcome(alloc, interface, told, writer)?;
    writeln!(writer, "}}")?;
    Ok(())
}

fn write_outcome<W: Write>(
    alloc: Global,
    interface: &Interface,
    told: Told<'_>,
    writer: &mut W,
) -> Result<(), Failure> {
    match (&told.flow.answer, told.answered) {
        (Some(message), Some(answered)) => {
            let request = request_in(told.asked);
            write_answer_json(
                alloc,
                told.numbers,
                interface,
                request,
                message,
                answered,
                writer,
            )
        }
        _ if !told.asked.is_call() => write_null(writer),
        _ if told.flow.cancelled => write_what("cancelled", writer),
        _ => write_unanswered(told.unanswered, writer),
    }
}

fn write_unanswered<W: Write>(unanswered: Unanswered, writer: &mut W) -> Result<(), Failure> {
    match unanswered {
        Unanswered::Oneway => write_what("oneway", writer),
        Unanswered::NoAnswer => write_what("no_answer", writer),
        Unanswered::Untold => write_null(writer),
    }
}

// Writes that nothing is told.
fn write_null<W: Write>(writer: &mut W) -> Result<(), Failure> {
    write!(writer, "null")?;
    Ok(())
}

// Writes an object that says what it is, and no more.
fn write_what<W: Write>(what: &str, writer: &mut W) -> Result<(), Failure> {
    write!(writer, "{{\"what\":\"{what}\"}}")?;
    Ok(())
}

// Writes a message that isn't decoded: its kind and its joined octets.
fn write_message<W: Write>(what: &str, message: &Msg, writer: &mut W) -> Result<(), Failure> {
    let octets = HexJson(message.payload.as_slice());
    let kind = message.kind;
    write!(
        writer,
        "{{\"what\":\"{what}\",\"message\":\"{kind}\",\"octets\":{octets}}}"
    )?;
    Ok(())
}

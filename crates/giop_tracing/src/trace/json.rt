//! The JSON line of a call (docs/FORMATS.md, "Lines of trace"). Its text is specs/Trace/Json.antt:
//! change both.
ghost use Rattle.std.specs.Prelude.{OnOk};
ghost use Rattle.std.specs.Io.KnownBytes.{Appends};
ghost use Rattle.giop_show.specs.Forms.{ended};
ghost use Rattle.giop_tracing.specs.Trace.Json.{message_json, null_json, open_json, outcome_of, told_json, what_json};

mod answer;
mod asked;

use crate::trace::asked::request_in;
use crate::trace::call_line::{Told, Unanswered};
use crate::trace::json::answer::write_answer_json;
use crate::trace::json::asked::write_asked_json;
use giop_lines::{HexJson, IdJson};
use giop_msg::Msg;
use giop_show::failure::Failure;
use giop_types::Interface;
use std::alloc::Global;
use std::io::Write;

/// Writes the line of a call: an object of its id, what was asked, and its outcome.
#[tactic(auto, unfolding(crate::specs::Trace::Json::parts_json))]
pub fn write_call_json<W: Write>(
    alloc: Global,
    interface: &Interface,
    told: &Told<'_>,
    writer: &mut W,
) -> Result<(), Failure>
    ensures { OnOk result (Appends (W.contents writer.old) (W.contents writer.new)
        (ended (told_json interface.now told.now))) }
{
    write!(writer, "{{\"id\":{},\"asked\":", IdJson(told.id))?;
    write_asked_json(
        alloc,
        told.numbers,
        interface,
        told.flow,
        told.asked,
        writer,
    )?;
    write!(writer, ",\"outcome\":")?;
    write_outcome(alloc, interface, told, writer)?;
    writeln!(writer, "}}")?;
    Ok(())
}

fn write_outcome<W: Write>(
    alloc: Global,
    interface: &Interface,
    told: &Told<'_>,
    writer: &mut W,
) -> Result<(), Failure>
    ensures { OnOk result (Appends (W.contents writer.old) (W.contents writer.new)
        (outcome_of told.now.numbers interface.now told.now.flow.now told.now.unanswered
        told.now.asked.now told.now.answered.now)) }
{
    match (&told.flow.answer, told.answered) {
        (Some(message), Some(answered)) => {
            let request = request_in(told.asked);
            write_answer_json(
                alloc,
                told.numbers,
                interface,
                request,
                message,
                answered,
                writer,
            )
        }
        _ => write_open(told, writer),
    }
}

// What is said of a call that has no answer.
fn write_open<W: Write>(told: &Told<'_>, writer: &mut W) -> Result<(), Failure>
    ensures { OnOk result (Appends (W.contents writer.old) (W.contents writer.new)
        (open_json told.now.unanswered told.now.flow.now told.now.asked.now)) }
{
    match told.unanswered {
        _ if !told.asked.is_call() => write_null(writer),
        _ if told.flow.cancelled => write_what("cancelled", writer),
        Unanswered::Oneway => write_what("oneway", writer),
        Unanswered::NoAnswer => write_what("no_answer", writer),
        Unanswered::Untold => write_null(writer),
    }
}

// Writes that nothing is told.
fn write_null<W: Write>(writer: &mut W) -> Result<(), Failure>
    ensures { OnOk result
        (Appends (W.contents writer.old) (W.contents writer.new) null_json) }
{
    write!(writer, "null")?;
    Ok(())
}

// Writes an object that says what it is, and no more.
fn write_what<W: Write>(what: &str, writer: &mut W) -> Result<(), Failure>
    ensures { OnOk result (Appends (W.contents writer.old) (W.contents writer.new)
        (what_json what.now)) }
{
    write!(writer, "{{\"what\":\"{what}\"}}")?;
    Ok(())
}

// Writes a message that isn't decoded: its kind and its joined octets.
fn write_message<W: Write>(what: &str, message: &Msg, writer: &mut W) -> Result<(), Failure>
    ensures { OnOk result (Appends (W.contents writer.old) (W.contents writer.new)
        (message_json what.now message.now)) }
{
    let octets = HexJson(message.payload.as_slice());
    let kind = message.kind;
    write!(
        writer,
        "{{\"what\":\"{what}\",\"message\":\"{kind}\",\"octets\":{octets}}}"
    )?;
    Ok(())
}

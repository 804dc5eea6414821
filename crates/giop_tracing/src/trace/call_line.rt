//! The line of a call, in text or in JSON. It is `call_line` in specs/Trace/Json.antt, of the texts
//! of specs/Trace/Lines.antt: change both.
ghost use Rattle.std.specs.Prelude.{◌≡◌, IfOk, OnOk, option_copied};
ghost use Rattle.std.specs.Io.KnownBytes.{Appends};
ghost use Rattle.giop_show.specs.Forms.{ended};
ghost use Rattle.giop_tracing.specs.Trace.Calls.{answered_of, asked_of, request_in};
ghost use Rattle.giop_tracing.specs.Trace.Json.{call_line, told_line};
ghost use Rattle.giop_tracing.specs.Trace.Lines.{open_text, told_text};

use crate::trace::answer_part::write_answer;
use crate::trace::answered::{Answered, answered_by};
use crate::trace::asked::{Asked, asked_of, request_in};
use crate::trace::asked_part::write_asked;
use crate::trace::json::write_call_json;
use crate::trace::usual_line::usual_line;
use giop_forms::LineForm;
use giop_json::NumberForm;
use giop_lines::IdText;
use giop_msg::{Msg, Request};
use giop_show::failure::Failure;
use giop_trace::Flow;
use giop_types::Interface;
use std::alloc::Global;
use std::io::Write;

/// What is said of a call that has no answer and wasn't cancelled.
#[derive(Clone, Copy, Debug, PartialEq, Eq)]
pub enum Unanswered {
    /// No reply is expected.
    Oneway,
    /// None came.
    NoAnswer,
    /// Nothing: the server isn't heard.
    Untold,
}

/// What is told of a call.
#[derive(Clone, Copy)]
pub struct Told<'a> {
    /// The form of whole numbers in its values.
    pub numbers: NumberForm,
    /// Its id, where it has one that can be read.
    pub id: Option<u32>,
    /// Its messages.
    pub flow: &'a Flow,
    /// What was asked.
    pub asked: &'a Asked,
    /// What its answer is, if it has one.
    pub answered: &'a Option<Answered>,
    /// What is said of it where it has none and wasn't cancelled.
    pub unanswered: Unanswered,
}

/// Writes the line of a call: its id, what was asked, and what it came to.
pub fn write_call<W: Write>(
    alloc: Global,
    interface: &Interface,
    form: LineForm,
    id: Option<u32>,
    flow: &Flow,
    unanswered: Unanswered,
    writer: &mut W,
) -> Result<(), Failure>
    ensures { OnOk result (Appends (W.contents writer.old) (W.contents writer.new)
        (ended (call_line form interface.now id flow.now unanswered))) }
{
    if let LineForm::Text(numbers) = form {
        if let Some(line) = usual_line(alloc, numbers, interface, id, flow)? {
            writer.write_all(line.as_bytes())?;
            return Ok(());
        }
    }
    write_any(alloc, interface, form, id, flow, unanswered, writer)
}

// What was asked by a call, and what its answer is, if it has one.
#[derive(Drop)]
struct Parts {
    asked: Asked,
    answered: Option<Answered>,
}

// Writes the line of any call.
#[inline(never)]
#[tactic(auto, unfolding(crate::specs::Trace::Lines::call_text, crate::specs::Trace::Json::call_json))]
fn write_any<W: Write>(
    alloc: Global,
    interface: &Interface,
    form: LineForm,
    id: Option<u32>,
    flow: &Flow,
    unanswered: Unanswered,
    writer: &mut W,
) -> Result<(), Failure>
    ensures { OnOk result (Appends (W.contents writer.old) (W.contents writer.new)
        (ended (call_line form interface.now id flow.now unanswered))) }
{
    let parts = parts_of(alloc, interface, flow)?;
    let told = Told {
        numbers: form.numbers(),
        id,
        flow,
        asked: &parts.asked,
        answered: &parts.answered,
        unanswered,
    };
    write_told(alloc, interface, form, &told, writer)
}

fn write_told<W: Write>(
    alloc: Global,
    interface: &Interface,
    form: LineForm,
    told: &Told<'_>,
    writer: &mut W,
) -> Result<(), Failure>
    ensures { OnOk result (Appends (W.contents writer.old) (W.contents writer.new)
        (ended (told_line form interface.now told.now))) }
{
    match form {
        LineForm::Text(_) => write_parts(alloc, interface, told, writer),
        LineForm::Json(_) => write_call_json(alloc, interface, told, writer),
    }
}

fn parts_of(alloc: Global, interface: &Interface, flow: &Flow) -> Result<Parts, Failure>
    ensures asked { IfOk result (λ parts. parts.asked ≡ asked_of interface.now flow.now.asked) }
    ensures answered { IfOk result (λ parts. parts.answered
        ≡ answered_of interface.now (request_in parts.asked) flow.now.answer) }
{
    let asked = asked_of(alloc, interface, &flow.asked)?;
    let answered = answered_of(alloc, interface, request_in(&asked), &flow.answer)?;
    Ok(Parts { asked, answered })
}

// What the answer of a call is, if it has one.
fn answered_of(
    alloc: Global,
    interface: &Interface,
    request: Option<&Request>,
    answer: &Option<Msg>,
) -> Result<Option<Answered>, Failure>
    ensures { IfOk result (λ answered. answered
        ≡ answered_of interface.now (option_copied request.entry) answer.now) }
{
    match answer {
        Some(message) => Ok(Some(answered_by(alloc, interface, request, message)?)),
        None => Ok(None),
    }
}

// The line of any call as text, part by part.
fn write_parts<W: Write>(
    alloc: Global,
    interface: &Interface,
    told: &Told<'_>,
    writer: &mut W,
) -> Result<(), Failure>
    ensures { OnOk result (Appends (W.contents writer.old) (W.contents writer.new)
        (ended (told_text interface.now told.now))) }
{
    let Told {
        numbers,
        flow,
        asked,
        ..
    } = *told;
    write!(writer, "{}", IdText(told.id))?;
    write_asked(alloc, numbers, interface, flow, asked, writer)?;
    match (&flow.answer, told.answered) {
        (Some(message), Some(answered)) => {
            let request = request_in(asked);
            write_answer(
                alloc, numbers, interface, request, message, answered, writer,
            )?
        }
        _ => write_open(told, writer)?,
    }
    writeln!(writer)?;
    Ok(())
}

// What is said of a call that has no answer.
fn write_open<W: Write>(told: &Told<'_>, writer: &mut W) -> Result<(), Failure>
    ensures { OnOk result (Appends (W.contents writer.old) (W.contents writer.new)
        (open_text told.now.unanswered told.now.flow.now told.now.asked.now)) }
{
    match told.unanswered {
        _ if !told.asked.is_call() => {}
        _ if told.flow.cancelled => write!(writer, " Cancelled")?,
        Unanswered::Oneway => write!(writer, " OnewaySent")?,
        Unanswered::NoAnswer => write!(writer, " NoAnswer")?,
        Unanswered::Untold => {}
    }
    Ok(())
}

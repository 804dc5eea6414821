//! The line of a call, in text or in JSON. It is `call_line` in specs/TracedJson.antt, of the texts of
//! specs/TracedLines.antt: change both.
ghost use Rattle.std.specs.Prelude.{◌≡◌, ◌++◌, IfOk, OnOk, codes, option_copied};
ghost use Rattle.std.specs.Io.KnownBytes.{Appends};
ghost use Rattle.giop_lines.specs.TraceLines.{call_id_text};
ghost use Rattle.giop_show.specs.Bodies.{brought_by};
ghost use Rattle.giop_show.specs.Dump.{ended};
ghost use Rattle.giop_show.specs.TracedCalls.{answered_of};
ghost use Rattle.giop_show.specs.TracedJson.{call_line};
ghost use Rattle.giop_show.specs.TracedLines.{open_text, parts_text, request_text};

use crate::bodies::{brought_by, request_ins};
use crate::failure::Failure;
use crate::form::LineForm;
use crate::trace::answer_part::write_answer;
use crate::trace::answered::{Answered, answered_by};
use crate::trace::asked::{Asked, asked_of, request_in};
use crate::trace::asked_part::write_asked;
use crate::trace::json::write_call_json;
use giop_lines::{EscapedText, IdText, OwnTargetText};
use giop_msg::{Msg, ReplyBody, Request};
use giop_trace::Flow;
use giop_types::{Interface, NumberForm};
use std::alloc::Global;
use std::io::Write;

/// What is said of a call that has no answer and wasn't cancelled.
#[derive(Clone, Copy, Debug, PartialEq, Eq)]
pub enum Unanswered {
    /// No reply is expected.
    Oneway,
    /// None came.
    NoAnswer,
    /// Nothing: the server isn't heard.
    Untold,
}

/// What is told of a call.
#[derive(Clone, Copy)]
pub struct Told<'a> {
    /// The form of whole numbers in its values.
    pub numbers: NumberForm,
    /// Its id, where it has one that can be read.
    pub id: Option<u32>,
    /// Its messages.
    pub flow: &'a Flow,
    /// What was asked.
    pub asked: &'a Asked,
    /// What its answer is, if it has one.
    pub answered: &'a Option<Answered>,
    /// What is said of it where it has none and wasn't cancelled.
    pub unanswered: Unanswered,
}

/// Writes the line of a call: its id, what was asked, and what it came to.
#[tactic(auto, unfolding(crate::specs::TracedLines::call_text, crate::specs::TracedJson::call_json))]
pub fn write_call<W: Write>(
    alloc: Global,
    interface: &Interface,
    form: LineForm,
    id: Option<u32>,
    flow: &Flow,
    unanswered: Unanswered,
    writer: &mut W,
) -> Result<(), Failure>
    ensures { OnOk result (Appends (W.contents writer.old) (W.contents writer.new)
        (ended (call_line form interface.now id flow.now unanswered))) }
{
    let asked = asked_of(alloc, interface, &flow.asked)?;
    let answered = answered_of(alloc, interface, request_in(&asked), &flow.answer)?;
    let told = Told {
        numbers: form.numbers(),
        id,
        flow,
        asked: &asked,
        answered: &answered,
        unanswered,
    };
    match form {
        LineForm::Text(_) => write_call_text(alloc, interface, &told, writer),
        LineForm::Json(_) => write_call_json(alloc, interface, &told, writer),
    }
}

// What the answer of a call is, if it has one.
#[inline(always)]
fn answered_of(
    alloc: Global,
    interface: &Interface,
    request: Option<&Request>,
    answer: &Option<Msg>,
) -> Result<Option<Answered>, Failure>
    ensures { IfOk result (λ answered. answered
        ≡ answered_of interface.now (option_copied request.entry) answer.now) }
{
    match answer {
        Some(message) => Ok(Some(answered_by(alloc, interface, request, message)?)),
        None => Ok(None),
    }
}

// The line of a call as text.
#[tactic(auto, using(crate::proofs::TracedLemmas::result_parts))]
fn write_call_text<W: Write>(
    alloc: Global,
    interface: &Interface,
    told: &Told<'_>,
    writer: &mut W,
) -> Result<(), Failure>
    ensures { OnOk result (Appends (W.contents writer.old) (W.contents writer.new)
        (ended (parts_text told.now.numbers interface.now told.now.id told.now.flow.now
        told.now.unanswered told.now.asked.now told.now.answered.now))) }
{
    if let (Asked::Request(request), Some(_), Some(Answered::Reply(reply))) = (
        told.asked,
        &told.flow.answer,
        told.answered,
    ) {
        if let ReplyBody::NoException(_) = &reply.body {
            return write_result(alloc, interface, told, request, &reply.body, writer);
        }
    }
    write_parts(alloc, interface, told, writer)
}

// The line of a call that brought its outs, as most do, at once: each part by itself takes longer.
fn write_result<W: Write>(
    alloc: Global,
    interface: &Interface,
    told: &Told<'_>,
    request: &Request,
    body: &ReplyBody,
    writer: &mut W,
) -> Result<(), Failure>
    ensures { OnOk result (Appends (W.contents writer.old) (W.contents writer.new)
        (ended (call_id_text told.now.id ++ (request_text told.now.numbers interface.now request.now
        ++ (codes " Done 0 " ++ brought_by told.now.numbers interface.now request.now body.now))))) }
{
    let ins = request_ins(alloc, told.numbers, interface, request)?;
    let outs = brought_by(alloc, told.numbers, interface, request, body)?;
    let (id, target) = (IdText(told.id), OwnTargetText(&request.head.target));
    let operation = EscapedText(request.head.operation.as_slice());
    writeln!(
        writer,
        "{id} Asked {target} {operation} {} Done 0 {}",
        ins.as_str(),
        outs.as_str()
    )?;
    Ok(())
}

// The line of any call, part by part.
#[inline(never)]
fn write_parts<W: Write>(
    alloc: Global,
    interface: &Interface,
    told: &Told<'_>,
    writer: &mut W,
) -> Result<(), Failure>
    ensures { OnOk result (Appends (W.contents writer.old) (W.contents writer.new)
        (ended (parts_text told.now.numbers interface.now told.now.id told.now.flow.now
        told.now.unanswered told.now.asked.now told.now.answered.now))) }
{
    let Told {
        numbers,
        flow,
        asked,
        ..
    } = *told;
    write!(writer, "{}", IdText(told.id))?;
    write_asked(alloc, numbers, interface, flow, asked, writer)?;
    match (&flow.answer, told.answered) {
        (Some(message), Some(answered)) => {
            let request = request_in(asked);
            write_answer(
                alloc, numbers, interface, request, message, answered, writer,
            )?
        }
        _ => write_open(told, writer)?,
    }
    writeln!(writer)?;
    Ok(())
}

// What is said of a call that has no answer.
fn write_open<W: Write>(told: &Told<'_>, writer: &mut W) -> Result<(), Failure>
    ensures { OnOk result (Appends (W.contents writer.old) (W.contents writer.new)
        (open_text told.now.unanswered told.now.flow.now told.now.asked.now)) }
{
    match told.unanswered {
        _ if !told.asked.is_call() => {}
        _ if told.flow.cancelled => write!(writer, " Cancelled")?,
        Unanswered::Oneway => write!(writer, " OnewaySent")?,
        Unanswered::NoAnswer => write!(writer, " NoAnswer")?,
        Unanswered::Untold => {}
    }
    Ok(())
}

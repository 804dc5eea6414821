//! The line of a call, in text or in JSON.

use crate::call::table::brought_by;
use crate::failure::Failure;
use crate::form::LineForm;
use crate::serve::table::request_ins;
use crate::trace::answer_part::write_answer;
use crate::trace::answered::{Answered, answered_by};
use crate::trace::asked::{Asked, asked_of, request_in};
use crate::trace::asked_part::write_asked;
use crate::trace::json::write_call_json;
use giop_lines::{EscapedText, IdText, OwnTargetText};
use giop_msg::{Msg, ReplyBody, Request};
use giop_trace::Flow;
use giop_types::{Interface, NumberForm};
use std::alloc::Global;
use std::io::Write;

/// What is said of a call that has no answer and wasn't cancelled.
#[derive(Clone, Copy, Debug, PartialEq, Eq)]
pub enum Unanswered {
    /// No reply is expected.
    Oneway,
    /// None came.
    NoAnswer,
    /// Nothing: the server isn't heard.
    Untold,
}

/// What is told of a call.
#[derive(Clone, Copy)]
pub struct Told<'a> {
    /// The form of whole numbers in its values.
    pub numbers: NumberForm,
    /// Its id, where it has one that can be read.
    pub id: Option<u32>,
    /// Its messages.
    pub flow: &'a Flow,
    /// What was asked.
    pub asked: &'a Asked,
    /// What its answer is, if it has one.
    pub answered: &'a Option<Answered>,
    /// What is said of it where it has none and wasn't cancelled.
    pub unanswered: Unanswered,
}

/// Writes the line of a call: its id, what was asked, and what it came to.
pub fn write_call<W: Write>(
    alloc: Global,
    interface: &Interface,
    form: LineForm,
    id: Option<u32>,
    flow: &Flow,
    unanswered: Unanswered,
    writer: &mut W,
) -> Result<(), Failure> {
    let asked = asked_of(alloc, interface, &flow.asked)?;
    let answered = answered_of(alloc, interface, request_in(&asked), &flow.answer)?;
    let told = Told {
        numbers: form.numbers(),
        id,
        flow,
        asked: &asked,
        answered: &answered,
        unanswered,
    };
    match form {
        LineForm::Text(_) => write_call_text(alloc, interface, told, writer),
        LineForm::Json(_) => write_call_json(alloc, interface, told, writer),
    }
}

// What the answer of a call is, if it has one.
#[inline(always)]
fn answered_of(
    alloc: Global,
    interface: &Interface,
    request: Option<&Request>,
    answer: &Option<Msg>,
) -> Result<Option<Answered>, Failure> {
    match answer {
        Some(message) => Ok(Some(answered_by(alloc, interface, request, message)?)),
        None => Ok(None),
    }
}

fn write_call_text<W: Write>(
    alloc: Global,
    interface: &Interface,
    told: Told<'_>,
    writer: &mut W,
) -> Result<(), Failure> {
    match (told.asked, told.answered) {
        (Asked::Request(request), Some(Answered::Reply(reply))) if is_result(&reply.body) => {
            write_result(alloc, interface, told, request, &reply.body, writer)
        }
        _ => write_parts(alloc, interface, told, writer),
    }
}

// Whether a Reply brought the outs of its operation.
fn is_result(body: &ReplyBody) -> bool {
    matches!(body, ReplyBody::NoException(_))
}

// The line of a call that brought its outs, as most do, at once: each part by itself takes longer.
fn write_result<W: Write>(
    alloc: Global,
    interface: &Interface,
    told: Told<'_>,
    request: &Request,
    body: &ReplyBody,
    writer: &mut W,
) -> Result<(), Failure> {
    let ins = request_ins(alloc, told.numbers, interface, request)?;
    let outs = brought_by(alloc, told.numbers, interface, request, body)?;
    let (id, target) = (IdText(told.id), OwnTargetText(&request.head.target));
    let operation = EscapedText(request.head.operation.as_slice());
    writeln!(
        writer,
        "{id} Asked {target} {operation} {} Done 0 {}",
        ins.as_str(),
        outs.as_str()
    )?;
    Ok(())
}

// The line of any call, part by part.
#[inline(never)]
fn write_parts<W: Write>(
    alloc: Global,
    interface: &Interface,
    told: Told<'_>,
    writer: &mut W,
) -> Result<(), Failure> {
    let Told {
        numbers,
        flow,
        asked,
        ..
    } = told;
    write!(writer, "{}", IdText(told.id))?;
    write_asked(alloc, numbers, interface, flow, asked, writer)?;
    match (&flow.answer, told.answered) {
        (Some(message), Some(answered)) => {
            let request = request_in(asked);
            write_answer(
                alloc, numbers, interface, request, message, answered, writer,
            )?
        }
        _ if !asked.is_call() => {}
        _ if flow.cancelled => write!(writer, " Cancelled")?,
        _ => write_unanswered(told.unanswered, writer)?,
    }
    writeln!(writer)?;
    Ok(())
}

fn write_unanswered<W: Write>(unanswered: Unanswered, writer: &mut W) -> Result<(), Failure> {
    match unanswered {
        Unanswered::Oneway => write!(writer, " OnewaySent")?,
        Unanswered::NoAnswer => write!(writer, " NoAnswer")?,
        Unanswered::Untold => {}
    }
    Ok(())
}

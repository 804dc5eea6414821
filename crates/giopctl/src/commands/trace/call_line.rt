//! The line of a call.

use crate::commands::trace::answer_part::write_answer;
use crate::commands::trace::asked_part::{asked_of, request_in, write_asked};
use crate::failure::Failure;
use crate::lines::IdText;
use giop_trace::Flow;
use giop_types::Interface;
use std::alloc::Global;
use std::io::Write;

/// What is said of a call that has no answer and wasn't cancelled.
#[derive(Clone, Copy, Debug, PartialEq, Eq)]
pub enum Unanswered {
    /// No reply is expected.
    Oneway,
    /// None came.
    NoAnswer,
    /// Nothing: the server isn't heard.
    Untold,
}

/// Writes the line of a call: its id, what was asked, and what it came to.
pub fn write_call<W: Write>(
    alloc: Global,
    interface: &Interface,
    id: Option<u32>,
    flow: &Flow,
    unanswered: Unanswered,
    writer: &mut W,
) -> Result<(), Failure> {
    let asked = asked_of(alloc, interface, &flow.asked)?;
    write!(writer, "{}", IdText(id))?;
    write_asked(alloc, interface, flow, &asked, writer)?;
    match &flow.answer {
        Some(answer) => write_answer(alloc, interface, request_in(&asked), answer, writer)?,
        None if !asked.is_call() => {}
        None if flow.cancelled => write!(writer, " Cancelled")?,
        None => write_unanswered(unanswered, writer)?,
    }
    writeln!(writer)?;
    Ok(())
}

fn write_unanswered<W: Write>(unanswered: Unanswered, writer: &mut W) -> Result<(), Failure> {
    match unanswered {
        Unanswered::Oneway => write!(writer, " OnewaySent")?,
        Unanswered::NoAnswer => write!(writer, " NoAnswer")?,
        Unanswered::Untold => {}
    }
    Ok(())
}

//! What stands at an end, and what it answered, as texts.

use crate::side::RowEnd;
use anyhow::{Result, bail};
use giop_calls::{ClientEntry, Late, Outcome, Question, ServerEntry};
use giop_msg::{Reply, ReplyBody, Request};
use giop_session::SessionFault;
use giop_session::laws::Answered;
use giop_types::Value;
use rows::number;
use std::alloc::{AllocError, Global};
use std::fmt::Write;

/// Whether a row asks an end something, and gives it nothing but what it wrote.
pub fn is_question(words: &[&str]) -> bool {
    matches!(
        words,
        ["table" | "outgoing" | "blocks" | "rest" | "error-message"] | ["outcome" | "wrote", _]
    )
}

/// What an end is asked.
pub fn question<E: RowEnd>(alloc: Global, end: &mut E, words: &[&str]) -> Result<String> {
    match words {
        ["table"] => Ok(table(alloc, end)?),
        ["outgoing"] => Ok(hex::encode(alloc, end.put_out())?),
        ["blocks"] => Ok(format!(in alloc; "{}", end.counts().0)?),
        ["rest"] => Ok(format!(in alloc; "{}", end.counts().1)?),
        ["error-message"] => Ok(error_message(alloc, end.error())?),
        ["outcome", id] => outcome(alloc, end, number(id)?),
        ["wrote", n] => {
            end.write_off(number(n)? as usize);
            Ok("done".to_string(alloc)?)
        }
        _ => bail!("no question"),
    }
}

fn outcome<E: RowEnd>(alloc: Global, end: &E, id: u32) -> Result<String> {
    let mut text = String::new(alloc);
    end.write_outcome(&mut text, id)?;
    Ok(text)
}

fn error_message(alloc: Global, octets: Option<[u8; 12]>) -> Result<String, AllocError> {
    match octets {
        Some(octets) => hex::encode(alloc, octets),
        None => "none".to_string(alloc),
    }
}

/// What was answered: `done`, the entry that was taken out, `nothing` where none stood there, or
/// the fault.
pub fn told<E: RowEnd>(alloc: Global, answered: &Answered<E::Entry>) -> Result<String> {
    let mut text = String::new(alloc);
    match answered {
        Answered::Done => text.push_str("done")?,
        Answered::Taken(None) => text.push_str("nothing")?,
        Answered::Taken(Some(entry)) => E::write_entry(&mut text, entry)?,
        Answered::Refused(fault) => write!(text, "{fault}")?,
    }
    Ok(text)
}

/// `done`, or the fault.
pub fn refusal(alloc: Global, answer: Result<(), SessionFault>) -> Result<String> {
    match answer {
        Ok(()) => Ok("done".to_string(alloc)?),
        Err(fault) => Ok(format!(in alloc; "{fault}")?),
    }
}

/// What is outgoing, in hexadecimal digits, with a semicolon behind it; nothing where nothing is.
/// It is written.
pub fn written<E: RowEnd>(alloc: Global, end: &mut E) -> Result<String> {
    if end.put_out().is_empty() {
        return Ok(String::new(alloc));
    }
    let mut text = hex::encode(alloc, end.put_out())?;
    text.push_str("; ")?;
    end.write_off(usize::MAX);
    Ok(text)
}

/// The entries, ascending by their ids, and then the fault that stands, or `open`.
pub fn table<E: RowEnd>(alloc: Global, end: &E) -> Result<String> {
    let mut text = String::new(alloc);
    end.write_table(alloc, &mut text)?;
    Ok(text)
}

/// The fault that stands, or `open`.
pub fn write_fault(text: &mut String, fault: Option<SessionFault>) -> Result<(), AllocError> {
    match fault {
        Some(fault) => write!(text, "{fault}"),
        None => text.push_str("open"),
    }
}

fn write_values(text: &mut String, values: &[Value]) -> Result<(), AllocError> {
    for value in values {
        match value {
            Value::Long(n) => write!(text, " {n}")?,
            Value::Items(items) => write!(text, " {} items", items.len())?,
            _ => text.push_str(" text")?,
        }
    }
    Ok(())
}

fn write_request(text: &mut String, request: &Request) -> Result<(), AllocError> {
    text.push_str(" ")?;
    for octet in request.head.operation.as_slice() {
        text.push(*octet as char)?;
    }
    write_values(text, request.body.as_slice())
}

fn write_reply(text: &mut String, reply: &Reply) -> Result<(), AllocError> {
    write!(text, " {}", reply.body.status())?;
    match &reply.body {
        ReplyBody::NoException(outs) => write_values(text, outs.as_slice()),
        _ => Ok(()),
    }
}

/// An entry of a client by its name, and what it holds.
pub fn write_client_entry(text: &mut String, entry: &ClientEntry) -> Result<(), AllocError> {
    match entry {
        ClientEntry::Sending { left, .. } => write!(text, "Sending {left}"),
        ClientEntry::Waiting { .. } => text.push_str("Waiting"),
        ClientEntry::Gathering { .. } => text.push_str("Gathering"),
        ClientEntry::Done { reply, .. } => {
            text.push_str("Done")?;
            write_reply(text, reply)
        }
        ClientEntry::LocateDone { reply, .. } => write!(text, "LocateDone {}", reply.head.status),
        ClientEntry::Undecoded { fault, .. } => write!(text, "Undecoded {fault}"),
        ClientEntry::OnewaySent { .. } => text.push_str("OnewaySent"),
        ClientEntry::Cancelled { late: Late::None } => text.push_str("Cancelled None"),
        ClientEntry::Cancelled { late: Late::Begun } => text.push_str("Cancelled Begun"),
        ClientEntry::Cancelled { late: Late::Seen } => text.push_str("Cancelled Seen"),
    }
}

/// An entry of a server likewise.
pub fn write_server_entry(text: &mut String, entry: &ServerEntry) -> Result<(), AllocError> {
    match entry {
        ServerEntry::Gathering { .. } => text.push_str("Gathering"),
        ServerEntry::Asked { request } => {
            text.push_str("Asked")?;
            write_request(text, request)
        }
        ServerEntry::Undecoded { .. } => text.push_str("Undecoded"),
        ServerEntry::LocateAsked { .. } => text.push_str("LocateAsked"),
        ServerEntry::Answered { asked, reply, left } => {
            text.push_str(match asked {
                Question::Request(_) => "Answered",
                Question::Undecoded(_) => "Undecoded answered",
            })?;
            write_reply(text, reply)?;
            write!(text, " left {left}")
        }
        ServerEntry::LocateAnswered { here: true, .. } => text.push_str("Here"),
        ServerEntry::LocateAnswered { here: false, .. } => text.push_str("Unknown"),
        ServerEntry::Delivered { request } => {
            text.push_str("Delivered")?;
            write_request(text, request)
        }
        ServerEntry::Cancelled { answered, left } => write!(text, "Cancelled {answered} {left}"),
    }
}

/// What a call came to; of a Reply its status and its outs.
pub fn write_outcome(
    text: &mut String,
    outcome: Option<Outcome<&Reply>>,
) -> Result<(), AllocError> {
    match outcome {
        None => text.push_str("absent"),
        Some(Outcome::Pending) => text.push_str("Pending"),
        Some(Outcome::Cancelled) => text.push_str("Cancelled"),
        Some(Outcome::OneWay) => text.push_str("OneWay"),
        Some(Outcome::Replied(reply)) => {
            text.push_str("Replied")?;
            write_reply(text, reply)
        }
        Some(Outcome::Located(status)) => write!(text, "Located {status}"),
        Some(Outcome::Undecoded) => text.push_str("Undecoded"),
    }
}

//! What stands at an end, and what a call of it told, as texts.
use giop_calls::{ClientEntry, Late, Outcome, Question, ServerEntry};
use giop_msg::{Reply, ReplyBody, Request};
use giop_session::{ClientEnd, End, Hearing, ServerEnd, SessionFault};
use giop_types::Value;
use std::alloc::{AllocError, Global};
use std::fmt::Write;

/// Nothing where a call was not refused, else its fault.
pub fn told(alloc: Global, told: Result<(), SessionFault>) -> Option<String> {
    let mut text = String::new(alloc);
    if let Err(fault) = told {
        write!(text, "{fault}").ok()?;
    }
    Some(text)
}

/// What is outgoing, in hexadecimal digits; it is written.
pub fn written<R: Hearing>(alloc: Global, end: &mut End<'_, R>) -> Option<String> {
    let text = hex::encode(alloc, end.outgoing()).ok()?;
    let n = end.outgoing().len();
    end.wrote(n);
    Some(text)
}

fn write_values(text: &mut String, values: &[Value]) -> Result<(), AllocError> {
    for value in values {
        match value {
            Value::Long(n) => write!(text, " {n}")?,
            Value::Items(items) => write!(text, " {} items", items.len())?,
            _ => text.push_str(" text")?,
        }
    }
    Ok(())
}

fn write_request(text: &mut String, request: &Request) -> Result<(), AllocError> {
    text.push_str(" ")?;
    for octet in request.head.operation.as_slice() {
        text.push(*octet as char)?;
    }
    write_values(text, request.body.as_slice())
}

fn write_reply(text: &mut String, reply: &Reply) -> Result<(), AllocError> {
    match &reply.body {
        ReplyBody::NoException(outs) => {
            text.push_str(" 0")?;
            write_values(text, outs.as_slice())
        }
        ReplyBody::UserException { .. } => text.push_str(" 1"),
        ReplyBody::SystemException { .. } => text.push_str(" 2"),
        ReplyBody::Forward(_) => text.push_str(" 3"),
        ReplyBody::ForwardPerm(_) => text.push_str(" 4"),
        ReplyBody::NeedsAddressing(_) => text.push_str(" 5"),
    }
}

/// An entry of a client by its name, and what it holds.
pub fn write_client_entry(text: &mut String, entry: &ClientEntry) -> Result<(), AllocError> {
    match entry {
        ClientEntry::Sending { left, .. } => write!(text, "Sending {left}"),
        ClientEntry::Waiting { .. } => text.push_str("Waiting"),
        ClientEntry::Gathering { .. } => text.push_str("Gathering"),
        ClientEntry::Done { reply, .. } => {
            text.push_str("Done")?;
            write_reply(text, reply)
        }
        ClientEntry::LocateDone { reply, .. } => write!(text, "LocateDone {}", reply.head.status),
        ClientEntry::Undecoded { fault, .. } => write!(text, "Undecoded {fault}"),
        ClientEntry::OnewaySent { .. } => text.push_str("OnewaySent"),
        ClientEntry::Cancelled { late: Late::None } => text.push_str("Cancelled None"),
        ClientEntry::Cancelled { late: Late::Begun } => text.push_str("Cancelled Begun"),
        ClientEntry::Cancelled { late: Late::Seen } => text.push_str("Cancelled Seen"),
    }
}

/// An entry of a server likewise.
pub fn write_server_entry(text: &mut String, entry: &ServerEntry) -> Result<(), AllocError> {
    match entry {
        ServerEntry::Gathering { .. } => text.push_str("Gathering"),
        ServerEntry::Asked { request } => {
            text.push_str("Asked")?;
            write_request(text, request)
        }
        ServerEntry::Undecoded { .. } => text.push_str("Undecoded"),
        ServerEntry::LocateAsked { .. } => text.push_str("LocateAsked"),
        ServerEntry::Answered { asked, reply, left } => {
            text.push_str(match asked {
                Question::Request(_) => "Answered",
                Question::Undecoded(_) => "Undecoded answered",
            })?;
            write_reply(text, reply)?;
            write!(text, " left {left}")
        }
        ServerEntry::LocateAnswered { here: true, .. } => text.push_str("Here"),
        ServerEntry::LocateAnswered { here: false, .. } => text.push_str("Unknown"),
        ServerEntry::Delivered { request } => {
            text.push_str("Delivered")?;
            write_request(text, request)
        }
        ServerEntry::Cancelled { answered, left } => write!(text, "Cancelled {answered} {left}"),
    }
}

/// The table of a client's end, and behind it the fault that stands, if one does.
pub fn client_table(alloc: Global, end: &ClientEnd<'_>) -> Option<String> {
    let mut text = client_entries(alloc, end)?;
    write_fault(&mut text, end.fault()).ok()?;
    Some(text)
}

/// The table alone.
pub fn client_entries(alloc: Global, end: &ClientEnd<'_>) -> Option<String> {
    let mut text = String::new(alloc);
    for id in end.ids(alloc).ok()? {
        if let Some(entry) = end.entry(id) {
            write!(text, "{id} ").ok()?;
            write_client_entry(&mut text, entry).ok()?;
            text.push_str(", ").ok()?;
        }
    }
    Some(text)
}

/// The table of a server's end likewise.
pub fn server_table(alloc: Global, end: &ServerEnd<'_>) -> Option<String> {
    let mut text = server_entries(alloc, end)?;
    write_fault(&mut text, end.fault()).ok()?;
    Some(text)
}

/// The table alone.
pub fn server_entries(alloc: Global, end: &ServerEnd<'_>) -> Option<String> {
    let mut text = String::new(alloc);
    for id in end.ids(alloc).ok()? {
        if let Some(entry) = end.entry(id) {
            write!(text, "{id} ").ok()?;
            write_server_entry(&mut text, entry).ok()?;
            text.push_str(", ").ok()?;
        }
    }
    Some(text)
}

fn write_fault(text: &mut String, fault: Option<SessionFault>) -> Result<(), AllocError> {
    match fault {
        Some(fault) => write!(text, "{fault}"),
        None => text.push_str("open"),
    }
}

fn write_outcome(text: &mut String, outcome: Outcome<&Reply>) -> Result<(), AllocError> {
    match outcome {
        Outcome::Pending => text.push_str("Pending"),
        Outcome::Cancelled => text.push_str("Cancelled"),
        Outcome::OneWay => text.push_str("OneWay"),
        Outcome::Replied(reply) => {
            text.push_str("Replied")?;
            write_reply(text, reply)
        }
        Outcome::Located(status) => write!(text, "Located {status}"),
        Outcome::Undecoded => text.push_str("Undecoded"),
    }
}

/// What a call came to; of a Reply its status and its outs.
pub fn shown_outcome(alloc: Global, outcome: Option<Outcome<&Reply>>) -> Option<String> {
    let mut text = String::new(alloc);
    match outcome {
        None => text.push_str("absent").ok()?,
        Some(outcome) => write_outcome(&mut text, outcome).ok()?,
    }
    Some(text)
}

//! What messages say, as texts.

use giop_msg::{Completion, Reply, ReplyBody, Request};
use giop_types::Value;
use std::alloc::{AllocError, Global};
use std::fmt::Write;

/// `ID flags FLAGS OPERATION contexts COUNT` and the ins.
pub fn request_text(alloc: Global, request: &Request) -> Result<String, AllocError> {
    let head = &request.head;
    let mut text = format!(in alloc; "{} flags {} ", head.id, head.flags)?;
    write_octets(&mut text, head.operation.as_slice())?;
    write!(text, " contexts {}", head.contexts.len())?;
    write_values(&mut text, request.body.as_slice())?;
    Ok(text)
}

/// `ID contexts COUNT STATUS`, and what the body holds.
pub fn reply_text(alloc: Global, reply: &Reply) -> Result<String, AllocError> {
    let status = reply.body.status();
    let mut text = format!(in alloc; "{} contexts {} {status}", reply.id, reply.contexts.len())?;
    match &reply.body {
        ReplyBody::NoException(outs) => write_values(&mut text, outs.as_slice())?,
        ReplyBody::UserException { id, members } => {
            text.push_str(" ")?;
            write_octets(&mut text, id.as_slice())?;
            write_values(&mut text, members.as_slice())?;
        }
        ReplyBody::SystemException {
            id,
            minor,
            completion,
        } => {
            text.push_str(" ")?;
            write_octets(&mut text, id.as_slice())?;
            write!(text, " {minor} {}", completion_word(*completion))?;
        }
        ReplyBody::NeedsAddressing(disposition) => write!(text, " {disposition}")?,
        ReplyBody::Forward(_) | ReplyBody::ForwardPerm(_) => {}
    }
    Ok(text)
}

fn completion_word(completion: Completion) -> &'static str {
    match completion {
        Completion::Yes => "yes",
        Completion::No => "no",
        Completion::Maybe => "maybe",
    }
}

fn write_octets(text: &mut String, octets: &[u8]) -> Result<(), AllocError> {
    for octet in octets {
        text.push(*octet as char)?;
    }
    Ok(())
}

fn write_values(text: &mut String, values: &[Value]) -> Result<(), AllocError> {
    for value in values {
        match value {
            Value::Octet(n) => write!(text, " octet {n}")?,
            Value::Long(n) => write!(text, " long {n}")?,
            Value::LongLong(n) => write!(text, " longlong {n}")?,
            Value::Text(octets) => {
                text.push_str(" text ")?;
                write_octets(text, octets.as_slice())?;
            }
            _ => text.push_str(" other")?,
        }
    }
    Ok(())
}

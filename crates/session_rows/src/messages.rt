//! Requests and replies, by the words of a row.

use crate::words::{text, version};
use anyhow::{Result, bail};
use giop_cdr::OctetList;
use giop_msg::{
    Completion, LocateRequest, Reply, ReplyBody, Request, RequestHead, ServiceContexts, Target,
};
use giop_types::{Value, ValueList};
use rows::number;
use std::alloc::{AllocError, Global};

/// A Request of the object with the key `6b`, without contexts: its version, id, flags and
/// operation, and its ins.
pub fn request(alloc: Global, head: [&str; 4], ins: &[&str]) -> Result<Request> {
    let [of, id, flags, operation] = head;
    let Ok(flags) = flags.parse::<u8>() else {
        bail!("no flags: {flags}");
    };
    let head = RequestHead {
        version: version(of)?,
        id: number(id)?,
        flags,
        target: target(alloc)?,
        operation: text(alloc, operation)?,
        contexts: ServiceContexts::new(alloc),
    };
    let body = values(alloc, ins)?;
    Ok(Request { head, body })
}

/// A LocateRequest of the same object.
pub fn locate_request(alloc: Global, of: &str, id: &str) -> Result<LocateRequest> {
    Ok(LocateRequest {
        version: version(of)?,
        id: number(id)?,
        target: target(alloc)?,
    })
}

/// A Reply without contexts: `outs VALUE..`, `system EXCEPTION`, `user EXCEPTION` or
/// `address DISPOSITION`.
pub fn reply(alloc: Global, of: &str, id: &str, body: &[&str]) -> Result<Reply> {
    Ok(Reply {
        version: version(of)?,
        id: number(id)?,
        contexts: ServiceContexts::new(alloc),
        body: reply_body(alloc, body)?,
    })
}

fn target(alloc: Global) -> Result<Target, AllocError> {
    Ok(Target::Key(OctetList::from_slice(alloc, b"k")?))
}

// An exception of the broker has the minor code 0, and isn't completed; one of the interface has no
// members.
fn reply_body(alloc: Global, words: &[&str]) -> Result<ReplyBody> {
    Ok(match words {
        ["outs", outs @ ..] => ReplyBody::NoException(values(alloc, outs)?),
        ["system", id] => ReplyBody::SystemException {
            id: text(alloc, id)?,
            minor: 0,
            completion: Completion::No,
        },
        ["user", id] => ReplyBody::UserException {
            id: text(alloc, id)?,
            members: ValueList::new(alloc),
        },
        ["address", disposition] => match disposition.parse::<i16>() {
            Ok(disposition) => ReplyBody::NeedsAddressing(disposition),
            Err(_) => bail!("no disposition: {disposition}"),
        },
        _ => bail!("no reply"),
    })
}

// Values, a word each.
fn values(alloc: Global, words: &[&str]) -> Result<ValueList> {
    let mut values = Vec::new(alloc);
    for word in words {
        values.push(value(alloc, word)?)?;
    }
    Ok(ValueList::from(values))
}

// A long; `"` and a text; or `[`, longs with commas between them, and `]`: a sequence.
fn value(alloc: Global, word: &str) -> Result<Value> {
    if let Some(octets) = word.strip_prefix('"') {
        return Ok(Value::Text(text(alloc, octets)?));
    }
    match word.strip_prefix('[') {
        Some(items) => Ok(Value::Items(longs(alloc, items)?)),
        None => long(word),
    }
}

fn longs(alloc: Global, word: &str) -> Result<Vec<Value>> {
    let Some(items) = word.strip_suffix(']') else {
        bail!("no sequence: [{word}");
    };
    let mut values = Vec::new(alloc);
    for item in items.split(',') {
        values.push(long(item)?)?;
    }
    Ok(values)
}

fn long(word: &str) -> Result<Value> {
    match word.parse::<i32>() {
        Ok(long) => Ok(Value::Long(long)),
        Err(_) => bail!("no value: {word}"),
    }
}

//! Messages of a stream, messages that are cut, and request ids.

use crate::names::{kind, version};
use anyhow::Result;
use giop_cdr::{OctetList, Order};
use giop_msg::{Framer, Header, Msg, can_cut, cut, read_pieces};
use rows::{is_first, number, octets, order};
use std::alloc::{AllocError, Global};
use std::fmt::Write;

/// The next message of a framer, `none`, or the fault. Its memory serves the one behind it.
pub fn next(alloc: Global, framer: &mut Framer) -> Result<String> {
    match framer.next() {
        Ok(Some(message)) => {
            let text = message_text(alloc, &message)?;
            framer.reuse(message);
            Ok(text)
        }
        Ok(None) => Ok("none".to_string(alloc)?),
        Err(fault) => Ok(format!(in alloc; "{fault}")?),
    }
}

/// All messages that are there at the front of a framer, and `none` behind them or the fault.
pub fn take(alloc: Global, framer: &mut Framer) -> Result<String> {
    let mut messages = Vec::new(alloc);
    let outcome = framer.take_messages(&mut messages);
    let mut text = messages_text(alloc, messages.as_slice())?;
    match outcome {
        Ok(()) => text.push_str("none")?,
        Err(fault) => write!(text, "{fault}")?,
    }
    Ok(text)
}

/// What a stream has that comes in two pieces: its messages, and how many octets are left behind
/// them, or the fault.
pub fn split(alloc: Global, front: &str, back: &str) -> Result<String> {
    let (front, back) = (octets(alloc, front)?, octets(alloc, back)?);
    let reading = read_pieces(alloc, 1024, &[front.as_slice(), back.as_slice()])?;
    let mut text = messages_text(alloc, reading.messages.as_slice())?;
    match reading.fault {
        None => write!(text, "{} left", reading.framer.rest())?,
        Some(fault) => write!(text, "{fault}")?,
    }
    Ok(text)
}

fn messages_text(alloc: Global, messages: &[Msg]) -> Result<String> {
    let mut text = String::new(alloc);
    for message in messages {
        write!(text, "{}, ", message_text(alloc, message)?)?;
    }
    Ok(text)
}

/// The octets of a header, by the words version, order, `more` or `whole`, kind and size.
pub fn header(alloc: Global, words: [&str; 5]) -> Result<String> {
    let [of_version, of_order, more, of_kind, size] = words;
    let header = Header {
        version: version(of_version)?,
        order: order(of_order)?,
        more: is_first(more, "more", "whole")?,
        kind: kind(of_kind)?,
        size: number(size)?,
    };
    Ok(hex::encode(alloc, header.octets())?)
}

// `KIND MINOR ORDER more ID PAYLOAD`.
fn message_text(alloc: Global, message: &Msg) -> Result<String> {
    let mut text = String::new(alloc);
    write!(text, "{} 1.{}", message.kind, message.version.minor())?;
    text.push_str(match message.order {
        Order::Big => " big",
        Order::Little => " little",
    })?;
    if message.more {
        text.push_str(" more")?;
    }
    let id = id_text(alloc, message)?;
    write!(text, " id {id}; ")?;
    match message.payload.is_empty() {
        true => text.push_str("-")?,
        false => text.push_str(hex::encode(alloc, message.payload.as_slice())?.as_str())?,
    }
    Ok(text)
}

fn id_text(alloc: Global, message: &Msg) -> Result<String, AllocError> {
    if message.payload.len() > 1 << 30 {
        return "large".to_string(alloc);
    }
    match message.request_id() {
        None => "none".to_string(alloc),
        Some(Ok(id)) => format!(in alloc; "{id}"),
        Some(Err(fault)) => format!(in alloc; "{fault}"),
    }
}

/// The messages that a message is cut into, with spaces between them; `none` where it can't be.
pub fn cut_octets(alloc: Global, of: [&str; 3], piece: u32, digits: &str) -> Result<String> {
    let [of_version, of_kind, of_order] = of;
    let joined = octets(alloc, digits)?;
    let of_kind = kind(of_kind)?;
    if !can_cut(of_kind, joined.as_slice(), piece) {
        return Ok("none".to_string(alloc)?);
    }
    let messages = cut(
        alloc,
        version(of_version)?,
        of_kind,
        order(of_order)?,
        joined.as_slice(),
        piece,
    )?;
    let mut text = String::new(alloc);
    for message in &messages {
        if message.payload.len() < 1 << 32 {
            let header = message.header().octets();
            let payload = hex::encode(alloc, message.payload.as_slice())?;
            text.push_str(if text.is_empty() { "" } else { " " })?;
            write!(text, "{}{payload}", hex::encode(alloc, header)?)?;
        }
    }
    Ok(text)
}

/// The request id of a message by the octets behind its header, big-endian; `none` where it has
/// none, or the fault.
pub fn id(alloc: Global, of_version: &str, of_kind: &str, digits: &str) -> Result<String> {
    let message = Msg {
        version: version(of_version)?,
        order: Order::Big,
        more: false,
        kind: kind(of_kind)?,
        payload: OctetList::from(octets(alloc, digits)?),
    };
    Ok(id_text(alloc, &message)?)
}
